//! The program over any input and output.
ghost use Rattle.std.specs.Prelude.{◌≤◌};

use crate::asked::{Asked, asked_by};
use crate::captions::calls_of;
use crate::explain::{explain, tell_other_input};
use crate::reports::{ReportFault, read_report};
use crate::svg::svg_text;
use crate::terminal::terminal_text;
use program_frame::{Status, end_by, tell_no_input, write_text};
use std::alloc::Global;
use std::io::{Read, Write};
use std::rt::Files;

/// The picture of the report that an input is.
fn picture(alloc: Global, in_letters: bool, input: &[u8]) -> Result<String, ReportFault> {
    let calls = calls_of(alloc, &read_report(alloc, input)?)?;
    let text = if in_letters {
        terminal_text(alloc, &calls)
    } else {
        svg_text(alloc, &calls)
    };
    Ok(text?)
}

/// Tells why an input has no picture in one line, and then for people. Answers how the program ends.
fn tell<E: Write>(
    alloc: Global,
    explains: bool,
    fault: ReportFault,
    input: &[u8],
    errors: &mut E,
) -> Status {
    let _ = writeln!(errors, "timeline: {fault}");
    let ReportFault::Line(number) = fault else {
        return Status::Fault;
    };
    tell_other_input(input, errors);
    if explains {
        explain(alloc, number, input, errors);
    }
    Status::Refused
}

/// Draws the report that an input is. A fault is reported.
fn draw<O: Write, E: Write>(
    alloc: Global,
    asked: Asked<'_>,
    input: &[u8],
    writer: &mut O,
    errors: &mut E,
) -> Status {
    let text = match picture(alloc, asked.in_letters, input) {
        Ok(text) => text,
        Err(fault) => return tell(alloc, asked.explain, fault, input, errors),
    };
    let Err(fault) = write_text(text.as_bytes(), writer) else {
        return Status::Done;
    };
    let _ = writeln!(errors, "timeline: {fault}");
    Status::Fault
}

/// Reads a report and draws it. A fault is reported.
fn answer<R: AllocGlobal + Files, I: Read, O: Write, E: Write>(
    rt: &R,
    asked: Asked<'_>,
    reader: &mut I,
    writer: &mut O,
    errors: &mut E,
) -> Status {
    match asked.source.read(rt, reader) {
        Ok(input) => draw(rt.alloc(), asked, &input, writer, errors),
        Err(fault) => {
            tell_no_input("timeline", asked.source, fault, errors);
            fault.status()
        }
    }
}

/// Runs the program on these words, the first of which is its own name, and answers its status: 0 if the picture was
/// written, 2 if an argument, the file or the report is refused, 3 for a fault. The report is the file that a word
/// names, else that of `reader`. What is refused, and what failed, is said on `errors`; help and the version go to
/// `writer`.
pub fn drive<R: AllocGlobal + Files, I: Read, O: Write, E: Write>(
    rt: &R,
    words: &[String],
    reader: &mut I,
    writer: &mut O,
    errors: &mut E,
) -> u8
    ensures { result ≤ 3 }
{
    let status = match asked_by(rt.alloc(), words) {
        Ok(asked) => answer(rt, asked, reader, writer, errors),
        Err(error) => end_by("timeline", &error, writer, errors),
    };
    status.number()
}
