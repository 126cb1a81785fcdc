//! The program over any input and output.
ghost use Rattle.std.specs.Prelude.{◌≤◌, All};
ghost use Rattle.root_row.specs.Seats.{IsOf};
ghost use Rattle.managed_table.specs.Callers.{IsCallerOf};

use crate::asked::{Asked, asked_by};
use crate::explain::{explain, explain_work};
use crate::fault::ScheduleFault;
use crate::schedule::report;
use crate::script::{Numbering, OpenGate, Replies, Script, WorkFault, read_script, run_managed};
use managed_table::{Caller, ManagedTable};
use program_frame::{InputFault, Status, StreamFault, end_by, tell_no_input, write_text};
use std::alloc::{AllocError, Global};
use std::io::{Read, Write};
use std::rt::Files;
use std::sync::Wait;
use std::thread::Threads;
use thiserror::Error;
use use_indicator::Reader;

/// Why the program wrote nothing, or not all.
#[derive(Clone, Copy, Debug, Drop, Error)]
enum Fault {
    #[error("{0}")]
    Read(#[from] InputFault),
    #[error("{0}")]
    Write(#[from] StreamFault),
    #[error("out of memory")]
    Memory(#[from] AllocError),
    #[error("{0}")]
    Input(#[from] ScheduleFault),
    #[error("{0}")]
    Work(#[from] WorkFault),
}

fn status_of(fault: Fault) -> Status {
    match fault {
        Fault::Read(fault) => fault.status(),
        Fault::Input(ScheduleFault::Line(_) | ScheduleFault::Step { .. }) => Status::Refused,
        _ => Status::Fault,
    }
}

/// What the workers of a script come to on a table, after their replies if these are asked for.
fn text_on<R: AllocGlobal + Threads + Wait + Sync>(
    rt: &R,
    asked: Option<Numbering>,
    script: &Script,
    table: &ManagedTable,
    caller: &mut Caller,
    readers: Vec<Reader>,
) -> Result<Vec<u8>, Fault>
    requires own { IsCallerOf table.now caller.old }
    requires readers { All (IsOf table.now.row) readers.items }
{
    let catalogue = script.catalogue();
    let Some(numbering) = asked else {
        return Ok(run_managed(rt, catalogue, table, caller, readers, script, &OpenGate)?);
    };
    let replies = Replies::new(rt.alloc(), script)?;
    let left = run_managed(rt, catalogue, table, caller, readers, script, &replies)?;
    let mut text = replies.text(rt.alloc(), script, numbering)?;
    text.extend_from_slice(&left)?;
    Ok(text)
}

/// The same of the script that an input is, on a managed table of its own.
fn script_text<R: AllocGlobal + Threads + Wait + Sync>(
    rt: &R,
    asked: Option<Numbering>,
    input: &[u8],
) -> Result<Vec<u8>, Fault> {
    let script = read_script(rt.alloc(), input)?;
    let (table, mut caller, readers) = ManagedTable::new(
        rt.alloc(),
        script.catalogue(),
        script.workers(),
    )?;
    text_on(rt, asked, &script, &table, &mut caller, readers)
}

/// Reads the input and writes its report, or what its script comes to on threads.
fn write_answer<R: AllocGlobal + Files + Threads + Wait + Sync, I: Read, O: Write>(
    rt: &R,
    asked: Asked<'_>,
    reader: &mut I,
    input: &mut Vec<u8>,
    writer: &mut O,
) -> Result<(), Fault> {
    *input = asked.source.read(rt, reader)?;
    let text = if asked.threads {
        script_text(rt, asked.replies, input)?
    } else {
        report(rt.alloc(), input)?
    };
    write_text(&text, writer)?;
    Ok(())
}

/// Tells a fault in one line, and then for people, if that is asked for.
fn tell<E: Write>(alloc: Global, asked: Asked<'_>, fault: Fault, input: &[u8], errors: &mut E) {
    if let Fault::Read(fault) = fault {
        return tell_no_input("workload", asked.source, fault, errors);
    }
    let _ = writeln!(errors, "workload: {fault}");
    match fault {
        Fault::Input(fault) if asked.explain => explain(alloc, asked.threads, fault, input, errors),
        Fault::Work(fault) if asked.explain => explain_work(fault, errors),
        _ => {}
    }
}

/// Reads the input and writes what it comes to. A fault is reported.
fn answer<R: AllocGlobal + Files + Threads + Wait + Sync, I: Read, O: Write, E: Write>(
    rt: &R,
    asked: Asked<'_>,
    reader: &mut I,
    writer: &mut O,
    errors: &mut E,
) -> Status {
    let mut input = Vec::new(rt.alloc());
    match write_answer(rt, asked, reader, &mut input, writer) {
        Ok(()) => Status::Done,
        Err(fault) => {
            tell(rt.alloc(), asked, fault, &input, errors);
            status_of(fault)
        }
    }
}

/// Runs the program on these words, the first of which is its own name, and answers its status: 0 if the report, or
/// with `--threads` what the script comes to, was written, 2 if an argument, the file or the input is refused, 3 for a
/// fault. The input is the file that a word names, else that of `reader`. What is refused, and what failed, is said on
/// `errors`; help goes to `writer`.
pub fn drive<R: AllocGlobal + Files + Threads + Wait + Sync, I: Read, O: Write, E: Write>(
    rt: &R,
    words: &[String],
    reader: &mut I,
    writer: &mut O,
    errors: &mut E,
) -> u8
    ensures { result ≤ 3 }
{
    let status = match asked_by(rt.alloc(), words) {
        Ok(asked) => answer(rt, asked, reader, writer, errors),
        Err(error) => end_by("workload", &error, writer, errors),
    };
    status.number()
}
