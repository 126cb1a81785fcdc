//! What people are told of a fault, in lines that begin with two spaces.

use crate::fault::{LineCode, LineFault, ScheduleFault};
use crate::schedule::{Order, order_of};
use crate::script::WorkFault;
use crate::statement::{Statement, marked, read_parts};
use program_frame::{Shown, catalogue_faults, first_word, tell_hint, tell_sentence};
use std::alloc::Global;
use std::io::Write;
use step_core::StepError;
use text_parts::{is_same, whole_lines};

fn line_sentence(code: LineCode) -> &'static str {
    match code {
        LineCode::C1 => catalogue_faults::NO_LINE,
        LineCode::C2 => catalogue_faults::SECOND_MODULE,
        LineCode::C3 => catalogue_faults::SECOND_EXPORT,
        LineCode::C4 => catalogue_faults::TOO_MANY,
        LineCode::H1 =>
            "A line has no form, or another line should stand there, or a number is out of its range.",
        LineCode::H2 => "The module is not in the catalogue.",
        LineCode::H3 => "There are more than 1,000,000 steps.",
    }
}

fn step_sentence(cause: StepError) -> &'static str {
    match cause {
        StepError::Thread => "The thread is out of range. The first thread is 0.",
        StepError::Worker => "The worker is out of range. The first worker is 0.",
        StepError::Slot => "The slot is out of range.",
        StepError::Calls => "There are too many calls.",
    }
}

/// How many lines of the input stand before the text in which the code counts lines: the catalogue, or the whole input.
fn lines_before(code: LineCode, input: &[u8]) -> usize {
    match code {
        LineCode::C1 | LineCode::C2 | LineCode::C3 | LineCode::C4 => whole_lines(input)
            .position(|line| is_same(line, b"%catalogue"))
            .map_or(0, |before| before.saturating_add(1)),
        LineCode::H1 | LineCode::H2 | LineCode::H3 => 0,
    }
}

/// The line of this number, from 1.
fn line_at(input: &[u8], number: usize) -> Option<&[u8]> {
    whole_lines(input).nth(number.checked_sub(1)?)
}

/// Tells a line of the input.
fn tell_line<E: Write>(number: usize, line: &[u8], errors: &mut E) {
    let text = Shown(line);
    let _ = writeln!(errors, "  line {number}: {text}");
}

/// Whether a word begins a line of a script.
fn is_of_script(word: &[u8]) -> bool {
    let words: [&[u8]; 5] = [b"load", b"remove", b"drain", b"finish", b"keep"];
    marked(b'w', word).is_some() || words.iter().any(|own| is_same(word, own))
}

/// Whether a word begins a setting.
fn is_setting(word: &[u8]) -> bool {
    is_same(word, b"workers") || is_same(word, b"threads")
}

fn schedule_hint(word: &[u8]) -> &'static str {
    if is_of_script(word) {
        "this is a line of a script: is --threads missing?"
    } else if marked(b't', word).is_some() {
        "a line of a thread is go, go N with N from 1 to 1000000, or a call, as begin_load NAME, end_load NAME ok or get W NAME"
    } else {
        "a schedule is %catalogue, a catalogue, %schedule, workers N, threads N, both from 1 to 64, and lines of threads, as t0 go"
    }
}

fn script_hint(word: &[u8]) -> &'static str {
    if marked(b't', word).is_some() {
        "this is a line of a schedule: is --threads too much?"
    } else if is_same(word, b"keep") {
        "keep has one name, as finish, and stands alone before all lines of workers; W is below N"
    } else if is_of_script(word) {
        "load, remove, drain and finish have one name, and stand alone before all lines of workers; W is below N; w0 may also get, put and query"
    } else {
        "a script is %catalogue, a catalogue, %script, workers N, from 1 to 64, and lines, as load NAME or w0 get NAME"
    }
}

/// What an end line of a catalogue is.
const END: &str =
    "end N is the last line of a catalogue that begins with version 3, and N modules stand before it: was that cut or changed?";

/// Whether a line of the input before this one begins with this word.
fn is_behind(input: &[u8], number: usize, word: &[u8]) -> bool {
    let mut before = whole_lines(input).take(number.saturating_sub(1));
    before.any(|line| is_same(first_word(line), word))
}

/// What is likely wrong with a line of this number that is refused with this code, if it is an end line or one behind it.
fn end_hint(code: LineCode, input: &[u8], number: usize, word: &[u8]) -> Option<&'static str> {
    let is_of_end = is_same(word, b"end") || is_behind(input, number, b"end");
    if matches!(code, LineCode::C1) && is_of_end {
        Some(END)
    } else {
        None
    }
}

/// Whether the input may be cut in its catalogue, of version 3, before this line or in it: no line feed ends the input, no
/// line of it begins with `end`, and it has no further section.
fn may_be_cut(input: &[u8], number: usize) -> bool {
    let mut count: usize = 0;
    let mut is_third = false;
    for line in whole_lines(input) {
        let word = first_word(line);
        if is_same(word, b"end") || line.first() == Some(&b'%') && !is_same(line, b"%catalogue") {
            return false;
        }
        // (of the versions 3 alone has this digit)
        is_third |= is_same(word, b"version") && line.contains(&b'3');
        count = count.saturating_add(1);
    }
    is_third && number >= count && input.last() != Some(&b'\n')
}

/// What is likely wrong with a line that is refused with this code.
fn hint_of(threads: bool, code: LineCode, word: &[u8]) -> Option<&'static str> {
    match code {
        LineCode::C1 if is_setting(word) || is_of_script(word) || marked(b't', word).is_some() => {
            Some("is the line %schedule, or %script with --threads, missing before it?")
        }
        LineCode::C1 if word.first() == Some(&b'%') => {
            Some("a section line is %schedule, or %script with --threads, and nothing else")
        }
        LineCode::C4 => Some("a catalogue that begins with version 3 holds 65,535 modules"),
        LineCode::H1 if threads => Some(script_hint(word)),
        LineCode::H1 => Some(schedule_hint(word)),
        _ => None,
    }
}

fn explain_line<E: Write>(threads: bool, fault: LineFault, input: &[u8], errors: &mut E) {
    let number = lines_before(fault.code, input).saturating_add(fault.line);
    let line = line_at(input, number);
    match line {
        Some(line) => tell_line(number, line, errors),
        None => {
            let _ = writeln!(errors, "  line {number}: the input ends before it");
        }
    }
    tell_sentence(line_sentence(fault.code), errors);
    let word = first_word(line.unwrap_or(b""));
    let likely = hint_of(threads, fault.code, word);
    let hint = likely.or(end_hint(fault.code, input, number, word));
    tell_hint(hint, errors);
    if may_be_cut(input, number) {
        let cut = "the catalogue may be cut: no line feed ends it, and no line begins with end";
        tell_hint(Some(cut), errors);
    }
}

/// How many steps the words of a statement are.
fn steps_in(words: &[&[u8]]) -> usize {
    match order_of(words.get(1..).unwrap_or(&[])) {
        Some(Order::Go(count)) => count,
        _ => 1,
    }
}

/// The number of the line of the step of this index, among statements that are steps.
fn line_of_step(statements: &[Statement<'_>], index: usize) -> Option<usize> {
    let mut left = index;
    for said in statements {
        let count = steps_in(&said.words);
        if left < count {
            return Some(said.number);
        }
        left -= count;
    }
    None
}

fn explain_step<E: Write>(
    alloc: Global,
    index: usize,
    cause: StepError,
    input: &[u8],
    errors: &mut E,
) {
    if let Ok(parts) = read_parts(alloc, b"%schedule", input) {
        // The first two statements are the settings.
        let steps = parts.statements.get(2..).unwrap_or(&[]);
        if let Some(number) = line_of_step(steps, index) {
            tell_line(number, line_at(input, number).unwrap_or(b""), errors);
        }
    }
    tell_sentence(step_sentence(cause), errors);
}

/// Explains why an input has no report, or no script: the line, what is wrong with it, and what may have been meant.
pub(crate) fn explain<E: Write>(
    alloc: Global,
    threads: bool,
    fault: ScheduleFault,
    input: &[u8],
    errors: &mut E,
) {
    match fault {
        ScheduleFault::Line(fault) => explain_line(threads, fault, input, errors),
        ScheduleFault::Step { index, cause } => explain_step(alloc, index, cause, input, errors),
        ScheduleFault::Memory => {}
    }
}

/// Explains why a script was not run to its end.
pub(crate) fn explain_work<E: Write>(fault: WorkFault, errors: &mut E) {
    let sentence = match fault {
        WorkFault::Memory => "There was no memory.",
        WorkFault::Spawn => "A thread of a script could not be started.",
        WorkFault::Gate => "A line of a worker was not let begin.",
    };
    tell_sentence(sentence, errors);
}
