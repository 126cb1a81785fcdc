//! What people are told of a report that is refused.

use crate::flaws::flaw_of;
use crate::other_input::{OtherInput, other_input};
use crate::reports::words;
use program_frame::{Shown, tell_hint, tell_sentence};
use std::alloc::{AllocError, Global};
use std::io::Write;
use text_parts::whole_lines;

/// Tells that the input is one of `workload`, not its report, if it is.
pub(crate) fn tell_other_input<E: Write>(input: &[u8], errors: &mut E) {
    let told = match other_input(input) {
        Some(OtherInput::Schedule) => {
            "this is a schedule; run workload on it and give timeline its report"
        }
        Some(OtherInput::Script) => {
            "this is a script, which has no report; give timeline the report of a schedule"
        }
        None => return,
    };
    let _ = writeln!(errors, "timeline: {told}");
}

/// What is wrong with a line that is not the call of this number. None: its number.
fn flaw_in(alloc: Global, number: usize, line: &[u8]) -> Result<Option<&'static str>, AllocError> {
    let words = words(alloc, line)?;
    Ok(flaw_of(number, &words))
}

/// Explains why the line of this number, from 1, is refused: its bytes, and what it should be.
pub(crate) fn explain<E: Write>(alloc: Global, number: usize, input: &[u8], errors: &mut E) {
    let before = number.saturating_sub(1);
    let line = whole_lines(input).nth(before).unwrap_or(b"");
    let text = Shown(line);
    let _ = writeln!(errors, "  line {number}: {text}");
    tell_sentence(
        "A line is not the call of a report that should stand there.",
        errors,
    );
    match flaw_in(alloc, before, line) {
        Ok(None) => {
            let _ = writeln!(
                errors,
                "  hint: it should be call {before}: a line a call, numbered from 0 without leading zeros"
            );
        }
        Ok(hint) => tell_hint(hint, errors),
        Err(_) => {}
    }
}
