//! What is wrong with a line of a report.

use crate::entries::{after, call_of, effect_of, last_of, marked_of};
use crate::numbers::{index_of, thread_of};
use text_parts::is_same;

const THREAD: &str = "after the number stands the thread, t0 to t63";

const MARKS: &str = "after the call stands: first A last B point P reply R, and nothing after that";

/// Whether a word begins a line that `workload` writes of a script.
fn is_of_script(word: &[u8]) -> bool {
    let is_worker = matches!(word, [b'w', digit, ..] if digit.is_ascii_digit());
    is_worker || is_same(word, b"calls") || is_same(word, b"opening")
}

/// What is wrong with the words after a call.
fn flaw_of_times(words: &[&[u8]]) -> &'static str {
    let Some(marked) = marked_of(words) else {
        return MARKS;
    };
    let has_steps = index_of(marked.first).is_some() && last_of(marked.last).is_some();
    if !has_steps || last_of(marked.point).is_none() {
        return "A, B and P are 0 to 999999 without leading zeros; - stands for a B or a P that the call has not";
    }
    if effect_of(marked.point, marked.reply).is_none() {
        return "R is ok, yes, no or the name of a refusal; P and R are both -, or neither is";
    }
    "the point lies from the first step to the last, and a call with a last step has a point"
}

/// What is wrong with the words after the number of a call.
fn flaw_of_call(words: &[&[u8]]) -> &'static str {
    let Some((thread, call)) = words.split_first() else {
        return THREAD;
    };
    if thread_of(*thread).is_none() {
        return THREAD;
    }
    match call_of(call) {
        Some(said) => flaw_of_times(said.later),
        None =>
            "after the thread stands a call, as begin_load NAME, end_load NAME ok or get W NAME: W is 0 to 63, and NAME has _ for each -",
    }
}

/// What is wrong with a line of these words, which is not the call of this number. None: its number.
pub(crate) fn flaw_of(number: usize, words: &[&[u8]]) -> Option<&'static str> {
    let head = words.first().copied().unwrap_or(b"");
    if is_of_script(head) {
        return Some(
            "this is what workload --threads writes: timeline draws the report of a schedule",
        );
    }
    if words.len() > 1 && words.iter().any(|word| word.is_empty()) {
        return Some("single spaces divide the words, and none stands before or after them");
    }
    let Some(found) = after(b"call", words) else {
        return Some("a line is: call N tT CALL first A last B point P reply R");
    };
    match index_of(found.value) {
        Some(own) if own as usize == number => Some(flaw_of_call(found.later)),
        _ => None,
    }
}
