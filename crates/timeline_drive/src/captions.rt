//! The texts of calls.

use crate::entries::{Effect, Entry};
use std::alloc::{AllocError, Global};

/// A call, and its words as a report has them.
#[derive(Drop)]
pub(crate) struct Call<'e> {
    pub(crate) entry: Entry<'e>,
    pub(crate) words: Vec<u8>,
}

fn words_of(alloc: Global, entry: &Entry<'_>) -> Result<Vec<u8>, AllocError> {
    let mut words = Vec::new(alloc);
    entry.verb.push(&mut words, entry.name)?;
    Ok(words)
}

/// The calls of these entries.
pub(crate) fn calls_of<'e>(
    alloc: Global,
    entries: &[Entry<'e>],
) -> Result<Vec<Call<'e>>, AllocError> {
    let mut calls = Vec::new(alloc);
    for entry in entries {
        let words = words_of(alloc, entry)?;
        calls.push(Call {
            entry: *entry,
            words,
        })?;
    }
    Ok(calls)
}

/// What a call answers, or that it has not yet.
pub(crate) fn reply_text(effect: Option<Effect>) -> &'static str {
    match effect {
        Some(effect) => effect.reply.text(),
        None => "pending",
    }
}

/// How many letters the words of a call may have in a label of so many, which has the reply too.
pub(crate) fn caption_room(letters_of_label: u32, reply: &str) -> u32 {
    letters_of_label
        .saturating_sub(letters(reply.as_bytes()))
        .saturating_sub(2)
}

/// Whether a call was refused at its point.
pub(crate) fn is_refused(entry: &Entry<'_>) -> bool {
    matches!(entry.effect, Some(effect) if effect.reply.is_refusal())
}

/// How many letters a text has.
pub(crate) fn letters(text: &[u8]) -> u32 {
    u32::try_from(text.len()).unwrap_or(u32::MAX)
}

/// How many digits a number has.
pub(crate) fn digits(number: u32) -> u32 {
    number.checked_ilog10().unwrap_or(0).saturating_add(1)
}
