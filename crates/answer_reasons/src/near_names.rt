//! Names that are nearly the same.
ghost use Rattle.std.specs.Prelude.{◌≡◌, IfOk};
ghost use Rattle.answer_reasons.specs.NearNames.{is_mark, letters_of, lower, nearness_by_letters};

use std::alloc::{AllocError, Global};
use text_parts::is_same;

/// How near a name is to another one.
#[derive(Clone, Copy, PartialEq, Eq)]
pub(crate) enum Nearness {
    Same,
    /// The same but for case, and for `-` and `_`.
    SameLetters,
    /// One slip of a writer away.
    OneSlip,
}

/// All of them, the nearest first.
pub(crate) const NEAREST_FIRST: [Nearness; 3] = [
    Nearness::Same,
    Nearness::SameLetters,
    Nearness::OneSlip,
];

fn is_mark(byte: u8) -> bool
    ensures { result ≡ is_mark byte }
{
    byte == b'-' || byte == b'_'
}

/// A small letter for a capital one.
fn lower(byte: u8) -> u8
    ensures { result ≡ lower byte }
{
    if b'A' <= byte && byte <= b'Z' {
        byte + 32
    } else {
        byte
    }
}

/// A name without case and marks.
fn letters_of(alloc: Global, name: &[u8]) -> Result<Vec<u8>, AllocError>
    ensures { IfOk result (λ letters. letters.items ≡ letters_of name.now) }
{
    let mut letters = Vec::new(alloc);
    for byte in name {
        if !is_mark(*byte) {
            letters.push(lower(*byte))?;
        }
    }
    Ok(letters)
}

/// How near names are, if they have the same letters.
fn nearness_by_letters(
    alloc: Global,
    name: &[u8],
    other: &[u8],
) -> Result<Option<Nearness>, AllocError>
    ensures { IfOk result (λ found. found ≡ nearness_by_letters name.now other.now) }
{
    if is_same(name, other) {
        return Ok(Some(Nearness::Same));
    }
    let letters = letters_of(alloc, name)?;
    if is_same(&letters, &letters_of(alloc, other)?) {
        Ok(Some(Nearness::SameLetters))
    } else {
        Ok(None)
    }
}

/// What is left of two names without what they begin with together.
fn without_beginning<'a>(name: &'a [u8], other: &'a [u8]) -> (&'a [u8], &'a [u8]) {
    let mut left = name;
    let mut right = other;
    'bytes: while let Some((byte, later)) = left.split_first() {
        match right.split_first() {
            Some((same, others)) if *byte == *same => {
                left = later;
                right = others;
            }
            _ => return (left, right),
        }
    }
    (left, right)
}

/// What is left of two names without what they end with together.
fn without_end<'a>(name: &'a [u8], other: &'a [u8]) -> (&'a [u8], &'a [u8]) {
    let mut left = name;
    let mut right = other;
    'bytes: while let Some((byte, before)) = left.split_last() {
        match right.split_last() {
            Some((same, others)) if *byte == *same => {
                left = before;
                right = others;
            }
            _ => return (left, right),
        }
    }
    (left, right)
}

/// Whether two names of three bytes or more differ in one byte that is left out, added or another, or in two that have
/// changed places.
fn is_near(name: &[u8], other: &[u8]) -> bool {
    if name.len() < 3 || other.len() < 3 {
        return false;
    }
    let (left, right) = without_beginning(name, other);
    match without_end(left, right) {
        ([first, second], [third, fourth]) => *first == *fourth && *second == *third,
        (left, right) => left.len() <= 1 && right.len() <= 1,
    }
}

/// How near names are, if they are near. It fails only if memory runs out.
pub(crate) fn nearness_of(
    alloc: Global,
    name: &[u8],
    other: &[u8],
) -> Result<Option<Nearness>, AllocError> {
    if let Some(nearness) = nearness_by_letters(alloc, name, other)? {
        return Ok(Some(nearness));
    }
    Ok(if is_near(name, other) {
        Some(Nearness::OneSlip)
    } else {
        None
    })
}
