//! How a pattern is read from its text. Reading takes no memory.
ghost use Rattle.std.specs.Prelude.{◌≡◌, ◌≤◌, ◌∷◌, length, false, Ok, Err, IfOk, MatchOption, MatchResult};
ghost use Rattle.std.specs.List.{prefix_len};
ghost use Rattle.alias_match.specs.Reading.{BeginsPlainly, HasItem, HasMembers, IsPattern, Reads, closes, class_mark, is_plain, letter, member};
ghost use Rattle.alias_match.specs.Reading.{members_of, negates, after_sign, range, plain_item, undashed};
ghost use Rattle.alias_match.specs.ForProofs.{piece};

use crate::item::{ByteRange, Item, Set};
use std::alloc::{AllocError, AllocFailed};
use thiserror::Error;

/// Why a text is no pattern.
#[derive(Clone, Copy, Debug, PartialEq, Eq, Drop, Error)]
pub enum PatternError {
    /// It ends in a set.
    #[error("a set has no end")]
    Unclosed,
    /// A member of a set begins as a class of characters does.
    #[error("a set names a class of characters")]
    Class,
    /// Its last byte is a backslash that takes no byte.
    #[error("a backslash ends the pattern")]
    Backslash,
    /// Memory ran out.
    #[error("out of memory")]
    Memory,
}

impl From<AllocError> for PatternError {
    ghost use Rattle.alias_match.specs.declared.read.PatternError.TheVariants.{Memory};

    ghost from_gives = { λ _ e. e ≡ Memory };

    fn from(_error: AllocError) -> PatternError {
        PatternError::Memory
    }
}

impl<T: Drop> From<AllocFailed<T>> for PatternError {
    ghost use Rattle.alias_match.specs.declared.read.PatternError.TheVariants.{Memory};

    ghost from_gives = { λ _ e. e ≡ Memory };

    fn from(_error: AllocFailed<T>) -> PatternError {
        PatternError::Memory
    }
}

/// A byte as it stands, or one that a backslash takes as itself.
#[derive(Clone, Copy)]
pub(crate) struct Letter {
    pub byte: u8,
    pub escaped: bool,
}

#[inline(always)]
fn next_letter(first: u8, rest: &[u8]) -> Result<(Letter, &[u8]), PatternError>
    ensures value { MatchResult result
        (λ x. letter first rest.entry.now ≡ Ok (x.0, x.1.now))
        (λ e. letter first rest.entry.now ≡ Err e) }
    ensures shorter { IfOk result (λ x. length x.1.now ≤ length rest.entry.now) }
{
    match rest.split_first() {
        Some((byte, after)) if first == b'\\' => Ok((
            Letter {
                byte: *byte,
                escaped: true,
            },
            after,
        )),
        None if first == b'\\' => Err(PatternError::Backslash),
        _ => Ok((
            Letter {
                byte: first,
                escaped: false,
            },
            rest,
        )),
    }
}

#[inline(always)]
fn begins_class(text: &[u8]) -> bool
    ensures { result ≡ class_mark text.now }
{
    match text.split_first() {
        Some((byte, _)) => *byte == b':' || *byte == b'.' || *byte == b'=',
        None => false,
    }
}

/// What follows the end of a set, if the text begins with it.
#[inline(always)]
pub(crate) fn after_end(text: &[u8]) -> Option<&[u8]>
    ensures { MatchOption result
        (closes text.entry.now ≡ false)
        (λ rest. text.entry.now ≡ 93 ∷ rest.now) }
{
    match text.split_first() {
        Some((byte, rest)) if *byte == b']' => Some(rest),
        _ => None,
    }
}

#[inline(always)]
fn next_range(first: u8, rest: &[u8]) -> Result<(ByteRange, &[u8]), PatternError>
    ensures value { MatchResult result
        (λ x. range first rest.entry.now ≡ Ok (x.0, x.1.now))
        (λ e. range first rest.entry.now ≡ Err e) }
    ensures shorter { IfOk result (λ x. length x.1.now ≤ length rest.entry.now) }
{
    let alone = ByteRange { first, last: first };
    let Some((dash, behind)) = rest.split_first() else {
        return Ok((alone, rest));
    };
    let Some((byte, after)) = behind.split_first() else {
        return Ok((alone, rest));
    };
    if *dash != b'-' || *byte == b']' {
        return Ok((alone, rest));
    }
    let (last, rest) = next_letter(*byte, after)?;
    Ok((
        ByteRange {
            first,
            last: last.byte,
        },
        rest,
    ))
}

#[inline(always)]
pub(crate) fn next_member(first: u8, rest: &[u8]) -> Result<(ByteRange, &[u8]), PatternError>
    ensures value { MatchResult result
        (λ x. member first rest.entry.now ≡ Ok (x.0, x.1.now))
        (λ e. member first rest.entry.now ≡ Err e) }
    ensures shorter { IfOk result (λ x. length x.1.now ≤ length rest.entry.now) }
{
    let (start, rest) = next_letter(first, rest)?;
    if !start.escaped && first == b'[' && begins_class(rest) {
        return Err(PatternError::Class);
    }
    next_range(start.byte, rest)
}

/// What follows the members of a set and its end.
#[inline(always)]
pub(crate) fn after_members(text: &[u8]) -> Result<&[u8], PatternError>
    ensures value { MatchResult result
        (λ rest. HasMembers text.entry.now (Ok (members_of text.entry.now, rest.now)))
        (λ e. HasMembers text.entry.now (Err e)) }
    ensures shorter { IfOk result (λ rest. length rest.now ≤ length text.entry.now) }
{
    let mut rest = text;
    'members: loop {
        let Some((first, after)) = rest.split_first() else {
            return Err(PatternError::Unclosed);
        };
        let (_, after) = next_member(*first, after)?;
        if let Some(behind) = after_end(after) {
            return Ok(behind);
        }
        rest = after;
    }
}

/// Whether a set is negated, and what follows the sign.
#[inline(always)]
pub(crate) fn split_sign(text: &[u8]) -> (bool, &[u8])
    ensures negated { result.0 ≡ negates text.entry.now }
    ensures rest { result.1.now ≡ after_sign text.entry.now }
    ensures shorter { length result.1.now ≤ length text.entry.now }
{
    match text.split_first() {
        Some((byte, rest)) if *byte == b'!' || *byte == b'^' => (true, rest),
        _ => (false, text),
    }
}

/// Outside sets a `-`, escaped or not, stands for `_`.
#[inline(always)]
fn undashed(byte: u8) -> u8
    ensures { result ≡ undashed byte }
{
    if byte == b'-' { b'_' } else { byte }
}

/// The item that begins with a byte that begins no set.
#[inline(always)]
fn next_plain_item(first: u8, rest: &[u8]) -> Result<(Item, &[u8]), PatternError>
    ensures value { MatchResult result
        (λ x. plain_item first rest.entry.now ≡ Ok (piece x.0, x.1.now))
        (λ e. plain_item first rest.entry.now ≡ Err e) }
    ensures shorter { IfOk result (λ x. length x.1.now ≤ length rest.entry.now) }
{
    if first == b'*' {
        return Ok((Item::Run, rest));
    }
    if first == b'?' {
        return Ok((Item::AnyByte, rest));
    }
    let (letter, rest) = next_letter(first, rest)?;
    Ok((Item::Byte(undashed(letter.byte)), rest))
}

/// Whether a byte is none of the five that may not stand for themselves. It is asked first, for speed.
#[inline(always)]
fn is_plain(byte: u8) -> bool
    ensures { result ≡ is_plain byte }
{
    !matches!(byte, b'*' | b'-' | b'?' | b'[' | b'\\')
}

/// The item with which a text of this first byte begins, and what follows it.
#[inline(always)]
pub(crate) fn next_item(first: u8, rest: &[u8]) -> Result<(Item, &[u8]), PatternError>
    ensures value { MatchResult result
        (λ x. HasItem first rest.entry.now (Ok (piece x.0, x.1.now)))
        (λ e. HasItem first rest.entry.now (Err e)) }
    ensures shorter { IfOk result (λ x. length x.1.now ≤ length rest.entry.now) }
{
    if is_plain(first) {
        return Ok((Item::Byte(first), rest));
    }
    if first != b'[' {
        return next_plain_item(first, rest);
    }
    let (set, rest) = Set::read(rest)?;
    Ok((Item::OneOf(set), rest))
}

/// Whether the text is a pattern, or else its first fault from the left.
fn check(text: &[u8]) -> Result<(), PatternError>
    ensures { MatchResult result (λ _. IsPattern text.now) (λ e. Reads text.now (Err e)) }
{
    let mut rest = text;
    'items: while let Some((first, after)) = rest.split_first() {
        // Most bytes are passed over here, in few steps.
        if is_plain(*first) {
            rest = after;
            continue;
        }
        let (_, after) = next_item(*first, after)?;
        rest = after;
    }
    Ok(())
}

/// How many bytes at the beginning stand for themselves.
fn count_plain(text: &[u8]) -> usize
    ensures value { result ≡ prefix_len is_plain text.now }
    ensures within { result ≤ length text.now }
{
    text.iter().take_while(|byte| is_plain(**byte)).count()
}

/// How many bytes at the beginning of a pattern stand for themselves, or the text's first fault from the left.
pub(crate) fn check_from_plain(text: &[u8]) -> Result<usize, PatternError>
    ensures checked { MatchResult result (λ _. IsPattern text.now) (λ e. Reads text.now (Err e)) }
    ensures plain { IfOk result (λ count. BeginsPlainly text.now count) }
{
    let count = count_plain(text);
    let (_, rest) = text.split_at(count);
    check(rest)?;
    Ok(count)
}
