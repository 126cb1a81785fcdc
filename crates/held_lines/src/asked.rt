//! What a line asks for, beside what a session's lines ask for.
ghost use Rattle.std.specs.Prelude.{◌≡◌, true, false, IfOk, IfSome, IfNone};
ghost use Rattle.std.specs.List.{list_all};
ghost use Rattle.text_parts.specs.Text.{texts_of};
ghost use Rattle.held_table.specs.Names.{is_holder_name, name_bytes};
ghost use Rattle.held_lines.specs.Lines.{may_be_name, with_reference, with_half, with_end, with_hold, by_again};
ghost use Rattle.held_lines.specs.Lines.{with_release, with_holders, with_held, by_half, by_first, by_words};
ghost use Rattle.held_lines.specs.ForProofs.{asked_from};

use held_table::{HolderName, NameError};
use modprobe::Half;
use std::alloc::{AllocError, Global};
use text_parts::Name;

/// What a holder does with a reference.
#[derive(Clone, Copy, Debug, PartialEq, Eq, Drop)]
pub enum Reference {
    /// It takes one.
    Get,
    /// It puts one back.
    Put,
}

/// What a line asks for. A name of a module is in normal form.
#[derive(Drop)]
pub(crate) enum Asked<'a> {
    /// What a session answers.
    AsSession,
    /// The line is none; this is its first word.
    Malformed(&'a [u8]),
    /// What this holder does with a reference to the module of the name.
    Refer(Reference, HolderName, Name),
    Half(Half, Name),
    /// The holder takes a reference to each module that is found for the words, or to those that it does not hold.
    Hold(bool, HolderName, &'a [&'a [u8]]),
    /// The holder gives back all references to the modules that are found for the words.
    Release(HolderName, &'a [&'a [u8]]),
    ReleaseAll(HolderName),
    /// Who holds the module of the name.
    Holders(Name),
    /// What the holder holds.
    HeldBy(HolderName),
    /// What each holder holds.
    Held,
}

/// The holder's name that a word is, if it is one.
fn holder_of(alloc: Global, word: &[u8]) -> Result<Option<HolderName>, AllocError>
    ensures some { IfOk result (λ holder. IfSome holder (λ name. (name_bytes name ≡ word.now) × (is_holder_name word.now ≡ true))) }
    ensures none { IfOk result (λ holder. IfNone holder (is_holder_name word.now ≡ false)) }
{
    match HolderName::parse(alloc, word) {
        Ok(name) => Ok(Some(name)),
        Err(NameError::NotAName) => Ok(None),
        Err(NameError::Memory) => Err(AllocError),
    }
}

/// Whether the word may be a module's name: it does not begin with `-`.
fn may_be_name(word: &[u8]) -> bool
    ensures { result ≡ may_be_name word.now }
{
    word.first() != Some(&b'-')
}

fn may_be_names(words: &[&[u8]]) -> bool
    ensures { result ≡ list_all may_be_name (texts_of words.now) }
{
    for word in words {
        if !may_be_name(*word) {
            return false;
        }
    }
    true
}

fn with_reference<'a>(
    alloc: Global,
    first: &'a [u8],
    reference: Reference,
    rest: &[&[u8]],
) -> Result<Asked<'a>, AllocError>
    ensures { IfOk result (λ asked. asked_from asked ≡ with_reference first.entry.now reference (texts_of rest.now)) }
{
    let [holder, name] = rest else {
        return Ok(Asked::Malformed(first));
    };
    match holder_of(alloc, *holder)? {
        Some(holder) if may_be_name(*name) => {
            Ok(Asked::Refer(reference, holder, Name::new(alloc, *name)?))
        }
        _ => Ok(Asked::Malformed(first)),
    }
}

fn with_half<'a>(
    alloc: Global,
    first: &'a [u8],
    half: Half,
    rest: &'a [&'a [u8]],
) -> Result<Asked<'a>, AllocError>
    ensures { IfOk result (λ asked. asked_from asked ≡ with_half first.entry.now half (texts_of rest.entry.now)) }
{
    match rest {
        [name] if may_be_name(*name) => Ok(Asked::Half(half, Name::new(alloc, *name)?)),
        _ => Ok(Asked::Malformed(first)),
    }
}

fn with_end<'a>(
    alloc: Global,
    first: &'a [u8],
    rest: &'a [&'a [u8]],
) -> Result<Asked<'a>, AllocError>
    ensures { IfOk result (λ asked. asked_from asked ≡ with_end first.entry.now (texts_of rest.entry.now)) }
{
    let [_, how] = rest else {
        return Ok(Asked::Malformed(first));
    };
    if *how == b"ok".as_slice() {
        with_half(alloc, first, Half::EndLoad(true), &rest[..1])
    } else if *how == b"fail".as_slice() {
        with_half(alloc, first, Half::EndLoad(false), &rest[..1])
    } else {
        Ok(Asked::Malformed(first))
    }
}

fn with_hold<'a>(
    alloc: Global,
    first: &'a [u8],
    again: bool,
    rest: &'a [&'a [u8]],
) -> Result<Asked<'a>, AllocError>
    ensures { IfOk result (λ asked. asked_from asked ≡ with_hold first.entry.now again (texts_of rest.entry.now)) }
{
    let [holder, names @ ..] = rest else {
        return Ok(Asked::Malformed(first));
    };
    if names.is_empty() {
        return Ok(Asked::Malformed(first));
    }
    match holder_of(alloc, *holder)? {
        Some(holder) if may_be_names(names) => Ok(Asked::Hold(again, holder, names)),
        _ => Ok(Asked::Malformed(first)),
    }
}

fn by_again<'a>(
    alloc: Global,
    first: &'a [u8],
    rest: &'a [&'a [u8]],
) -> Result<Asked<'a>, AllocError>
    ensures { IfOk result (λ asked. asked_from asked ≡ by_again first.entry.now (texts_of rest.entry.now)) }
{
    match rest {
        [word, later @ ..] if *word == b"--again".as_slice() => {
            with_hold(alloc, first, true, later)
        }
        _ => with_hold(alloc, first, false, rest),
    }
}

fn with_release<'a>(
    alloc: Global,
    first: &'a [u8],
    rest: &'a [&'a [u8]],
) -> Result<Asked<'a>, AllocError>
    ensures { IfOk result (λ asked. asked_from asked ≡ with_release first.entry.now (texts_of rest.entry.now)) }
{
    let [holder, names @ ..] = rest else {
        return Ok(Asked::Malformed(first));
    };
    match holder_of(alloc, *holder)? {
        Some(holder) if names.is_empty() => Ok(Asked::ReleaseAll(holder)),
        Some(holder) if may_be_names(names) => Ok(Asked::Release(holder, names)),
        _ => Ok(Asked::Malformed(first)),
    }
}

fn with_holders<'a>(
    alloc: Global,
    first: &'a [u8],
    rest: &'a [&'a [u8]],
) -> Result<Asked<'a>, AllocError>
    ensures { IfOk result (λ asked. asked_from asked ≡ with_holders first.entry.now (texts_of rest.entry.now)) }
{
    match rest {
        [name] if may_be_name(*name) => Ok(Asked::Holders(Name::new(alloc, *name)?)),
        _ => Ok(Asked::Malformed(first)),
    }
}

fn with_held<'a>(alloc: Global, first: &'a [u8], rest: &[&[u8]]) -> Result<Asked<'a>, AllocError>
    ensures { IfOk result (λ asked. asked_from asked ≡ with_held first.entry.now (texts_of rest.now)) }
{
    match rest {
        [] => Ok(Asked::Held),
        [holder] => match holder_of(alloc, *holder)? {
            Some(holder) => Ok(Asked::HeldBy(holder)),
            None => Ok(Asked::Malformed(first)),
        },
        _ => Ok(Asked::Malformed(first)),
    }
}

fn by_half<'a>(
    alloc: Global,
    first: &'a [u8],
    rest: &'a [&'a [u8]],
) -> Result<Asked<'a>, AllocError>
    ensures { IfOk result (λ asked. asked_from asked ≡ by_half first.entry.now (texts_of rest.entry.now)) }
{
    if first == b"begin_load".as_slice() {
        with_half(alloc, first, Half::BeginLoad, rest)
    } else if first == b"end_load".as_slice() {
        with_end(alloc, first, rest)
    } else if first == b"begin_remove".as_slice() {
        with_half(alloc, first, Half::BeginRemove, rest)
    } else if first == b"end_remove".as_slice() {
        with_half(alloc, first, Half::EndRemove, rest)
    } else if first == b"cancel_remove".as_slice() {
        with_half(alloc, first, Half::CancelRemove, rest)
    } else {
        Ok(Asked::AsSession)
    }
}

fn by_first<'a>(
    alloc: Global,
    first: &'a [u8],
    rest: &'a [&'a [u8]],
) -> Result<Asked<'a>, AllocError>
    ensures { IfOk result (λ asked. asked_from asked ≡ by_first first.entry.now (texts_of rest.entry.now)) }
{
    if first == b"get".as_slice() {
        with_reference(alloc, first, Reference::Get, rest)
    } else if first == b"put".as_slice() {
        with_reference(alloc, first, Reference::Put, rest)
    } else if first == b"hold".as_slice() {
        by_again(alloc, first, rest)
    } else if first == b"release".as_slice() {
        with_release(alloc, first, rest)
    } else if first == b"holders".as_slice() {
        with_holders(alloc, first, rest)
    } else if first == b"held".as_slice() {
        with_held(alloc, first, rest)
    } else {
        by_half(alloc, first, rest)
    }
}

/// What the words of a line ask for.
pub(crate) fn parse<'a>(alloc: Global, words: &'a [&'a [u8]]) -> Result<Asked<'a>, AllocError>
    ensures { IfOk result (λ asked. asked_from asked ≡ by_words (texts_of words.entry.now)) }
{
    match words {
        [] => Ok(Asked::AsSession),
        [first, rest @ ..] => by_first(alloc, *first, rest),
    }
}
