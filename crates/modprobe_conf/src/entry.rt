//! What one line of a configuration says.
ghost use Rattle.std.specs.Prelude.{◌≡◌, ◌∷◌, ◌++◌, [], Bool, map, option_map, IfOk, OnOk, MatchOption, None};
ghost use Rattle.alias_match.specs.Aliases.{alias_of};
ghost use Rattle.text_parts.specs.Text.{texts_of};
ghost use Rattle.modprobe_conf.specs.Configuration.{alias_entry, entry_of, line_from, named_entry, soft_items, softdep_items};
ghost use Rattle.modprobe_conf.specs.ForProofs.{entry_seen, line_of};

use crate::settings::Line;
use crate::softdep::Softdep;
use crate::word::Word;
use alias_match::Alias;
use std::alloc::{AllocError, Global};
use text_parts::{Name, is_same};

/// What one joined line says.
#[derive(Drop)]
pub(crate) enum Entry {
    Aliased(Alias),
    Named(Name, Line),
}

fn own_words(alloc: Global, words: &[&[u8]]) -> Result<Vec<Word>, AllocError>
    ensures { IfOk result (λ own. own.items ≡ texts_of words.now) }
{
    let mut own = Vec::with_capacity(alloc, words.len())?;
    for word in words {
        own.push(Word::new(alloc, word)?)?;
    }
    Ok(own)
}

/// What a line of more than two words says by its first word, but for an alias.
fn read_line(alloc: Global, word: &[u8], rest: &[&[u8]]) -> Result<Option<Line>, AllocError>
    ensures { IfOk result (λ line. option_map line_of line
        ≡ line_from word.now (texts_of rest.now)) }
{
    if is_same(word, b"blacklist") {
        return Ok(Some(Line::Blacklist));
    }
    if is_same(word, b"install") {
        return Ok(Some(Line::Install));
    }
    if is_same(word, b"remove") {
        return Ok(Some(Line::Remove));
    }
    if is_same(word, b"options") {
        return Ok(Some(Line::Options(own_words(alloc, rest)?)));
    }
    if is_same(word, b"softdep") {
        return Ok(Some(Line::Softdep(Softdep::read(alloc, rest)?)));
    }
    Ok(None)
}

fn read_alias(alloc: Global, words: &[&[u8]]) -> Result<Option<Entry>, AllocError>
    ensures { IfOk result (λ entry. option_map entry_seen entry
        ≡ alias_entry (alias_of (texts_of words.now))) }
{
    Ok(Alias::read(alloc, words)?.map(Entry::Aliased))
}

fn read_named(
    alloc: Global,
    word: &[u8],
    name: &[u8],
    rest: &[&[u8]],
) -> Result<Option<Entry>, AllocError>
    ensures { IfOk result (λ entry. option_map entry_seen entry
        ≡ named_entry name.now (line_from word.now (texts_of rest.now))) }
{
    match read_line(alloc, word, rest)? {
        Some(line) => Ok(Some(Entry::Named(Name::new(alloc, name)?, line))),
        None => Ok(None),
    }
}

/// A blacklist line alone may have two words.
fn read_short(alloc: Global, word: &[u8], name: &[u8]) -> Result<Option<Entry>, AllocError>
    ensures { IfOk result (λ entry. option_map entry_seen entry
        ≡ entry_of (word.now ∷ name.now ∷ [])) }
{
    if !is_same(word, b"blacklist") {
        return Ok(None);
    }
    Ok(Some(Entry::Named(Name::new(alloc, name)?, Line::Blacklist)))
}

impl Entry {
    /// What the words of a line say, None if they have no effect.
    pub(crate) fn read(alloc: Global, words: &[&[u8]]) -> Result<Option<Entry>, AllocError>
        ensures { IfOk result (λ entry. option_map entry_seen entry
            ≡ entry_of (texts_of words.now)) }
    {
        let Some((word, behind)) = words.split_first() else {
            return Ok(None);
        };
        let Some((name, rest)) = behind.split_first() else {
            return Ok(None);
        };
        if rest.is_empty() {
            return read_short(alloc, word, name);
        }
        if is_same(word, b"alias") {
            return read_alias(alloc, words);
        }
        read_named(alloc, word, name, rest)
    }
}
