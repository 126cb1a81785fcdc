//! What one line says.
ghost use Rattle.std.specs.Prelude.{◌≡◌, map, IfOk};
ghost use Rattle.kmod_conf.specs.Configuration.{alias_entry, blacklist_entry, known_entry, line_entry, weakdep_entry};
ghost use Rattle.kmod_conf.specs.Configuration.{name_of_word, options_entry, softdep_entry, text_line, untabbed};

use crate::bytes::{cut_word, line_text};
use crate::line::{NameLine, SoftdepLine, TextLine, WeakdepLine};
use crate::softdep::{SoftItems, WeakItems};
use kmod_names::{AliasEntry, Place, Text, normal_alias};
use kmod_version::Kmod;
use std::alloc::{AllocError, Global};
use text_parts::{is_comment, is_same};

/// What a line says. One that is read as nothing else is bad, and its first word is kept.
#[derive(Drop)]
pub(crate) enum Entry {
    Alias(AliasEntry),
    Blacklist(NameLine),
    Options(TextLine),
    Install(TextLine),
    Remove(TextLine),
    Softdep(SoftdepLine),
    Weakdep(WeakdepLine),
    Bad(NameLine),
}

/// The normal form of a word, None if there is no word or it has none.
fn name_of_word(alloc: Global, word: &[u8]) -> Result<Option<Text>, AllocError>
    ensures { IfOk result (λ name. name ≡ name_of_word word.now) }
{
    if word.is_empty() {
        return Ok(None);
    }
    normal_alias(alloc, word)
}

fn read_alias(alloc: Global, text: &[u8], place: Place) -> Result<Option<Entry>, AllocError>
    ensures { IfOk result (λ entry. entry ≡ alias_entry place text.now) }
{
    let (pattern, rest) = cut_word(text);
    let (target, _) = cut_word(rest);
    let Some(pattern) = name_of_word(alloc, pattern)? else {
        return Ok(None);
    };
    let Some(target) = name_of_word(alloc, target)? else {
        return Ok(None);
    };
    Ok(Some(Entry::Alias(AliasEntry {
        pattern,
        target,
        place,
    })))
}

fn read_blacklist(alloc: Global, text: &[u8], place: Place) -> Result<Option<Entry>, AllocError>
    ensures { IfOk result (λ entry. entry ≡ blacklist_entry place text.now) }
{
    let (word, _) = cut_word(text);
    let Some(name) = name_of_word(alloc, word)? else {
        return Ok(None);
    };
    Ok(Some(Entry::Blacklist(NameLine { name, place })))
}

/// A name and the text after it, None if it has not both.
fn read_text_line(alloc: Global, text: &[u8], place: Place) -> Result<Option<TextLine>, AllocError>
    ensures { IfOk result (λ line. line ≡ text_line place text.now) }
{
    let (word, rest) = cut_word(text);
    let Some(name) = name_of_word(alloc, word)? else {
        return Ok(None);
    };
    if rest.is_empty() {
        return Ok(None);
    }
    let text = Text::new(alloc, rest)?;
    Ok(Some(TextLine { name, text, place }))
}

/// A blank for a tab, and every other byte as it is.
fn untabbed(byte: u8) -> u8
    ensures { result ≡ untabbed byte }
{
    if byte == b'\t' { b' ' } else { byte }
}

/// The text with blanks for tabs.
pub(crate) fn without_tabs(alloc: Global, text: &[u8]) -> Result<Text, AllocError>
    ensures { IfOk result (λ own. own ≡ map untabbed text.now) }
{
    let bytes: Vec<u8> = text.iter().map(|byte| untabbed(*byte)).collect(alloc)?;
    Ok(Text::of(bytes))
}

fn read_options(alloc: Global, text: &[u8], place: Place) -> Result<Option<Entry>, AllocError>
    ensures { IfOk result (λ entry. entry ≡ options_entry place text.now) }
{
    let Some(line) = read_text_line(alloc, text, place)? else {
        return Ok(None);
    };
    let text = without_tabs(alloc, line.text.as_bytes())?;
    Ok(Some(Entry::Options(TextLine {
        name: line.name,
        text,
        place: line.place,
    })))
}

fn read_softdep(alloc: Global, text: &[u8], place: Place) -> Result<Option<Entry>, AllocError>
    ensures { IfOk result (λ entry. entry ≡ softdep_entry place text.now) }
{
    let Some(line) = read_text_line(alloc, text, place)? else {
        return Ok(None);
    };
    let items = SoftItems::read(alloc, line.text.as_bytes())?;
    Ok(Some(Entry::Softdep(SoftdepLine {
        name: line.name,
        items,
        place: line.place,
    })))
}

fn read_weakdep(alloc: Global, text: &[u8], place: Place) -> Result<Option<Entry>, AllocError>
    ensures { IfOk result (λ entry. entry ≡ weakdep_entry place text.now) }
{
    let Some(line) = read_text_line(alloc, text, place)? else {
        return Ok(None);
    };
    let items = WeakItems::read(alloc, line.text.as_bytes())?;
    Ok(Some(Entry::Weakdep(WeakdepLine {
        name: line.name,
        items,
        place: line.place,
    })))
}

/// What a line with this first word and this text after it says, None if it is bad.
fn read_known(
    alloc: Global,
    kmod: Kmod,
    word: &[u8],
    text: &[u8],
    place: Place,
) -> Result<Option<Entry>, AllocError>
    ensures { IfOk result (λ entry. entry ≡ known_entry kmod place word.now text.now) }
{
    if is_same(word, b"alias") {
        read_alias(alloc, text, place)
    } else if is_same(word, b"blacklist") {
        read_blacklist(alloc, text, place)
    } else if is_same(word, b"options") {
        read_options(alloc, text, place)
    } else if is_same(word, b"install") {
        Ok(read_text_line(alloc, text, place)?.map(Entry::Install))
    } else if is_same(word, b"remove") {
        Ok(read_text_line(alloc, text, place)?.map(Entry::Remove))
    } else if is_same(word, b"softdep") {
        read_softdep(alloc, text, place)
    } else if is_same(word, b"weakdep") && kmod.knows_weakdeps() {
        read_weakdep(alloc, text, place)
    } else {
        Ok(None)
    }
}

impl Entry {
    /// What a line says, None if it is a comment or has no word. A bad line is reported by its end, as kmod does.
    pub(crate) fn read(
        alloc: Global,
        kmod: Kmod,
        line: &[u8],
        place: Place,
        end: Place,
    ) -> Result<Option<Entry>, AllocError>
        ensures { IfOk result (λ entry. entry ≡ line_entry kmod place end line.now) }
    {
        let text = line_text(line);
        if is_comment(text) {
            return Ok(None);
        }
        let (word, rest) = cut_word(text);
        if word.is_empty() {
            return Ok(None);
        }
        if let Some(entry) = read_known(alloc, kmod, word, rest, place)? {
            return Ok(Some(entry));
        }
        let name = Text::new(alloc, word)?;
        Ok(Some(Entry::Bad(NameLine { name, place: end })))
    }
}
