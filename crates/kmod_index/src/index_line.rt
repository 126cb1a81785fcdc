//! A line of modules.alias or modules.symbols, or an entry of modules.builtin.modinfo.
ghost use Rattle.std.specs.Prelude.{◌≡◌, None, Some, slice_get, IfOk, MatchOption, option_copied};
ghost use Rattle.std.specs.List.{filter_map};
ghost use Rattle.kmod_names.specs.Names.{normal_alias};
ghost use Rattle.kmod_index.specs.Aliases.{alias_of_line, with_key};
ghost use Rattle.kmod_index.specs.ForProofs.{keyed, pointed};
ghost use Rattle.kmod_index.specs.Lines.{alias_parts, keyed_of_line};

use crate::parts::at_last;
use kmod_names::{Text, normal_alias};
use memchr::memchr3;
use std::alloc::{AllocError, Global};
use std::marker::Model;

/// A line `alias KEY MODULE`, or an entry `MODULE.alias=KEY`, with its number, from 1.
#[derive(Drop)]
pub struct IndexLine {
    key: Text,
    name: Text,
    number: usize,
}

impl Model for IndexLine {
    ghost use Rattle.kmod_index.specs.Lines.{Keyed};

    ghost Value = { Keyed };

    ghost view = { λ line. record { key = line.key; name = line.name; number = line.number } };
}

/// The key and the module of a line.
pub(crate) fn alias_parts(line: &[u8]) -> Option<(&[u8], &[u8])>
    ensures { MatchOption result
        (alias_parts line.entry.now ≡ None)
        (λ parts. alias_parts line.entry.now ≡ Some (parts.0.now, parts.1.now)) }
{
    at_last(b' ', line.strip_prefix(b"alias ")?)
}

/// The normal form of a key. Most keys have no byte that may have another form.
fn normal_key(alloc: Global, key: &[u8]) -> Result<Option<Text>, AllocError>
    ensures { IfOk result (λ normal. normal ≡ normal_alias key.now) }
{
    match memchr3(b'-', b'[', b']', key) {
        None => Ok(Some(Text::new(alloc, key)?)),
        Some(_) => normal_alias(alloc, key),
    }
}

impl IndexLine {
    /// The line of these parts and this number.
    pub(crate) fn of_parts(
        alloc: Global,
        number: usize,
        key: &[u8],
        name: &[u8],
    ) -> Result<IndexLine, AllocError>
        ensures { IfOk result (λ line. line ≡ keyed key.now name.now number) }
    {
        Ok(IndexLine {
            key: Text::new(alloc, key)?,
            name: Text::new(alloc, name)?,
            number,
        })
    }

    /// The line of this number, None if it has another form.
    pub(crate) fn read(
        alloc: Global,
        number: usize,
        line: &[u8],
    ) -> Result<Option<IndexLine>, AllocError>
        ensures { IfOk result (λ read. read ≡ keyed_of_line (number, line.now)) }
    {
        match alias_parts(line) {
            Some((key, name)) => Ok(Some(IndexLine::of_parts(alloc, number, key, name)?)),
            None => Ok(None),
        }
    }

    /// The line of an alias of this number, with its key in normal form; None if the key's brackets do not match.
    pub(crate) fn of_alias(
        alloc: Global,
        number: usize,
        key: &[u8],
        name: &[u8],
    ) -> Result<Option<IndexLine>, AllocError>
        ensures { IfOk result (λ read. read ≡ with_key (keyed key.now name.now number) (normal_alias key.now)) }
    {
        let Some(key) = normal_key(alloc, key)? else {
            return Ok(None);
        };
        Ok(Some(IndexLine {
            key,
            name: Text::new(alloc, name)?,
            number,
        }))
    }

    /// The alias that the line of this number is, None if it is none.
    pub(crate) fn read_alias(
        alloc: Global,
        number: usize,
        line: &[u8],
    ) -> Result<Option<IndexLine>, AllocError>
        ensures { IfOk result (λ read. read ≡ alias_of_line (number, line.now)) }
    {
        match alias_parts(line) {
            Some((key, name)) => IndexLine::of_alias(alloc, number, key, name),
            None => Ok(None),
        }
    }

    /// The same line. It fails only if memory runs out.
    fn copy(&self, alloc: Global) -> Result<IndexLine, AllocError>
        ensures { IfOk result (λ line. line ≡ self.now) }
    {
        IndexLine::of_parts(alloc, self.number(), self.key(), self.name())
    }

    /// What is looked up.
    pub fn key(&self) -> &[u8]
        ensures { result.now ≡ self.now.key }
    {
        self.key.as_bytes()
    }

    /// The name of the module.
    pub fn name(&self) -> &[u8]
        ensures { result.now ≡ self.now.name }
    {
        self.name.as_bytes()
    }

    /// The number of the line or the entry, from 1.
    pub fn number(&self) -> usize
        ensures { result ≡ self.now.number }
    {
        self.number
    }
}

/// The lines that these point to. It fails only if memory runs out.
pub(crate) fn copied(alloc: Global, lines: &[&IndexLine]) -> Result<Vec<IndexLine>, AllocError>
    ensures { IfOk result (λ copies. copies.items ≡ pointed lines.now) }
{
    let mut copies = Vec::with_capacity(alloc, lines.len())?;
    for line in lines {
        copies.push(line.copy(alloc)?)?;
    }
    Ok(copies)
}

/// The line at a place, None past the last.
fn line_at(lines: &[IndexLine], place: usize) -> Option<&IndexLine>
    ensures { option_copied result ≡ slice_get lines.entry.now place }
{
    lines.get(place)
}

/// The lines at the places.
pub(crate) fn lines_at<'a>(
    alloc: Global,
    lines: &'a [IndexLine],
    places: &[usize],
) -> Result<Vec<&'a IndexLine>, AllocError>
    ensures { IfOk result (λ found. pointed found.items ≡ filter_map (slice_get lines.entry.now) places.now) }
{
    let mut found = Vec::new(alloc);
    for place in places {
        if let Some(line) = line_at(lines, *place) {
            found.push(line)?;
        }
    }
    Ok(found)
}
