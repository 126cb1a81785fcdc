//! Aliases, found by a name that they match.
ghost use Rattle.std.specs.Prelude.{◌≡◌, ◌∷◌, ◌++◌, [], IfOk, OnOk, OnErr};
ghost use Rattle.std.specs.Option.{option_to_list};
ghost use Rattle.kmod_index.specs.Aliases.{alias_of_line, aliases_of};
ghost use Rattle.kmod_index.specs.ForProofs.{pointed};
ghost use Rattle.kmod_index.specs.Tries.{is_wild, matching_lines, pattern_of_key, plain_byte};

use crate::index_line::{IndexLine, lines_at};
use kmod_names::PatternList;
use memchr::memchr;
use std::alloc::{AllocError, Global};
use std::marker::Model;
use text_parts::whole_lines;

/// Aliases in order, their keys in normal form. Contracts see their list.
#[derive(Drop)]
pub(crate) struct Aliases {
    lines: Vec<IndexLine>,
    patterns: PatternList,
}

impl Model for Aliases {
    ghost use Rattle.std.specs.Prelude.{◌≡◌, List, map};
    ghost use Rattle.kmod_index.specs.Lines.{Keyed};
    ghost use Rattle.kmod_index.specs.Tries.{pattern_of};

    ghost Value = { List Keyed };

    ghost view = { λ aliases. aliases.lines.items };

    ghost invariant = { λ aliases. aliases.patterns ≡ map pattern_of aliases.lines.items };
}

/// Whether the byte begins what fnmatch(3) compares.
pub(crate) fn is_wild(byte: u8) -> bool
    ensures { result ≡ is_wild byte }
{
    byte == b'*' || byte == b'?' || byte == b'['
}

/// Adds the pattern of a byte that stands for itself.
fn push_plain(pattern: &mut Vec<u8>, byte: u8) -> Result<(), AllocError>
    ensures { OnOk result (pattern.new.items ≡ pattern.old.items ++ plain_byte byte) }
{
    if byte == b'\\' {
        pattern.push(byte)?;
    }
    pattern.push(byte)?;
    Ok(())
}

/// The pattern of a key that has a backslash.
fn escaped(alloc: Global, key: &[u8]) -> Result<Vec<u8>, AllocError>
    ensures { IfOk result (λ pattern. pattern.items ≡ pattern_of_key key.now) }
{
    let mut pattern = Vec::new(alloc);
    let mut rest = key;
    while let Some((byte, later)) = rest.split_first() {
        if is_wild(*byte) {
            pattern.extend_from_slice(rest)?;
            return Ok(pattern);
        }
        push_plain(&mut pattern, *byte)?;
        rest = later;
    }
    Ok(pattern)
}

/// Adds the pattern that a key is.
pub(crate) fn push_key(
    patterns: &mut PatternList,
    alloc: Global,
    key: &[u8],
) -> Result<(), AllocError>
    ensures ok { OnOk result (patterns.new ≡ patterns.old ++ pattern_of_key key.now ∷ []) }
    ensures err { OnErr result (patterns.new ≡ patterns.old) }
{
    match memchr(b'\\', key) {
        None => patterns.push(alloc, key),
        Some(_) => {
            let pattern = escaped(alloc, key)?;
            patterns.push(alloc, &pattern)
        }
    }
}

impl Aliases {
    pub(crate) fn new(alloc: Global) -> Aliases
        ensures { result ≡ [] }
    {
        Aliases {
            lines: Vec::new(alloc),
            patterns: PatternList::new(alloc),
        }
    }

    /// Adds an alias after the others. If memory runs out they stay as they were.
    pub(crate) fn push(&mut self, alloc: Global, line: IndexLine) -> Result<(), AllocError>
        ensures ok { OnOk result (self.new ≡ self.old ++ line ∷ []) }
        ensures err { OnErr result (self.new ≡ self.old) }
    {
        self.lines.reserve(1)?;
        push_key(&mut self.patterns, alloc, line.key())?;
        self.lines.push(line)?;
        Ok(())
    }

    /// Adds the alias that a line is, if it is one.
    fn add_line(&mut self, alloc: Global, number: usize, line: &[u8]) -> Result<(), AllocError>
        ensures { OnOk result (self.new ≡ self.old ++ option_to_list (alias_of_line (number, line.now))) }
    {
        match IndexLine::read_alias(alloc, number, line)? {
            Some(alias) => self.push(alloc, alias),
            None => Ok(()),
        }
    }

    /// The aliases that a name in normal form matches, in order. It fails only if memory runs out.
    pub(crate) fn matching(&self, alloc: Global, name: &[u8]) -> Result<Vec<&IndexLine>, AllocError>
        ensures { IfOk result (λ found. pointed found.items ≡ matching_lines self.now name.now) }
    {
        let places = self.patterns.places(alloc, name)?;
        lines_at(alloc, &self.lines, &places)
    }
}

/// The aliases of a whole modules.alias text. It fails only if memory runs out.
pub(crate) fn read_aliases(alloc: Global, text: &[u8]) -> Result<Aliases, AllocError>
    ensures { IfOk result (λ aliases. aliases ≡ aliases_of text.now) }
{
    let mut aliases = Aliases::new(alloc);
    let mut lines = whole_lines(text);
    let mut number = 1usize;
    'lines: while let Some(line) = lines.next() {
        aliases.add_line(alloc, number, line)?;
        number += 1;
    }
    Ok(aliases)
}
