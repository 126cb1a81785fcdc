//! The aliases of a modules.alias text.
ghost use Rattle.std.specs.Prelude.{◌≡◌, ◌<◌, length, map, IfOk, OnOk, slice_get, option_map, Some};
ghost use Rattle.alias_match.specs.Aliases.{aliases_of, alias_of, line_before, matching, words_before};
ghost use Rattle.alias_match.specs.ForProofs.{nothing_read, followed_by};
ghost use Rattle.text_parts.specs.Text.{texts_of};

use crate::alias::Alias;
use crate::alias_list::AliasList;
use crate::pattern::Pattern;
use std::alloc::{AllocError, Global};
use std::marker::Model;
use text_parts::{Name, find_words, is_comment, whole_lines};

/// The aliases of a modules.alias text, in the order of its lines, and the numbers of the lines that are skipped.
#[derive(Drop)]
pub struct Aliases {
    entries: AliasList,
    skipped: Vec<usize>,
}

impl Model for Aliases {
    ghost use Rattle.alias_match.specs.declared.alias.Alias.{Alias};
    ghost use Rattle.alias_match.specs.Aliases.{Entries};

    ghost Value = { Entries Alias };

    ghost view = { λ a. record { entries = a.entries; skipped = a.skipped.items } };
}

impl Aliases {
    fn new(alloc: Global) -> Aliases
        ensures { result ≡ nothing_read }
    {
        Aliases {
            entries: AliasList::new(alloc),
            skipped: Vec::new(alloc),
        }
    }

    fn add_words(&mut self, alloc: Global, number: usize, words: &[&[u8]]) -> Result<(), AllocError>
        ensures { OnOk result (self.new
            ≡ followed_by self.old (words_before alias_of number (texts_of words.now) nothing_read)) }
    {
        if words.is_empty() {
            return Ok(());
        }
        match Alias::read(alloc, words)? {
            Some(alias) => self.entries.push(alloc, alias)?,
            None => self.skipped.push(number)?,
        }
        Ok(())
    }

    fn add_line<'a>(
        &mut self,
        alloc: Global,
        words: &mut Vec<&'a [u8]>,
        number: usize,
        line: &'a [u8],
    ) -> Result<(), AllocError>
        ensures { OnOk result (self.new
            ≡ followed_by self.old (line_before alias_of (number, line.now) nothing_read)) }
    {
        if is_comment(line) {
            return Ok(());
        }
        find_words(words, line)?;
        self.add_words(alloc, number, words)
    }

    /// How many aliases there are.
    pub fn len(&self) -> usize
        ensures { result ≡ length self.now.entries }
    {
        self.entries.len()
    }

    /// The pattern of an alias, by its place in the order of the lines, from 0.
    pub fn pattern(&self, i: usize) -> &Pattern
        requires { i < length self.now.entries }
        ensures { option_map (λ alias. alias.pattern) (slice_get self.now.entries i)
            ≡ Some result.now }
    {
        &self.entries.at(i).pattern
    }

    /// The target of an alias, in normal form, by its place in the order of the lines, from 0.
    pub fn target(&self, i: usize) -> &Name
        requires { i < length self.now.entries }
        ensures { option_map (λ alias. alias.target) (slice_get self.now.entries i)
            ≡ Some result.now }
    {
        &self.entries.at(i).target
    }

    /// The aliases whose patterns match a text in normal form, in the order of the lines. It fails only if memory runs out.
    pub fn matching(&self, alloc: Global, text: &[u8]) -> Result<Vec<&Alias>, AllocError>
        ensures { IfOk result (λ found. map (λ alias. alias.now) found.items
            ≡ matching self.now.entries text.now) }
    {
        self.entries.matching(alloc, text)
    }

    /// The numbers, from 1, of the lines that have a word and are no comment and no alias.
    pub fn skipped(&self) -> &[usize]
        ensures { result.now ≡ self.now.skipped }
    {
        &self.skipped
    }
}

/// The aliases of a whole modules.alias text. It fails only if memory runs out.
pub fn read_aliases(alloc: Global, text: &[u8]) -> Result<Aliases, AllocError>
    ensures { IfOk result (λ aliases. aliases ≡ aliases_of text.now) }
{
    let mut aliases = Aliases::new(alloc);
    let mut words = Vec::new(alloc);
    let mut lines = whole_lines(text);
    let mut number = 1usize;
    'lines: while let Some(line) = lines.next() {
        aliases.add_line(alloc, &mut words, number, line)?;
        number += 1;
    }
    Ok(aliases)
}
