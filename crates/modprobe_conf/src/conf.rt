//! A whole configuration.
ghost use Rattle.std.specs.Prelude.{◌≡◌, ◌<◌, ◌∷◌, [], length, map, IfOk, MatchOption, OnOk, Some, slice_get, option_map, option_copied};
ghost use Rattle.text_parts.specs.Text.{texts_of};
ghost use Rattle.alias_match.specs.Aliases.{line_before, matching, words_before};
ghost use Rattle.alias_match.specs.ForProofs.{nothing_read};
ghost use Rattle.modprobe_conf.specs.Configuration.{configuration_of, entry_of, options_of, settings_by, settings_of, softdep_of};
ghost use Rattle.modprobe_conf.specs.Configuration.{has_install_line, has_remove_line, is_blacklisted};
ghost use Rattle.modprobe_conf.specs.ForProofs.{no_configuration, with_entry, with_lines, entry_seen};
ghost use Rattle.modprobe_conf.specs.Joined.{joined_text};

use crate::entry::Entry;
use crate::joined_lines::{Joined, JoinedLines};
use crate::name_index::NameIndex;
use crate::settings::Settings;
use crate::softdep::Softdep;
use crate::word::Word;
use alias_match::{Alias, AliasList, Pattern};
use std::alloc::{AllocError, Global};
use std::marker::Model;
use text_parts::{Name, find_words, is_comment};

/// What a configuration says: its aliases in file order, what its lines say of each name, and the numbers of the
/// lines that are skipped. Names are compared as they stand, so give them in normal form.
pub struct Conf {
    aliases: AliasList,
    index: NameIndex,
    skipped: Vec<usize>,
}

// By hand, since a derived drop is written out, and proved, at each place where a value is let go.
impl Drop for Conf {
    fn drop(self) {
        let Conf {
            aliases: _,
            index: _,
            skipped: _,
        } = self;
    }
}

impl Model for Conf {
    ghost use Rattle.modprobe_conf.specs.Configuration.{Configuration};

    ghost Value = { Configuration };

    ghost view = { λ c. record { aliases = c.aliases; modules = c.index; skipped = c.skipped.items } };
}

impl Conf {
    fn new(alloc: Global) -> Conf
        ensures { result ≡ no_configuration }
    {
        Conf {
            aliases: AliasList::new(alloc),
            index: NameIndex::new(alloc),
            skipped: Vec::new(alloc),
        }
    }

    fn add_entry(&mut self, alloc: Global, entry: Entry) -> Result<(), AllocError>
        ensures { OnOk result (self.new ≡ with_entry self.old (entry_seen entry)) }
    {
        match entry {
            Entry::Aliased(alias) => self.aliases.push(alloc, alias)?,
            Entry::Named(name, line) => self.index.add(alloc, name, line)?,
        }
        Ok(())
    }

    fn add_words(&mut self, alloc: Global, number: usize, words: &[&[u8]]) -> Result<(), AllocError>
        ensures { OnOk result (self.new
            ≡ with_lines self.old (words_before entry_of number (texts_of words.now) nothing_read)) }
    {
        if words.is_empty() {
            return Ok(());
        }
        match Entry::read(alloc, words)? {
            Some(entry) => self.add_entry(alloc, entry)?,
            None => self.skipped.push(number)?,
        }
        Ok(())
    }

    fn add_line<'a>(
        &mut self,
        alloc: Global,
        words: &mut Vec<&'a [u8]>,
        number: usize,
        line: &'a [u8],
    ) -> Result<(), AllocError>
        ensures { OnOk result (self.new
            ≡ with_lines self.old (line_before entry_of (number, line.now) nothing_read)) }
    {
        if is_comment(line) {
            return Ok(());
        }
        find_words(words, line)?;
        self.add_words(alloc, number, words)
    }

    /// Takes a joined line. The words of one that stands in the text are put into `words`, in place of those of an
    /// earlier line.
    fn add_joined<'a>(
        &mut self,
        alloc: Global,
        words: &mut Vec<&'a [u8]>,
        number: usize,
        line: Joined<'a>,
        buffer: &[u8],
    ) -> Result<(), AllocError>
        ensures { OnOk result (self.new
            ≡ with_lines self.old (line_before entry_of (number, joined_text line.entry buffer.now) nothing_read)) }
    {
        match line {
            Joined::Whole(line) => self.add_line(alloc, words, number, line),
            Joined::Several => self.add_line(alloc, &mut Vec::new(alloc), number, buffer),
        }
    }

    /// How many alias lines there are.
    pub fn alias_len(&self) -> usize
        ensures { result ≡ length self.now.aliases }
    {
        self.aliases.len()
    }

    /// The pattern of an alias, by its place in file order, from 0.
    pub fn alias_pattern(&self, i: usize) -> &Pattern
        requires { i < length self.now.aliases }
        ensures { option_map (λ alias. alias.pattern) (slice_get self.now.aliases i)
            ≡ Some result.now }
    {
        &self.aliases.at(i).pattern
    }

    /// The target of an alias, in normal form, by its place in file order, from 0.
    pub fn alias_target(&self, i: usize) -> &Name
        requires { i < length self.now.aliases }
        ensures { option_map (λ alias. alias.target) (slice_get self.now.aliases i)
            ≡ Some result.now }
    {
        &self.aliases.at(i).target
    }

    /// The aliases whose patterns match a text in normal form, in file order. It fails only if memory runs out.
    pub fn matching_aliases(&self, alloc: Global, text: &[u8]) -> Result<Vec<&Alias>, AllocError>
        ensures { IfOk result (λ found. map (λ alias. alias.now) found.items
            ≡ matching self.now.aliases text.now) }
    {
        self.aliases.matching(alloc, text)
    }

    /// All that is said of the name, None if no line names it: one look-up for what the calls below tell one by
    /// one.
    pub fn settings(&self, name: &[u8]) -> Option<&Settings>
        ensures { MatchOption result
            (settings_of self.now name.now ≡ settings_by [])
            (λ settings. settings_of self.now name.now ≡ settings.now) }
    {
        self.index.at(name)
    }

    /// The words of all options lines of the name, in file order.
    pub fn options(&self, name: &[u8]) -> &[Word]
        ensures { result.now ≡ options_of self.now name.now }
    {
        match self.settings(name) {
            Some(settings) => settings.options(),
            None => &[],
        }
    }

    /// The items of the first softdep line of the name.
    pub fn softdep(&self, name: &[u8]) -> Option<&Softdep>
        ensures { option_copied result ≡ softdep_of self.now name.now }
    {
        self.settings(name)?.softdep()
    }

    /// Whether the name has an install line.
    pub fn install_line(&self, name: &[u8]) -> bool
        ensures { result ≡ has_install_line self.now name.now }
    {
        matches!(self.settings(name), Some(settings) if settings.has_install())
    }

    /// Whether the name has a remove line.
    pub fn remove_line(&self, name: &[u8]) -> bool
        ensures { result ≡ has_remove_line self.now name.now }
    {
        matches!(self.settings(name), Some(settings) if settings.has_remove())
    }

    /// Whether the name has a blacklist line.
    pub fn blacklisted(&self, name: &[u8]) -> bool
        ensures { result ≡ is_blacklisted self.now name.now }
    {
        matches!(self.settings(name), Some(settings) if settings.is_blacklisted())
    }

    /// The numbers, from 1, of the lines that have a word, are no comment, and have no effect. A joined line has
    /// the number of its first line.
    pub fn skipped(&self) -> &[usize]
        ensures { result.now ≡ self.now.skipped }
    {
        &self.skipped
    }
}

/// What a whole configuration text says. It fails only if memory runs out.
pub fn read_conf(alloc: Global, text: &[u8]) -> Result<Conf, AllocError>
    ensures { IfOk result (λ conf. conf ≡ configuration_of text.now) }
{
    let mut conf = Conf::new(alloc);
    let mut lines = JoinedLines::new(text);
    let mut words = Vec::new(alloc);
    let mut buffer = Vec::new(alloc);
    'lines: while let Some((number, line)) = lines.next_line(&mut buffer)? {
        conf.add_joined(alloc, &mut words, number, line, &buffer)?;
    }
    Ok(conf)
}
