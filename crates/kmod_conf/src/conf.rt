//! A whole configuration.
ghost use Rattle.std.specs.Prelude.{◌≡◌, ◌∷◌, ◌++◌, [], map, option_map, option_copied, IfOk, OnOk};
ghost use Rattle.kmod_conf.specs.Configuration.{conf_with_text, no_lines, with_entry};
ghost use Rattle.kmod_conf.specs.LookUps.{has_install_named, has_remove_named, install_named, install_of, is_blacklisted, matching_aliases};
ghost use Rattle.kmod_conf.specs.LookUps.{options_of, remove_named, remove_of, softdep_of};

use crate::entry::Entry;
use crate::line::{NameLine, SoftdepLine, TextLine, WeakdepLine};
use crate::named_lines::NamedLines;
use crate::pattern_lines::PatternLines;
use crate::wrapped_lines::WrappedLines;
use kmod_names::{AliasEntry, Place};
use kmod_version::Kmod;
use std::alloc::{AllocError, Global};
use std::marker::Model;

/// A configuration: the lines of each kind in the order of the texts that were added. Names are compared as they
/// stand, so give them in normal form.
pub struct Conf {
    aliases: PatternLines<AliasEntry>,
    blacklist: NamedLines<NameLine>,
    options: NamedLines<TextLine>,
    installs: PatternLines<TextLine>,
    removes: PatternLines<TextLine>,
    softdeps: PatternLines<SoftdepLine>,
    weakdeps: Vec<WeakdepLine>,
    bad: Vec<NameLine>,
}

// By hand, since a derived drop is written out, and proved, at each place where a value is let go.
impl Drop for Conf {
    fn drop(self) {
        let Conf {
            aliases: _,
            blacklist: _,
            options: _,
            installs: _,
            removes: _,
            softdeps: _,
            weakdeps: _,
            bad: _,
        } = self;
    }
}

impl Model for Conf {
    ghost use Rattle.kmod_conf.specs.Configuration.{Configuration};

    ghost Value = { Configuration };

    ghost view = { λ c. record {
      aliases = c.aliases;
      blacklist = c.blacklist;
      options = c.options;
      installs = c.installs;
      removes = c.removes;
      softdeps = c.softdeps;
      weakdeps = c.weakdeps.items;
      bad = c.bad.items;
    } };
}

impl Conf {
    /// A configuration without lines.
    pub fn new(alloc: Global) -> Conf
        ensures { result ≡ no_lines }
    {
        Conf {
            aliases: PatternLines::new(alloc),
            blacklist: NamedLines::new(alloc),
            options: NamedLines::new(alloc),
            installs: PatternLines::new(alloc),
            removes: PatternLines::new(alloc),
            softdeps: PatternLines::new(alloc),
            weakdeps: Vec::new(alloc),
            bad: Vec::new(alloc),
        }
    }

    pub(crate) fn add_entry(&mut self, alloc: Global, entry: Entry) -> Result<(), AllocError>
        ensures { OnOk result (self.new ≡ with_entry self.old entry) }
    {
        match entry {
            Entry::Alias(line) => self.aliases.push(alloc, line),
            Entry::Blacklist(line) => self.blacklist.push(alloc, line),
            Entry::Options(line) => self.options.push(alloc, line),
            Entry::Install(line) => self.installs.push(alloc, line),
            Entry::Remove(line) => self.removes.push(alloc, line),
            Entry::Softdep(line) => self.softdeps.push(alloc, line),
            Entry::Weakdep(line) => {
                self.weakdeps.push(line)?;
                Ok(())
            }
            Entry::Bad(line) => {
                self.bad.push(line)?;
                Ok(())
            }
        }
    }

    /// Adds what the lines of a text of modprobe.d say (modprobe.d(5)) as this version of kmod reads them, after what is
    /// there; `source` is kept in their places. It fails only if memory runs out, and then some of the lines may be there.
    #[tactic(auto, unfolding(crate::specs::Configuration::conf_with_text))]
    pub fn add_text(
        &mut self,
        alloc: Global,
        kmod: Kmod,
        source: usize,
        text: &[u8],
    ) -> Result<(), AllocError>
        ensures { OnOk result (self.new ≡ conf_with_text kmod self.old source text.now) }
    {
        let mut lines = WrappedLines::new(kmod, text);
        let mut line = Vec::new(alloc);
        'lines: while let Some(numbers) = lines.next_line(&mut line)? {
            let place = Place {
                source,
                line: numbers.first,
            };
            let end = Place {
                source,
                line: numbers.last,
            };
            if let Some(entry) = Entry::read(alloc, kmod, &line, place, end)? {
                self.add_entry(alloc, entry)?;
            }
        }
        Ok(())
    }

    /// The alias lines, patterns and names in normal form.
    pub fn aliases(&self) -> &[AliasEntry]
        ensures { result.now ≡ self.now.aliases }
    {
        self.aliases.lines()
    }

    pub fn blacklist(&self) -> &[NameLine]
        ensures { result.now ≡ self.now.blacklist }
    {
        self.blacklist.lines()
    }

    pub fn options(&self) -> &[TextLine]
        ensures { result.now ≡ self.now.options }
    {
        self.options.lines()
    }

    pub fn installs(&self) -> &[TextLine]
        ensures { result.now ≡ self.now.installs }
    {
        self.installs.lines()
    }

    pub fn removes(&self) -> &[TextLine]
        ensures { result.now ≡ self.now.removes }
    {
        self.removes.lines()
    }

    pub fn softdeps(&self) -> &[SoftdepLine]
        ensures { result.now ≡ self.now.softdeps }
    {
        self.softdeps.lines()
    }

    pub fn weakdeps(&self) -> &[WeakdepLine]
        ensures { result.now ≡ self.now.weakdeps }
    {
        &self.weakdeps
    }

    /// The bad lines, each with its first word, and the place of the last of the lines that are joined in it.
    pub fn bad(&self) -> &[NameLine]
        ensures { result.now ≡ self.now.bad }
    {
        &self.bad
    }

    /// The aliases whose pattern the name matches, in order. It fails only if memory runs out.
    pub fn matching_aliases(
        &self,
        alloc: Global,
        name: &[u8],
    ) -> Result<Vec<&AliasEntry>, AllocError>
        ensures { IfOk result (λ found. map (λ entry. entry.now) found.items ≡ matching_aliases self.now name.now) }
    {
        self.aliases.matching(alloc, name)
    }

    /// The first softdep line whose name, as a pattern, the module matches. It fails only if memory runs out.
    pub fn softdep_of(&self, alloc: Global, name: &[u8]) -> Result<Option<&SoftdepLine>, AllocError>
        ensures { IfOk result (λ line. option_copied line ≡ softdep_of self.now name.now) }
    {
        self.softdeps.first(alloc, name)
    }

    /// The first install line whose name, as a pattern, the module matches. It fails only if memory runs out.
    pub fn install_of(&self, alloc: Global, name: &[u8]) -> Result<Option<&TextLine>, AllocError>
        ensures { IfOk result (λ line. option_copied line ≡ install_of self.now name.now) }
    {
        self.installs.first(alloc, name)
    }

    /// The first remove line whose name, as a pattern, the module matches. It fails only if memory runs out.
    pub fn remove_of(&self, alloc: Global, name: &[u8]) -> Result<Option<&TextLine>, AllocError>
        ensures { IfOk result (λ line. option_copied line ≡ remove_of self.now name.now) }
    {
        self.removes.first(alloc, name)
    }

    /// The options lines with text, in order, whose name is the module's or that of the alias by which it came. It
    /// fails only if memory runs out.
    pub fn options_of(
        &self,
        alloc: Global,
        name: &[u8],
        alias: Option<&[u8]>,
    ) -> Result<Vec<&TextLine>, AllocError>
        ensures { IfOk result (λ found. map (λ line. line.now) found.items
            ≡ options_of self.now name.now (option_map (λ own. own.now) alias.entry)) }
    {
        self.options.of(alloc, name, alias)
    }

    /// Whether a blacklist line has just this name.
    pub fn is_blacklisted(&self, name: &[u8]) -> bool
        ensures { result ≡ is_blacklisted self.now name.now }
    {
        self.blacklist.has(name)
    }

    /// The first install line that has just this name, not as a pattern.
    pub fn install_named(&self, name: &[u8]) -> Option<&TextLine>
        ensures { option_copied result ≡ install_named self.now name.now }
    {
        self.installs.named(name)
    }

    /// The first remove line that has just this name, not as a pattern.
    pub fn remove_named(&self, name: &[u8]) -> Option<&TextLine>
        ensures { option_copied result ≡ remove_named self.now name.now }
    {
        self.removes.named(name)
    }

    /// Whether an install line has just this name.
    pub fn has_install_named(&self, name: &[u8]) -> bool
        ensures { result ≡ has_install_named self.now name.now }
    {
        self.installs.has_named(name)
    }

    /// Whether a remove line has just this name.
    pub fn has_remove_named(&self, name: &[u8]) -> bool
        ensures { result ≡ has_remove_named self.now name.now }
    {
        self.removes.has_named(name)
    }
}
