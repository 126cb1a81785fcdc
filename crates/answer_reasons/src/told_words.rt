//! What is reported of a word of a command line or of a softdep line.

use crate::near_names::{NEAREST_FIRST, Nearness, nearness_of};
use crate::told::{Told, line_spot};
use answer_facts::{Command, MissingFact, NameFact, Outcome, Spot, StateFact, What};
use kmod_index::{DepLine, IndexLine};
use kmod_names::{AliasEntry, normal_alias};
use kmod_query::{Ask, Finding, Object, find_name};
use std::alloc::AllocError;

pub(crate) const DEPENDENCIES: &[u8] = b"modules.dep";

pub(crate) const ALIASES: &[u8] = b"modules.alias";

const SYMBOLS: &[u8] = b"modules.symbols";

const BUILTIN: &[u8] = b"modules.builtin";

const BUILTIN_MODINFO: &[u8] = b"modules.builtin.modinfo";

/// How many near names are told.
const NEAR_NAMES: usize = 3;

impl<'a> Told<'_, 'a> {
    fn tell_configured(
        &mut self,
        word: &'a [u8],
        entries: &[&'a AliasEntry],
    ) -> Result<(), AllocError> {
        for entry in entries {
            let (of, pattern) = (entry.target.as_bytes(), entry.pattern.as_bytes());
            self.say_of(
                word,
                What::Name(NameFact::Alias { of, pattern }),
                entry.place,
            )?;
            self.tell_if_built_in(of, of)?;
        }
        Ok(())
    }

    fn tell_module(&mut self, word: &'a [u8], line: &DepLine<'a>) -> Result<(), AllocError> {
        let what = What::Name(NameFact::Module(line.path()));
        self.say(word, what, line_spot(DEPENDENCIES, line.number()))
    }

    fn tell_exported(&mut self, word: &'a [u8], lines: &[IndexLine]) -> Result<(), AllocError> {
        for line in lines {
            let what = What::Name(NameFact::Exported(self.kept(line.name())?));
            self.say(word, what, line_spot(SYMBOLS, line.number()))?;
        }
        Ok(())
    }

    /// Tells the aliases of modules.
    fn tell_aliased(&mut self, word: &'a [u8], lines: &[IndexLine]) -> Result<(), AllocError> {
        for line in lines {
            let (of, pattern) = (self.kept(line.name())?, self.kept(line.key())?);
            let what = What::Name(NameFact::Alias { of, pattern });
            self.say(word, what, line_spot(ALIASES, line.number()))?;
        }
        Ok(())
    }

    /// Tells the aliases of modules that are built in.
    fn tell_aliased_built_in(
        &mut self,
        word: &'a [u8],
        lines: &[IndexLine],
    ) -> Result<(), AllocError> {
        for line in lines {
            let (of, pattern) = (self.kept(line.name())?, self.kept(line.key())?);
            let what = What::Name(NameFact::BuiltInAlias { of, pattern });
            self.say(
                word,
                what,
                Spot::Entry(BUILTIN_MODINFO, line.number() as u64),
            )?;
        }
        Ok(())
    }

    /// Tells the line of a command by whose very name a word is found: the first install line, or else the first remove line.
    fn tell_commanded(&mut self, word: &'a [u8], name: &[u8]) -> Result<(), AllocError> {
        let asked = self.known.asked;
        let conf = asked.world.conf;
        let (command, line) = match conf.install_named(name) {
            Some(line) => (Command::Install, Some(line)),
            None => (Command::Remove, conf.remove_named(name)),
        };
        match line {
            Some(line) => self.say_of(word, What::Name(NameFact::Named(command)), line.place),
            None => Ok(()),
        }
    }

    /// The line of a module that is built in.
    fn built_in_spot(&self, name: &[u8]) -> Spot<'a> {
        match self.known.named.builtins.of(name).first() {
            Some(number) => line_spot(BUILTIN, *number),
            None => Spot::Nowhere,
        }
    }

    /// Tells that a module is built in, and what follows.
    pub(crate) fn tell_built_in(
        &mut self,
        name: &'a [u8],
        outcome: Outcome,
    ) -> Result<(), AllocError> {
        let spot = self.built_in_spot(name);
        self.say(name, What::State(StateFact::BuiltIn(outcome)), spot)
    }

    /// Tells that a word, whose normal form is a name, is that of a module which is built in.
    fn tell_built_in_name(&mut self, word: &'a [u8], name: &[u8]) -> Result<(), AllocError> {
        let spot = self.built_in_spot(name);
        self.say(word, What::Name(NameFact::BuiltIn), spot)
    }

    /// Tells that a word is the name of a line with a command, and of a module that is built in, if it is.
    fn tell_named(&mut self, word: &'a [u8], name: &[u8]) -> Result<(), AllocError> {
        self.tell_commanded(word, name)?;
        self.tell_if_built_in(word, name)
    }

    /// Tells that a word, whose normal form is a name, is that of a module which is built in, if it is. A dry run and a
    /// removal tell that of each module.
    fn tell_if_built_in(&mut self, word: &'a [u8], name: &[u8]) -> Result<(), AllocError> {
        let is_told = matches!(self.known.asked.query.ask, Ask::DryRun) || self.known.is_removal();
        if is_told || !self.known.is_built_in(name, false) {
            return Ok(());
        }
        self.tell_built_in_name(word, name)
    }

    /// Tells what is wrong with a word.
    fn tell_missing(&mut self, word: &'a [u8], fact: MissingFact<'a>) -> Result<(), AllocError> {
        self.say(word, What::Missing(fact), Spot::Nowhere)
    }

    /// Tells why a word, whose normal form is a name, stands for modules, or that it stands for none.
    fn tell_finding(
        &mut self,
        word: &'a [u8],
        name: &[u8],
        finding: &Finding<'a>,
    ) -> Result<(), AllocError> {
        match finding {
            Finding::Configured(entries) => self.tell_configured(word, entries),
            Finding::Module(line) => self.tell_module(word, line),
            Finding::Exported(lines) => self.tell_exported(word, lines),
            Finding::Commanded => self.tell_named(word, name),
            Finding::Aliased(lines) => self.tell_aliased(word, lines),
            Finding::BuiltIn => self.tell_built_in_name(word, name),
            Finding::AliasedBuiltIn(lines) => self.tell_aliased_built_in(word, lines),
            Finding::Nothing => self.tell_missing(word, MissingFact::NotFound),
        }
    }

    /// The normal form of a word; None if it is no name.
    pub(crate) fn normal(&self, word: &[u8]) -> Result<Option<&'a [u8]>, AllocError> {
        match normal_alias(self.alloc, word)? {
            Some(name) => Ok(Some(self.kept(name.as_bytes())?)),
            None => Ok(None),
        }
    }

    /// Tells why a word, whose normal form is a name, stands for modules, which are answered.
    fn tell_found(
        &mut self,
        word: &'a [u8],
        name: &'a [u8],
        finding: &Finding<'a>,
    ) -> Result<Option<Vec<Object>>, AllocError> {
        self.tell_finding(word, name, finding)?;
        let objects = finding.objects(self.alloc, name)?;
        self.tell_blacklisted_alias(name, &objects)?;
        Ok(Some(objects))
    }

    /// Tells why a word stands for modules, which are answered. None if it is no name.
    pub(crate) fn tell_word(&mut self, word: &'a [u8]) -> Result<Option<Vec<Object>>, AllocError> {
        match self.normal(word)? {
            Some(name) => {
                let finding = find_name(self.alloc, &self.known.asked.world, name)?;
                self.tell_found(word, name, &finding)
            }
            None => {
                self.tell_missing(word, MissingFact::NoName)?;
                Ok(None)
            }
        }
    }

    /// Tells at most so many modules whose names are so near to `name`. Returns how many more may be told.
    fn tell_as_near(
        &mut self,
        word: &'a [u8],
        name: &[u8],
        lines: &[DepLine<'_>],
        nearness: Nearness,
        most: usize,
    ) -> Result<usize, AllocError> {
        let mut left = most;
        for line in lines {
            if left == 0 {
                return Ok(0);
            }
            let own = self.module_of(line)?;
            if nearness_of(self.alloc, own, name)? == Some(nearness) {
                let what = What::Missing(MissingFact::Near(own));
                self.say(word, what, line_spot(DEPENDENCIES, line.number()))?;
                left -= 1;
            }
        }
        Ok(left)
    }

    /// Tells at most `NEAR_NAMES` modules whose names are `name` or near it, the nearest first.
    fn tell_near_names(&mut self, word: &'a [u8], name: &[u8]) -> Result<(), AllocError> {
        let asked = self.known.asked;
        let lines = asked.world.index.dep_lines(self.alloc)?;
        let mut left = NEAR_NAMES;
        for nearness in NEAREST_FIRST.iter() {
            left = self.tell_as_near(word, name, &lines, *nearness, left)?;
        }
        Ok(())
    }

    /// Tells modules whose names are near a word that stands for none, for the first such words.
    pub(crate) fn tell_near(&mut self, word: &'a [u8]) -> Result<(), AllocError> {
        if self.searches == 0 {
            return Ok(());
        }
        self.searches -= 1;
        let name = self.name_at(word)?;
        self.tell_near_names(word, name)
    }
}
