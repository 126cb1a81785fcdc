//! Which softdep lines lead to a module: those that have it, and count for a module themselves.

use crate::heads::Heads;
use crate::tasks::SoftWords;
use crate::told::Told;
use answer_facts::Side;
use kmod_conf::SoftdepLine;
use kmod_names::{Place, Text, name_of_path};
use kmod_query::{Finding, find_name, find_word};
use machine_lint::has_pattern;
use std::alloc::AllocError;
use text_parts::is_same;

impl<'a> Told<'_, 'a> {
    /// Whether a word stands for a module.
    pub(crate) fn leads_to(&self, word: &[u8], name: &[u8]) -> Result<bool, AllocError> {
        let objects = find_word(self.alloc, &self.known.asked.world, word)?;
        Ok(objects.iter().any(|object| is_same(&object.name, name)))
    }

    /// Tells those soft items on one side of a module that stand for another one.
    fn tell_soft_items(
        &mut self,
        name: &[u8],
        side: Side,
        line: &'a SoftdepLine,
    ) -> Result<(), AllocError> {
        let own = SoftWords::of(line.name.as_bytes(), side, line);
        for word in own.words {
            if self.leads_to(word.as_bytes(), name)? {
                self.say_soft_word(own, word.as_bytes())?;
            }
        }
        Ok(())
    }

    /// Whether a name is that of lines with a command, and of no alias of the configuration, which would come first.
    fn is_commanded(&self, name: &[u8]) -> Result<bool, AllocError> {
        let finding = find_name(self.alloc, &self.known.asked.world, name)?;
        Ok(matches!(&finding, Finding::Commanded))
    }

    /// Whether softdep lines of a name may count: they do for the name of a module or of lines with a command, and for one to
    /// which an alias line leads.
    fn may_be_module(&self, name: &[u8]) -> Result<bool, AllocError> {
        let known = self.known;
        Ok(
            known.has_file(name)
                || known.is_built_in(name, false)
                || known.is_target(name)
                || self.is_commanded(name)?,
        )
    }

    /// Whether a softdep line is the one that counts for a name: the first that matches it.
    fn is_first(&self, line: &SoftdepLine, name: &[u8]) -> Result<bool, AllocError> {
        let asked = self.known.asked;
        let conf = asked.world.conf;
        match conf.softdep_of(self.alloc, name)? {
            Some(counting) => Ok(counting.place == line.place),
            None => Ok(false),
        }
    }

    /// Whether a softdep line counts for a module of modules.dep.
    fn counts_for_file(&self, line: &SoftdepLine) -> Result<bool, AllocError> {
        let asked = self.known.asked;
        let lines = asked.world.index.dep_lines(self.alloc)?;
        for own in &lines {
            let name = own.name(self.alloc)?;
            if self.is_first(line, name.as_bytes())? {
                return Ok(true);
            }
        }
        Ok(false)
    }

    /// Whether a softdep line counts for a module of modules.builtin.
    fn counts_for_built_in(&self, line: &SoftdepLine) -> Result<bool, AllocError> {
        let text = self.known.sources.builtin;
        for path in text.split(|byte| *byte == b'\n') {
            let name = name_of_path(self.alloc, path)?;
            let name = name.as_bytes();
            if self.known.is_built_in(name, false) && self.is_first(line, name)? {
                return Ok(true);
            }
        }
        Ok(false)
    }

    /// Whether a softdep line counts for the module of an alias line.
    fn counts_for_target(&self, line: &SoftdepLine) -> Result<bool, AllocError> {
        let asked = self.known.asked;
        let conf = asked.world.conf;
        for alias in conf.aliases() {
            if self.is_first(line, alias.target.as_bytes())? {
                return Ok(true);
            }
        }
        Ok(false)
    }

    /// Whether a softdep line counts for a name of lines with a command.
    fn counts_for_command(
        &self,
        line: &SoftdepLine,
        commands: &Heads<'_>,
    ) -> Result<bool, AllocError> {
        for own in commands.all() {
            if self.is_first(line, own.name)? && self.is_commanded(own.name)? {
                return Ok(true);
            }
        }
        Ok(false)
    }

    /// Whether a softdep line counts for a module: that of its very name, or one that its pattern matches and no earlier line.
    fn counts(&self, line: &SoftdepLine) -> Result<bool, AllocError> {
        let name = line.name.as_bytes();
        if !has_pattern(name) {
            return Ok(self.may_be_module(name)? && self.is_first(line, name)?);
        }
        let named = self.known.named;
        Ok(
            self.counts_for_file(line)?
                || self.counts_for_built_in(line)?
                || self.counts_for_target(line)?
                || self.counts_for_command(line, &named.installs)?
                || self.counts_for_command(line, &named.removes)?,
        )
    }

    /// Whether one of the words of a softdep line stands for a module.
    fn has_lead(&self, words: &[Text], name: &[u8]) -> Result<bool, AllocError> {
        for word in words {
            if self.leads_to(word.as_bytes(), name)? {
                return Ok(true);
            }
        }
        Ok(false)
    }

    /// Tells the words of a softdep line that stand for a module, if the line counts for one.
    pub(crate) fn tell_softdep(
        &mut self,
        line: &'a SoftdepLine,
        name: &[u8],
    ) -> Result<(), AllocError> {
        // Whether it counts is asked last: for a pattern that goes through all modules.
        let leads = self.has_lead(line.items.pre(), name)?
            || self.has_lead(line.items.post(), name)?;
        if !leads || !self.counts(line)? {
            return Ok(());
        }
        self.tell_soft_items(name, Side::Before, line)?;
        self.tell_soft_items(name, Side::After, line)
    }
}
