//! Lines of the configuration that have no effect.

use crate::heads::{Head, Heads};
use crate::told::Told;
use answer_facts::{IdleFact, Setting, What};
use kmod_conf::TextLine;
use kmod_names::{AliasEntry, Place};
use kmod_query::{Finding, find_name};
use machine_lint::has_pattern;
use modprobe_files::COMMAND_LINE;
use std::alloc::AllocError;
use text_parts::is_same;

/// Whether the lines of a file are a person's: neither what depmod(8) writes into the folder of modules nor what the kernel was
/// booted with.
fn is_edited(path: &[u8]) -> bool {
    !is_same(path, COMMAND_LINE)
        && !path.ends_with(b"/modules.softdep")
        && !path.ends_with(b"/modules.weakdep")
}

impl<'a> Told<'_, 'a> {
    /// Says that a line has no effect, if a person can edit it.
    fn say_idle(
        &mut self,
        name: &'a [u8],
        fact: IdleFact<'a>,
        place: Place,
    ) -> Result<(), AllocError> {
        if is_edited(self.known.sources.path(place.source)) {
            self.say_of(name, What::Idle(fact), place)?;
        }
        Ok(())
    }

    /// Whether options of a name may count: it stands for a module, may be that of one, or is the pattern of an alias line.
    fn is_known(&self, name: &[u8]) -> Result<bool, AllocError> {
        if !self.known.named.aliases.numbers(name).is_empty() {
            return Ok(true);
        }
        let finding = find_name(self.alloc, &self.known.asked.world, name)?;
        if !matches!(&finding, Finding::Nothing) {
            return Ok(true);
        }
        self.known.is_module(self.alloc, name)
    }

    /// Tells the alias lines whose module is not there. `off` stands for none on purpose.
    fn tell_idle_aliases(&mut self, lines: &'a [AliasEntry]) -> Result<(), AllocError> {
        for line in lines {
            let target = line.target.as_bytes();
            let is_off = is_same(target, b"off");
            if !is_off && !self.known.is_module(self.alloc, target)? && !self.has_softdep(target)? {
                let fact = IdleFact::Alias(target);
                self.say_idle(line.pattern.as_bytes(), fact, line.place)?;
            }
        }
        Ok(())
    }

    /// Whether a softdep line counts for a name.
    fn has_softdep(&self, name: &[u8]) -> Result<bool, AllocError> {
        let asked = self.known.asked;
        let conf = asked.world.conf;
        Ok(conf.softdep_of(self.alloc, name)?.is_some())
    }

    /// Tells the lines whose name no module has, and to which no alias line leads. If `has_patterns`, a name that is a pattern
    /// is skipped.
    fn tell_idle_names(
        &mut self,
        lines: &[Head<'a>],
        has_patterns: bool,
        setting: Setting,
    ) -> Result<(), AllocError> {
        for line in lines {
            let passes = (has_patterns && has_pattern(line.name))
                || self.known.is_target(line.name);
            if !passes && !self.known.is_module(self.alloc, line.name)? {
                self.say_idle(line.name, IdleFact::Unknown(setting), line.place)?;
            }
        }
        Ok(())
    }

    fn tell_idle_options(&mut self, lines: &'a [TextLine]) -> Result<(), AllocError> {
        for line in lines {
            let name = line.name.as_bytes();
            if !self.is_known(name)? {
                self.say_idle(name, IdleFact::Unknown(Setting::Options), line.place)?;
            }
        }
        Ok(())
    }

    /// Tells lines of a kind whose name an earlier one has.
    fn tell_later_lines(&mut self, setting: Setting, lines: &Heads<'a>) -> Result<(), AllocError> {
        for (number, line) in lines.all().iter().enumerate() {
            if lines.numbers(line.name).first() != Some(&number) {
                self.say_idle(line.name, IdleFact::Later(setting), line.place)?;
            }
        }
        Ok(())
    }

    /// Tells the lines of the configuration that have no effect, of those that a person can edit.
    pub(crate) fn tell_idle(&mut self) -> Result<(), AllocError> {
        let asked = self.known.asked;
        let conf = asked.world.conf;
        let named = self.known.named;
        self.tell_idle_names(named.blacklist.all(), false, Setting::Blacklist)?;
        self.tell_idle_aliases(conf.aliases())?;
        self.tell_idle_options(conf.options())?;
        self.tell_idle_names(named.softdeps.all(), true, Setting::Softdep)?;
        self.tell_later_lines(Setting::Install, &named.installs)?;
        self.tell_later_lines(Setting::Remove, &named.removes)?;
        self.tell_later_lines(Setting::Softdep, &named.softdeps)
    }
}
