//! What is reported of a module: the lines that count for it, and those that do not.

use crate::heads::Heads;
use crate::kernel_list::is_allowed;
use crate::told::{Told, line_spot};
use answer_facts::{
    Blacklist, Command, IdleFact, LineFact, ModuleFact, Outcome, Passed, Setting, Spot, StateFact,
    What,
};
use kmod_conf::TextLine;
use modprobe_files::{COMMAND_LINE, MODULES};
use std::alloc::AllocError;
use text_parts::is_same;

/// Of which kind the lines with a command are.
pub(crate) fn setting_of(command: Command) -> Setting {
    match command {
        Command::Install => Setting::Install,
        Command::Remove => Setting::Remove,
    }
}

/// Options of a module, which a line of its own name has or one of the alias by which it came.
fn options_of<'a>(name: &[u8], line: &'a TextLine) -> LineFact<'a> {
    let (alias, text) = (line.name.as_bytes(), line.text.as_bytes());
    if is_same(alias, name) {
        LineFact::Options(text)
    } else {
        LineFact::AliasOptions { text, alias }
    }
}

impl<'a> Told<'_, 'a> {
    /// Tells what /sys/module says of a module.
    pub(crate) fn tell_state(
        &mut self,
        name: &'a [u8],
        state: StateFact<'a>,
    ) -> Result<(), AllocError> {
        self.say(name, What::State(state), Spot::Whole(MODULES))
    }

    /// Tells that the kernel has a module, and what follows.
    pub(crate) fn tell_in_kernel(
        &mut self,
        name: &'a [u8],
        outcome: Outcome,
    ) -> Result<(), AllocError> {
        if self.known.is_live(name) {
            self.tell_state(name, StateFact::Loaded(outcome))
        } else {
            self.tell_built_in(name, outcome)
        }
    }

    /// Tells the blacklist lines of a module.
    pub(crate) fn tell_blacklist(
        &mut self,
        name: &'a [u8],
        effect: Blacklist,
    ) -> Result<(), AllocError> {
        let named = self.known.named;
        let what = What::Module(ModuleFact::Blacklisted(effect));
        self.say_of_each(name, what, &named.blacklist, None)
    }

    /// Tells that the kernel's command line keeps the kernel from loading a module.
    pub(crate) fn tell_refused(&mut self, name: &'a [u8]) -> Result<(), AllocError> {
        if is_allowed(self.known.refused, name) {
            return Ok(());
        }
        let what = What::Module(ModuleFact::KernelRefuses);
        self.say(name, what, line_spot(COMMAND_LINE, 1))
    }

    /// Tells that no module has a name, by which an alias may be switched off.
    pub(crate) fn tell_no_module(&mut self, name: &'a [u8]) -> Result<(), AllocError> {
        let fact = if is_same(name, b"off") {
            ModuleFact::SwitchedOff
        } else {
            ModuleFact::NoModule
        };
        self.say(name, What::Module(fact), Spot::Nowhere)
    }

    /// Tells the options of a module, and of the alias by which it came.
    pub(crate) fn tell_options(
        &mut self,
        name: &'a [u8],
        alias: Option<&[u8]>,
    ) -> Result<(), AllocError> {
        let asked = self.known.asked;
        let conf = asked.world.conf;
        let lines = conf.options_of(self.alloc, name, alias)?;
        for line in lines.iter() {
            self.say_of(name, What::Line(options_of(name, line)), line.place)?;
        }
        Ok(())
    }

    /// Tells the line whose command counts for a module, or why it is passed over, and the lines of this very name that
    /// do not count.
    pub(crate) fn tell_commands(
        &mut self,
        name: &'a [u8],
        command: Command,
        line: Option<&'a TextLine>,
        lines: &Heads<'_>,
        passed: Passed,
    ) -> Result<(), AllocError> {
        let mut counting = None;
        if let Some(line) = line {
            let text = line.text.as_bytes();
            let fact = LineFact::Command {
                command,
                text,
                passed,
            };
            self.say_of(name, What::Line(fact), line.place)?;
            counting = Some(line.place);
        }
        let what = What::Idle(IdleFact::Later(setting_of(command)));
        self.say_of_each(name, what, lines, counting)
    }
}
