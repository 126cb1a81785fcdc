//! Why a command of a session was refused, as people are told after its code.
ghost use Rattle.std.specs.Prelude.{◌≡◌, ◌<◌, length, IfSome, Some};
ghost use Rattle.dep_index.specs.Catalogue.{slot_named};

use crate::commands::{form_of, near_commands};
use crate::holders::{holders, users};
use crate::lists::Row;
use crate::near::is_near;
use crate::witness::Kept;
use dep_index::ModuleState;
use modprobe::{Code, Refusal, Setup};
use program_frame::Shown;
use seq_table::Modules;
use std::alloc::{AllocError, Global};
use std::io::Write;

/// A refused command: its words, and why it is refused, over the table after it.
#[derive(Drop)]
pub(crate) struct Cause<'a, M> {
    pub(crate) alloc: Global,
    pub(crate) setup: &'a Setup,
    pub(crate) table: &'a M,
    pub(crate) words: &'a [&'a [u8]],
    pub(crate) refusal: Refusal<'a>,
}

fn state_word(state: ModuleState) -> &'static str {
    match state {
        ModuleState::Absent => "absent",
        ModuleState::Loading => "loading",
        ModuleState::Live => "live",
        ModuleState::Draining => "draining",
        ModuleState::Unloading => "unloading",
    }
}

impl<'a, M: Modules> Cause<'a, M> {
    /// The slot of the module of the name.
    pub(crate) fn slot(&self) -> Option<usize>
        ensures named { IfSome result (λ slot. slot_named self.now.setup.now.catalogue self.now.refusal.name.now ≡ Some slot) }
        ensures catalogue { IfSome result (λ slot. slot < length self.now.setup.now.catalogue) }
        ensures table { IfSome result (λ slot. slot < length (M.catalogue self.now.table.now)) }
    {
        let slot = self.setup.catalogue().slot(self.refusal.name)?;
        if slot < self.table.slots() && slot < self.setup.catalogue().len() {
            Some(slot)
        } else {
            None
        }
    }

    /// Whether this is the first word of the command.
    pub(crate) fn is_command(&self, word: &[u8]) -> bool {
        self.words.first().is_some_and(|first| *first == word)
    }

    /// Tells why, after what was told before.
    fn tell_why<E: Write>(&self, why: &str, errors: &mut E) {
        let _ = write!(errors, ": {why}");
    }

    /// Tells the state of the module.
    fn tell_state<E: Write>(&self, errors: &mut E) {
        if let Some(slot) = self.slot() {
            let state = state_word(self.table.state(slot));
            let _ = write!(errors, ": it is {state}");
        }
    }

    /// Tells the state of a module that is needed.
    fn tell_need<E: Write>(&self, errors: &mut E) {
        if let Some(slot) = self.slot() {
            let (name, state) = (Shown(self.refusal.name), state_word(self.table.state(slot)));
            let _ = write!(errors, ": it needs {name}, which is {state}");
        }
    }

    /// Tells why a module is busy.
    fn tell_busy<E: Write>(&self, errors: &mut E) {
        match self.slot() {
            Some(slot) if self.setup.catalogue().permanent(slot) => {
                self.tell_why("it is permanent", errors)
            }
            _ => self.tell_state(errors),
        }
    }

    /// The names of the modules in these slots.
    fn names_at(&self, slots: &[usize]) -> Result<Vec<Shown<'a>>, AllocError> {
        let catalogue = self.setup.catalogue();
        let mut names = Vec::new(self.alloc);
        for slot in slots {
            if *slot < catalogue.len() {
                names.push(Shown(catalogue.name(*slot)))?;
            }
        }
        Ok(names)
    }

    /// Tells the workers that hold the module in a slot.
    fn tell_holders<E: Write>(&self, workers: &[usize], errors: &mut E) {
        let row = Row::all(workers);
        let _ = match workers.len() {
            0 => Ok(()),
            1 => write!(errors, ": worker {row} holds it"),
            _ => write!(errors, ": workers {row} hold it"),
        };
    }

    /// Tells the modules that need the module, or else the workers that hold it.
    fn tell_use<E: Write>(&self, errors: &mut E) -> Result<(), AllocError> {
        let Some(slot) = self.slot() else {
            return Ok(());
        };
        let users = users(self.alloc, self.table, slot)?;
        let names = self.names_at(&users)?;
        if names.is_empty() {
            let workers = holders(self.alloc, self.table, slot)?;
            self.tell_holders(&workers, errors);
        } else {
            let row = Row::all(&names);
            let _ = write!(errors, ": needed by {row}");
        }
        Ok(())
    }

    /// The names of modules that are nearly this one.
    fn near_names(&self) -> Result<Vec<Shown<'a>>, AllocError> {
        let catalogue = self.setup.catalogue();
        let mut near = Vec::new(self.alloc);
        for slot in 0..catalogue.len() {
            let own = catalogue.name(slot);
            if is_near(own, self.refusal.name) {
                near.push(Shown(own))?;
            }
        }
        Ok(near)
    }

    /// Asks whether one of these names was meant, if there is one.
    fn tell_near<E: Write>(&self, near: &[Shown<'_>], errors: &mut E) {
        if !near.is_empty() {
            let row = Row::one(near);
            let _ = write!(errors, ": is it {row}?");
        }
    }

    /// Tells why there is no module: it is absent, or no module has the name.
    fn tell_absent<E: Write>(&self, errors: &mut E) -> Result<(), AllocError> {
        if self.slot().is_some() {
            self.tell_why("it is absent", errors);
            return Ok(());
        }
        self.tell_why("no module has this name", errors);
        let near = self.near_names()?;
        self.tell_near(&near, errors);
        Ok(())
    }

    /// Tells the form of a command that begins with the name, or that there is none.
    fn tell_form<E: Write>(&self, errors: &mut E) -> Result<(), AllocError> {
        if let Some(form) = form_of(self.refusal.name) {
            let _ = write!(errors, ": the form is {form}");
            return Ok(());
        }
        self.tell_why("no command has this name", errors);
        let near = near_commands(self.alloc, self.refusal.name)?;
        self.tell_near(&near, errors);
        Ok(())
    }

    /// Tells which workers there are.
    fn tell_workers<E: Write>(&self, errors: &mut E) {
        match self.table.workers().saturating_sub(1) {
            0 => self.tell_why("the one worker is 0", errors),
            last => {
                let _ = write!(errors, ": the workers are 0 to {last}");
            }
        }
    }

    /// Tells why a command was refused, after its code.
    pub(crate) fn tell<E: Write>(&self, kept: &Kept<'_>, errors: &mut E) -> Result<(), AllocError> {
        match self.refusal.code {
            Code::Syntax => return self.tell_form(errors),
            Code::Enoent => return self.tell_absent(errors),
            Code::Einval => return self.tell_value(errors),
            Code::Ewouldblock => return self.tell_use(errors),
            Code::Install => return self.tell_setting(b"install", kept, errors),
            Code::Remove => return self.tell_setting(b"remove", kept, errors),
            Code::Cycle => return self.tell_cycle(kept, errors),
            Code::UnknownSymbol => return self.tell_symbol(kept, errors),
            Code::TooMany => self.tell_why("the worker holds 65,535 references to it", errors),
            Code::NotHeld => self.tell_why("the worker holds no reference to it", errors),
            Code::Worker => self.tell_workers(errors),
            Code::Eexist | Code::NotLive => self.tell_state(errors),
            Code::Ebusy => self.tell_busy(errors),
            Code::NeedNotLive => self.tell_need(errors),
        }
        Ok(())
    }
}
