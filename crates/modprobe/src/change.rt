//! What is made of one module of the table: a load, a removal, a drain, a reference. It takes no memory: room for a get is there.
ghost use Rattle.std.specs.Prelude.{◌≡◌, ◌<◌, length};
ghost use Rattle.text_parts.specs.Text.{texts_of};
ghost use Rattle.dep_index.specs.declared.table.calls.Call.TheVariants as calls;
ghost use Rattle.modprobe.specs.Refusals.{code_of, unload_code};
ghost use Rattle.modprobe.specs.Changes.{call_change, end_of_load, one_load, one_removal};
ghost use Rattle.modprobe.specs.ForProofs.{refusal_in};
ghost use Rattle.modprobe.specs.Sessions.{Makes};

use crate::refusal::{Code, SlotRefusal};
use crate::session::Session;
use dep_index::reads::is_draining;
use dep_index::{
    BeginDrainError, BeginLoadError, BeginRemoveError, CancelRemoveError, EndLoadError,
    EndRemoveError, GetError, PutError,
};
use load_plan::params_valid;
use seq_table::Modules;

#[tactic(auto, using(crate::proofs::SlotLemmas::modules_of_length))]
impl<'s, 't, M: Modules> Session<'s, 't, M> {
    pub(crate) fn begin_load(&mut self, slot: usize) -> Result<(), SlotRefusal>
        requires { slot < length self.old.setup.now.catalogue }
        ensures { Makes self.old self.new (refusal_in self.old.setup.now result) (λ s t. call_change s code_of slot (calls.BeginLoad slot) t) }
    {
        match self.table.begin_load(slot) {
            Ok(()) => Ok(()),
            Err(BeginLoadError::Exists) => Err(SlotRefusal::new(Code::Eexist, slot)),
            Err(BeginLoadError::UnknownSymbol) => Err(SlotRefusal::new(Code::UnknownSymbol, slot)),
            Err(BeginLoadError::NeedNotLive(need)) => Err(SlotRefusal::new(
                Code::NeedNotLive,
                need,
            )),
        }
    }

    pub(crate) fn end_load(&mut self, slot: usize, ok: bool) -> Result<(), SlotRefusal>
        requires { slot < length self.old.setup.now.catalogue }
        ensures { Makes self.old self.new (refusal_in self.old.setup.now result) (λ s t. call_change s code_of slot (calls.EndLoad slot ok) t) }
    {
        match self.table.end_load(slot, ok) {
            Ok(()) => Ok(()),
            Err(EndLoadError::NotLoading) => Err(SlotRefusal::new(Code::Ebusy, slot)),
        }
    }

    /// Ends a load, which fails if the words of its parameters are not valid.
    fn end_load_with(&mut self, slot: usize, valid: bool) -> Result<(), SlotRefusal>
        requires { slot < length self.old.setup.now.catalogue }
        ensures { Makes self.old self.new (refusal_in self.old.setup.now result) (λ s t. end_of_load s slot valid t) }
    {
        self.end_load(slot, valid)?;
        if valid {
            Ok(())
        } else {
            Err(SlotRefusal::new(Code::Einval, slot))
        }
    }

    /// Loads a module with the words of its parameters (init_module(2)).
    pub(crate) fn load(&mut self, slot: usize, words: &[&[u8]]) -> Result<(), SlotRefusal>
        requires { slot < length self.old.setup.now.catalogue }
        ensures { Makes self.old self.new (refusal_in self.old.setup.now result) (λ s t. one_load s slot (texts_of words.now) t) }
    {
        self.begin_load(slot)?;
        let valid = params_valid(self.setup.catalogue(), slot, words);
        self.end_load_with(slot, valid)
    }

    pub(crate) fn begin_remove(&mut self, slot: usize) -> Result<(), SlotRefusal>
        requires { slot < length self.old.setup.now.catalogue }
        ensures { Makes self.old self.new (refusal_in self.old.setup.now result) (λ s t. call_change s unload_code slot (calls.BeginRemove slot) t) }
    {
        match self.table.begin_remove(slot) {
            Ok(()) => Ok(()),
            Err(BeginRemoveError::NoEntry) => Err(SlotRefusal::new(Code::Enoent, slot)),
            Err(BeginRemoveError::NotLive | BeginRemoveError::Permanent) => {
                Err(SlotRefusal::new(Code::Ebusy, slot))
            }
            Err(BeginRemoveError::NeededBy | BeginRemoveError::InUse) => {
                Err(SlotRefusal::new(Code::Ewouldblock, slot))
            }
        }
    }

    pub(crate) fn end_remove(&mut self, slot: usize) -> Result<(), SlotRefusal>
        requires { slot < length self.old.setup.now.catalogue }
        ensures { Makes self.old self.new (refusal_in self.old.setup.now result) (λ s t. call_change s unload_code slot (calls.EndRemove slot) t) }
    {
        match self.table.end_remove(slot) {
            Ok(()) => Ok(()),
            Err(EndRemoveError::NotUnloading) => Err(SlotRefusal::new(Code::Ebusy, slot)),
            Err(EndRemoveError::InUse) => Err(SlotRefusal::new(Code::Ewouldblock, slot)),
        }
    }

    /// Calls off a removal or a drain.
    pub(crate) fn cancel_remove(&mut self, slot: usize) -> Result<(), SlotRefusal>
        requires { slot < length self.old.setup.now.catalogue }
        ensures { Makes self.old self.new (refusal_in self.old.setup.now result) (λ s t. call_change s unload_code slot (calls.CancelRemove slot) t) }
    {
        match self.table.cancel_remove(slot) {
            Ok(()) => Ok(()),
            Err(CancelRemoveError::NotUnloading) => Err(SlotRefusal::new(Code::Ebusy, slot)),
        }
    }

    /// Removes a module (delete_module(2)), or ends the removal of one that drains.
    pub(crate) fn remove(&mut self, slot: usize) -> Result<(), SlotRefusal>
        requires { slot < length self.old.setup.now.catalogue }
        ensures { Makes self.old self.new (refusal_in self.old.setup.now result) (λ s t. one_removal s slot t) }
    {
        if !is_draining(self.table.state(slot)) {
            self.begin_remove(slot)?;
        }
        self.end_remove(slot)
    }

    /// A module takes no further reference.
    pub(crate) fn drain(&mut self, slot: usize) -> Result<(), SlotRefusal>
        requires { slot < length self.old.setup.now.catalogue }
        ensures { Makes self.old self.new (refusal_in self.old.setup.now result) (λ s t. call_change s unload_code slot (calls.BeginDrain slot) t) }
    {
        match self.table.begin_drain(slot) {
            Ok(()) => Ok(()),
            Err(BeginDrainError::NoEntry) => Err(SlotRefusal::new(Code::Enoent, slot)),
            Err(BeginDrainError::NeededBy) => Err(SlotRefusal::new(Code::Ewouldblock, slot)),
            Err(BeginDrainError::NotLive | BeginDrainError::Permanent) => {
                Err(SlotRefusal::new(Code::Ebusy, slot))
            }
        }
    }

    /// A worker takes a reference.
    pub(crate) fn get(&mut self, slot: usize, worker: usize) -> Result<(), SlotRefusal>
        requires slot { slot < length self.old.setup.now.catalogue }
        requires worker { worker < length (M.table self.old.table.now).rows }
        requires room { M.has_room self.old.table.now worker }
        ensures { Makes self.old self.new (refusal_in self.old.setup.now result) (λ s t. call_change s code_of slot (calls.Get worker slot) t) }
    {
        match self.table.get(worker, slot) {
            Ok(()) => Ok(()),
            Err(GetError::NotLive) => Err(SlotRefusal::new(Code::NotLive, slot)),
            Err(GetError::TooMany) => Err(SlotRefusal::new(Code::TooMany, slot)),
        }
    }

    /// A worker puts a reference back.
    pub(crate) fn put(&mut self, slot: usize, worker: usize) -> Result<(), SlotRefusal>
        requires slot { slot < length self.old.setup.now.catalogue }
        requires worker { worker < length (M.table self.old.table.now).rows }
        ensures { Makes self.old self.new (refusal_in self.old.setup.now result) (λ s t. call_change s code_of slot (calls.Put worker slot) t) }
    {
        match self.table.put(worker, slot) {
            Ok(()) => Ok(()),
            Err(PutError::NotHeld) => Err(SlotRefusal::new(Code::NotHeld, slot)),
        }
    }
}
