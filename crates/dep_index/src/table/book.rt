//! The book of a table: the states of all slots, and the order of loading.
ghost use Rattle.std.specs.Prelude.{ℕ, ◌≡◌, ◌<◌, ◌==◌, ◌&&◌, [], true, length, slice_index, IfOk};
ghost use Rattle.std.specs.List.{list_any};
ghost use Rattle.dep_index.specs.Table.{state_of, needs_slot, users, has_users};
ghost use Rattle.dep_index.specs.Calls.{slot_of, book_refusal, unload_refusal, book_effect, opening, with_state, without};
ghost use Rattle.dep_index.specs.Refusals.{refusal_of, begin_load_refusal, end_load_refusal, begin_drain_refusal, begin_remove_refusal, end_remove_refusal, cancel_remove_refusal};
ghost use Rattle.dep_index.specs.declared.table.calls.Call.TheVariants.{BeginLoad, EndLoad, EndRemove, CancelRemove};

use crate::reads;
use crate::table::calls::{Call, Reply};
use crate::table::order::Order;
use crate::table::refusals::{
    BeginDrainError, BeginLoadError, BeginRemoveError, CancelRemoveError, EndLoadError,
    EndRemoveError, Refusal,
};
use crate::table::slots::Slots;
use crate::table::states::ModuleState;
use std::alloc::{AllocError, Global};
use std::marker::Model;

/// The states of all slots, and the order of loading. Contracts see them as the definition's book.
///
/// Its order has room for every slot, so that no load takes memory, and a module enters and leaves it in the same time
/// however many are loaded. The catalogue is its caller's: each refusal that asks for needs or marks takes the slots.
#[derive(Drop)]
pub struct Book {
    states: Vec<ModuleState>,
    order: Order,
}

impl Model for Book {
    ghost use Rattle.dep_index.specs.Table.{Book};

    ghost Value = { Book };

    ghost use Rattle.dep_index.specs.Table.Kept.{HasRoom};

    ghost view = { λ b. record { states = b.states.items; order = b.order.slots } };

    ghost invariant = { λ b. HasRoom b.states.items b.order };
}

/// Whether one of the users needs the slot, and stands in the order.
fn any_loaded(order: &Order, slots: &Slots, slot: usize, users: &[u16]) -> bool
    ensures { result ≡ list_any (λ u. list_any (λ s. s == u) order.now.slots && needs_slot slots.now slot u) users.now }
{
    users.iter().any(|user| order.holds(*user) && reads::needs_slot(slots, slot, *user))
}

impl Book {
    /// The book of a catalogue whose modules are all Absent. It fails only out of memory.
    pub fn new(alloc: Global, slots: &Slots) -> Result<Book, AllocError>
        ensures { IfOk result (λ book. book ≡ (opening slots.now 0).book) }
    {
        let count = slots.len();
        Ok(Book {
            states: vec![in alloc; ModuleState::Absent; count]?,
            order: Order::new(alloc, count)?,
        })
    }

    /// The state of a slot, Absent past the end.
    pub fn state(&self, slot: usize) -> ModuleState
        ensures { result ≡ state_of self.now slot }
    {
        reads::state_at(&self.states, slot)
    }

    /// How many modules the table has, in any state but Absent.
    pub fn loaded(&self) -> usize
        ensures { result ≡ length self.now.order }
    {
        self.order.len()
    }

    /// A module of the table by its age, the oldest at 0.
    pub fn loaded_at(&self, place: usize) -> usize
        requires { place < length self.now.order }
        ensures { result ≡ slice_index self.now.order place }
    {
        self.order.at(place) as usize
    }

    /// How many modules of the table need the slot.
    pub fn user_count(&self, slots: &Slots, slot: usize) -> usize
        ensures { result ≡ length (users slots.now self.now slot) }
    {
        self.order.user_count(slots, slot)
    }

    /// Whether a module of the table needs the slot.
    fn has_users(&self, slots: &Slots, slot: usize) -> bool
        ensures { result ≡ has_users slots.now self.now slot }
    {
        any_loaded(&self.order, slots, slot, slots.users(slot))
    }

    /// Why no load of the slot begins; None if one does.
    pub fn load_refusal(&self, slots: &Slots, slot: usize) -> Option<BeginLoadError>
        requires { slot < length slots.now }
        ensures { refusal_of begin_load_refusal result ≡ book_refusal slots.now self.now (BeginLoad slot) }
    {
        if !reads::is_absent(self.state(slot)) {
            return Some(BeginLoadError::Exists);
        }
        if slots.unknown_symbol(slot) {
            return Some(BeginLoadError::UnknownSymbol);
        }
        reads::first_missing(&self.states, slots.needs(slot)).map(
            |need| BeginLoadError::NeedNotLive(need as usize),
        )
    }

    /// Why no load of the slot ends; None if one does.
    pub fn end_load_refusal(&self, slot: usize) -> Option<EndLoadError>
        ensures { refusal_of end_load_refusal result ≡ book_refusal [] self.now (EndLoad slot true) }
    {
        if reads::is_loading(self.state(slot)) {
            None
        } else {
            Some(EndLoadError::NotLoading)
        }
    }

    /// Why no drain of the slot begins; None if one does.
    pub fn drain_refusal(&self, slots: &Slots, slot: usize) -> Option<BeginDrainError>
        requires { slot < length slots.now }
        ensures { refusal_of begin_drain_refusal result ≡ unload_refusal slots.now self.now slot }
    {
        let state = self.state(slot);
        if reads::is_absent(state) {
            Some(BeginDrainError::NoEntry)
        } else if self.has_users(slots, slot) {
            Some(BeginDrainError::NeededBy)
        } else if !reads::is_live(state) {
            Some(BeginDrainError::NotLive)
        } else if slots.permanent(slot) {
            Some(BeginDrainError::Permanent)
        } else {
            None
        }
    }

    /// Why the book lets no removal of the slot begin; it knows nothing of references. None if one may begin.
    pub fn remove_refusal(&self, slots: &Slots, slot: usize) -> Option<BeginRemoveError>
        requires { slot < length slots.now }
        ensures { refusal_of begin_remove_refusal result ≡ unload_refusal slots.now self.now slot }
    {
        let refusal = self.drain_refusal(slots, slot)?;
        Some(refusal.into())
    }

    /// Why the book lets no removal and no drain of the slot end; it knows nothing of references. None if one may end.
    pub fn end_remove_refusal(&self, slot: usize) -> Option<EndRemoveError>
        ensures { refusal_of end_remove_refusal result ≡ book_refusal [] self.now (EndRemove slot) }
    {
        let state = self.state(slot);
        if reads::is_unloading(state) || reads::is_draining(state) {
            None
        } else {
            Some(EndRemoveError::NotUnloading)
        }
    }

    /// Why no removal and no drain of the slot is called off; None if one is.
    pub fn cancel_remove_refusal(&self, slot: usize) -> Option<CancelRemoveError>
        ensures { refusal_of cancel_remove_refusal result ≡ book_refusal [] self.now (CancelRemove slot) }
    {
        let state = self.state(slot);
        if reads::is_draining(state) || reads::is_unloading(state) {
            None
        } else {
            Some(CancelRemoveError::NotUnloading)
        }
    }

    /// Why the book refuses a call, as a reply; None if it does not.
    pub fn refusal(&self, slots: &Slots, call: Call) -> Option<Reply>
        requires { slot_of call < length slots.now }
        ensures { result ≡ book_refusal slots.now self.now call }
    {
        match call {
            Call::BeginLoad(slot) => Reply::of_refusal(self.load_refusal(slots, slot)),
            Call::EndLoad(slot, _) => Reply::of_refusal(self.end_load_refusal(slot)),
            Call::BeginDrain(slot) | Call::BeginRemove(slot) => {
                Reply::of_refusal(self.drain_refusal(slots, slot))
            }
            Call::EndRemove(slot) => Reply::of_refusal(self.end_remove_refusal(slot)),
            Call::CancelRemove(slot) => Reply::of_refusal(self.cancel_remove_refusal(slot)),
            Call::Get(_, _) | Call::Put(_, _) | Call::InUse(_) => None,
        }
    }

    /// The slot enters the order as the newest, and is Loading.
    pub fn enter(&mut self, slot: usize)
        requires slot { slot < length self.old.states }
        requires room { length self.old.order < length self.old.states }
        ensures { self.new ≡ book_effect self.old (BeginLoad slot) }
    {
        self.states[slot] = ModuleState::Loading;
        self.order.push(slot as u16);
    }

    /// The slot has a new state; the order stays.
    pub fn set(&mut self, slot: usize, state: ModuleState)
        requires { slot < length self.old.states }
        ensures { self.new ≡ with_state self.old slot state }
    {
        self.states[slot] = state;
    }

    /// The slot leaves the order, and is Absent.
    pub fn leave(&mut self, slot: usize)
        requires { slot < length self.old.states }
        ensures { self.new ≡ without self.old slot }
    {
        self.states[slot] = ModuleState::Absent;
        self.order.forget(slot as u16);
    }

    /// Writes a call that is not refused.
    pub fn write(&mut self, call: Call)
        requires slot { slot_of call < length self.old.states }
        requires room { (m : ℕ) → call ≡ BeginLoad m → length self.old.order < length self.old.states }
        ensures { self.new ≡ book_effect self.old call }
    {
        match call {
            Call::BeginLoad(slot) => self.enter(slot),
            Call::EndLoad(slot, true) | Call::CancelRemove(slot) => {
                self.set(slot, ModuleState::Live)
            }
            Call::EndLoad(slot, false) | Call::EndRemove(slot) => self.leave(slot),
            Call::BeginDrain(slot) => self.set(slot, ModuleState::Draining),
            Call::BeginRemove(slot) => self.set(slot, ModuleState::Unloading),
            Call::Get(_, _) | Call::Put(_, _) | Call::InUse(_) => {}
        }
    }
}
