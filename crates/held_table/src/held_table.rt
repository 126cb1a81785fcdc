//! The table.
ghost use Rattle.std.specs.Prelude.{◌≡◌, ◌<◌, ◌≤◌, [], length, slice_index, slice_index_or, IfOk};
ghost use Rattle.dep_index.specs.Calls.{opening};
ghost use Rattle.held_table.specs.Names.{name_bytes, place_of};

use crate::name::HolderName;
use crate::names::Names;
use crate::rows::Rows;
use dep_index::{
    BeginDrainError, BeginLoadError, BeginRemoveError, Book, CancelRemoveError, EndLoadError,
    EndRemoveError, GetError, ModuleState, PutError, Slots, reads,
};
use seq_table::Modules;
use std::alloc::{AllocError, Global};
use std::marker::Model;

/// The table of modules by the holders that there are, used by one thread. Its workers are the holders.
pub struct HeldTable {
    pub(crate) slots: Slots,
    pub(crate) book: Book,
    pub(crate) rows: Rows,
    pub(crate) names: Names,
}

// By hand, since a derived drop is written out, and proved, at each place where a value is let go.
impl Drop for HeldTable {
    fn drop(self) {
        let HeldTable {
            slots: _,
            book: _,
            rows: _,
            names: _,
        } = self;
    }
}

impl Model for HeldTable {
    ghost use Rattle.std.specs.Prelude.{◌≡◌, length};
    ghost use Rattle.held_table.specs.Held.{HeldOver};

    ghost Value = { HeldOver };

    ghost use Rattle.held_table.specs.Held.{IsKept};
    ghost use Rattle.held_table.specs.Rows.{over_in, held_in};

    ghost view = { λ t. over_in t.slots t.book t.rows t.names };

    ghost invariant = { λ t. IsKept t.slots (held_in t.book t.rows t.names) × (t.rows.slots ≡ length t.slots) };
}

impl HeldTable {
    /// The opening table over the slots of a catalogue: nothing is loaded, and there is no holder. It fails only out of
    /// memory.
    pub fn new(alloc: Global, slots: Slots) -> Result<HeldTable, AllocError>
        ensures over { IfOk result (λ t. t.catalogue ≡ slots) }
        ensures opens { IfOk result (λ t. t.held.table ≡ opening slots 0) }
        ensures empty { IfOk result (λ t. t.held.names ≡ []) }
    {
        let book = Book::new(alloc, &slots)?;
        let rows = Rows::new(alloc, slots.len())?;
        Ok(HeldTable {
            slots,
            book,
            rows,
            names: Names::new(alloc),
        })
    }

    /// How many holders there are.
    pub fn holders(&self) -> usize
        ensures { result ≡ length self.now.held.names }
    {
        self.names.len()
    }

    /// The number of a holder, if it is there.
    pub fn number(&self, name: &HolderName) -> Option<usize>
        ensures { result ≡ place_of self.now.held.names (name_bytes name.now) }
    {
        self.names.number(name)
    }

    /// The name of a holder.
    pub fn name(&self, number: usize) -> &HolderName
        requires { number < length self.now.held.names }
        ensures { name_bytes result.now ≡ slice_index_or self.now.held.names number [] }
    {
        self.names.at(number)
    }
}

impl Modules for HeldTable {
    ghost catalogue = { λ t. t.catalogue };

    ghost table = { λ t. t.held.table };

    ghost names = { λ t. t.held.names };

    ghost has_room = { λ t w. 0 < slice_index t.spare w };

    fn workers(&self) -> usize {
        self.rows.len()
    }

    fn slots(&self) -> usize {
        self.slots.len()
    }

    fn state(&self, slot: usize) -> ModuleState {
        self.book.state(slot)
    }

    fn held(&self, worker: usize, slot: usize) -> u32 {
        u32::from(self.rows.count(worker, slot))
    }

    fn in_use(&self, slot: usize) -> bool {
        self.rows.is_held(slot)
    }

    fn pairs(&self, slot: usize) -> u32 {
        self.rows.total(slot)
    }

    fn references(&self, slot: usize) -> u32 {
        self.rows.total(slot) + self.book.user_count(&self.slots, slot) as u32
    }

    fn loaded(&self) -> usize {
        self.book.loaded()
    }

    fn loaded_at(&self, place: usize) -> usize {
        self.book.loaded_at(place)
    }

    fn is_user(&self, user: usize, slot: usize) -> bool {
        !reads::is_absent(self.book.state(user))
            && reads::needs_slot(&self.slots, slot, user as u16)
    }

    fn laws(&self) {
        let _ = &self.rows;
    }

    fn make_room(&mut self, worker: usize) -> Result<(), AllocError> {
        self.rows.make_room(worker)
    }

    fn get(&mut self, worker: usize, slot: usize) -> Result<(), GetError> {
        if !reads::is_live(self.book.state(slot)) {
            return Err(GetError::NotLive);
        }
        let count = self.rows.count(worker, slot);
        if count == u16::MAX {
            return Err(GetError::TooMany);
        }
        self.rows.set_count(worker, slot, count + 1);
        Ok(())
    }

    fn put(&mut self, worker: usize, slot: usize) -> Result<(), PutError> {
        let count = self.rows.count(worker, slot);
        if count == 0 {
            return Err(PutError::NotHeld);
        }
        self.rows.set_count(worker, slot, count - 1);
        Ok(())
    }

    fn begin_load(&mut self, slot: usize) -> Result<(), BeginLoadError> {
        if let Some(refusal) = self.book.load_refusal(&self.slots, slot) {
            return Err(refusal);
        }
        self.book.enter(slot);
        Ok(())
    }

    fn end_load(&mut self, slot: usize, ok: bool) -> Result<(), EndLoadError> {
        if let Some(refusal) = self.book.end_load_refusal(slot) {
            return Err(refusal);
        }
        if ok {
            self.book.set(slot, ModuleState::Live);
        } else {
            self.book.leave(slot);
        }
        Ok(())
    }

    fn begin_drain(&mut self, slot: usize) -> Result<(), BeginDrainError> {
        if let Some(refusal) = self.book.drain_refusal(&self.slots, slot) {
            return Err(refusal);
        }
        self.book.set(slot, ModuleState::Draining);
        Ok(())
    }

    fn begin_remove(&mut self, slot: usize) -> Result<(), BeginRemoveError> {
        if let Some(refusal) = self.book.remove_refusal(&self.slots, slot) {
            return Err(refusal);
        }
        if self.rows.is_held(slot) {
            return Err(BeginRemoveError::InUse);
        }
        self.book.set(slot, ModuleState::Unloading);
        Ok(())
    }

    fn end_remove(&mut self, slot: usize) -> Result<(), EndRemoveError> {
        if let Some(refusal) = self.book.end_remove_refusal(slot) {
            return Err(refusal);
        }
        let draining = reads::is_draining(self.book.state(slot));
        if draining && self.rows.is_held(slot) {
            return Err(EndRemoveError::InUse);
        }
        self.book.leave(slot);
        Ok(())
    }

    fn cancel_remove(&mut self, slot: usize) -> Result<(), CancelRemoveError> {
        if let Some(refusal) = self.book.cancel_remove_refusal(slot) {
            return Err(refusal);
        }
        self.book.set(slot, ModuleState::Live);
        Ok(())
    }
}
