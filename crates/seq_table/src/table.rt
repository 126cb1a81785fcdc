//! The table.
ghost use Rattle.std.specs.Prelude.{◌≡◌, ◌≤◌, ⊤, [], IfOk};
ghost use Rattle.dep_index.specs.Catalogue.{modules_of};
ghost use Rattle.dep_index.specs.Calls.{opening};

use crate::counts::Counts;
use crate::modules::Modules;
use dep_index::{
    BeginDrainError, BeginLoadError, BeginRemoveError, Book, CancelRemoveError, Catalogue,
    EndLoadError, EndRemoveError, GetError, ModuleState, PutError, Slots, reads,
};
use std::alloc::{AllocError, Global};
use std::marker::Model;

/// The table of modules, used by one thread. Contracts see it as its catalogue and the table that it is.
pub struct Table {
    slots: Slots,
    book: Book,
    counts: Counts,
}

// By hand, since a derived drop is written out, and proved, at each place where a value is let go.
impl Drop for Table {
    fn drop(self) {
        let Table {
            slots: _,
            book: _,
            counts: _,
        } = self;
    }
}

impl Model for Table {
    ghost use Rattle.seq_table.specs.Over.{Over};

    ghost Value = { Over };

    ghost use Rattle.seq_table.specs.Over.{IsKept};

    ghost view = { λ t. record { catalogue = t.slots; table = record { book = t.book; rows = t.counts } } };

    ghost invariant = { λ t. IsKept t.slots (record { book = t.book; rows = t.counts }) };
}

impl Table {
    /// The opening table over a catalogue: nothing is loaded, and nothing is held. It reserves all room, so that no
    /// later call takes memory.
    pub fn new(alloc: Global, catalogue: &Catalogue, workers: usize) -> Result<Table, AllocError>
        requires { workers ≤ 64 }
        ensures over { IfOk result (λ t. t.catalogue ≡ modules_of catalogue.now) }
        ensures opens { IfOk result (λ t. t.table ≡ opening (modules_of catalogue.now) workers) }
    {
        Table::over(alloc, catalogue.slots(alloc)?, workers)
    }

    /// The opening table over the slots of a catalogue, as `new`.
    pub fn over(alloc: Global, slots: Slots, workers: usize) -> Result<Table, AllocError>
        requires { workers ≤ 64 }
        ensures over { IfOk result (λ t. t.catalogue ≡ slots) }
        ensures opens { IfOk result (λ t. t.table ≡ opening slots workers) }
    {
        let book = Book::new(alloc, &slots)?;
        let counts = Counts::new(alloc, workers, slots.len())?;
        Ok(Table {
            slots,
            book,
            counts,
        })
    }
}

impl Modules for Table {
    ghost catalogue = { λ t. t.catalogue };

    ghost table = { λ t. t.table };

    ghost names = { λ t. [] };

    ghost has_room = { λ t w. ⊤ };

    fn workers(&self) -> usize {
        self.counts.workers()
    }

    fn slots(&self) -> usize {
        self.slots.len()
    }

    fn state(&self, slot: usize) -> ModuleState {
        self.book.state(slot)
    }

    fn held(&self, worker: usize, slot: usize) -> u32 {
        u32::from(self.counts.count(worker, slot))
    }

    fn in_use(&self, slot: usize) -> bool {
        self.counts.holders(slot) > 0
    }

    fn pairs(&self, slot: usize) -> u32 {
        self.counts.pairs(slot)
    }

    fn references(&self, slot: usize) -> u32 {
        self.counts.pairs(slot) + self.book.user_count(&self.slots, slot) as u32
    }

    fn loaded(&self) -> usize {
        self.book.loaded()
    }

    fn loaded_at(&self, place: usize) -> usize {
        self.book.loaded_at(place)
    }

    fn is_user(&self, user: usize, slot: usize) -> bool {
        !reads::is_absent(self.book.state(user))
            && reads::needs_slot(&self.slots, slot, user as u16)
    }

    fn laws(&self) {
        let _ = &self.counts;
    }

    fn make_room(&mut self, _worker: usize) -> Result<(), AllocError> {
        Ok(())
    }

    fn get(&mut self, worker: usize, slot: usize) -> Result<(), GetError> {
        if !reads::is_live(self.book.state(slot)) {
            return Err(GetError::NotLive);
        }
        let count = self.counts.count(worker, slot);
        if count == u16::MAX {
            return Err(GetError::TooMany);
        }
        self.counts.set_count(worker, slot, count + 1);
        Ok(())
    }

    fn put(&mut self, worker: usize, slot: usize) -> Result<(), PutError> {
        let count = self.counts.count(worker, slot);
        if count == 0 {
            return Err(PutError::NotHeld);
        }
        self.counts.set_count(worker, slot, count - 1);
        Ok(())
    }

    fn begin_load(&mut self, slot: usize) -> Result<(), BeginLoadError> {
        if let Some(refusal) = self.book.load_refusal(&self.slots, slot) {
            return Err(refusal);
        }
        self.book.enter(slot);
        Ok(())
    }

    fn end_load(&mut self, slot: usize, ok: bool) -> Result<(), EndLoadError> {
        if let Some(refusal) = self.book.end_load_refusal(slot) {
            return Err(refusal);
        }
        if ok {
            self.book.set(slot, ModuleState::Live);
        } else {
            self.book.leave(slot);
        }
        Ok(())
    }

    fn begin_drain(&mut self, slot: usize) -> Result<(), BeginDrainError> {
        if let Some(refusal) = self.book.drain_refusal(&self.slots, slot) {
            return Err(refusal);
        }
        self.book.set(slot, ModuleState::Draining);
        Ok(())
    }

    fn begin_remove(&mut self, slot: usize) -> Result<(), BeginRemoveError> {
        if let Some(refusal) = self.book.remove_refusal(&self.slots, slot) {
            return Err(refusal);
        }
        if self.counts.holders(slot) > 0 {
            return Err(BeginRemoveError::InUse);
        }
        self.book.set(slot, ModuleState::Unloading);
        Ok(())
    }

    fn end_remove(&mut self, slot: usize) -> Result<(), EndRemoveError> {
        if let Some(refusal) = self.book.end_remove_refusal(slot) {
            return Err(refusal);
        }
        let draining = reads::is_draining(self.book.state(slot));
        if draining && self.counts.holders(slot) > 0 {
            return Err(EndRemoveError::InUse);
        }
        self.book.leave(slot);
        Ok(())
    }

    fn cancel_remove(&mut self, slot: usize) -> Result<(), CancelRemoveError> {
        if let Some(refusal) = self.book.cancel_remove_refusal(slot) {
            return Err(refusal);
        }
        self.book.set(slot, ModuleState::Live);
        Ok(())
    }
}
