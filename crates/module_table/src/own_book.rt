use crate::book::Book;
use dep_index::{
    BeginDrainError, BeginLoadError, BeginRemoveError, CancelRemoveError, EndLoadError,
    EndRemoveError, ModuleState,
};
use root_row::{BookCall, Row};
use std::alloc::Global;
use std::marker::Model;
use std::sync::Arc;

/// The book with its row. What a lock gives out is known by its type alone, so the type says that the book is
/// of this row. Contracts see the book.
#[derive(Drop)]
pub struct OwnBook {
    book: Book,
    row: Arc<Row, Global>,
}

impl Model for OwnBook {
    ghost use Rattle.std.specs.Arc.{arc_value};
    ghost use Rattle.root_row.specs.Seats.{Seated, IsOf};

    ghost Value = { Seated };

    ghost view = { λ b. b.book };

    ghost invariant = { λ b. IsOf (arc_value b.row) b.book };
}

impl OwnBook {
    ghost use Rattle.std.specs.Prelude.{◌≡◌, ◌<◌, ◌≤◌, ◌↔◌, length, slice_index, IfSome, IsNone, MatchOption};
    ghost use Rattle.std.specs.Arc.{arc_value};
    ghost use Rattle.dep_index.specs.Refusals.{reply_of, begin_load_refusal, end_load_refusal};
    ghost use Rattle.dep_index.specs.Refusals.{begin_drain_refusal, begin_remove_refusal, end_remove_refusal, cancel_remove_refusal};
    ghost use Rattle.root_row.specs.World.{slots};
    ghost use Rattle.root_row.specs.Seats.{IsOf, KnowsTable};
    ghost use Rattle.root_row.specs.Views.{state_in, book_of};
    ghost use Rattle.root_row.specs.BookSteps.{BookAnswered};
    ghost use Rattle.module_table.specs.CallSteps.{CallSteps};

    pub fn new(book: Book, row: Arc<Row, Global>) -> OwnBook
        requires { IsOf (arc_value row) book }
        ensures { result ≡ book }
    {
        OwnBook { book, row }
    }

    /// What the book has seen is a legal history, so removals are safe in it, and its states and order are those of
    /// the table after it. A guard's holder knows it before the first call.
    pub fn laws(&self)
        ensures { KnowsTable self.now.view }
    {
        self.book.laws()
    }

    /// How many modules the catalogue has.
    pub fn slots(&self) -> usize
        ensures { result ≡ slots self.now.view.world }
    {
        self.row.slots()
    }

    /// The state of a module. It is None if the slot is out of range, as for each call.
    pub fn state(&self, slot: usize) -> Option<ModuleState>
        ensures range { IsNone result ↔ (slots self.now.view.world ≤ slot) }
        ensures state { IfSome result (λ s. s ≡ state_in self.now.view slot) }
    {
        if slot >= self.row.slots() {
            return None;
        }
        Some(self.book.state(slot))
    }

    /// How many modules are loaded, in any state.
    pub fn loaded(&self) -> usize
        ensures { result ≡ length (book_of self.now.view).order }
    {
        self.book.loaded()
    }

    /// The loaded module at this place, the oldest first. It is None past the end.
    pub fn loaded_at(&self, place: usize) -> Option<usize>
        ensures range { IsNone result ↔ (length (book_of self.now.view).order ≤ place) }
        ensures at { IfSome result (λ slot. slot ≡ slice_index (book_of self.now.view).order place) }
    {
        if place >= self.book.loaded() {
            return None;
        }
        Some(self.book.loaded_at(place))
    }

    /// Begins a load: the module is then Loading, and the newest.
    pub fn begin_load(&mut self, slot: usize) -> Option<Result<(), BeginLoadError>>
        ensures range { MatchOption result ((slots self.old.view.world ≤ slot) × (self.new ≡ self.old)) (λ _. slot < slots self.old.view.world) }
        ensures call { IfSome result (λ r. BookAnswered self.old.view slot BookCall.BeginLoad (reply_of begin_load_refusal r) self.new.view) }
        ensures steps { IfSome result (λ r. CallSteps BookCall.BeginLoad slot (reply_of begin_load_refusal r) self.old self.new) }
        ensures row { self.new.row ≡ self.old.row }
    {
        if slot >= self.row.slots() {
            return None;
        }
        Some(self.book.begin_load(&self.row, slot))
    }

    /// Ends a load: the module is then Live if it went well, else Absent.
    pub fn end_load(&mut self, slot: usize, ok: bool) -> Option<Result<(), EndLoadError>>
        ensures range { MatchOption result ((slots self.old.view.world ≤ slot) × (self.new ≡ self.old)) (λ _. slot < slots self.old.view.world) }
        ensures call { IfSome result (λ r. BookAnswered self.old.view slot (BookCall.EndLoad ok) (reply_of end_load_refusal r) self.new.view) }
        ensures steps { IfSome result (λ r. CallSteps (BookCall.EndLoad ok) slot (reply_of end_load_refusal r) self.old self.new) }
        ensures row { self.new.row ≡ self.old.row }
    {
        if slot >= self.row.slots() {
            return None;
        }
        Some(self.book.end_load(&self.row, slot, ok))
    }

    /// Begins a drain: no further get is let in, and the references stay.
    pub fn begin_drain(&mut self, slot: usize) -> Option<Result<(), BeginDrainError>>
        ensures range { MatchOption result ((slots self.old.view.world ≤ slot) × (self.new ≡ self.old)) (λ _. slot < slots self.old.view.world) }
        ensures call { IfSome result (λ r. BookAnswered self.old.view slot BookCall.BeginDrain (reply_of begin_drain_refusal r) self.new.view) }
        ensures steps { IfSome result (λ r. CallSteps BookCall.BeginDrain slot (reply_of begin_drain_refusal r) self.old self.new) }
        ensures row { self.new.row ≡ self.old.row }
    {
        if slot >= self.row.slots() {
            return None;
        }
        Some(self.book.begin_drain(&self.row, slot))
    }

    /// Begins a removal of a module that nobody holds or needs: it is then Unloading.
    pub fn begin_remove(&mut self, slot: usize) -> Option<Result<(), BeginRemoveError>>
        ensures range { MatchOption result ((slots self.old.view.world ≤ slot) × (self.new ≡ self.old)) (λ _. slot < slots self.old.view.world) }
        ensures call { IfSome result (λ r. BookAnswered self.old.view slot BookCall.BeginRemove (reply_of begin_remove_refusal r) self.new.view) }
        ensures steps { IfSome result (λ r. CallSteps BookCall.BeginRemove slot (reply_of begin_remove_refusal r) self.old self.new) }
        ensures row { self.new.row ≡ self.old.row }
    {
        if slot >= self.row.slots() {
            return None;
        }
        Some(self.book.begin_remove(&self.row, slot))
    }

    /// Ends a removal, or a drain once no reference is left: the module is then Absent.
    pub fn end_remove(&mut self, slot: usize) -> Option<Result<(), EndRemoveError>>
        ensures range { MatchOption result ((slots self.old.view.world ≤ slot) × (self.new ≡ self.old)) (λ _. slot < slots self.old.view.world) }
        ensures call { IfSome result (λ r. BookAnswered self.old.view slot BookCall.EndRemove (reply_of end_remove_refusal r) self.new.view) }
        ensures steps { IfSome result (λ r. CallSteps BookCall.EndRemove slot (reply_of end_remove_refusal r) self.old self.new) }
        ensures row { self.new.row ≡ self.old.row }
    {
        if slot >= self.row.slots() {
            return None;
        }
        Some(self.book.end_remove(&self.row, slot))
    }

    /// Calls off a removal or a drain: the module is live again, and the references stay.
    pub fn cancel_remove(&mut self, slot: usize) -> Option<Result<(), CancelRemoveError>>
        ensures range { MatchOption result ((slots self.old.view.world ≤ slot) × (self.new ≡ self.old)) (λ _. slot < slots self.old.view.world) }
        ensures call { IfSome result (λ r. BookAnswered self.old.view slot BookCall.CancelRemove (reply_of cancel_remove_refusal r) self.new.view) }
        ensures steps { IfSome result (λ r. CallSteps BookCall.CancelRemove slot (reply_of cancel_remove_refusal r) self.old self.new) }
        ensures row { self.new.row ≡ self.old.row }
    {
        if slot >= self.row.slots() {
            return None;
        }
        Some(self.book.cancel_remove(&self.row, slot))
    }
}
