//! The book of a running table: its seat at the row, and the states and order that its calls write.
use dep_index::{
    BeginDrainError, BeginLoadError, BeginRemoveError, CancelRemoveError, Catalogue, EndLoadError,
    EndRemoveError, ModuleState, Slots, reads,
};
use root_row::{
    AskBeginDrain, AskBeginLoad, AskBeginRemove, AskCancelRemove, AskEndLoad, AskEndRemove,
    AskFailLoad, BookCall, BookSeat, Row,
};
use std::alloc::{AllocError, Global};
use std::marker::Model;
use use_indicator::Reader;

/// The states of all modules and the order of loading, beside the book's seat at the row. It makes the loads,
/// drains and removals, each by one atomic step on the row. Contracts see its row and its view.
pub struct Book {
    seat: BookSeat,
    book: dep_index::Book,
    catalogue: Slots,
}

// By hand, since a derived drop is written out, and proved, at each place where a value is let go.
impl Drop for Book {
    fn drop(self) {
        let Book {
            seat: _,
            book: _,
            catalogue: _,
        } = self;
    }
}

impl Model for Book {
    ghost use Rattle.root_row.specs.Seats.{Seated};
    ghost use Rattle.module_table.specs.Kept.{IsInStep};

    ghost Value = { Seated };

    ghost view = { λ b. b.seat };

    ghost invariant = { λ b. IsInStep b.book b.catalogue b.seat.view };
}

impl Book {
    ghost use Rattle.std.specs.Prelude.{◌≡◌, ◌<◌, length, slice_index, IfOk};
    ghost use Rattle.root_row.specs.Made.{new_book};
    ghost use Rattle.dep_index.specs.Catalogue.{modules_of};
    ghost use Rattle.dep_index.specs.Refusals.{reply_of, begin_load_refusal, end_load_refusal};
    ghost use Rattle.dep_index.specs.Refusals.{begin_drain_refusal, begin_remove_refusal, end_remove_refusal, cancel_remove_refusal};
    ghost use Rattle.root_row.specs.World.{slots};
    ghost use Rattle.root_row.specs.Seats.{IsOf, KnowsTable};
    ghost use Rattle.root_row.specs.Views.{state_in, book_of};
    ghost use Rattle.root_row.specs.BookSteps.{BookAnswered};
    ghost use Rattle.module_table.specs.CallSteps.{CallSteps};
    ghost use Rattle.root_row.specs.Hearing.{HeardBoth};

    /// The book of a new row, over the row's catalogue. It reserves the order: no later call takes memory.
    ///
    /// If memory runs out the seat is given up.
    pub fn new(alloc: Global, seat: BookSeat, catalogue: &Catalogue) -> Result<Book, AllocError>
        requires unused { seat ≡ new_book seat.row seat.view.world }
        requires same { modules_of catalogue.now ≡ seat.view.world.catalogue }
        ensures { IfOk result (λ b. b ≡ seat) }
    {
        let catalogue = catalogue.slots(alloc)?;
        let book = dep_index::Book::new(alloc, &catalogue)?;
        Ok(Book {
            seat,
            book,
            catalogue,
        })
    }

    /// What the book has seen is a legal history, so removals are safe in it, and its states and order are those of
    /// the table after it.
    pub fn laws(&self)
        ensures { KnowsTable self.now.view }
    {
        self.seat.laws()
    }

    /// The book and a reader hear of each other: both have then seen one list of calls, which begins with what each had
    /// seen, is legal, and has of each one's calls just those that it made. Three loads, and no call.
    pub fn hear(&mut self, row: &Row, reader: Reader) -> Reader
        requires own { IsOf row.now self.old }
        requires reader_own { IsOf row.now reader }
        ensures own { IsOf row.now self.new × IsOf row.now result }
        ensures heard { HeardBoth self.old.view reader.view self.new.view result.view }
    {
        reader.hear_book(row, &mut self.seat)
    }

    /// How many modules are loaded, in any state.
    pub fn loaded(&self) -> usize
        ensures { result ≡ length (book_of self.now.view).order }
    {
        self.book.loaded()
    }

    /// The loaded module at this place, the oldest first.
    pub fn loaded_at(&self, place: usize) -> usize
        requires { place < length (book_of self.now.view).order }
        ensures { result ≡ slice_index (book_of self.now.view).order place }
    {
        self.book.loaded_at(place)
    }

    /// The state of a module.
    pub fn state(&self, slot: usize) -> ModuleState
        requires { slot < slots self.now.view.world }
        ensures { result ≡ state_in self.now.view slot }
    {
        self.book.state(slot)
    }

    /// Begins a load.
    pub fn begin_load(&mut self, row: &Row, slot: usize) -> Result<(), BeginLoadError>
        requires own { IsOf row.now self.old }
        requires inside { slot < slots row.now.world }
        ensures own { IsOf row.now self.new }
        ensures call { BookAnswered self.old.view slot BookCall.BeginLoad (reply_of begin_load_refusal result) self.new.view }
        ensures steps { CallSteps BookCall.BeginLoad slot (reply_of begin_load_refusal result) self.old self.new }
    {
        let refusal = self.book.load_refusal(&self.catalogue, slot);
        row.look_book::<AskBeginLoad>(&mut self.seat, slot);
        if let Some(refusal) = refusal {
            return Err(refusal);
        }
        self.book.enter(slot);
        Ok(())
    }

    /// Ends a load, well or not.
    pub fn end_load(&mut self, row: &Row, slot: usize, ok: bool) -> Result<(), EndLoadError>
        requires own { IsOf row.now self.old }
        requires inside { slot < slots row.now.world }
        ensures own { IsOf row.now self.new }
        ensures call { BookAnswered self.old.view slot (BookCall.EndLoad ok) (reply_of end_load_refusal result) self.new.view }
        ensures steps { CallSteps (BookCall.EndLoad ok) slot (reply_of end_load_refusal result) self.old self.new }
    {
        if let Some(refusal) = self.book.end_load_refusal(slot) {
            if ok {
                row.look_book::<AskEndLoad>(&mut self.seat, slot);
            } else {
                row.look_book::<AskFailLoad>(&mut self.seat, slot);
            }
            return Err(refusal);
        }
        if ok {
            row.open(&mut self.seat, slot);
            self.book.set(slot, ModuleState::Live);
        } else {
            row.look_book::<AskFailLoad>(&mut self.seat, slot);
            self.book.leave(slot);
        }
        Ok(())
    }

    /// Lets no further get in.
    pub fn begin_drain(&mut self, row: &Row, slot: usize) -> Result<(), BeginDrainError>
        requires own { IsOf row.now self.old }
        requires inside { slot < slots row.now.world }
        ensures own { IsOf row.now self.new }
        ensures call { BookAnswered self.old.view slot BookCall.BeginDrain (reply_of begin_drain_refusal result) self.new.view }
        ensures steps { CallSteps BookCall.BeginDrain slot (reply_of begin_drain_refusal result) self.old self.new }
    {
        if let Some(refusal) = self.book.drain_refusal(&self.catalogue, slot) {
            row.look_book::<AskBeginDrain>(&mut self.seat, slot);
            return Err(refusal);
        }
        row.drain(&mut self.seat, slot);
        self.book.set(slot, ModuleState::Draining);
        Ok(())
    }

    /// Begins a removal.
    pub fn begin_remove(&mut self, row: &Row, slot: usize) -> Result<(), BeginRemoveError>
        requires own { IsOf row.now self.old }
        requires inside { slot < slots row.now.world }
        ensures own { IsOf row.now self.new }
        ensures call { BookAnswered self.old.view slot BookCall.BeginRemove (reply_of begin_remove_refusal result) self.new.view }
        ensures steps { CallSteps BookCall.BeginRemove slot (reply_of begin_remove_refusal result) self.old self.new }
    {
        if let Some(refusal) = self.book.remove_refusal(&self.catalogue, slot) {
            row.look_book::<AskBeginRemove>(&mut self.seat, slot);
            return Err(refusal);
        }
        if !row.try_close(&mut self.seat, slot) {
            return Err(BeginRemoveError::InUse);
        }
        self.book.set(slot, ModuleState::Unloading);
        Ok(())
    }

    /// Ends a removal. A module that drains may still be held.
    pub fn end_remove(&mut self, row: &Row, slot: usize) -> Result<(), EndRemoveError>
        requires own { IsOf row.now self.old }
        requires inside { slot < slots row.now.world }
        ensures own { IsOf row.now self.new }
        ensures call { BookAnswered self.old.view slot BookCall.EndRemove (reply_of end_remove_refusal result) self.new.view }
        ensures steps { CallSteps BookCall.EndRemove slot (reply_of end_remove_refusal result) self.old self.new }
    {
        if let Some(refusal) = self.book.end_remove_refusal(slot) {
            row.look_book::<AskEndRemove>(&mut self.seat, slot);
            return Err(refusal);
        }
        if reads::is_draining(self.book.state(slot)) {
            if !row.try_close(&mut self.seat, slot) {
                return Err(EndRemoveError::InUse);
            }
        } else {
            row.look_book::<AskEndRemove>(&mut self.seat, slot);
        }
        self.book.leave(slot);
        Ok(())
    }

    /// Calls off a removal or a drain: the module is live again, and who holds it goes on holding it.
    pub fn cancel_remove(&mut self, row: &Row, slot: usize) -> Result<(), CancelRemoveError>
        requires own { IsOf row.now self.old }
        requires inside { slot < slots row.now.world }
        ensures own { IsOf row.now self.new }
        ensures call { BookAnswered self.old.view slot BookCall.CancelRemove (reply_of cancel_remove_refusal result) self.new.view }
        ensures steps { CallSteps BookCall.CancelRemove slot (reply_of cancel_remove_refusal result) self.old self.new }
    {
        if let Some(refusal) = self.book.cancel_remove_refusal(slot) {
            row.look_book::<AskCancelRemove>(&mut self.seat, slot);
            return Err(refusal);
        }
        if reads::is_draining(self.book.state(slot)) {
            row.undrain(&mut self.seat, slot);
        } else {
            row.reopen(&mut self.seat, slot);
        }
        self.book.set(slot, ModuleState::Live);
        Ok(())
    }
}
