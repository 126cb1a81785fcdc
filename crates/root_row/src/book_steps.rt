//! The steps of the book.
ghost use Rattle.std.specs.Prelude.{◌≡◌, ◌<◌, ◌⊎◌, [], ◌∷◌, true};
ghost use Rattle.dep_index.specs.Laws.{OrderIsExact};
ghost use Rattle.dep_index.specs.Words.{closed, drained};
ghost use Rattle.root_row.specs.World.{slots};
ghost use Rattle.root_row.specs.Seats.{IsOf};
ghost use Rattle.root_row.specs.Views.{book_of, state_in};
ghost use Rattle.root_row.specs.BookSteps.{LookedBook, BookAnswered, MayLeave, TriedClose, closing};
ghost use Rattle.root_row.specs.StepsMade.{StepsMade, unheld_word};
ghost use Rattle.root_row.specs.declared.view.AtomicStep.TheVariants.{Load, Exchange, Add, Subtract};

use crate::book_seat::BookSeat;
use crate::calls::{Asked, BookCall};
use crate::plays::{Close, Drain, LookBook, Open, Reopen, Undrain};
use crate::row::{Row, WORDS_APART};
use dep_index::words::{CLOSED, DRAINED};
use dep_index::{ModuleState, Reply};

impl Row {
    /// One load for a call of the book, which answers the word.
    ///
    /// It is the call's point, but if the book refuses nothing and the call ends a load well, begins a drain or a
    /// removal, removes a module that drains, or calls a removal off: those are made by `open`, `drain`, `try_close`,
    /// `undrain` and `reopen`.
    pub fn look_book<C: Asked>(&self, seat: &mut BookSeat, slot: usize) -> u64
        requires own { IsOf self.now seat.old }
        requires inside { slot < slots self.now.world }
        ensures own { IsOf self.now seat.new }
        ensures point { LookedBook C.kind slot seat.old.view result seat.new.view }
        ensures exact { OrderIsExact (book_of seat.new.view) }
        ensures step { StepsMade seat.old (Load slot result ∷ []) seat.new }
    {
        let shared = &self.table.shared;
        shared.load::<LookBook<C>>(&mut seat.seat, (slot + 1) * WORDS_APART)
    }

    /// The exchange that opens the word of a slot whose load ends well. It is the point of `end_load`.
    pub fn open(&self, seat: &mut BookSeat, slot: usize)
        requires own { IsOf self.now seat.old }
        requires inside { slot < slots self.now.world }
        requires loading { state_in seat.old.view slot ≡ ModuleState.Loading }
        ensures own { IsOf self.now seat.new }
        ensures point { BookAnswered seat.old.view slot (BookCall.EndLoad true) Reply.Done seat.new.view }
        ensures step { StepsMade seat.old (Exchange slot closed 0 true ∷ []) seat.new }
    {
        let shared = &self.table.shared;
        shared.compare_exchange::<Open>(&mut seat.seat, (slot + 1) * WORDS_APART, CLOSED, 0);
    }

    /// The addition that lets no further get in, while the references stay. It is the point of `begin_drain`.
    pub fn drain(&self, seat: &mut BookSeat, slot: usize)
        requires own { IsOf self.now seat.old }
        requires inside { slot < slots self.now.world }
        requires may { MayLeave seat.old.view slot }
        ensures own { IsOf self.now seat.new }
        ensures point { BookAnswered seat.old.view slot BookCall.BeginDrain Reply.Done seat.new.view }
        ensures step { StepsMade seat.old (Add slot drained ∷ []) seat.new }
    {
        let shared = &self.table.shared;
        shared.fetch_add::<Drain>(&mut seat.seat, (slot + 1) * WORDS_APART, DRAINED);
        seat.draining[slot] = true;
    }

    /// The subtraction that lets gets in again. Whoever holds the slot goes on holding it, whatever leaves do meanwhile. It
    /// is the point of `cancel_remove` of a module that drains.
    pub fn undrain(&self, seat: &mut BookSeat, slot: usize)
        requires own { IsOf self.now seat.old }
        requires inside { slot < slots self.now.world }
        requires draining { state_in seat.old.view slot ≡ ModuleState.Draining }
        ensures own { IsOf self.now seat.new }
        ensures point { BookAnswered seat.old.view slot BookCall.CancelRemove Reply.Done seat.new.view }
        ensures step { StepsMade seat.old (Subtract slot drained ∷ []) seat.new }
    {
        let shared = &self.table.shared;
        shared.fetch_sub::<Undrain>(&mut seat.seat, (slot + 1) * WORDS_APART, DRAINED);
        seat.draining[slot] = false;
    }

    /// The exchange that opens the word of a slot whose removal has begun. It is the point of `cancel_remove` of a module
    /// that unloads.
    pub fn reopen(&self, seat: &mut BookSeat, slot: usize)
        requires own { IsOf self.now seat.old }
        requires inside { slot < slots self.now.world }
        requires unloading { state_in seat.old.view slot ≡ ModuleState.Unloading }
        ensures own { IsOf self.now seat.new }
        ensures point { BookAnswered seat.old.view slot BookCall.CancelRemove Reply.Done seat.new.view }
        ensures step { StepsMade seat.old (Exchange slot closed 0 true ∷ []) seat.new }
    {
        let shared = &self.table.shared;
        shared.compare_exchange::<Reopen>(&mut seat.seat, (slot + 1) * WORDS_APART, CLOSED, 0);
    }

    /// The exchange that closes the word of a slot that no leaf holds: the point of `begin_remove`, or of `end_remove`
    /// if the module drains.
    ///
    /// Answers whether it was made. A miss is the answer InUse, and changes no word.
    pub fn try_close(&self, seat: &mut BookSeat, slot: usize) -> bool
        requires own { IsOf self.now seat.old }
        requires inside { slot < slots self.now.world }
        requires may { MayLeave seat.old.view slot ⊎ (state_in seat.old.view slot ≡ ModuleState.Draining) }
        ensures own { IsOf self.now seat.new }
        ensures point { TriedClose (closing (state_in seat.old.view slot)) slot seat.old.view result seat.new.view }
        ensures step { StepsMade seat.old (Exchange slot (unheld_word (state_in seat.old.view slot)) closed result ∷ []) seat.new }
    {
        let unheld = seat.unheld_word(slot);
        let shared = &self.table.shared;
        let word = (slot + 1) * WORDS_APART;
        let found = shared.compare_exchange::<Close>(&mut seat.seat, word, unheld, CLOSED);
        let made = found == unheld;
        if made {
            seat.draining[slot] = false;
        }
        made
    }
}
