//! The steps of leaves and readers.
ghost use Rattle.std.specs.Prelude.{◌≡◌, ◌+◌, ◌<◌, [], ◌∷◌};
ghost use Rattle.dep_index.specs.Words.{closed};
ghost use Rattle.root_row.specs.World.{slots};
ghost use Rattle.root_row.specs.Seats.{IsOf};
ghost use Rattle.root_row.specs.Views.{count_of};
ghost use Rattle.root_row.specs.Steps.{Looked, TriedArrive, LeafAnswered, LookedRead};
ghost use Rattle.root_row.specs.StepsMade.{StepsMade};
ghost use Rattle.root_row.specs.declared.view.AtomicStep.TheVariants.{Load, Exchange, Subtract};

use crate::calls::LeafCall;
use crate::leaf_seat::LeafSeat;
use crate::plays::{Arrive, Depart, LookGet, LookPut, LookRead};
use crate::read_seat::ReadSeat;
use crate::row::{Row, WORDS_APART};
use dep_index::Reply;

impl Row {
    /// One load for a get or a put of a leaf, which answers the word.
    ///
    /// It is the call's point, but if a get finds the slot open and the leaf does not hold it, and if a put gives
    /// the leaf's last reference back.
    pub fn look(&self, seat: &mut LeafSeat, slot: usize, call: LeafCall) -> u64
        requires own { IsOf self.now seat.old }
        requires inside { slot < slots self.now.world }
        ensures own { IsOf self.now seat.new }
        ensures point { Looked call slot seat.old.view result seat.new.view }
        ensures step { StepsMade seat.old (Load slot result ∷ []) seat.new }
    {
        let shared = &self.table.shared;
        let word = (slot + 1) * WORDS_APART;
        match call {
            LeafCall::Get => shared.load::<LookGet>(&mut seat.seat, word),
            LeafCall::Put => shared.load::<LookPut>(&mut seat.seat, word),
        }
    }

    /// The exchange of a get by a leaf that does not hold the slot: an open word, if it is `expected`, by one more.
    ///
    /// Answers whether it was made; then the get is done. A miss is no point.
    pub fn try_arrive(&self, seat: &mut LeafSeat, slot: usize, expected: u64) -> bool
        requires own { IsOf self.now seat.old }
        requires inside { slot < slots self.now.world }
        requires none_held { count_of seat.old.view slot ≡ 0 }
        requires open { expected < closed }
        ensures own { IsOf self.now seat.new }
        ensures point { TriedArrive slot seat.old.view result seat.new.view }
        ensures step { StepsMade seat.old (Exchange slot expected (expected + 1) result ∷ []) seat.new }
    {
        let shared = &self.table.shared;
        let found = shared.compare_exchange::<Arrive>(
            &mut seat.seat,
            (slot + 1) * WORDS_APART,
            expected,
            expected + 1,
        );
        found == expected
    }

    /// The subtraction of one by a put that gives the leaf's last reference back, which is done by it.
    pub fn depart(&self, seat: &mut LeafSeat, slot: usize)
        requires own { IsOf self.now seat.old }
        requires inside { slot < slots self.now.world }
        requires last_held { count_of seat.old.view slot ≡ 1 }
        ensures own { IsOf self.now seat.new }
        ensures point { LeafAnswered seat.old.view slot LeafCall.Put Reply.Done seat.new.view }
        ensures step { StepsMade seat.old (Subtract slot 1 ∷ []) seat.new }
    {
        let shared = &self.table.shared;
        shared.fetch_sub::<Depart>(&mut seat.seat, (slot + 1) * WORDS_APART, 1);
    }

    /// One load for a query, which answers the word. It is the query's point.
    pub fn look_read(&self, seat: &mut ReadSeat, slot: usize) -> u64
        requires own { IsOf self.now seat.old }
        requires inside { slot < slots self.now.world }
        ensures own { IsOf self.now seat.new }
        ensures point { LookedRead slot seat.old.view result seat.new.view }
        ensures step { StepsMade seat.old (Load slot result ∷ []) seat.new }
    {
        let shared = &self.table.shared;
        shared.load::<LookRead>(&mut seat.seat, (slot + 1) * WORDS_APART)
    }
}
