//! Turns that are given up if the lock is taken.
ghost use Rattle.std.specs.Prelude.{◌≡◌, ◌<◌, [], MatchBool, MatchOption};
ghost use Rattle.std.specs.Fn.{FnOnceReturnsAtMut};
ghost use Rattle.dep_index.specs.Refusals.{reply_of, get_refusal};
ghost use Rattle.root_row.specs.World.{slots};
ghost use Rattle.managed_table.specs.Kept.{shown, leaf_fits, book_fits};
ghost use Rattle.managed_table.specs.Turns.{HasTaken, IsSame, Misses, MadeTurn, alone, pass_of, with_misses, with_turns, turn_of, shown_in_hand};
ghost use Rattle.managed_table.specs.Passes.{IsFree, HasInHand, MayActOn};
ghost use Rattle.managed_table.specs.Callers.{IsCallerOf, LeafTurned, BookTurned};
ghost use Rattle.managed_table.specs.Attempts.{LeafEnded, BookEnded, LookEnded, GetGivenUp, GetDid};

use crate::attempt::{Attempt, missed_or_answered};
use crate::caller::Caller;
use crate::keyed::Keyed;
use crate::locks::{FREE, Locks, WORDS_APART};
use crate::plays::{Look, Release};
use crate::table::ManagedTable;
use crate::view::Passes;
use atomic_table::Seat;
use dep_index::GetError;
use module_table::Book;
use use_indicator::Leaf;

impl<T: Keyed + Drop> Locks<T> {
    // Whether the lock is free, at a look at its word.
    #[inline(always)]
    fn is_free(&self, seat: &mut Seat<T, Passes>, lock: usize) -> bool
        requires inside { lock < self.now.table.shared.key.locks }
        requires free { IsFree self.now.table.shared.table_id self.now.table.shared.key.row.value seat.old }
        ensures id { seat.new.table_id ≡ seat.old.table_id }
        ensures told { MatchBool result (IsSame seat.old.me seat.new.me) (Misses lock 1 seat.old.me seat.new.me) }
    {
        let shared = &self.table.shared;
        shared.load::<Look>(seat, (lock + 1) * WORDS_APART) == FREE
    }

    // Takes the lock if it is free.
    #[inline(always)]
    fn take_free(&self, seat: &mut Seat<T, Passes>, lock: usize) -> bool
        requires inside { lock < self.now.table.shared.key.locks }
        requires free { IsFree self.now.table.shared.table_id self.now.table.shared.key.row.value seat.old }
        ensures id { seat.new.table_id ≡ seat.old.table_id }
        ensures told { MatchBool result (HasTaken T.fits T.shown lock [] (pass_of seat.old.me.0) seat.new.me) (Misses lock 1 seat.old.me seat.new.me) }
    {
        if !self.is_free(seat, lock) {
            return false;
        }
        self.try_take(seat, lock)
    }

    // Takes the lock in at most so many tries. Else it was found taken at each.
    #[inline(always)]
    pub(crate) fn take_within(&self, seat: &mut Seat<T, Passes>, lock: usize, tries: u32) -> bool
        requires inside { lock < self.now.table.shared.key.locks }
        requires free { IsFree self.now.table.shared.table_id self.now.table.shared.key.row.value seat.old }
        ensures id { seat.new.table_id ≡ seat.old.table_id }
        ensures told { MatchBool result (HasTaken T.fits T.shown lock [] (pass_of seat.old.me.0) seat.new.me) (Misses lock tries seat.old.me seat.new.me) }
    {
        for _ in 0..tries {
            if self.take_free(seat, lock) {
                return true;
            }
        }
        false
    }

    // Lets go of a lock that nobody waits for.
    #[inline(always)]
    pub(crate) fn let_go(&self, seat: &mut Seat<T, Passes>, lock: usize)
        requires inside { lock < self.now.table.shared.key.locks }
        requires id { seat.old.table_id ≡ self.now.table.shared.table_id }
        requires row { (pass_of seat.old.me.0).row.value ≡ self.now.table.shared.key.row.value }
        requires holds { HasInHand T.fits T.shown lock (pass_of seat.old.me.0) seat.old.me }
        ensures free { IsFree self.now.table.shared.table_id self.now.table.shared.key.row.value seat.new }
        ensures turn { seat.new.me.0 ≡ alone (with_turns (pass_of seat.old.me.0) (turn_of (pass_of seat.old.me.0).taken (shown_in_hand T.shown seat.old.me.1))) }
    {
        let shared = &self.table.shared;
        shared.swap::<Release<T>>(seat, (lock + 1) * WORDS_APART, FREE);
    }

    /// As `turn`, but it never waits and wakes nobody, for locks that nobody waits for. It is None if the lock was found taken
    /// at each of so many tries, and nothing else was done.
    #[inline(always)]
    pub fn try_turn<A, F: FnOnce(&mut T) -> A + Drop>(
        &self,
        seat: &mut Seat<T, Passes>,
        lock: usize,
        tries: u32,
        act: F,
    ) -> Option<A>
        requires inside { lock < self.now.table.shared.key.locks }
        requires free { IsFree self.now.table.shared.table_id self.now.table.shared.key.row.value seat.old }
        requires may { MayActOn F.FnOnce T.fits T.shown self.now.table.shared.key.row.value lock act }
        ensures free { IsFree self.now.table.shared.table_id self.now.table.shared.key.row.value seat.new }
        ensures turn { MatchOption result (seat.new.me.0 ≡ alone (with_misses (pass_of seat.old.me.0) lock tries)) (λ r. MadeTurn T.fits T.shown lock (λ x y. FnOnceReturnsAtMut F.FnOnce act x r y) (pass_of seat.old.me.0) (pass_of seat.new.me.0)) }
    {
        if !self.take_within(seat, lock, tries) {
            return None;
        }
        let answer = self.lend(seat, lock, act);
        self.let_go(seat, lock);
        Some(answer)
    }
}

impl ManagedTable {
    /// As `try_get`, but it never waits.
    pub(crate) fn get_within(
        &self,
        caller: &mut Caller,
        worker: usize,
        slot: usize,
        tries: u32,
    ) -> Attempt<Result<(), GetError>>
        requires own { IsCallerOf self.now caller.old }
        ensures own { IsCallerOf self.now caller.new }
        ensures call { LeafEnded worker slot tries (GetGivenUp worker slot tries caller.old caller.new) (λ r. GetDid worker slot tries caller.old caller.new (reply_of get_refusal r)) caller.old result caller.new }
    {
        let row = &self.row;
        let ended = self.try_leaf_turn(caller, worker, slot, tries, |leaf| {
            leaf.laws();
            leaf.try_get(row, slot, tries)
        });
        missed_or_answered(ended)
    }

    // As leaf_turn, but with so many tries of the lock.
    #[inline(always)]
    pub(crate) fn try_leaf_turn<A, F: FnOnce(&mut Leaf) -> A + Drop>(
        &self,
        caller: &mut Caller,
        worker: usize,
        slot: usize,
        tries: u32,
        act: F,
    ) -> Attempt<A>
        requires own { IsCallerOf self.now caller.old }
        requires may { slot < slots self.now.row.world → MayActOn F.FnOnce leaf_fits shown self.now.row worker act }
        ensures own { IsCallerOf self.now caller.new }
        ensures turn { LeafEnded worker slot tries ⊥ (λ r. LeafTurned worker (λ x y. FnOnceReturnsAtMut F.FnOnce act x r y) caller.old caller.new × (caller.new.book ≡ caller.old.book)) caller.old result caller.new }
    {
        if worker >= self.leaves.count() || slot >= self.row.slots() {
            return Attempt::OutOfRange;
        }
        match self.leaves.try_turn(&mut caller.leaves, worker, tries, act) {
            None => Attempt::LockBusy,
            Some(answer) => Attempt::Answered(answer),
        }
    }

    // As book_turn, for a call of a slot, with so many tries of the lock.
    #[inline(always)]
    pub(crate) fn try_slot_turn<A, F: FnOnce(&mut Book) -> A + Drop>(
        &self,
        caller: &mut Caller,
        slot: usize,
        tries: u32,
        act: F,
    ) -> Attempt<A>
        requires own { IsCallerOf self.now caller.old }
        requires may { slot < slots self.now.row.world → MayActOn F.FnOnce book_fits shown self.now.row 0 act }
        ensures own { IsCallerOf self.now caller.new }
        ensures turn { BookEnded slot tries (λ r. BookTurned (λ x y. FnOnceReturnsAtMut F.FnOnce act x r y) caller.old caller.new × (caller.new.leaves ≡ caller.old.leaves)) caller.old result caller.new }
    {
        if slot >= self.slots() {
            return Attempt::OutOfRange;
        }
        self.try_book_turn(caller, tries, act)
    }

    // As book_turn, with so many tries of the lock.
    #[inline(always)]
    pub(crate) fn try_book_turn<A, F: FnOnce(&mut Book) -> A + Drop>(
        &self,
        caller: &mut Caller,
        tries: u32,
        act: F,
    ) -> Attempt<A>
        requires own { IsCallerOf self.now caller.old }
        requires may { MayActOn F.FnOnce book_fits shown self.now.row 0 act }
        ensures own { IsCallerOf self.now caller.new }
        ensures turn { LookEnded tries (λ r. BookTurned (λ x y. FnOnceReturnsAtMut F.FnOnce act x r y) caller.old caller.new × (caller.new.leaves ≡ caller.old.leaves)) caller.old result caller.new }
    {
        match self.book.try_turn(&mut caller.book, 0, tries, act) {
            None => Attempt::LockBusy,
            Some(answer) => Attempt::Answered(answer),
        }
    }
}
