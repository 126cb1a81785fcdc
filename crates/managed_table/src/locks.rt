//! Locks that know whose value lies behind them. A lock that is free has its own value behind it, of its own row.
ghost use Rattle.std.specs.Prelude.{◌≡◌, ◌<◌, ◌∷◌, [], length, IfOk, MatchBool};
ghost use Rattle.std.specs.Fn.{FnOnceTakesAtMut, FnOnceReturnsAtMut};
ghost use Rattle.root_row.specs.World.{place_of};
ghost use Rattle.managed_table.specs.Locks.{AreFresh};
ghost use Rattle.managed_table.specs.Turns.{HasTaken, MadeTurn, IsSame, Misses, new_pass, pass_of, after_turn};
ghost use Rattle.managed_table.specs.Meeting.{parent, further, taken_back};
ghost use Rattle.managed_table.specs.Passes.{IsFree, IsLastOf, HasInHand, MayActOn, ActedOn};

use crate::keyed::Keyed;
use crate::plays::{Further, LetGo, Seize, TakeBack};
use crate::rule::{OneTurn, Setting};
use crate::view::Passes;
use atomic_table::{Refused, Seat, Table};
use root_row::Row;
use std::alloc::{AllocError, Global};
use std::snapshot::Snapshot;
use std::sync::Wait;

// How far a lock's word stands from the next lock's: two cache lines.
pub(crate) const WORDS_APART: usize = 16;

// The three states of a mutex over a futex (Drepper, Futexes Are Tricky). A pass lets go by one subtraction of HELD: what is
// left is FREE, unless another pass waits.
pub(crate) const FREE: u64 = 0;

const HELD: u64 = 1;

const WAITED_FOR: u64 = 2;

#[derive(Drop)]
pub struct Locks<T: Keyed> {
    pub(crate) table: Table<T, Passes, Setting, OneTurn<T>, Global>,
    ghost words_are: { table.shared.table_id.words ≡ place_of table.shared.key.locks },
    ghost slots_are: { table.shared.table_id.slots ≡ table.shared.key.locks },
    ghost few: { table.shared.key.locks < 4294967296 },
}

impl<T: Keyed + Drop> Locks<T> {
    /// The locks, and the first pass for them.
    pub fn new(
        alloc: Global,
        row: &Row,
        values: Vec<T>,
    ) -> Result<(Locks<T>, Seat<T, Passes>), AllocError>
        requires few { length values.items < 4294967296 }
        requires fresh { AreFresh T.fits T.shown row.now values.items }
        ensures row { IfOk result (λ r. r.0.table.shared.key.row.value ≡ row.now) }
        ensures count { IfOk result (λ r. r.0.table.shared.key.locks ≡ length values.items) }
        ensures first { IfOk result (λ r. IsFree r.0.table.shared.table_id row.now r.1 × (pass_of r.1.me.0 ≡ new_pass row.now [])) }
    {
        let locks = values.len();
        let words = Vec::from_elem(alloc, FREE, (locks + 1) * WORDS_APART)?;
        let setting = Setting {
            row: Snapshot::of(row),
            locks,
        };
        match Table::new(alloc, words.as_slice(), values, &setting) {
            Ok((table, first)) => Ok((Locks { table }, first)),
            Err(Refused { slots: _ }) => Err(AllocError),
        }
    }

    pub fn count(&self) -> usize
        ensures { result ≡ self.now.table.shared.key.locks }
    {
        self.table.slot_count()
    }

    /// A further pass, which comes from the given one. One load.
    pub fn further(&self, seat: &mut Seat<T, Passes>) -> Seat<T, Passes>
        requires free { IsFree self.now.table.shared.table_id self.now.table.shared.key.row.value seat.old }
        ensures parent_id { seat.new.table_id ≡ seat.old.table_id }
        ensures parent { seat.new.me ≡ (parent seat.old.me.0, []) }
        ensures further_id { result.table_id ≡ seat.old.table_id }
        ensures further { result.me ≡ (further seat.old.me.0, []) }
    {
        self.table.shared.split_seat::<Further>(seat)
    }

    /// The last further pass, which has done nothing, goes back to the one that it came from. One load.
    pub fn take_back(&self, seat: &mut Seat<T, Passes>, further: Seat<T, Passes>)
        requires free { IsFree self.now.table.shared.table_id self.now.table.shared.key.row.value seat.old }
        requires further_free { IsFree self.now.table.shared.table_id self.now.table.shared.key.row.value further }
        requires last { IsLastOf (pass_of seat.old.me.0) (pass_of further.me.0) }
        ensures id { seat.new.table_id ≡ seat.old.table_id }
        ensures back { seat.new.me ≡ (taken_back seat.old.me.0 further.me.0, []) }
    {
        self.table.shared.join_seat::<TakeBack>(seat, further);
    }

    // Takes the lock if it is free, and else leaves it as it is.
    #[inline(always)]
    pub(crate) fn try_take(&self, seat: &mut Seat<T, Passes>, lock: usize) -> bool
        requires inside { lock < self.now.table.shared.key.locks }
        requires free { IsFree self.now.table.shared.table_id self.now.table.shared.key.row.value seat.old }
        ensures id { seat.new.table_id ≡ seat.old.table_id }
        ensures told { MatchBool result (HasTaken T.fits T.shown lock [] (pass_of seat.old.me.0) seat.new.me) (Misses lock 1 seat.old.me seat.new.me) }
    {
        let shared = &self.table.shared;
        shared.compare_exchange::<Seize<T>>(seat, (lock + 1) * WORDS_APART, FREE, HELD) == FREE
    }

    // Marks the lock as waited for, and takes it if it was free.
    fn mark(&self, seat: &mut Seat<T, Passes>, lock: usize) -> bool
        requires inside { lock < self.now.table.shared.key.locks }
        requires free { IsFree self.now.table.shared.table_id self.now.table.shared.key.row.value seat.old }
        ensures id { seat.new.table_id ≡ seat.old.table_id }
        ensures told { MatchBool result (HasTaken T.fits T.shown lock [] (pass_of seat.old.me.0) seat.new.me) (Misses lock 1 seat.old.me seat.new.me) }
    {
        let shared = &self.table.shared;
        shared.swap::<Seize<T>>(seat, (lock + 1) * WORDS_APART, WAITED_FOR) == FREE
    }

    /// Takes a lock, and waits for it if another pass has it.
    #[inline(always)]
    fn take<R: Wait>(&self, rt: &R, seat: &mut Seat<T, Passes>, lock: usize)
        requires inside { lock < self.now.table.shared.key.locks }
        requires free { IsFree self.now.table.shared.table_id self.now.table.shared.key.row.value seat.old }
        ensures id { seat.new.table_id ≡ seat.old.table_id }
        ensures taken { HasTaken T.fits T.shown lock [] (pass_of seat.old.me.0) seat.new.me }
    {
        if !self.try_take(seat, lock) {
            self.wait_for(rt, seat, lock);
        }
    }

    #[cold]
    #[inline(never)]
    pub(crate) fn wait_for<R: Wait>(&self, rt: &R, seat: &mut Seat<T, Passes>, lock: usize)
        requires inside { lock < self.now.table.shared.key.locks }
        requires free { IsFree self.now.table.shared.table_id self.now.table.shared.key.row.value seat.old }
        ensures id { seat.new.table_id ≡ seat.old.table_id }
        ensures taken { HasTaken T.fits T.shown lock [] (pass_of seat.old.me.0) seat.new.me }
    {
        for _ in rt.forever() {
            if self.mark(seat, lock) {
                return;
            }
            let shared = &self.table.shared;
            shared.park(rt, (lock + 1) * WORDS_APART, WAITED_FOR as u32);
        }
        unreachable!()
    }

    // Lends the value that the pass has in hand to `act`.
    #[inline(always)]
    pub(crate) fn lend<A, F: FnOnce(&mut T) -> A>(
        &self,
        seat: &mut Seat<T, Passes>,
        lock: usize,
        act: F,
    ) -> A
        requires id { seat.old.table_id ≡ self.now.table.shared.table_id }
        requires hand { (x : T) × (seat.old.me.1 ≡ (lock, x) ∷ []) × FnOnceTakesAtMut F.FnOnce act x }
        ensures id { seat.new.table_id ≡ seat.old.table_id }
        ensures view { seat.new.me.0 ≡ seat.old.me.0 }
        ensures did { ActedOn F.FnOnce lock act result seat.old.me.1 seat.new.me.1 }
    {
        act(seat.slot_mut(&self.table.shared, lock))
    }

    // Lets go of the lock if nobody waits for it. Else the pass is as it was.
    #[inline(always)]
    fn try_let_go(&self, seat: &mut Seat<T, Passes>, lock: usize) -> bool
        requires inside { lock < self.now.table.shared.key.locks }
        requires id { seat.old.table_id ≡ self.now.table.shared.table_id }
        requires row { (pass_of seat.old.me.0).row.value ≡ self.now.table.shared.key.row.value }
        requires holds { HasInHand T.fits T.shown lock (pass_of seat.old.me.0) seat.old.me }
        ensures id { seat.new.table_id ≡ seat.old.table_id }
        ensures told { MatchBool result ((seat.new.me.0 ≡ after_turn T.shown seat.old.me) × (seat.new.me.1 ≡ [])) (IsSame seat.old.me seat.new.me) }
    {
        let shared = &self.table.shared;
        shared.fetch_sub::<LetGo<T>>(seat, (lock + 1) * WORDS_APART, HELD) == HELD
    }

    /// Lets go of a lock, and wakes one who waits for it.
    #[inline(always)]
    pub(crate) fn put_back(&self, seat: &mut Seat<T, Passes>, lock: usize)
        requires inside { lock < self.now.table.shared.key.locks }
        requires id { seat.old.table_id ≡ self.now.table.shared.table_id }
        requires row { (pass_of seat.old.me.0).row.value ≡ self.now.table.shared.key.row.value }
        requires holds { HasInHand T.fits T.shown lock (pass_of seat.old.me.0) seat.old.me }
        ensures free { IsFree self.now.table.shared.table_id self.now.table.shared.key.row.value seat.new }
        ensures turn { seat.new.me.0 ≡ after_turn T.shown seat.old.me }
    {
        if !self.try_let_go(seat, lock) {
            self.hand_on(seat, lock);
        }
    }

    // Lets go of a lock that another waits for, and wakes one who does.
    #[cold]
    #[inline(never)]
    fn hand_on(&self, seat: &mut Seat<T, Passes>, lock: usize)
        requires inside { lock < self.now.table.shared.key.locks }
        requires id { seat.old.table_id ≡ self.now.table.shared.table_id }
        requires row { (pass_of seat.old.me.0).row.value ≡ self.now.table.shared.key.row.value }
        requires holds { HasInHand T.fits T.shown lock (pass_of seat.old.me.0) seat.old.me }
        ensures free { IsFree self.now.table.shared.table_id self.now.table.shared.key.row.value seat.new }
        ensures turn { seat.new.me.0 ≡ after_turn T.shown seat.old.me }
    {
        self.let_go(seat, lock);
        self.table.shared.wake_one((lock + 1) * WORDS_APART);
    }

    /// One turn: takes the lock, lets `act` work on the value behind it, and lets go.
    #[inline(always)]
    pub fn turn<R: Wait, A, F: FnOnce(&mut T) -> A>(
        &self,
        rt: &R,
        seat: &mut Seat<T, Passes>,
        lock: usize,
        act: F,
    ) -> A
        requires inside { lock < self.now.table.shared.key.locks }
        requires free { IsFree self.now.table.shared.table_id self.now.table.shared.key.row.value seat.old }
        requires may { MayActOn F.FnOnce T.fits T.shown self.now.table.shared.key.row.value lock act }
        ensures free { IsFree self.now.table.shared.table_id self.now.table.shared.key.row.value seat.new }
        ensures turn { MadeTurn T.fits T.shown lock (λ x y. FnOnceReturnsAtMut F.FnOnce act x result y) (pass_of seat.old.me.0) (pass_of seat.new.me.0) }
    {
        self.take(rt, seat, lock);
        let answer = self.lend(seat, lock, act);
        self.put_back(seat, lock);
        answer
    }
}
