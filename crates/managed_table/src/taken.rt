//! Managed gets and puts. After each call that may wait the compiled code tests a byte. So none is made here, unless the lock
//! is taken, or a get has missed its first tries of the module's word.
use crate::table::ManagedTable;
use crate::view::Passes;
use atomic_table::Seat;
use dep_index::{Call, GetError, PutError};
use std::sync::Wait;
use use_indicator::Leaf;

/// How many tries of the module's word a get makes by a call that can't wait, before it goes on with `Leaf::get`. Each miss
/// doubles the pause before the next try, so few gets need more.
const TRIES: u32 = 64;

impl ManagedTable {
    ghost use Rattle.std.specs.Prelude.{◌≡◌, MatchOption};
    ghost use Rattle.dep_index.specs.Refusals.{reply_of, get_refusal, put_refusal};
    ghost use Rattle.managed_table.specs.declared.view.Pass.{Pass};
    ghost use Rattle.managed_table.specs.Turns.{pass_of};
    ghost use Rattle.managed_table.specs.Passes.{IsFree};
    ghost use Rattle.managed_table.specs.Callers.{IsInside};
    ghost use Rattle.managed_table.specs.InHand.{HasLeaf, LeafMadeIt};

    // The leaf in hand makes a get in at most `TRIES` tries, and the lock is let go. None: each was missed, and the leaf is
    // still in hand.
    #[inline(always)]
    pub(crate) fn end_by_get(
        &self,
        seat: &mut Seat<Leaf, Passes>,
        worker: usize,
        slot: usize,
    ) -> Option<Result<(), GetError>>
        requires inside { IsInside self.now worker slot }
        requires has { (p : Pass) × HasLeaf self.now worker p seat.old }
        ensures ends { (p : Pass) → HasLeaf self.now worker p seat.old → MatchOption result (HasLeaf self.now worker p seat.new) (λ r. LeafMadeIt self.now worker (Call.Get worker slot) (reply_of get_refusal r) p seat.new) }
    {
        let leaf = seat.slot_mut(&self.leaves.table.shared, worker);
        let answer = leaf.try_get_unused(&self.row, slot, TRIES)?;
        self.leaves.put_back(seat, worker);
        Some(answer)
    }

    // The same, in as many tries as it takes.
    #[cold]
    #[inline(never)]
    pub(crate) fn end_by_long_get<R: Wait>(
        &self,
        rt: &R,
        seat: &mut Seat<Leaf, Passes>,
        worker: usize,
        slot: usize,
    ) -> Result<(), GetError>
        requires inside { IsInside self.now worker slot }
        requires has { (p : Pass) × HasLeaf self.now worker p seat.old }
        ensures ends { (p : Pass) → HasLeaf self.now worker p seat.old → LeafMadeIt self.now worker (Call.Get worker slot) (reply_of get_refusal result) p seat.new }
    {
        let leaf = seat.slot_mut(&self.leaves.table.shared, worker);
        let answer = leaf.get(rt, &self.row, slot);
        self.leaves.put_back(seat, worker);
        answer
    }

    // The leaf in hand makes a put, and the lock is let go.
    #[inline(always)]
    pub(crate) fn end_by_put(
        &self,
        seat: &mut Seat<Leaf, Passes>,
        worker: usize,
        slot: usize,
    ) -> Result<(), PutError>
        requires inside { IsInside self.now worker slot }
        requires has { (p : Pass) × HasLeaf self.now worker p seat.old }
        ensures ends { (p : Pass) → HasLeaf self.now worker p seat.old → LeafMadeIt self.now worker (Call.Put worker slot) (reply_of put_refusal result) p seat.new }
    {
        let leaf = seat.slot_mut(&self.leaves.table.shared, worker);
        let answer = leaf.put(&self.row, slot);
        self.leaves.put_back(seat, worker);
        answer
    }

    // A turn with a get, if the lock was taken at a try.
    #[cold]
    #[inline(never)]
    pub(crate) fn wait_and_get<R: Wait>(
        &self,
        rt: &R,
        seat: &mut Seat<Leaf, Passes>,
        worker: usize,
        slot: usize,
    ) -> Result<(), GetError>
        requires inside { IsInside self.now worker slot }
        requires free { IsFree self.now.leaves self.now.row seat.old }
        ensures turn { LeafMadeIt self.now worker (Call.Get worker slot) (reply_of get_refusal result) (pass_of seat.old.me.0) seat.new }
    {
        self.leaves.wait_for(rt, seat, worker);
        self.end_by_long_get(rt, seat, worker, slot)
    }

    // A turn with a put, if the lock was taken at a try.
    #[cold]
    #[inline(never)]
    pub(crate) fn wait_and_put<R: Wait>(
        &self,
        rt: &R,
        seat: &mut Seat<Leaf, Passes>,
        worker: usize,
        slot: usize,
    ) -> Result<(), PutError>
        requires inside { IsInside self.now worker slot }
        requires free { IsFree self.now.leaves self.now.row seat.old }
        ensures turn { LeafMadeIt self.now worker (Call.Put worker slot) (reply_of put_refusal result) (pass_of seat.old.me.0) seat.new }
    {
        self.leaves.wait_for(rt, seat, worker);
        self.end_by_put(seat, worker, slot)
    }
}
