//! The calls of leaves.
use crate::attempt::{Attempt, attempted, missed_or_answered};
use crate::caller::Caller;
use crate::table::ManagedTable;
use dep_index::{Call, GetError, PutError};
use std::sync::Wait;

impl ManagedTable {
    ghost use Rattle.std.specs.Prelude.{◌≡◌, IfSome, MatchOption};
    ghost use Rattle.dep_index.specs.Refusals.{reply_of, get_refusal, put_refusal};
    ghost use Rattle.managed_table.specs.Shown.{HoldsSoOften};
    ghost use Rattle.managed_table.specs.Callers.{IsCallerOf, IsInside, IsOutside, LeafMade, LeafShown};
    ghost use Rattle.managed_table.specs.Attempts.{Ended, GetGivenUp, GetDid};

    /// Takes one reference for the worker. It is None exactly if the worker or the slot is out of range.
    ///
    /// Else the caller made one turn more: in it the worker's leaf made this one call, which was answered so. If another
    /// worker changed the module's word between, the leaf tries again.
    pub fn get<R: Wait>(
        &self,
        rt: &R,
        caller: &mut Caller,
        worker: usize,
        slot: usize,
    ) -> Option<Result<(), GetError>>
        requires own { IsCallerOf self.now caller.old }
        ensures own { IsCallerOf self.now caller.new }
        ensures range { MatchOption result (IsOutside self.now worker slot × (caller.new ≡ caller.old)) (λ _. IsInside self.now worker slot) }
        ensures call { IfSome result (λ r. LeafMade self.now worker (Call.Get worker slot) (reply_of get_refusal r) caller.old caller.new) }
        ensures book { caller.new.book ≡ caller.old.book }
    {
        if worker >= self.leaves.count() || slot >= self.row.slots() {
            return None;
        }
        let seat = &mut caller.leaves;
        if !self.leaves.try_take(seat, worker) {
            return Some(self.wait_and_get(rt, seat, worker, slot));
        }
        if let Some(answer) = self.end_by_get(seat, worker, slot) {
            return Some(answer);
        }
        Some(self.end_by_long_get(rt, seat, worker, slot))
    }

    /// As `get`, but the leaf tries at most this many times. `Missed`: the worker holds no reference to the slot, each of so many
    /// tries was missed, and no call was made in the turn. It waits for the lock, so it is never `LockBusy`.
    pub fn try_get<R: Wait>(
        &self,
        rt: &R,
        caller: &mut Caller,
        worker: usize,
        slot: usize,
        tries: u32,
    ) -> Attempt<Result<(), GetError>>
        requires own { IsCallerOf self.now caller.old }
        ensures own { IsCallerOf self.now caller.new }
        ensures call { Ended (IsOutside self.now worker slot) (IsInside self.now worker slot) ⊥ (GetGivenUp worker slot tries caller.old caller.new) (λ r. GetDid worker slot tries caller.old caller.new (reply_of get_refusal r)) caller.old result caller.new }
    {
        let row = &self.row;
        let turned = self.leaf_turn(rt, caller, worker, slot, |leaf| {
            leaf.laws();
            leaf.try_get(row, slot, tries)
        });
        missed_or_answered(attempted(turned))
    }

    /// Gives one reference of the worker back.
    pub fn put<R: Wait>(
        &self,
        rt: &R,
        caller: &mut Caller,
        worker: usize,
        slot: usize,
    ) -> Option<Result<(), PutError>>
        requires own { IsCallerOf self.now caller.old }
        ensures own { IsCallerOf self.now caller.new }
        ensures range { MatchOption result (IsOutside self.now worker slot × (caller.new ≡ caller.old)) (λ _. IsInside self.now worker slot) }
        ensures call { IfSome result (λ r. LeafMade self.now worker (Call.Put worker slot) (reply_of put_refusal r) caller.old caller.new) }
        ensures book { caller.new.book ≡ caller.old.book }
    {
        if worker >= self.leaves.count() || slot >= self.row.slots() {
            return None;
        }
        let seat = &mut caller.leaves;
        if !self.leaves.try_take(seat, worker) {
            return Some(self.wait_and_put(rt, seat, worker, slot));
        }
        Some(self.end_by_put(seat, worker, slot))
    }

    /// How often the worker holds the module. The turn makes no call.
    pub fn held<R: Wait>(
        &self,
        rt: &R,
        caller: &mut Caller,
        worker: usize,
        slot: usize,
    ) -> Option<u32>
        requires own { IsCallerOf self.now caller.old }
        ensures own { IsCallerOf self.now caller.new }
        ensures range { MatchOption result (IsOutside self.now worker slot × (caller.new ≡ caller.old)) (λ _. IsInside self.now worker slot) }
        ensures shown { IfSome result (λ r. LeafShown self.now worker (HoldsSoOften worker slot r) caller.old caller.new) }
        ensures book { caller.new.book ≡ caller.old.book }
    {
        self.leaf_turn(rt, caller, worker, slot, |leaf| {
            leaf.laws();
            leaf.held(slot)
        })
    }
}
