//! The calls of an own caller for all that one worker holds.
use crate::attempt::Attempt;
use crate::caller::Caller;
use crate::holdings::{Holding, first_held, put_slots};
use crate::own_caller::OwnCaller;
use crate::table::ManagedTable;
use use_indicator::Leaf;

impl ManagedTable {
    ghost use Rattle.std.specs.Prelude.{◌≡◌};
    ghost use Rattle.std.specs.Fn.{FnOnceReturnsAtMut};
    ghost use Rattle.managed_table.specs.Kept.{shown, leaf_fits};
    ghost use Rattle.managed_table.specs.Passes.{MayActOn};
    ghost use Rattle.managed_table.specs.Callers.{IsCallerOf, LeafTurned};
    ghost use Rattle.managed_table.specs.Holdings.{WorkerEnded};

    // As try_leaf_turn, for a call that names no slot.
    #[inline(always)]
    pub(crate) fn try_worker_turn<A, F: FnOnce(&mut Leaf) -> A + Drop>(
        &self,
        caller: &mut Caller,
        worker: usize,
        tries: u32,
        act: F,
    ) -> Attempt<A>
        requires own { IsCallerOf self.now caller.old }
        requires may { MayActOn F.FnOnce leaf_fits shown self.now.row worker act }
        ensures own { IsCallerOf self.now caller.new }
        ensures turn { WorkerEnded worker tries (λ r. LeafTurned worker (λ x y. FnOnceReturnsAtMut F.FnOnce act x r y) caller.old caller.new × (caller.new.book ≡ caller.old.book)) caller.old result caller.new }
    {
        if worker >= self.leaves.count() {
            return Attempt::OutOfRange;
        }
        match self.leaves.try_turn(&mut caller.leaves, worker, tries, act) {
            None => Attempt::LockBusy,
            Some(answer) => Attempt::Answered(answer),
        }
    }
}

impl OwnCaller {
    ghost use Rattle.std.specs.Prelude.{◌≡◌};
    ghost use Rattle.managed_table.specs.Owned.{row_of, SameTable};
    ghost use Rattle.managed_table.specs.Attempts.{LeafShows};
    ghost use Rattle.managed_table.specs.Holdings.{WorkerEnded, LeafGaveAllBack, IsFirstHeld};

    /// Gives back all references of the worker, each module's as often as it is held, in one turn: for a holder that is gone. Each is
    /// a put of the history.
    pub fn put_all(&mut self, worker: usize, tries: u32) -> Attempt<()>
        ensures same { SameTable self.old self.new }
        ensures call { WorkerEnded worker tries (λ _. LeafGaveAllBack worker self.old self.new) self.old result self.new }
    {
        let row = &self.table.row;
        self.table
            .try_worker_turn(&mut self.caller, worker, tries, |leaf| {
                leaf.laws();
                put_slots(row, leaf);
                leaf.laws();
            })
    }

    /// The first slot from a place on that the worker holds, and how often. The turn makes no call.
    pub fn held_by(&mut self, worker: usize, place: usize, tries: u32) -> Attempt<Option<Holding>>
        ensures same { SameTable self.old self.new }
        ensures shown { WorkerEnded worker tries (λ found. LeafShows worker (IsFirstHeld (row_of self.old) worker place found) self.old self.new) self.old result self.new }
    {
        let row = &self.table.row;
        self.table
            .try_worker_turn(&mut self.caller, worker, tries, |leaf| {
                leaf.laws();
                first_held(row, leaf, place)
            })
    }
}
