//! The locks, and which thread holds each.
ghost use Rattle.std.specs.Prelude.{◌≡◌, ◌<◌, length, replicate, None, IfOk};
ghost use Rattle.dep_index.specs.Calls.{IsWorkerInRange, worker_of};
ghost use Rattle.step_core.specs.Machine.{holder, with_holder, lock_of};

use dep_index::Call;
use std::alloc::{AllocError, Global};
use std::marker::Model;

/// The threads that hold the lock of each leaf, and the lock of the table.
#[derive(Drop)]
pub struct Holders {
    leaves: Vec<Option<usize>>,
    table: Option<usize>,
}

impl Model for Holders {
    ghost use Rattle.step_core.specs.Machine.{Locks};

    ghost Value = { Locks };

    ghost view = { λ h. record { leaves = h.leaves.items; table = h.table } };
}

impl Holders {
    /// No lock is held.
    pub fn new(alloc: Global, workers: usize) -> Result<Holders, AllocError>
        ensures { IfOk result (λ holders. holders ≡ record { leaves = replicate workers None; table = None }) }
    {
        Ok(Holders {
            leaves: vec![in alloc; None; workers]?,
            table: None,
        })
    }

    /// The thread that holds the lock of a call.
    pub fn holder(&self, call: Call) -> Option<usize>
        ensures { result ≡ holder self.now (lock_of call) }
    {
        match call {
            Call::Get(leaf, _) | Call::Put(leaf, _) => self.leaves.get(leaf).copied().flatten(),
            Call::InUse(_) => None,
            _ => self.table,
        }
    }

    /// The lock of a call goes to a thread, or to none.
    pub fn set_holder(&mut self, call: Call, thread: Option<usize>)
        requires { IsWorkerInRange (length self.old.leaves) (worker_of call) }
        ensures { self.new ≡ with_holder self.old (lock_of call) thread }
    {
        match call {
            Call::Get(leaf, _) | Call::Put(leaf, _) => self.leaves[leaf] = thread,
            Call::InUse(_) => {}
            _ => self.table = thread,
        }
    }
}
