//! A worker of a script, and what it does to a module.
ghost use Rattle.std.specs.Prelude.{◌≡◌, IfSome};
ghost use Rattle.workload_drive.specs.Calls.{ChangeMade, LineMade};

use super::acts::{Change, Deed};
use super::calls::{Asks, Calls};
use super::entries::Task;
use dep_index::{Call, Reply};
use std::sync::Wait;

/// A worker by its number, with what it calls and asks.
#[derive(Drop)]
pub(super) struct Worker<C: Drop, A: Drop> {
    pub(super) calls: C,
    pub(super) asks: A,
    pub(super) number: usize,
}

/// Makes a change: its first call and, if that is Done, its second. The reply is that of the last call that was made. It
/// is None if the slot is out of range.
pub(super) fn make_change<R: Wait, C: Calls>(
    rt: &R,
    calls: &mut C,
    change: Change,
    slot: usize,
) -> Option<Reply>
    ensures { IfSome result (λ reply. ChangeMade C.made change slot reply calls.old calls.new) }
{
    let reply = calls.make(rt, change.first(slot))?;
    match (change.second(slot), reply) {
        (Some(call), Reply::Done) => calls.make(rt, call),
        _ => Some(reply),
    }
}

impl<C: Calls + Drop, A: Asks + Drop> Worker<C, A> {
    /// Does a task, and answers its reply. It is None if the worker or the slot is out of range.
    pub(super) fn perform<R: Wait>(&mut self, rt: &R, task: Task) -> Option<Reply>
        ensures line { IfSome result (λ reply. LineMade C.made self.old.number task.deed task.slot reply self.old.calls self.new.calls) }
        ensures number { self.new.number ≡ self.old.number }
    {
        let slot = task.slot;
        match task.deed {
            Deed::Get => self.calls.make(rt, Call::Get(self.number, slot)),
            Deed::Put => self.calls.make(rt, Call::Put(self.number, slot)),
            Deed::Query => Some(Reply::of_query(self.asks.ask(slot)?)),
            Deed::Make(change) => make_change(rt, &mut self.calls, change, slot),
        }
    }
}
