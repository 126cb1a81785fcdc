//! A managed call, whichever it is.
use crate::caller::Caller;
use crate::table::ManagedTable;
use dep_index::{Call, Reply};
use std::sync::Wait;

impl ManagedTable {
    ghost use Rattle.std.specs.Prelude.{◌≡◌, ◌↔◌, IsSome, IfSome, IfNone};
    ghost use Rattle.managed_table.specs.Callers.{IsCallerOf};
    ghost use Rattle.managed_table.specs.Calls.{CanBeMade, CallMade};

    /// Makes a call. It is None exactly if the worker or the slot is out of range, and of a query, which takes no lock.
    ///
    /// Else the caller made one turn more: in it the worker's leaf, or the book, made this one call, which was answered so.
    pub fn make<R: Wait>(&self, rt: &R, caller: &mut Caller, call: Call) -> Option<Reply>
        requires own { IsCallerOf self.now caller.old }
        ensures own { IsCallerOf self.now caller.new }
        ensures range { IsSome result ↔ CanBeMade self.now call }
        ensures call { IfSome result (λ reply. CallMade self.now call reply caller.old caller.new) }
        ensures none { IfNone result (caller.new ≡ caller.old) }
    {
        match call {
            Call::Get(worker, slot) => Some(Reply::of(self.get(rt, caller, worker, slot)?)),
            Call::Put(worker, slot) => Some(Reply::of(self.put(rt, caller, worker, slot)?)),
            Call::InUse(_) => None,
            Call::BeginLoad(slot) => Some(Reply::of(self.begin_load(rt, caller, slot)?)),
            Call::EndLoad(slot, ok) => Some(Reply::of(self.end_load(rt, caller, slot, ok)?)),
            Call::BeginDrain(slot) => Some(Reply::of(self.begin_drain(rt, caller, slot)?)),
            Call::BeginRemove(slot) => Some(Reply::of(self.begin_remove(rt, caller, slot)?)),
            Call::EndRemove(slot) => Some(Reply::of(self.end_remove(rt, caller, slot)?)),
            Call::CancelRemove(slot) => Some(Reply::of(self.cancel_remove(rt, caller, slot)?)),
        }
    }
}
