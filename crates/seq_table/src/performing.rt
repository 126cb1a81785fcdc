//! One call on a table, whichever table and call it is.
ghost use Rattle.std.specs.Prelude.{◌≡◌, ℕ, length};
ghost use Rattle.dep_index.specs.Calls.{reply, next, IsInRange};
ghost use Rattle.dep_index.specs.declared.table.calls.Call.TheVariants.{Get};

use crate::modules::Modules;
use dep_index::{Call, Reply};

/// Makes the call, and says what it answers. The worker of a get has room for it (`Modules::make_room`).
pub fn perform<M: Modules>(table: &mut M, call: Call) -> Reply
    requires range { IsInRange (length (M.catalogue table.old)) (length (M.table table.old).rows) call }
    requires room { (w m : ℕ) → call ≡ Get w m → M.has_room table.old w }
    ensures answers { result ≡ reply (M.catalogue table.old) (M.table table.old) call }
    ensures becomes { M.table table.new ≡ next (M.catalogue table.old) (M.table table.old) call }
    ensures over { M.catalogue table.new ≡ M.catalogue table.old }
    ensures named { M.names table.new ≡ M.names table.old }
{
    match call {
        Call::Get(worker, slot) => Reply::of(table.get(worker, slot)),
        Call::Put(worker, slot) => Reply::of(table.put(worker, slot)),
        Call::InUse(slot) => Reply::of_query(table.in_use(slot)),
        Call::BeginLoad(slot) => Reply::of(table.begin_load(slot)),
        Call::EndLoad(slot, ok) => Reply::of(table.end_load(slot, ok)),
        Call::BeginDrain(slot) => Reply::of(table.begin_drain(slot)),
        Call::BeginRemove(slot) => Reply::of(table.begin_remove(slot)),
        Call::EndRemove(slot) => Reply::of(table.end_remove(slot)),
        Call::CancelRemove(slot) => Reply::of(table.cancel_remove(slot)),
    }
}
