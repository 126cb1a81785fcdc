//! What the end of a managed drain says.
//!
//! Premises of each claim: the callers and the reader are of this table; the steps on all words are in one order (sequentially
//! consistent atomics). A function may not return.
ghost use Rattle.std.specs.Prelude.{◌≡◌, ◌<◌, ◌≤◌, IfSome, MatchOption, OnOk};
ghost use Rattle.dep_index.specs.Refusals.{reply_of, end_remove_refusal};
ghost use Rattle.root_row.specs.World.{slots};
ghost use Rattle.root_row.specs.Seats.{IsOf};
ghost use Rattle.managed_table.specs.Callers.{IsCallerOf};
ghost use Rattle.managed_table.specs.Calls.{CanBeMade};
ghost use Rattle.theorems.specs.Managed.{WasMadeOnce, LeftUnused};
ghost use Rattle.theorems.specs.Told.{WereMadeInOrder, FindsItGone, AskedNothing};

use crate::told::calls_told_are_in_order;
use dep_index::laws::legal_is_safe;
use dep_index::{Call, EndRemoveError, Reply};
use managed_table::{Caller, ManagedTable};
use std::sync::Wait;
use use_indicator::Reader;

/// A managed drain, or removal, that ended with Ok left no reference by any worker, through whichever caller it was taken, and no
/// loaded module that needs the module. In every legal history that begins so, no get of the module succeeds afterwards until it
/// is live again. None comes exactly if the slot is out of range, and nothing is then done.
pub fn managed_drains_end_unused<R: Wait>(
    rt: &R,
    table: &ManagedTable,
    caller: &mut Caller,
    slot: usize,
) -> Option<Result<(), EndRemoveError>>
    requires own { IsCallerOf table.now caller.old }
    ensures own { IsCallerOf table.now caller.new }
    ensures range { MatchOption result ((slots table.now.row.world ≤ slot) × (caller.new ≡ caller.old)) (λ _. slot < slots table.now.row.world) }
    ensures once { IfSome result (λ r. WasMadeOnce table.now.row (Call.EndRemove slot) (reply_of end_remove_refusal r) caller.old caller.new) }
    ensures unused { IfSome result (λ r. OnOk r (LeftUnused table.now.row (Call.EndRemove slot) slot caller.old caller.new)) }
{
    legal_is_safe();
    table.end_remove(rt, caller, slot)
}

/// A get that was told of the end of a drain, which was answered Ok, finds the module gone: it is answered NotLive, unless the
/// module was live again between the two. Whatever they are answered, both were made, in this order, and the reader has asked
/// nothing. The worker and the slot are in range.
pub fn gets_told_of_a_drain_find_it_gone<R: Wait>(
    rt: &R,
    table: &ManagedTable,
    remover: &mut Caller,
    slot: usize,
    reader: Reader,
    user: &mut Caller,
    worker: usize,
) -> (Reply, Reply, Reader)
    requires remover_own { IsCallerOf table.now remover.old }
    requires user_own { IsCallerOf table.now user.old }
    requires reader_own { IsOf table.now.row reader }
    requires inside { CanBeMade table.now (Call.Get worker slot) }
    ensures remover_own { IsCallerOf table.now remover.new }
    ensures user_own { IsCallerOf table.now user.new }
    ensures reader_own { IsOf table.now.row result.2 }
    ensures quiet { AskedNothing reader.view result.2.view }
    ensures in_order { WereMadeInOrder table.now.row (Call.EndRemove slot) result.0 remover.old remover.new (Call.Get worker slot) result.1 user.old user.new }
    ensures gone { FindsItGone table.now.row (Call.EndRemove slot) slot worker result.0 result.1 remover.old remover.new user.old user.new }
{
    let end = Call::EndRemove(slot);
    let get = Call::Get(worker, slot);
    calls_told_are_in_order(rt, table, remover, end, reader, user, get)
}
