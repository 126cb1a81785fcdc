//! Managed calls, which any thread makes.
ghost use Rattle.std.specs.Prelude.{◌≡◌, ◌<◌, ◌≤◌, ◌↔◌, IsSome, IfSome, IfNone, MatchOption, OnOk};
ghost use Rattle.dep_index.specs.Refusals.{reply_of, begin_remove_refusal};
ghost use Rattle.root_row.specs.World.{slots};
ghost use Rattle.managed_table.specs.Callers.{IsCallerOf};
ghost use Rattle.managed_table.specs.Calls.{CanBeMade};
ghost use Rattle.theorems.specs.Managed.{WasMadeOnce, LeftUnused};

use dep_index::laws::legal_is_safe;
use dep_index::{BeginRemoveError, Call, Reply};
use managed_table::{Caller, ManagedTable};
use std::sync::Wait;

/// Each managed call that is answered was made exactly once: its caller had one turn more, and in it the worker's leaf or the book
/// made this one call. The caller did nothing else, and no further caller came from it: each but the first comes from a caller, so no
/// other call was made behind it. The call was answered as the one-thread table answers it in a legal history, which begins with all
/// that this caller had seen there, and in which removals are safe. None comes exactly if the worker or the slot is out of range, or
/// if it is a query, which takes no lock. Nothing is then done. It may not return.
///
/// Premises: the caller is of this table; the steps on all words are in one order (sequentially consistent atomics).
pub fn managed_calls_are_made_once<R: Wait>(
    rt: &R,
    table: &ManagedTable,
    caller: &mut Caller,
    call: Call,
) -> Option<Reply>
    requires own { IsCallerOf table.now caller.old }
    ensures own { IsCallerOf table.now caller.new }
    ensures made { IsSome result ↔ CanBeMade table.now call }
    ensures once { IfSome result (λ reply. WasMadeOnce table.now.row call reply caller.old caller.new) }
    ensures not_made { IfNone result (caller.new ≡ caller.old) }
{
    legal_is_safe();
    table.make(rt, caller, call)
}

/// A managed removal that was begun with Ok found no reference by any worker, through whichever caller it was taken, and no
/// loaded module that needs it. In every legal history that begins so, no get of the module succeeds afterwards until it is
/// live again. None comes exactly if the slot is out of range, and nothing is then done. Premises as above.
pub fn managed_removals_find_no_user<R: Wait>(
    rt: &R,
    table: &ManagedTable,
    caller: &mut Caller,
    slot: usize,
) -> Option<Result<(), BeginRemoveError>>
    requires own { IsCallerOf table.now caller.old }
    ensures own { IsCallerOf table.now caller.new }
    ensures range { MatchOption result ((slots table.now.row.world ≤ slot) × (caller.new ≡ caller.old)) (λ _. slot < slots table.now.row.world) }
    ensures once { IfSome result (λ r. WasMadeOnce table.now.row (Call.BeginRemove slot) (reply_of begin_remove_refusal r) caller.old caller.new) }
    ensures unused { IfSome result (λ r. OnOk r (LeftUnused table.now.row (Call.BeginRemove slot) slot caller.old caller.new)) }
{
    legal_is_safe();
    table.begin_remove(rt, caller, slot)
}
