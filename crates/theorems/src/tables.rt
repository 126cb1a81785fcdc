//! The one-thread table.
ghost use Rattle.std.specs.Prelude.{◌≡◌, ◌≢◌, ℕ, length};
ghost use Rattle.dep_index.specs.Calls.{reply, next, IsInRange};
ghost use Rattle.dep_index.specs.Laws.{IsLawful};
ghost use Rattle.dep_index.specs.declared.table.calls.Call.TheVariants.{Get};

use dep_index::{Call, Reply};
use seq_table::{Modules, perform};

/// Whichever table it is, a call answers and leaves what the one-thread table does. One that is refused, or only asks,
/// changes nothing. And whatever calls were made before, the table is lawful: its order has each module of the table
/// once, references name Live or Draining modules, and the needs of each module of the table are Live. The worker of a
/// get has room for it, which may take memory beforehand: what the call answers does not depend on memory.
pub fn refused_calls_change_nothing<M: Modules>(table: &mut M, call: Call) -> Reply
    requires range { IsInRange (length (M.catalogue table.old)) (length (M.table table.old).rows) call }
    requires room { (w m : ℕ) → call ≡ Get w m → M.has_room table.old w }
    ensures answers { result ≡ reply (M.catalogue table.old) (M.table table.old) call }
    ensures becomes { M.table table.new ≡ next (M.catalogue table.old) (M.table table.old) call }
    ensures refused { result ≢ Reply.Done → M.table table.new ≡ M.table table.old }
    ensures over { M.catalogue table.new ≡ M.catalogue table.old }
    ensures lawful { IsLawful (M.catalogue table.new) (M.table table.new) }
{
    let reply = perform(table, call);
    table.laws();
    reply
}
