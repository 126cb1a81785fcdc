//! Workers on threads.
ghost use Rattle.std.specs.Prelude.{◌≡◌, ◌<◌, ◌++◌, OnOk, ℕ};
ghost use Rattle.dep_index.specs.Refusals.{reply_of, get_refusal, begin_remove_refusal, end_remove_refusal};
ghost use Rattle.dep_index.specs.History.{IsLegal};
ghost use Rattle.root_row.specs.World.{slots};
ghost use Rattle.root_row.specs.Seats.{IsOf};
ghost use Rattle.root_row.specs.Views.{worker_of, seen_of};
ghost use Rattle.root_row.specs.History.{StartsWith};
ghost use Rattle.theorems.specs.Meetings.{LeafIsAnswered, BookIsAnswered, FoundUnused, history_of, calls_by};

use dep_index::{BeginRemoveError, Call, EndRemoveError, GetError};
use module_table::Book;
use root_row::Row;
use std::sync::Wait;
use use_indicator::{Leaf, meet};

/// A get that returned was answered as the one-thread table answers it in a legal history, which begins with all that the
/// leaf had seen before, and in which removals are safe. It may not return.
///
/// Premises: the leaf is of this row, and the slot is one of its slots; the steps on all words are in one order
/// (sequentially consistent atomics).
pub fn gets_are_answered_in_one_history<R: Wait>(
    rt: &R,
    leaf: &mut Leaf,
    row: &Row,
    slot: usize,
) -> Result<(), GetError>
    requires own { IsOf row.now leaf.old }
    requires inside { slot < slots row.now.world }
    ensures own { IsOf row.now leaf.new }
    ensures answered { LeafIsAnswered leaf.old.view (Call.Get (worker_of leaf.old.view) slot) (reply_of get_refusal result) leaf.new.view }
{
    let result = leaf.get(rt, row, slot);
    leaf.laws();
    result
}

/// A removal that the book begins was answered as the one-thread table answers it in a legal history, and if it is
/// answered Ok there was no reference to the module, and no module of the table that needs it. Premises as above.
pub fn removals_find_no_user(
    book: &mut Book,
    row: &Row,
    slot: usize,
) -> Result<(), BeginRemoveError>
    requires own { IsOf row.now book.old }
    requires inside { slot < slots row.now.world }
    ensures own { IsOf row.now book.new }
    ensures answered { BookIsAnswered book.old.view (Call.BeginRemove slot) (reply_of begin_remove_refusal result) book.new.view }
    ensures unused { OnOk result (FoundUnused (Call.BeginRemove slot) slot book.new.view) }
{
    let result = book.begin_remove(row, slot);
    book.laws();
    result
}

/// The same of the end of a removal or of a drain.
pub fn removals_end_unused(book: &mut Book, row: &Row, slot: usize) -> Result<(), EndRemoveError>
    requires own { IsOf row.now book.old }
    requires inside { slot < slots row.now.world }
    ensures own { IsOf row.now book.new }
    ensures answered { BookIsAnswered book.old.view (Call.EndRemove slot) (reply_of end_remove_refusal result) book.new.view }
    ensures unused { OnOk result (FoundUnused (Call.EndRemove slot) slot book.new.view) }
{
    let result = book.end_remove(row, slot);
    book.laws();
    result
}

/// Two leaves that meet have seen one list. It is legal, begins with what each had seen, and has of each one's calls just
/// those that it had made. They come back as they were handed over.
pub fn leaves_that_meet_have_seen_one_list(first: Leaf, second: Leaf, row: &Row) -> (Leaf, Leaf)
    requires first_own { IsOf row.now first }
    requires second_own { IsOf row.now second }
    ensures own { IsOf row.now result.0 × IsOf row.now result.1 }
    ensures workers { (worker_of result.0.view ≡ worker_of first.view) × (worker_of result.1.view ≡ worker_of second.view) }
    ensures one_list { seen_of result.0.view ≡ seen_of result.1.view }
    ensures begins_first { StartsWith (seen_of result.0.view) (seen_of first.view) }
    ensures begins_second { StartsWith (seen_of result.0.view) (seen_of second.view) }
    ensures own_first { calls_by (worker_of first.view) result.0.view ≡ calls_by (worker_of first.view) first.view }
    ensures own_second { calls_by (worker_of second.view) result.0.view ≡ calls_by (worker_of second.view) second.view }
    ensures legal { IsLegal row.now.world.catalogue row.now.world.workers (history_of result.0.view) }
{
    meet(first, second, row)
}
