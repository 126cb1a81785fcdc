//! Callers of a managed table meet its tellers.
ghost use Rattle.std.specs.Prelude.{◌≡◌, true};
ghost use Rattle.root_row.specs.Seats.{IsOf};
ghost use Rattle.managed_table.specs.Owned.{row_of, SameTable};
ghost use Rattle.gourzhiel.specs.Meeting.{LeafMeetingEnded, BookMeetingEnded};

use crate::handles::{GzCaller, GzTeller};
use crate::numbers::{BUSY, DONE, OUT_OF_RANGE};
use managed_table::Attempt;

/// The worker's leaf and a teller of the same table hear of each other, in at most so many tries of the leaf's lock: both have
/// then seen one list of calls. It is no call of the history.
///
/// BUSY: the lock was taken at each try. OUT_OF_RANGE: the worker is none of the table.
#[unsafe(no_mangle)]
pub extern "C" fn gz_caller_meet_leaf(
    caller: &mut GzCaller,
    worker: usize,
    tries: u32,
    teller: &mut GzTeller,
) -> u32
    requires full { (caller.old.full ≡ true) × (teller.old.full ≡ true) }
    requires own { IsOf (row_of caller.old.held) teller.old.held }
    ensures kept { (caller.new.full ≡ true) × SameTable caller.old.held caller.new.held }
    ensures teller_kept { (teller.new.full ≡ true) × IsOf (row_of caller.old.held) teller.new.held }
    ensures met { LeafMeetingEnded caller.old.held worker tries teller.old.held result caller.new.held teller.new.held }
{
    match caller.lend().meet_leaf(worker, teller.lend(), tries) {
        Attempt::OutOfRange => OUT_OF_RANGE,
        Attempt::LockBusy | Attempt::Missed => BUSY,
        Attempt::Answered(()) => DONE,
    }
}

/// The same of the book. BUSY: its lock was taken at each try.
#[unsafe(no_mangle)]
pub extern "C" fn gz_caller_meet_book(
    caller: &mut GzCaller,
    tries: u32,
    teller: &mut GzTeller,
) -> u32
    requires full { (caller.old.full ≡ true) × (teller.old.full ≡ true) }
    requires own { IsOf (row_of caller.old.held) teller.old.held }
    ensures kept { (caller.new.full ≡ true) × SameTable caller.old.held caller.new.held }
    ensures teller_kept { (teller.new.full ≡ true) × IsOf (row_of caller.old.held) teller.new.held }
    ensures met { BookMeetingEnded caller.old.held tries teller.old.held result caller.new.held teller.new.held }
{
    match caller.lend().meet_book(teller.lend(), tries) {
        Attempt::OutOfRange | Attempt::Missed => unreachable!(),
        Attempt::LockBusy => BUSY,
        Attempt::Answered(()) => DONE,
    }
}

/// Frees a teller.
#[unsafe(no_mangle)]
pub extern "C" fn gz_teller_free(teller: GzTeller)
    requires full { teller.full ≡ true }
{
    drop(teller.into_parts().into_box());
}
