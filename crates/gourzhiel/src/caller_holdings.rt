//! The managed calls of all that one worker holds, on the handle of a caller.
ghost use Rattle.std.specs.Prelude.{◌≡◌, true};
ghost use Rattle.managed_table.specs.Owned.{SameTable};
ghost use Rattle.gourzhiel.specs.Holdings.{PutAllEnded, IsHoldingTold, HeldByTold};

use crate::handles::GzCaller;
use crate::numbers::{BUSY, DONE, NOT_HELD, OUT_OF_RANGE};
use managed_table::{Attempt, Holding};

/// Gives back all references of the worker, each module's as often as it is held, in one turn, in at most so many tries of its
/// lock.
///
/// BUSY: the lock was taken at each try. OUT_OF_RANGE: the worker is none of the table. Nothing is then given back.
#[unsafe(no_mangle)]
pub extern "C" fn gz_caller_put_all(caller: &mut GzCaller, worker: usize, tries: u32) -> u32
    requires full { caller.old.full ≡ true }
    ensures kept { (caller.new.full ≡ true) × SameTable caller.old.held caller.new.held }
    ensures call { PutAllEnded caller.old.held worker tries result caller.new.held }
{
    match caller.lend().put_all(worker, tries) {
        Attempt::OutOfRange => OUT_OF_RANGE,
        Attempt::LockBusy | Attempt::Missed => BUSY,
        Attempt::Answered(_) => DONE,
    }
}

// Writes what was found, if anything was, and says how the look ended.
#[inline(always)]
fn tell_holding(ended: Attempt<Option<Holding>>, slot: &mut usize, count: &mut u32) -> u32
    ensures { IsHoldingTold ended slot.old count.old result slot.new count.new }
{
    match ended {
        Attempt::OutOfRange => OUT_OF_RANGE,
        Attempt::LockBusy | Attempt::Missed => BUSY,
        Attempt::Answered(None) => NOT_HELD,
        Attempt::Answered(Some(found)) => {
            *slot = found.slot;
            *count = found.count;
            DONE
        }
    }
}

/// The first slot from a place on that the worker holds, and how often. It is no call of the history.
///
/// NOT_HELD: the worker holds none from there on. BUSY: the lock was taken at each try. OUT_OF_RANGE: the worker is none of the
/// table. Slot and count are then left as they are.
#[unsafe(no_mangle)]
pub extern "C" fn gz_caller_held_by(
    caller: &mut GzCaller,
    worker: usize,
    place: usize,
    tries: u32,
    slot: &mut usize,
    count: &mut u32,
) -> u32
    requires full { caller.old.full ≡ true }
    ensures kept { (caller.new.full ≡ true) × SameTable caller.old.held caller.new.held }
    ensures holding { HeldByTold caller.old.held worker place tries slot.old count.old result slot.new count.new caller.new.held }
{
    tell_holding(caller.lend().held_by(worker, place, tries), slot, count)
}
