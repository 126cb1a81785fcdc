//! What the book of a managed table shows. It is no call of the history.
ghost use Rattle.std.specs.Prelude.{◌≡◌, true};
ghost use Rattle.managed_table.specs.Owned.{SameTable};
ghost use Rattle.gourzhiel.specs.Called.{StateCallTold, LoadedTold, PlaceCallTold};

use crate::endings::ended_state_number;
use crate::handles::GzCaller;
use crate::numbers::{BUSY, DONE, OUT_OF_RANGE};
use managed_table::Attempt;

/// The state of the module: ABSENT, LOADING, LIVE, DRAINING or UNLOADING.
///
/// BUSY: the lock was taken at each of so many tries. OUT_OF_RANGE: the slot is none of the table.
#[unsafe(no_mangle)]
pub extern "C" fn gz_caller_state(caller: &mut GzCaller, slot: usize, tries: u32) -> u32
    requires full { caller.old.full ≡ true }
    ensures kept { (caller.new.full ≡ true) × SameTable caller.old.held caller.new.held }
    ensures state { StateCallTold caller.old.held slot tries result caller.new.held }
{
    ended_state_number(caller.lend().state(slot, tries))
}

/// How many modules are loaded, in any state but absent.
///
/// BUSY: the lock was taken at each of so many tries, and the count is left as it is.
#[unsafe(no_mangle)]
pub extern "C" fn gz_caller_loaded(caller: &mut GzCaller, tries: u32, count: &mut usize) -> u32
    requires full { caller.old.full ≡ true }
    ensures kept { (caller.new.full ≡ true) × SameTable caller.old.held caller.new.held }
    ensures count { LoadedTold caller.old.held tries count.old result count.new caller.new.held }
{
    match caller.lend().loaded(tries) {
        Attempt::OutOfRange | Attempt::Missed => unreachable!(),
        Attempt::LockBusy => BUSY,
        Attempt::Answered(found) => {
            *count = found;
            DONE
        }
    }
}

/// The slot of the loaded module at this place, the oldest first.
///
/// BUSY: the lock was taken at each of so many tries. OUT_OF_RANGE: fewer are loaded. The slot is then left as it is.
#[unsafe(no_mangle)]
pub extern "C" fn gz_caller_loaded_at(
    caller: &mut GzCaller,
    place: usize,
    tries: u32,
    slot: &mut usize,
) -> u32
    requires full { caller.old.full ≡ true }
    ensures kept { (caller.new.full ≡ true) × SameTable caller.old.held caller.new.held }
    ensures place { PlaceCallTold caller.old.held place tries slot.old result slot.new caller.new.held }
{
    match caller.lend().loaded_at(place, tries) {
        Attempt::LockBusy | Attempt::Missed => BUSY,
        Attempt::OutOfRange | Attempt::Answered(None) => OUT_OF_RANGE,
        Attempt::Answered(Some(found)) => {
            *slot = found;
            DONE
        }
    }
}
