//! The managed calls of leaves, on the handle of a caller.
ghost use Rattle.std.specs.Prelude.{◌≡◌, true};
ghost use Rattle.dep_index.specs.Refusals.{put_refusal};
ghost use Rattle.managed_table.specs.Owned.{row_of, SameTable};
ghost use Rattle.gourzhiel.specs.Called.{GetCallEnded, LeafCallEnded, HeldTold};

use crate::endings::ended_number;
use crate::handles::GzCaller;
use crate::numbers::{BUSY, DONE, OUT_OF_RANGE};
use dep_index::Call;
use managed_table::Attempt;

/// How many workers the table has.
#[unsafe(no_mangle)]
pub extern "C" fn gz_caller_workers(caller: &mut GzCaller) -> usize
    requires full { caller.old.full ≡ true }
    ensures kept { (caller.new.full ≡ true) × (caller.new.held ≡ caller.old.held) }
    ensures workers { result ≡ (row_of caller.old.held).world.workers }
{
    caller.lend().workers()
}

/// Takes one reference for the worker, in at most so many tries of its lock, and then of the module's word.
///
/// BUSY: each try was missed, and no call was made. NOT_LIVE: the module is not live. TOO_MANY: the worker holds it 65,535
/// times. OUT_OF_RANGE: the worker or the slot is none of the table.
#[unsafe(no_mangle)]
pub extern "C" fn gz_caller_get(
    caller: &mut GzCaller,
    worker: usize,
    slot: usize,
    tries: u32,
) -> u32
    requires full { caller.old.full ≡ true }
    ensures kept { (caller.new.full ≡ true) × SameTable caller.old.held caller.new.held }
    ensures call { GetCallEnded caller.old.held worker slot tries result caller.new.held }
{
    ended_number(caller.lend().get(worker, slot, tries))
}

/// Gives one reference of the worker back, in at most so many tries of its lock.
///
/// BUSY: the lock was taken at each try. NOT_HELD: the worker holds no reference to the module. OUT_OF_RANGE: the worker or
/// the slot is none of the table.
#[unsafe(no_mangle)]
pub extern "C" fn gz_caller_put(
    caller: &mut GzCaller,
    worker: usize,
    slot: usize,
    tries: u32,
) -> u32
    requires full { caller.old.full ≡ true }
    ensures kept { (caller.new.full ≡ true) × SameTable caller.old.held caller.new.held }
    ensures call { LeafCallEnded put_refusal caller.old.held worker slot tries (Call.Put worker slot) result caller.new.held }
{
    ended_number(caller.lend().put(worker, slot, tries))
}

/// How often the worker holds the module. It is no call of the history.
///
/// BUSY: the lock was taken at each try. OUT_OF_RANGE: the worker or the slot is none of the table. The count is then left as
/// it is.
#[unsafe(no_mangle)]
pub extern "C" fn gz_caller_held(
    caller: &mut GzCaller,
    worker: usize,
    slot: usize,
    tries: u32,
    count: &mut u32,
) -> u32
    requires full { caller.old.full ≡ true }
    ensures kept { (caller.new.full ≡ true) × SameTable caller.old.held caller.new.held }
    ensures count { HeldTold caller.old.held worker slot tries count.old result count.new caller.new.held }
{
    match caller.lend().held(worker, slot, tries) {
        Attempt::OutOfRange => OUT_OF_RANGE,
        Attempt::LockBusy | Attempt::Missed => BUSY,
        Attempt::Answered(found) => {
            *count = found;
            DONE
        }
    }
}

/// Frees a caller. The last one of a table frees the table.
#[unsafe(no_mangle)]
pub extern "C" fn gz_caller_free(caller: GzCaller)
    requires full { caller.full ≡ true }
{
    drop(caller.into_parts().into_box());
}
