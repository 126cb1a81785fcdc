//! The managed get of several slots for one worker, on the handle of a caller.
ghost use Rattle.std.specs.Prelude.{◌≡◌, true};
ghost use Rattle.managed_table.specs.Owned.{SameTable};
ghost use Rattle.gourzhiel.specs.AllOrNone.{IsTakenTold, GetAllEnded};

use crate::handles::GzCaller;
use crate::numbers::{BUSY, DONE, NOT_LIVE, OUT_OF_RANGE, TOO_MANY};
use dep_index::GetError;
use managed_table::{Attempt, NotTaken};

// Writes the place of a slot that was refused, and says how the call ended.
#[inline(always)]
fn tell_taken(ended: Attempt<Result<(), NotTaken>>, at: &mut usize) -> u32
    ensures { IsTakenTold ended at.old result at.new }
{
    match ended {
        Attempt::OutOfRange => OUT_OF_RANGE,
        Attempt::LockBusy | Attempt::Missed => BUSY,
        Attempt::Answered(Ok(())) => DONE,
        Attempt::Answered(Err(NotTaken { place, refusal })) => match refusal {
            None => BUSY,
            Some(refusal) => {
                *at = place;
                match refusal {
                    GetError::NotLive => NOT_LIVE,
                    GetError::TooMany => TOO_MANY,
                }
            }
        },
    }
}

/// Takes one reference for the worker to each of these slots, in one turn, or to none: in at most so many tries of its lock, and
/// for each slot of the module's word. A slot that is named twice is taken twice.
///
/// NOT_LIVE, TOO_MANY: why a slot was refused, whose place is then written. BUSY: the lock was taken at each try, or the word of
/// a module was missed at each. OUT_OF_RANGE: the worker or a slot is none of the table. The place is then left as it is.
#[unsafe(no_mangle)]
pub extern "C" fn gz_caller_get_all(
    caller: &mut GzCaller,
    worker: usize,
    slots: &[usize],
    tries: u32,
    at: &mut usize,
) -> u32
    requires full { caller.old.full ≡ true }
    ensures kept { (caller.new.full ≡ true) × SameTable caller.old.held caller.new.held }
    ensures call { GetAllEnded caller.old.held worker slots.now tries at.old result at.new caller.new.held }
{
    tell_taken(caller.lend().get_all(worker, slots, tries), at)
}
