//! The managed calls of the book, on the handle of a caller. Each is BUSY if the lock was taken at each of so many tries.
ghost use Rattle.std.specs.Prelude.{◌≡◌, true};
ghost use Rattle.dep_index.specs.Refusals.{begin_drain_refusal, begin_remove_refusal, cancel_remove_refusal, end_load_refusal, end_remove_refusal};
ghost use Rattle.managed_table.specs.Owned.{SameTable};
ghost use Rattle.gourzhiel.specs.Called.{BeginLoadCallEnded, BookCallEnded};

use crate::endings::{ended_number, tell_need};
use crate::handles::GzCaller;
use dep_index::Call;

/// Begins a load, with the numbers of `gz_book_begin_load`.
#[unsafe(no_mangle)]
pub extern "C" fn gz_caller_begin_load(
    caller: &mut GzCaller,
    slot: usize,
    tries: u32,
    need: &mut usize,
) -> u32
    requires full { caller.old.full ≡ true }
    ensures kept { (caller.new.full ≡ true) × SameTable caller.old.held caller.new.held }
    ensures call { BeginLoadCallEnded caller.old.held slot tries need.old result need.new caller.new.held }
{
    let ended = caller.lend().begin_load(slot, tries);
    tell_need(&ended, need);
    ended_number(ended)
}

/// Ends a load, with the numbers of `gz_book_end_load`.
#[unsafe(no_mangle)]
pub extern "C" fn gz_caller_end_load(
    caller: &mut GzCaller,
    slot: usize,
    ok: bool,
    tries: u32,
) -> u32
    requires full { caller.old.full ≡ true }
    ensures kept { (caller.new.full ≡ true) × SameTable caller.old.held caller.new.held }
    ensures call { BookCallEnded end_load_refusal caller.old.held slot tries (Call.EndLoad slot ok) result caller.new.held }
{
    ended_number(caller.lend().end_load(slot, ok, tries))
}

/// Begins a drain, with the numbers of `gz_book_begin_drain`.
#[unsafe(no_mangle)]
pub extern "C" fn gz_caller_begin_drain(caller: &mut GzCaller, slot: usize, tries: u32) -> u32
    requires full { caller.old.full ≡ true }
    ensures kept { (caller.new.full ≡ true) × SameTable caller.old.held caller.new.held }
    ensures call { BookCallEnded begin_drain_refusal caller.old.held slot tries (Call.BeginDrain slot) result caller.new.held }
{
    ended_number(caller.lend().begin_drain(slot, tries))
}

/// Begins a removal, with the numbers of `gz_book_begin_remove`.
#[unsafe(no_mangle)]
pub extern "C" fn gz_caller_begin_remove(caller: &mut GzCaller, slot: usize, tries: u32) -> u32
    requires full { caller.old.full ≡ true }
    ensures kept { (caller.new.full ≡ true) × SameTable caller.old.held caller.new.held }
    ensures call { BookCallEnded begin_remove_refusal caller.old.held slot tries (Call.BeginRemove slot) result caller.new.held }
{
    ended_number(caller.lend().begin_remove(slot, tries))
}

/// Ends a removal or a drain, with the numbers of `gz_book_end_remove`.
#[unsafe(no_mangle)]
pub extern "C" fn gz_caller_end_remove(caller: &mut GzCaller, slot: usize, tries: u32) -> u32
    requires full { caller.old.full ≡ true }
    ensures kept { (caller.new.full ≡ true) × SameTable caller.old.held caller.new.held }
    ensures call { BookCallEnded end_remove_refusal caller.old.held slot tries (Call.EndRemove slot) result caller.new.held }
{
    ended_number(caller.lend().end_remove(slot, tries))
}

/// Calls off a removal or a drain, with the numbers of `gz_book_cancel_remove`.
#[unsafe(no_mangle)]
pub extern "C" fn gz_caller_cancel_remove(caller: &mut GzCaller, slot: usize, tries: u32) -> u32
    requires full { caller.old.full ≡ true }
    ensures kept { (caller.new.full ≡ true) × SameTable caller.old.held caller.new.held }
    ensures call { BookCallEnded cancel_remove_refusal caller.old.held slot tries (Call.CancelRemove slot) result caller.new.held }
{
    ended_number(caller.lend().cancel_remove(slot, tries))
}
