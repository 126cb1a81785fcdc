//! Managed calls of which a reader tells. What the reader has seen is what one caller told of a call, and another hears.
//!
//! Premises of each claim: the callers and the reader are of this table; the calls are no queries, and their workers and slots are in
//! range; the steps on all words are in one order (sequentially consistent atomics). A function may not return.
ghost use Rattle.std.specs.Prelude.{◌≡◌};
ghost use Rattle.root_row.specs.Seats.{IsOf};
ghost use Rattle.managed_table.specs.Callers.{IsCallerOf};
ghost use Rattle.managed_table.specs.Calls.{CanBeMade};
ghost use Rattle.theorems.specs.Managed.{WasMadeOnce, seat_for, elsewhere};
ghost use Rattle.theorems.specs.Told.{MadeAndTold, HeardAndMade, WereMadeInOrder, FindsItGone, MetAt, AskedNothing};

use crate::managed::managed_calls_are_made_once;
use dep_index::{Call, Reply};
use managed_table::{Caller, ManagedTable};
use std::sync::Wait;
use use_indicator::Reader;

/// A managed call was made exactly once. Then, in one turn more, its caller told a reader: what the reader has seen begins with
/// the history of the call. The reader has asked nothing.
pub fn managed_calls_are_told<R: Wait>(
    rt: &R,
    table: &ManagedTable,
    caller: &mut Caller,
    call: Call,
    reader: Reader,
) -> (Reply, Reader)
    requires own { IsCallerOf table.now caller.old }
    requires reader_own { IsOf table.now.row reader }
    requires can { CanBeMade table.now call }
    ensures own { IsCallerOf table.now caller.new }
    ensures reader_own { IsOf table.now.row result.1 }
    ensures told { MadeAndTold table.now.row call result.0 caller.old caller.new reader.view result.1.view }
    ensures quiet { AskedNothing reader.view result.1.view }
{
    let reply = made(rt, table, caller, call);
    let told = meet_at(rt, table, caller, call, reader);
    (reply, told)
}

/// A managed call whose caller was told by a reader was made exactly once, after all that the reader had seen. The reader has asked
/// nothing.
pub fn managed_calls_follow_what_was_told<R: Wait>(
    rt: &R,
    table: &ManagedTable,
    caller: &mut Caller,
    reader: Reader,
    call: Call,
) -> (Reply, Reader)
    requires own { IsCallerOf table.now caller.old }
    requires reader_own { IsOf table.now.row reader }
    requires can { CanBeMade table.now call }
    ensures own { IsCallerOf table.now caller.new }
    ensures reader_own { IsOf table.now.row result.1 }
    ensures heard { HeardAndMade table.now.row call result.0 caller.old caller.new reader.view }
    ensures quiet { AskedNothing reader.view result.1.view }
{
    let heard = meet_at(rt, table, caller, call, reader);
    let answer = made(rt, table, caller, call);
    (answer, heard)
}

/// Order in real time, across locks. A call was made and its caller told a reader. The reader was handed to another caller, which
/// heard of it at its own lock and then made a call. Then the history of the second call begins with that of the first. The reader
/// has asked nothing.
pub fn calls_told_are_in_order<R: Wait>(
    rt: &R,
    table: &ManagedTable,
    first: &mut Caller,
    call: Call,
    reader: Reader,
    second: &mut Caller,
    later: Call,
) -> (Reply, Reply, Reader)
    requires first_own { IsCallerOf table.now first.old }
    requires second_own { IsCallerOf table.now second.old }
    requires reader_own { IsOf table.now.row reader }
    requires can { CanBeMade table.now call }
    requires later_can { CanBeMade table.now later }
    ensures first_own { IsCallerOf table.now first.new }
    ensures second_own { IsCallerOf table.now second.new }
    ensures reader_own { IsOf table.now.row result.2 }
    ensures quiet { AskedNothing reader.view result.2.view }
    ensures in_order { WereMadeInOrder table.now.row call result.0 first.old first.new later result.1 second.old second.new }
{
    let (reply, told) = managed_calls_are_told(rt, table, first, call, reader);
    let (answer, heard) = managed_calls_follow_what_was_told(rt, table, second, told, later);
    (reply, answer, heard)
}

/// A get that was told of a removal which was answered Ok finds the module gone: it is answered NotLive, unless the module was live
/// again between the two. Whatever they are answered, both were made, in this order, and the reader has asked nothing.
pub fn gets_told_of_a_removal_find_it_gone<R: Wait>(
    rt: &R,
    table: &ManagedTable,
    remover: &mut Caller,
    slot: usize,
    reader: Reader,
    user: &mut Caller,
    worker: usize,
) -> (Reply, Reply, Reader)
    requires remover_own { IsCallerOf table.now remover.old }
    requires user_own { IsCallerOf table.now user.old }
    requires reader_own { IsOf table.now.row reader }
    requires inside { CanBeMade table.now (Call.Get worker slot) }
    ensures remover_own { IsCallerOf table.now remover.new }
    ensures user_own { IsCallerOf table.now user.new }
    ensures reader_own { IsOf table.now.row result.2 }
    ensures quiet { AskedNothing reader.view result.2.view }
    ensures in_order { WereMadeInOrder table.now.row (Call.BeginRemove slot) result.0 remover.old remover.new (Call.Get worker slot) result.1 user.old user.new }
    ensures gone { FindsItGone table.now.row (Call.BeginRemove slot) slot worker result.0 result.1 remover.old remover.new user.old user.new }
{
    let removal = Call::BeginRemove(slot);
    let get = Call::Get(worker, slot);
    calls_told_are_in_order(rt, table, remover, removal, reader, user, get)
}

// A call in range is made.
fn made<R: Wait>(rt: &R, table: &ManagedTable, caller: &mut Caller, call: Call) -> Reply
    requires own { IsCallerOf table.now caller.old }
    requires can { CanBeMade table.now call }
    ensures own { IsCallerOf table.now caller.new }
    ensures once { WasMadeOnce table.now.row call result caller.old caller.new }
{
    match managed_calls_are_made_once(rt, table, caller, call) {
        Some(reply) => reply,
        None => unreachable!(),
    }
}

// The seat that makes the call, and the reader, hear of each other.
fn meet_at<R: Wait>(
    rt: &R,
    table: &ManagedTable,
    caller: &mut Caller,
    call: Call,
    reader: Reader,
) -> Reader
    requires own { IsCallerOf table.now caller.old }
    requires reader_own { IsOf table.now.row reader }
    requires can { CanBeMade table.now call }
    ensures own { IsCallerOf table.now caller.new }
    ensures reader_own { IsOf table.now.row result }
    ensures met { MetAt table.now.row call caller.old caller.new reader.view result.view }
    ensures elsewhere { elsewhere (seat_for call) caller.new ≡ elsewhere (seat_for call) caller.old }
{
    match call {
        Call::Get(worker, _) => table.meet_leaf(rt, caller, worker, reader),
        Call::Put(worker, _) => table.meet_leaf(rt, caller, worker, reader),
        Call::InUse(_) => unreachable!(),
        Call::BeginLoad(_) => table.meet_book(rt, caller, reader),
        Call::EndLoad(_, _) => table.meet_book(rt, caller, reader),
        Call::BeginDrain(_) => table.meet_book(rt, caller, reader),
        Call::BeginRemove(_) => table.meet_book(rt, caller, reader),
        Call::EndRemove(_) => table.meet_book(rt, caller, reader),
        Call::CancelRemove(_) => table.meet_book(rt, caller, reader),
    }
}
