//! A table over the four modules.

ghost use Rattle.std.specs.Prelude.{◌≤◌};

use crate::rows::none_is_wrong;
use crate::sound::{FIXED, FOUR, LOST, SND, SND_PCM};
use dep_index::{Call, ModuleState, Reply, read_catalogue};
use seq_table::{Modules, Table, perform};
use std::alloc::Global;
use std::test::Fail;

/// Loads and removals, with what each answers.
static LOADS: [(Call, Reply); 30] = [
    (Call::BeginLoad(SND_PCM), Reply::NeedNotLive(0)),
    (Call::BeginLoad(LOST), Reply::UnknownSymbol),
    (Call::Get(0, SND), Reply::NotLive),
    (Call::Put(0, SND), Reply::NotHeld),
    (Call::BeginRemove(SND), Reply::NoEntry),
    (Call::BeginDrain(SND), Reply::NoEntry),
    (Call::EndLoad(SND, true), Reply::NotLoading),
    (Call::EndRemove(SND), Reply::NotUnloading),
    (Call::BeginLoad(SND), Reply::Done),
    (Call::BeginLoad(SND), Reply::Exists),
    (Call::BeginLoad(SND_PCM), Reply::NeedNotLive(0)),
    (Call::Get(0, SND), Reply::NotLive),
    (Call::BeginRemove(SND), Reply::NotLive),
    (Call::EndLoad(SND, false), Reply::Done),
    (Call::BeginLoad(SND), Reply::Done),
    (Call::EndLoad(SND, true), Reply::Done),
    (Call::BeginLoad(SND_PCM), Reply::Done),
    (Call::BeginRemove(SND), Reply::NeededBy),
    (Call::BeginDrain(SND), Reply::NeededBy),
    (Call::EndLoad(SND_PCM, false), Reply::Done),
    (Call::InUse(SND), Reply::No),
    (Call::Get(1, SND), Reply::Done),
    (Call::InUse(SND), Reply::Yes),
    (Call::BeginRemove(SND), Reply::InUse),
    (Call::Put(1, SND), Reply::Done),
    (Call::BeginRemove(SND), Reply::Done),
    (Call::BeginRemove(SND), Reply::NotLive),
    (Call::BeginLoad(SND_PCM), Reply::NeedNotLive(0)),
    (Call::EndRemove(SND), Reply::Done),
    (Call::Get(1, SND), Reply::NotLive),
];

/// A module that is permanent, and a drain.
static DRAINS: [(Call, Reply); 24] = [
    (Call::BeginLoad(FIXED), Reply::Done),
    (Call::EndLoad(FIXED, true), Reply::Done),
    (Call::BeginDrain(FIXED), Reply::Permanent),
    (Call::BeginRemove(FIXED), Reply::Permanent),
    (Call::BeginLoad(SND), Reply::Done),
    (Call::EndLoad(SND, true), Reply::Done),
    (Call::Get(0, SND), Reply::Done),
    (Call::BeginDrain(SND), Reply::Done),
    (Call::BeginDrain(SND), Reply::NotLive),
    (Call::Get(0, SND), Reply::NotLive),
    (Call::Get(1, SND), Reply::NotLive),
    (Call::BeginLoad(SND_PCM), Reply::NeedNotLive(0)),
    (Call::CancelRemove(SND), Reply::Done),
    (Call::Get(1, SND), Reply::Done),
    (Call::Put(1, SND), Reply::Done),
    (Call::CancelRemove(SND), Reply::NotUnloading),
    (Call::BeginDrain(SND), Reply::Done),
    (Call::EndRemove(SND), Reply::InUse),
    (Call::Put(0, SND), Reply::Done),
    (Call::EndRemove(SND), Reply::Done),
    (Call::EndRemove(SND), Reply::NotUnloading),
    (Call::CancelRemove(SND), Reply::NotUnloading),
    (Call::BeginLoad(SND), Reply::Done),
    (Call::CancelRemove(SND), Reply::NotUnloading),
];

/// A module that is held and needed.
static USERS: [(Call, Reply); 6] = [
    (Call::BeginLoad(SND), Reply::Done),
    (Call::EndLoad(SND, true), Reply::Done),
    (Call::BeginLoad(SND_PCM), Reply::Done),
    (Call::Get(0, SND), Reply::Done),
    (Call::Get(1, SND), Reply::Done),
    (Call::Get(1, SND), Reply::Done),
];

/// A live module that no worker holds.
static LIVE: [(Call, Reply); 3] = [
    (Call::BeginLoad(SND), Reply::Done),
    (Call::EndLoad(SND, true), Reply::Done),
    (Call::Put(0, SND), Reply::NotHeld),
];

/// What a worker meets that holds as many references as it may.
static FULL: [(Call, Reply); 3] = [
    (Call::Get(0, SND), Reply::TooMany),
    (Call::Put(0, SND), Reply::Done),
    (Call::Get(0, SND), Reply::Done),
];

/// The table for so many workers.
fn table(alloc: Global, workers: usize) -> Result<Table, Fail>
    requires { workers ≤ 64 }
{
    Ok(Table::new(alloc, &read_catalogue(alloc, FOUR)?, workers)?)
}

/// What a call answers, if its module and its worker are in range.
fn reply_to(table: &mut Table, call: Call) -> Option<Reply> {
    if call.slot() >= table.slots() {
        return None;
    }
    match call {
        Call::Get(worker, _) | Call::Put(worker, _) if worker >= table.workers() => None,
        _ => Some(perform(table, call)),
    }
}

/// Makes the calls in order, and names the first that answers otherwise.
fn wrong_row(table: &mut Table, rows: &[(Call, Reply)]) -> Option<usize> {
    for (index, (call, want)) in rows.iter().enumerate() {
        if reply_to(table, *call) != Some(*want) {
            return Some(index);
        }
    }
    None
}

#[test]
fn loads_and_removes(rt: HostRuntime) -> Result<(), Fail> {
    let mut table = table(rt.alloc(), 2)?;
    none_is_wrong(&rt, wrong_row(&mut table, &LOADS));
    Ok(())
}

#[test]
fn drains_and_keeps_what_is_permanent(rt: HostRuntime) -> Result<(), Fail> {
    let mut table = table(rt.alloc(), 2)?;
    none_is_wrong(&rt, wrong_row(&mut table, &DRAINS));
    Ok(())
}

/// The states and the counts of the four modules.
fn counts_are_right(table: &Table) -> bool {
    table.workers() == 2
        && table.slots() == 4
        && table.state(SND) == ModuleState::Live
        && table.state(SND_PCM) == ModuleState::Loading
        && table.held(0, SND) == 1
        && table.held(1, SND) == 2
        && table.held(1, SND_PCM) == 0
        && table.references(SND) == 4
        && table.references(SND_PCM) == 0
}

/// The modules of the table, and who needs whom.
fn users_are_right(table: &Table) -> bool {
    table.slots() == 4
        && table.loaded() == 2
        && table.loaded_at(0) == SND
        && table.loaded_at(1) == SND_PCM
        && table.is_user(SND_PCM, SND)
        && !table.is_user(SND, SND_PCM)
        && !table.is_user(LOST, SND)
}

#[test]
fn counts_users_and_references(rt: HostRuntime) -> Result<(), Fail> {
    let mut table = table(rt.alloc(), 2)?;
    none_is_wrong(&rt, wrong_row(&mut table, &USERS));
    assert!(rt; counts_are_right(&table) && users_are_right(&table));
    table.laws();
    Ok(())
}

/// Takes so many references of worker 0, as long as each get answers ok.
fn takes(table: &mut Table, count: u32) -> bool {
    for _ in 0..count {
        if reply_to(table, Call::Get(0, SND)) != Some(Reply::Done) {
            return false;
        }
    }
    true
}

/// A worker takes 65,535 references, and no further one.
fn is_full_at_65535(table: &mut Table) -> bool {
    wrong_row(table, &LIVE).is_none()
        && takes(table, 65_535)
        && wrong_row(table, &FULL).is_none()
        && table.slots() == 4
        && table.references(SND) == 65_535
}

#[test]
fn takes_65535_references_of_a_worker(rt: HostRuntime) -> Result<(), Fail> {
    let mut table = table(rt.alloc(), 1)?;
    assert!(rt; is_full_at_65535(&mut table));
    Ok(())
}
