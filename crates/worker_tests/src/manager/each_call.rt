//! Each call of a manager with each kind of answer, on one thread, by the manager and by its guards.

use super::Row::{Answers, Held, Shows};
use super::{On, PAST, Row, are_right, new_manager, reply_on};
use crate::sound::{FIXED, FOUR, LOST, SND, SND_PCM};
use ModuleState::{Absent, Draining, Live, Loading, Unloading};
use dep_index::{Call, ModuleState, Reply};
use module_table::Manager;
use std::sync::Wait;
use std::test::Fail;

/// The first worker that there is none of.
const NOBODY: usize = 2;

/// How often a worker holds a module at most.
const MOST: u32 = 65_535;

/// Workers and slots that there are none of.
static OUTSIDE: [Row; 16] = [
    Answers(Call::Get(NOBODY, SND), None),
    Answers(Call::Get(usize::MAX, SND), None),
    Answers(Call::Get(0, PAST), None),
    Answers(Call::Get(0, usize::MAX), None),
    Answers(Call::Put(NOBODY, SND), None),
    Answers(Call::Put(0, PAST), None),
    Answers(Call::BeginLoad(PAST), None),
    Answers(Call::BeginLoad(usize::MAX), None),
    Answers(Call::EndLoad(PAST, true), None),
    Answers(Call::EndLoad(PAST, false), None),
    Answers(Call::BeginDrain(PAST), None),
    Answers(Call::BeginRemove(PAST), None),
    Answers(Call::EndRemove(PAST), None),
    Answers(Call::CancelRemove(PAST), None),
    Held(NOBODY, SND, None),
    Held(0, PAST, None),
];

/// Nothing is loaded. Then a load begins, and fails.
static FAILED: [Row; 23] = [
    Answers(Call::BeginLoad(SND_PCM), Some(Reply::NeedNotLive(0))),
    Answers(Call::BeginLoad(LOST), Some(Reply::UnknownSymbol)),
    Answers(Call::Get(0, SND), Some(Reply::NotLive)),
    Answers(Call::Put(0, SND), Some(Reply::NotHeld)),
    Answers(Call::BeginRemove(SND), Some(Reply::NoEntry)),
    Answers(Call::BeginDrain(SND), Some(Reply::NoEntry)),
    Answers(Call::EndLoad(SND, true), Some(Reply::NotLoading)),
    Answers(Call::EndLoad(SND, false), Some(Reply::NotLoading)),
    Answers(Call::EndRemove(SND), Some(Reply::NotUnloading)),
    Answers(Call::CancelRemove(SND), Some(Reply::NotUnloading)),
    Answers(Call::BeginLoad(SND), Some(Reply::Done)),
    Answers(Call::CancelRemove(SND), Some(Reply::NotUnloading)),
    Answers(Call::BeginLoad(SND), Some(Reply::Exists)),
    Answers(Call::BeginLoad(SND_PCM), Some(Reply::NeedNotLive(0))),
    Answers(Call::Get(0, SND), Some(Reply::NotLive)),
    Answers(Call::BeginRemove(SND), Some(Reply::NotLive)),
    Answers(Call::BeginDrain(SND), Some(Reply::NotLive)),
    Shows(
        1,
        &[Some(SND), None, None, None],
        &[Some(Loading), Some(Absent), Some(Absent), Some(Absent)],
    ),
    Answers(Call::EndLoad(SND, false), Some(Reply::Done)),
    Answers(Call::EndLoad(SND, false), Some(Reply::NotLoading)),
    Answers(Call::Get(0, SND), Some(Reply::NotLive)),
    Answers(Call::BeginRemove(SND), Some(Reply::NoEntry)),
    Shows(
        0,
        &[None, None, None, None],
        &[Some(Absent), Some(Absent), Some(Absent), Some(Absent)],
    ),
];

/// A module that is permanent is loaded and held by the second worker. Then snd and snd-pcm are loaded, and snd-pcm drains
/// while the first worker holds it.
static DRAINED: [Row; 20] = [
    Answers(Call::BeginLoad(FIXED), Some(Reply::Done)),
    Answers(Call::EndLoad(FIXED, true), Some(Reply::Done)),
    Answers(Call::BeginDrain(FIXED), Some(Reply::Permanent)),
    Answers(Call::BeginRemove(FIXED), Some(Reply::Permanent)),
    Answers(Call::Get(1, FIXED), Some(Reply::Done)),
    Answers(Call::BeginLoad(SND), Some(Reply::Done)),
    Answers(Call::EndLoad(SND, true), Some(Reply::Done)),
    Answers(Call::BeginLoad(SND_PCM), Some(Reply::Done)),
    Answers(Call::EndLoad(SND_PCM, true), Some(Reply::Done)),
    Answers(Call::BeginRemove(SND), Some(Reply::NeededBy)),
    Answers(Call::BeginDrain(SND), Some(Reply::NeededBy)),
    Answers(Call::Get(0, SND_PCM), Some(Reply::Done)),
    Answers(Call::BeginRemove(SND_PCM), Some(Reply::InUse)),
    Answers(Call::BeginDrain(SND_PCM), Some(Reply::Done)),
    Answers(Call::Get(0, SND_PCM), Some(Reply::NotLive)),
    Answers(Call::EndRemove(SND_PCM), Some(Reply::InUse)),
    Shows(
        3,
        &[Some(FIXED), Some(SND), Some(SND_PCM), None],
        &[Some(Live), Some(Draining), Some(Live), Some(Absent)],
    ),
    Held(0, SND_PCM, Some(1)),
    Held(1, FIXED, Some(1)),
    Held(1, SND_PCM, Some(0)),
];

/// The drain of snd-pcm is called off, and the first worker holds it still. Then it drains again.
static CALLED_OFF: [Row; 8] = [
    Answers(Call::CancelRemove(SND_PCM), Some(Reply::Done)),
    Shows(
        3,
        &[Some(FIXED), Some(SND), Some(SND_PCM), None],
        &[Some(Live), Some(Live), Some(Live), Some(Absent)],
    ),
    Held(0, SND_PCM, Some(1)),
    Answers(Call::Get(1, SND_PCM), Some(Reply::Done)),
    Answers(Call::Put(1, SND_PCM), Some(Reply::Done)),
    Answers(Call::CancelRemove(SND_PCM), Some(Reply::NotUnloading)),
    Answers(Call::BeginRemove(SND_PCM), Some(Reply::InUse)),
    Answers(Call::BeginDrain(SND_PCM), Some(Reply::Done)),
];

/// snd-pcm is given back and gone. The removal of snd begins, is called off, begins again and ends.
static GONE: [Row; 14] = [
    Answers(Call::Put(0, SND_PCM), Some(Reply::Done)),
    Answers(Call::Put(0, SND_PCM), Some(Reply::NotHeld)),
    Answers(Call::EndRemove(SND_PCM), Some(Reply::Done)),
    Answers(Call::BeginRemove(SND), Some(Reply::Done)),
    Answers(Call::CancelRemove(SND), Some(Reply::Done)),
    Answers(Call::Get(0, SND), Some(Reply::Done)),
    Answers(Call::Put(0, SND), Some(Reply::Done)),
    Answers(Call::BeginRemove(SND), Some(Reply::Done)),
    Answers(Call::BeginDrain(SND), Some(Reply::NotLive)),
    Shows(
        2,
        &[Some(FIXED), Some(SND), None, None],
        &[Some(Unloading), Some(Absent), Some(Live), Some(Absent)],
    ),
    Answers(Call::EndRemove(SND), Some(Reply::Done)),
    Answers(Call::EndRemove(SND), Some(Reply::NotUnloading)),
    Answers(Call::Put(1, FIXED), Some(Reply::Done)),
    Shows(
        1,
        &[Some(FIXED), None, None, None],
        &[Some(Absent), Some(Absent), Some(Live), Some(Absent)],
    ),
];

/// A worker that has taken as many references as it may takes one more.
static FULL: [Row; 2] = [
    Answers(Call::Get(0, FIXED), Some(Reply::TooMany)),
    Held(0, FIXED, Some(MOST)),
];

fn none_outside<R: Wait>(rt: &R, manager: &Manager, on: &On) -> bool {
    manager.slots() == PAST
        && manager.workers() == NOBODY
        && manager.leaf(NOBODY).is_none()
        && are_right(rt, manager, on, &OUTSIDE)
}

/// A worker takes as many references as it may.
fn takes_most<R: Wait>(rt: &R, manager: &Manager, on: &On) -> bool {
    for _ in 0..MOST {
        if reply_on(rt, manager, on, Call::Get(0, FIXED)) != Some(Reply::Done) {
            return false;
        }
    }
    true
}

fn gives_each_answer<R: Wait>(rt: &R, manager: &Manager, on: &On) -> bool {
    none_outside(rt, manager, on)
        && are_right(rt, manager, on, &FAILED)
        && are_right(rt, manager, on, &DRAINED)
        && are_right(rt, manager, on, &CALLED_OFF)
        && are_right(rt, manager, on, &GONE)
        && takes_most(rt, manager, on)
        && are_right(rt, manager, on, &FULL)
        && none_outside(rt, manager, on)
}

fn all_answers<R: AllocGlobal + Wait>(rt: &R, on: &On) -> Result<bool, Fail> {
    let (manager, _reader) = new_manager(rt.alloc(), FOUR)?;
    Ok(gives_each_answer(rt, &manager, on))
}

#[test]
fn the_manager_gives_each_answer(rt: HostRuntime) -> Result<(), Fail> {
    assert!(rt; all_answers(&rt, &On::Manager)?);
    Ok(())
}

#[test]
fn guards_give_each_answer(rt: HostRuntime) -> Result<(), Fail> {
    assert!(rt; all_answers(&rt, &On::Guard)?);
    Ok(())
}
