//! Two threads make one call at once on one manager. A call of which the answer is lost, or that is made twice, shows.

use super::{new_manager, reply_to};
use crate::sound::{SND, SOUND};
use Reply::{Done, Exists, NotHeld, NotLive, NotLoading, NotUnloading};
use dep_index::{Call, Reply};
use module_table::Manager;
use std::sync::Wait;
use std::test::Fail;
use std::thread;
use std::thread::Threads;

const ROUNDS: usize = 100;

/// A call that two threads make at once, and what the one and the other are answered.
type Pair = (Call, Reply, Reply);

/// Each of the calls is done once.
static ONCE: [Pair; 6] = [
    (Call::BeginLoad(SND), Done, Exists),
    (Call::EndLoad(SND, false), Done, NotLoading),
    (Call::BeginLoad(SND), Done, Exists),
    (Call::EndLoad(SND, true), Done, NotLoading),
    (Call::BeginRemove(SND), Done, NotLive),
    (Call::EndRemove(SND), Done, NotUnloading),
];

/// A module is loaded, and two threads share the leaf of one worker: both take a reference.
static TAKEN: [Pair; 3] = [
    (Call::BeginLoad(SND), Done, Exists),
    (Call::EndLoad(SND, true), Done, NotLoading),
    (Call::Get(1, SND), Done, Done),
];

/// Both give it back, and have no further one. Then the module drains, and the drain is called off once.
static GIVEN: [Pair; 6] = [
    (Call::Put(1, SND), Done, Done),
    (Call::Put(1, SND), NotHeld, NotHeld),
    (Call::BeginDrain(SND), Done, NotLive),
    (Call::CancelRemove(SND), Done, NotUnloading),
    (Call::BeginDrain(SND), Done, NotLive),
    (Call::EndRemove(SND), Done, NotUnloading),
];

/// What two threads are answered that make this call at once.
fn both<R: Threads + Wait + Sync>(
    rt: &R,
    manager: &Manager,
    call: Call,
) -> (Option<Reply>, Option<Reply>) {
    thread::join(
        rt,
        move || reply_to(rt, manager, call),
        move || reply_to(rt, manager, call),
    )
}

/// Each of the calls has these answers, in whichever order.
fn are_answered<R: Threads + Wait + Sync>(rt: &R, manager: &Manager, pairs: &[Pair]) -> bool {
    for (call, one, other) in pairs {
        let answers = both(rt, manager, *call);
        if answers != (Some(*one), Some(*other)) && answers != (Some(*other), Some(*one)) {
            return false;
        }
    }
    true
}

fn is_right<R: Threads + Wait + Sync>(rt: &R, manager: &Manager) -> bool {
    are_answered(rt, manager, &ONCE)
        && manager.loaded(rt) == 0
        && are_answered(rt, manager, &TAKEN)
        && manager.held(rt, 1, SND) == Some(2)
        && manager.held(rt, 0, SND) == Some(0)
        && are_answered(rt, manager, &GIVEN)
}

fn no_answer_is_lost<R: Threads + Wait + Sync>(rt: &R, manager: &Manager) -> bool {
    for _ in 0..ROUNDS {
        if !is_right(rt, manager) {
            return false;
        }
    }
    true
}

#[test]
fn two_threads_make_one_call(rt: HostRuntime) -> Result<(), Fail> {
    let (manager, _reader) = new_manager(rt.alloc(), SOUND)?;
    assert!(rt; no_answer_is_lost(&rt, &manager));
    Ok(())
}
