//! The manager's calls on one thread, and the same calls on its guards.
ghost use Rattle.std.specs.Prelude.{All, IfOk, IfSome};
ghost use Rattle.root_row.specs.Seats.{IsOf};

mod both;
mod each_call;
mod lent;
mod threads;

use crate::sound::SOUND;
use ModuleState::{Absent, Live};
use Row::{Answers, Held, Shows};
use dep_index::{Call, ModuleState, Refusal, Reply, read_catalogue};
use module_table::{Manager, OwnBook, OwnLeaf};
use std::alloc::Global;
use std::sync::Wait;
use std::test::Fail;
use use_indicator::Reader;

/// The first slot that no manager here has.
const PAST: usize = 4;

/// A step of a course. None: the worker or the slot is out of range.
enum Row {
    /// A call, and what it answers.
    Answers(Call, Option<Reply>),
    /// A worker, a slot, and how often the worker holds it.
    Held(usize, usize, Option<u32>),
    /// How many modules are loaded, the four oldest of them, and the states of the four first slots.
    Shows(usize, &'static [Option<usize>], &'static [Option<ModuleState>]),
}

/// The first module is loaded, and alone in the table.
static LOADED: [Row; 3] = [
    Answers(Call::BeginLoad(0), Some(Reply::Done)),
    Answers(Call::EndLoad(0, true), Some(Reply::Done)),
    Shows(
        1,
        &[Some(0), None, None, None],
        &[Some(Live), Some(Absent), None, None],
    ),
];

/// Both workers take a reference.
static TAKEN: [Row; 4] = [
    Answers(Call::Get(0, 0), Some(Reply::Done)),
    Answers(Call::Get(1, 0), Some(Reply::Done)),
    Held(0, 0, Some(1)),
    Held(1, 0, Some(1)),
];

/// Both references are put, and the removal begins.
static PUT: [Row; 6] = [
    Answers(Call::BeginRemove(0), Some(Reply::InUse)),
    Answers(Call::Put(0, 0), Some(Reply::Done)),
    Answers(Call::BeginRemove(0), Some(Reply::InUse)),
    Answers(Call::Put(1, 0), Some(Reply::Done)),
    Answers(Call::BeginRemove(0), Some(Reply::Done)),
    Answers(Call::Get(0, 0), Some(Reply::NotLive)),
];

/// The removal ends, and nothing is left.
static ENDED: [Row; 5] = [
    Answers(Call::Put(0, 0), Some(Reply::NotHeld)),
    Answers(Call::EndRemove(0), Some(Reply::Done)),
    Answers(Call::BeginRemove(0), Some(Reply::NoEntry)),
    Answers(Call::Get(2, 0), None),
    Answers(Call::Get(0, 2), None),
];

/// What an outcome says; None if the worker or the slot is out of range.
fn reply_of<E: Refusal>(outcome: Option<Result<(), E>>) -> Option<Reply> {
    Some(Reply::of(outcome?))
}

/// What the manager answers to a call; a query takes a reader, and is none here.
fn reply_to<R: Wait>(rt: &R, manager: &Manager, call: Call) -> Option<Reply> {
    match call {
        Call::Get(worker, slot) => reply_of(manager.get(rt, worker, slot)),
        Call::Put(worker, slot) => reply_of(manager.put(rt, worker, slot)),
        Call::InUse(_) => None,
        Call::BeginLoad(slot) => reply_of(manager.begin_load(rt, slot)),
        Call::EndLoad(slot, ok) => reply_of(manager.end_load(rt, slot, ok)),
        Call::BeginDrain(slot) => reply_of(manager.begin_drain(rt, slot)),
        Call::BeginRemove(slot) => reply_of(manager.begin_remove(rt, slot)),
        Call::EndRemove(slot) => reply_of(manager.end_remove(rt, slot)),
        Call::CancelRemove(slot) => reply_of(manager.cancel_remove(rt, slot)),
    }
}

/// What a worker's guard answers to a call of the worker.
fn leaf_reply<R: Wait>(rt: &R, leaf: &mut OwnLeaf, call: Call) -> Option<Reply> {
    match call {
        Call::Get(_, slot) => reply_of(leaf.get(rt, slot)),
        Call::Put(_, slot) => reply_of(leaf.put(slot)),
        _ => None,
    }
}

/// What the book's guard answers to a load or a removal.
fn book_reply(book: &mut OwnBook, call: Call) -> Option<Reply> {
    match call {
        Call::BeginLoad(slot) => reply_of(book.begin_load(slot)),
        Call::EndLoad(slot, ok) => reply_of(book.end_load(slot, ok)),
        Call::BeginDrain(slot) => reply_of(book.begin_drain(slot)),
        Call::BeginRemove(slot) => reply_of(book.begin_remove(slot)),
        Call::EndRemove(slot) => reply_of(book.end_remove(slot)),
        Call::CancelRemove(slot) => reply_of(book.cancel_remove(slot)),
        _ => None,
    }
}

/// What a call is made on.
enum On {
    Manager,
    Guard,
}

/// What a call answers. Of a worker out of range there is no guard, and a query takes a reader.
fn reply_on<R: Wait>(rt: &R, manager: &Manager, on: &On, call: Call) -> Option<Reply> {
    match (on, call) {
        (On::Manager, _) => reply_to(rt, manager, call),
        (On::Guard, Call::Get(worker, _) | Call::Put(worker, _)) => {
            leaf_reply(rt, &mut manager.leaf(worker)?.lock(rt), call)
        }
        (On::Guard, _) => book_reply(&mut manager.book().lock(rt), call),
    }
}

fn shows_places<R: Wait>(rt: &R, manager: &Manager, wanted: &[Option<usize>]) -> bool {
    let shown = [
        manager.loaded_at(rt, 0),
        manager.loaded_at(rt, 1),
        manager.loaded_at(rt, 2),
        manager.loaded_at(rt, 3),
    ];
    shown.as_slice() == wanted
        && manager.loaded_at(rt, PAST).is_none()
        && manager.loaded_at(rt, usize::MAX).is_none()
}

fn shows_states<R: Wait>(rt: &R, manager: &Manager, wanted: &[Option<ModuleState>]) -> bool {
    let shown = [
        manager.state(rt, 0),
        manager.state(rt, 1),
        manager.state(rt, 2),
        manager.state(rt, 3),
    ];
    shown.as_slice() == wanted
        && manager.state(rt, PAST).is_none()
        && manager.state(rt, usize::MAX).is_none()
}

fn is_right<R: Wait>(rt: &R, manager: &Manager, on: &On, row: &Row) -> bool {
    match row {
        Answers(call, reply) => reply_on(rt, manager, on, *call) == *reply,
        Held(worker, slot, count) => manager.held(rt, *worker, *slot) == *count,
        Shows(loaded, places, states) => {
            manager.loaded(rt) == *loaded
                && shows_places(rt, manager, places)
                && shows_states(rt, manager, states)
        }
    }
}

/// Goes through the rows in order, and says whether each is right.
fn are_right<R: Wait>(rt: &R, manager: &Manager, on: &On, rows: &[Row]) -> bool {
    for row in rows {
        if !is_right(rt, manager, on, row) {
            return false;
        }
    }
    true
}

/// A module is used and removed, and a query says whether it is in use.
fn is_used_and_removed<R: Wait>(rt: &R, manager: &Manager, reader: &mut Reader, on: &On) -> bool
    requires { IsOf manager.now reader.old }
{
    manager.slots() == 2
        && are_right(rt, manager, on, &LOADED)
        && are_right(rt, manager, on, &TAKEN)
        && manager.query(reader, 0)
        && are_right(rt, manager, on, &PUT)
        && !manager.query(reader, 0)
        && are_right(rt, manager, on, &ENDED)
}

/// The reader of the last place.
fn last_reader(manager: &Manager, mut readers: Vec<Reader>) -> Option<Reader>
    requires { All (IsOf manager.now) readers.items }
    ensures { IfSome result (IsOf manager.now) }
{
    readers.pop()
}

/// A manager over the modules of a text for two workers, and a reader.
fn new_manager(alloc: Global, text: &[u8]) -> Result<(Manager, Reader), Fail>
    ensures { IfOk result (λ r. IsOf r.0 r.1) }
{
    let (manager, readers) = Manager::new(alloc, &read_catalogue(alloc, text)?, 2)?;
    let reader = last_reader(&manager, readers).ok_or("no reader")?;
    Ok((manager, reader))
}

/// What comes of it on a manager of its own.
fn use_and_remove<R: AllocGlobal + Wait>(rt: &R, on: &On) -> Result<bool, Fail> {
    let (manager, mut reader) = new_manager(rt.alloc(), SOUND)?;
    Ok(is_used_and_removed(rt, &manager, &mut reader, on))
}

#[test]
fn a_module_is_used_and_removed(rt: HostRuntime) -> Result<(), Fail> {
    assert!(rt; use_and_remove(&rt, &On::Manager)?);
    Ok(())
}

#[test]
fn guards_answer_as_the_manager_does(rt: HostRuntime) -> Result<(), Fail> {
    assert!(rt; use_and_remove(&rt, &On::Guard)?);
    Ok(())
}
