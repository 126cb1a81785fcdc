//! One manager on several threads.
ghost use Rattle.std.specs.Prelude.{◌<◌};
ghost use Rattle.root_row.specs.World.{slots};
ghost use Rattle.root_row.specs.Seats.{IsOf};

use super::{LOADED, On, are_right, new_manager, reply_to};
use crate::sound::SOUND;
use dep_index::{Call, Reply};
use module_table::Manager;
use std::sync::Wait;
use std::test::Fail;
use std::thread;
use std::thread::Threads;
use use_indicator::Reader;

const TURNS: usize = 12_500;

/// What a worker does over and over beside the others: it takes what it gets, asks, and gives it back.
fn work<R: Wait>(rt: &R, manager: &Manager, worker: usize) {
    for turn in 0..TURNS {
        let slot = turn % 2;
        if matches!(manager.get(rt, worker, slot), Some(Ok(()))) {
            let _ = manager.put(rt, worker, slot);
        }
    }
}

fn ask(manager: &Manager, reader: &mut Reader) -> bool
    requires own { IsOf manager.now reader.old }
    requires inside { 1 < slots manager.now.world }
    ensures { IsOf manager.now reader.new }
{
    for turn in 0..TURNS {
        let _ = manager.query(reader, turn % 2);
    }
    true
}

fn load<R: Wait>(rt: &R, manager: &Manager, slot: usize) {
    let _ = manager.begin_load(rt, slot);
    let _ = manager.end_load(rt, slot, true);
}

/// Begins a removal or a drain if nothing refuses.
fn begin<R: Wait>(rt: &R, manager: &Manager, slot: usize, drains: bool) {
    let _ = if drains {
        manager.begin_drain(rt, slot).is_some()
    } else {
        manager.begin_remove(rt, slot).is_some()
    };
}

/// Removes or drains a module if nothing refuses. The first removal or drain is called off.
fn remove<R: Wait>(rt: &R, manager: &Manager, slot: usize, drains: bool) {
    begin(rt, manager, slot, drains);
    let _ = manager.cancel_remove(rt, slot);
    begin(rt, manager, slot, drains);
    let _ = manager.end_remove(rt, slot);
}

/// What the loader does: it loads both modules, and removes or drains them.
fn load_and_remove<R: Wait>(rt: &R, manager: &Manager) -> bool {
    for turn in 0..TURNS {
        load(rt, manager, 0);
        load(rt, manager, 1);
        remove(rt, manager, 1, turn % 2 == 0);
        remove(rt, manager, 0, turn % 2 == 0);
    }
    manager.loaded(rt) <= 2
}

/// Two workers on threads of a scope, as the README shows them.
fn on_scoped_threads<R: Threads + Wait + Sync>(rt: &R, manager: &Manager) {
    thread::scope(thread::scope_env(), rt, |scope| {
        for worker in 0..manager.workers() {
            if scope.spawn(move || work(rt, manager, worker)).is_err() {
                work(rt, manager, worker);
            }
        }
    });
}

fn change<R: Threads + Wait + Sync>(rt: &R, manager: &Manager) {
    thread::join(
        rt,
        move || on_scoped_threads(rt, manager),
        move || load_and_remove(rt, manager),
    );
}

/// Loads, removals, two workers and a reader at once.
fn change_and_ask<R: Threads + Wait + Sync>(rt: &R, manager: &Manager, reader: &mut Reader)
    requires own { IsOf manager.now reader.old }
    requires inside { 1 < slots manager.now.world }
{
    thread::join(
        rt,
        move || change(rt, manager),
        move || ask(manager, reader),
    );
}

/// Ends a removal or a drain that is left, or else removes the module.
fn end<R: Wait>(rt: &R, manager: &Manager, slot: usize) {
    let _ = manager.end_remove(rt, slot);
    remove(rt, manager, slot, false);
}

/// When all have ended nothing is held, and what is left is removed.
fn leave_nothing<R: Wait>(rt: &R, manager: &Manager) -> bool {
    let first = manager.held(rt, 0, 0);
    let last = manager.held(rt, 1, 1);
    end(rt, manager, 1);
    end(rt, manager, 0);
    first == Some(0) && last == Some(0) && manager.loaded(rt) == 0
}

/// All at once, over two modules; and nothing is left.
fn is_used_at_once<R: Threads + Wait + Sync>(rt: &R, manager: &Manager, reader: &mut Reader) -> bool
    requires { IsOf manager.now reader.old }
{
    if manager.slots() != 2 {
        return false;
    }
    change_and_ask(rt, manager, reader);
    leave_nothing(rt, manager)
}

#[test]
fn threads_use_one_manager(rt: HostRuntime) -> Result<(), Fail> {
    let (manager, mut reader) = new_manager(rt.alloc(), SOUND)?;
    assert!(rt; is_used_at_once(&rt, &manager, &mut reader));
    Ok(())
}

/// A module is used by workers, and nobody holds it when they have ended.
fn is_used_by_workers<R: Threads + Wait + Sync>(rt: &R, manager: &Manager) -> bool {
    if !are_right(rt, manager, &On::Manager, &LOADED) {
        return false;
    }
    on_scoped_threads(rt, manager);
    reply_to(rt, manager, Call::BeginRemove(0)) == Some(Reply::Done)
}

#[test]
fn workers_on_scoped_threads(rt: HostRuntime) -> Result<(), Fail> {
    let (manager, _reader) = new_manager(rt.alloc(), SOUND)?;
    assert!(rt; is_used_by_workers(&rt, &manager));
    Ok(())
}
