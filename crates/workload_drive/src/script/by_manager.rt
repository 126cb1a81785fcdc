//! The calls of a script through a manager.
ghost use Rattle.std.specs.Prelude.{All};
ghost use Rattle.root_row.specs.Seats.{IsOf};

use super::calls::{Asks, Calls};
use super::worker::Worker;
use dep_index::{Call, ModuleState, Reply};
use module_table::Manager;
use std::alloc::AllocError;
use std::sync::Wait;
use use_indicator::Reader;

/// Calls of a manager.
#[derive(Drop)]
pub(super) struct ManagerCalls<'a> {
    pub(super) manager: &'a Manager,
}

/// A reader of a manager's row.
#[derive(Drop)]
pub(super) struct ManagerAsks<'a> {
    manager: &'a Manager,
    reader: Reader,
    ghost own: { IsOf manager.now reader },
}

pub(super) type ManagerWorker<'a> = Worker<ManagerCalls<'a>, ManagerAsks<'a>>;

impl Calls for ManagerCalls<'_> {
    // of what a manager's call did nothing is known
    ghost made = { λ old call reply new. Unit {0} };

    fn workers(&self) -> usize {
        self.manager.workers()
    }

    fn make<R: Wait>(&mut self, rt: &R, call: Call) -> Option<Reply> {
        let manager = self.manager;
        match call {
            Call::Get(worker, slot) => Some(Reply::of(manager.get(rt, worker, slot)?)),
            Call::Put(worker, slot) => Some(Reply::of(manager.put(rt, worker, slot)?)),
            Call::InUse(_) => None,
            Call::BeginLoad(slot) => Some(Reply::of(manager.begin_load(rt, slot)?)),
            Call::EndLoad(slot, ok) => Some(Reply::of(manager.end_load(rt, slot, ok)?)),
            Call::BeginDrain(slot) => Some(Reply::of(manager.begin_drain(rt, slot)?)),
            Call::BeginRemove(slot) => Some(Reply::of(manager.begin_remove(rt, slot)?)),
            Call::EndRemove(slot) => Some(Reply::of(manager.end_remove(rt, slot)?)),
            Call::CancelRemove(slot) => Some(Reply::of(manager.cancel_remove(rt, slot)?)),
        }
    }

    fn held<R: Wait>(&mut self, rt: &R, worker: usize, slot: usize) -> Option<u32> {
        self.manager.held(rt, worker, slot)
    }

    fn state<R: Wait>(&mut self, rt: &R, slot: usize) -> Option<ModuleState> {
        self.manager.state(rt, slot)
    }

    fn loaded<R: Wait>(&mut self, rt: &R) -> usize {
        self.manager.loaded(rt)
    }

    fn loaded_at<R: Wait>(&mut self, rt: &R, place: usize) -> Option<usize> {
        self.manager.loaded_at(rt, place)
    }
}

impl Asks for ManagerAsks<'_> {
    fn ask(&mut self, slot: usize) -> Option<bool> {
        if slot >= self.manager.slots() {
            return None;
        }
        Some(self.manager.query(&mut self.reader, slot))
    }
}

fn manager_worker<'a>(manager: &'a Manager, reader: Reader, number: usize) -> ManagerWorker<'a>
    requires { IsOf manager.now reader }
{
    Worker {
        calls: ManagerCalls { manager },
        asks: ManagerAsks { manager, reader },
        number,
    }
}

/// A worker of a manager for each reader.
pub(super) fn manager_workers<'a, R: AllocGlobal>(
    rt: &R,
    manager: &'a Manager,
    readers: Vec<Reader>,
) -> Result<Vec<ManagerWorker<'a>>, AllocError>
    requires { All (IsOf manager.now) readers.items }
{
    let mut workers = Vec::new(rt.alloc());
    for reader in readers {
        let number = workers.len();
        workers.push(manager_worker(manager, reader, number))?;
    }
    Ok(workers)
}
