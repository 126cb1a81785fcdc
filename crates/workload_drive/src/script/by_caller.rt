//! The calls of a script as managed calls.
ghost use Rattle.std.specs.Prelude.{◌≡◌, All};
ghost use Rattle.root_row.specs.Seats.{IsOf};
ghost use Rattle.managed_table.specs.Callers.{IsCallerOf};
ghost use Rattle.managed_table.specs.Calls.{CallMade};

use super::calls::{Asks, Calls};
use super::worker::Worker;
use dep_index::{Call, ModuleState, Reply};
use managed_table::{Caller, ManagedTable};
use std::alloc::AllocError;
use std::sync::Wait;
use use_indicator::Reader;

/// A caller of a managed table.
#[derive(Drop)]
pub(super) struct ManagedCalls<'a> {
    table: &'a ManagedTable,
    caller: Caller,
    ghost own: { IsCallerOf table.now caller },
}

/// A reader of a managed table's row.
#[derive(Drop)]
pub(super) struct ManagedAsks<'a> {
    table: &'a ManagedTable,
    reader: Reader,
    ghost own: { IsOf table.now.row reader },
}

pub(super) type ManagedWorker<'a> = Worker<ManagedCalls<'a>, ManagedAsks<'a>>;

impl<'a> ManagedCalls<'a> {
    /// By a further caller, which comes from this one.
    pub(super) fn by_further(table: &'a ManagedTable, caller: &mut Caller) -> ManagedCalls<'a>
        requires own { IsCallerOf table.now caller.old }
        ensures own { IsCallerOf table.now caller.new }
    {
        let caller = table.further(caller);
        ManagedCalls { table, caller }
    }
}

impl Calls for ManagedCalls<'_> {
    ghost made = { λ old call reply new. (new.table ≡ old.table) × CallMade old.table.now call reply old.caller new.caller };

    fn workers(&self) -> usize {
        self.table.workers()
    }

    fn make<R: Wait>(&mut self, rt: &R, call: Call) -> Option<Reply> {
        self.table.make(rt, &mut self.caller, call)
    }

    fn held<R: Wait>(&mut self, rt: &R, worker: usize, slot: usize) -> Option<u32> {
        self.table.held(rt, &mut self.caller, worker, slot)
    }

    fn state<R: Wait>(&mut self, rt: &R, slot: usize) -> Option<ModuleState> {
        self.table.state(rt, &mut self.caller, slot)
    }

    fn loaded<R: Wait>(&mut self, rt: &R) -> usize {
        self.table.loaded(rt, &mut self.caller)
    }

    fn loaded_at<R: Wait>(&mut self, rt: &R, place: usize) -> Option<usize> {
        self.table.loaded_at(rt, &mut self.caller, place)
    }
}

impl Asks for ManagedAsks<'_> {
    fn ask(&mut self, slot: usize) -> Option<bool> {
        if slot >= self.table.slots() {
            return None;
        }
        Some(self.table.query(&mut self.reader, slot))
    }
}

fn managed_worker<'a>(
    table: &'a ManagedTable,
    caller: &mut Caller,
    reader: Reader,
    number: usize,
) -> ManagedWorker<'a>
    requires own { IsCallerOf table.now caller.old }
    requires reader { IsOf table.now.row reader }
    ensures own { IsCallerOf table.now caller.new }
{
    Worker {
        calls: ManagedCalls::by_further(table, caller),
        asks: ManagedAsks { table, reader },
        number,
    }
}

/// A worker of a managed table for each reader, each with a caller of its own, which comes from this one.
pub(super) fn managed_workers<'a, R: AllocGlobal>(
    rt: &R,
    table: &'a ManagedTable,
    caller: &mut Caller,
    readers: Vec<Reader>,
) -> Result<Vec<ManagedWorker<'a>>, AllocError>
    requires own { IsCallerOf table.now caller.old }
    requires readers { All (IsOf table.now.row) readers.items }
    ensures own { IsCallerOf table.now caller.new }
{
    let mut workers = Vec::new(rt.alloc());
    for reader in readers {
        let number = workers.len();
        workers.push(managed_worker(table, caller, reader, number))?;
    }
    Ok(workers)
}
