//! Pairs of a get and a put by managed calls, each caller in a thread of its own, and turn by turn the same through a
//! manager. At last a crowd: sixteen threads that call for four workers.
ghost use Rattle.managed_table.specs.Callers.{IsCallerOf};

use crate::manager::workers_of;
use crate::texts::plain_catalogue;
use crate::workers::{
    COUNT, CROWD, CROWDED, Holder, Host, Worker, make_pairs, measure_beside, worker_counts,
};
use anyhow::{Result, ensure};
use dep_index::Catalogue;
use managed_table::{Caller, ManagedTable};
use module_table::Manager;
use std::ops::Range;
use std::sync::Wait;

/// A thread that calls a managed table for a worker.
#[derive(Drop)]
struct ManagedWorker<'a> {
    table: &'a ManagedTable,
    caller: Caller,
    number: usize,
    ghost own: { IsCallerOf table.now caller },
}

impl Holder for ManagedWorker<'_> {
    fn get<R: Wait>(&mut self, rt: &R, slot: usize) {
        let _ = self.table.get(rt, &mut self.caller, self.number, slot);
    }

    fn put<R: Wait>(&mut self, rt: &R, slot: usize) {
        let _ = self.table.put(rt, &mut self.caller, self.number, slot);
    }
}

impl Worker for ManagedWorker<'_> {
    fn make_pairs<R: Wait>(&mut self, rt: &R, range: Range<usize>, rounds: u64) {
        make_pairs(rt, self, range, rounds);
    }
}

pub fn measure<R: Host>(rt: &R) -> Result<()> {
    let catalogue = plain_catalogue(rt.alloc(), COUNT)?;
    for workers in worker_counts(rt)? {
        measure_both(rt, &catalogue, *workers, *workers)?;
    }
    measure_both(rt, &catalogue, CROWDED, CROWD)
}

/// Measures so many threads that call for so many workers.
fn measure_both<R: Host>(rt: &R, catalogue: &Catalogue, workers: u8, threads: u8) -> Result<()> {
    let (table, mut caller, _) = ManagedTable::new(rt.alloc(), catalogue, usize::from(workers))?;
    measure_table(rt, catalogue, &table, &mut caller, workers, threads)
}

// The table is lent, and so is the manager: with a large value at hand each `?` is long to prove.
fn measure_table<R: Host>(
    rt: &R,
    catalogue: &Catalogue,
    table: &ManagedTable,
    caller: &mut Caller,
    workers: u8,
    threads: u8,
) -> Result<()>
    requires { IsCallerOf table.now caller.old }
{
    let (manager, _) = Manager::new(rt.alloc(), catalogue, usize::from(workers))?;
    measure_loaded(rt, table, caller, &manager, threads)
}

/// The same, once all modules are loaded in both.
fn measure_loaded<R: Host>(
    rt: &R,
    table: &ManagedTable,
    caller: &mut Caller,
    manager: &Manager,
    threads: u8,
) -> Result<()>
    requires { IsCallerOf table.now caller.old }
{
    let mut ours = callers_of(rt, table, caller, threads)?;
    let mut others = workers_of(rt, manager, threads)?;
    measure_beside(rt, "managed_pairs", "@manager", &mut ours, &mut others)
}

/// So many threads' callers, who come from this one, and call for the workers in turn. All modules are loaded.
fn callers_of<'a, R: AllocGlobal + Wait>(
    rt: &R,
    table: &'a ManagedTable,
    first: &mut Caller,
    threads: u8,
) -> Result<Vec<ManagedWorker<'a>>>
    requires { IsCallerOf table.now first.old }
{
    load_all(rt, table, first)?;
    let mut all = Vec::new(rt.alloc());
    for thread in 0..threads {
        let number = usize::from(thread) % table.workers().max(1);
        let caller = table.further(first);
        all.push(ManagedWorker {
            table,
            caller,
            number,
        })?;
    }
    Ok(all)
}

/// Loads all modules.
fn load_all<R: Wait>(rt: &R, table: &ManagedTable, caller: &mut Caller) -> Result<()>
    requires own { IsCallerOf table.now caller.old }
    ensures own { IsCallerOf table.now caller.new }
{
    for slot in 0..COUNT {
        let begun = table.begin_load(rt, caller, slot);
        let ended = table.end_load(rt, caller, slot, true);
        ensure!(
            matches!((begun, ended), (Some(Ok(())), Some(Ok(())))),
            "a module is not loaded"
        );
    }
    Ok(())
}
