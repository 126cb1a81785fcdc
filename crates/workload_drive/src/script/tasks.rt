//! A script, as an input gives it.
ghost use Rattle.std.specs.Prelude.{◌≡◌, ◌≤◌, [], Ok, slice_index_or, IfOk, IfErr};
ghost use Rattle.workload_drive.specs.Faults.{IsFirstFault};
ghost use Rattle.workload_drive.specs.Script.{made_script, script_by, script_of};
ghost use Rattle.workload_drive.specs.ForProofs.{Reads, parts_in, tasks_in};

use super::entries::{Opening, Task, all_tasks, entries_of, opening_of};
use crate::fault::ScheduleFault;
use crate::statement::{Parts, read_parts, setting};
use dep_index::Catalogue;
use std::alloc::Global;
use std::marker::Model;

/// A script: a catalogue, the changes that are made before any worker begins, and the lines of each worker. Contracts see
/// it as these.
#[derive(Drop)]
pub struct Script {
    catalogue: Catalogue,
    workers: usize,
    opening: Vec<Opening>,
    tasks: Vec<Vec<Task>>,
}

impl Model for Script {
    ghost use Rattle.std.specs.Prelude.{◌≤◌};
    ghost use Rattle.workload_drive.specs.Script as spec;
    ghost use Rattle.workload_drive.specs.ForProofs.{tasks_in};

    ghost Value = { spec.Script };

    ghost view = { λ s. record { catalogue = s.catalogue; workers = s.workers; opening = s.opening.items; tasks = tasks_in s.tasks.items } };

    ghost invariant = { λ s. s.workers ≤ 64 };
}

impl Script {
    /// The catalogue.
    pub fn catalogue(&self) -> &Catalogue
        ensures { result.now ≡ self.now.catalogue }
    {
        &self.catalogue
    }

    /// How many workers there are, at most 64.
    pub fn workers(&self) -> usize
        ensures few { result ≤ 64 }
        ensures workers { result ≡ self.now.workers }
    {
        self.workers
    }

    /// The changes that are made before any worker begins.
    pub(super) fn opening(&self) -> &[Opening]
        ensures { result.now ≡ self.now.opening }
    {
        &self.opening
    }

    /// The lines of a worker, in order; of one past the end there are none.
    pub(super) fn tasks(&self, worker: usize) -> &[Task]
        ensures { result.now ≡ slice_index_or self.now.tasks worker [] }
    {
        match self.tasks.get(worker) {
            Some(tasks) => tasks.as_slice(),
            None => &[],
        }
    }
}

/// What the statements of an input say: how many workers there are, the changes before them, and the lines of each.
fn said_by(
    alloc: Global,
    parts: &Parts<'_>,
) -> Result<(usize, Vec<Opening>, Vec<Vec<Task>>), ScheduleFault>
    ensures few { IfOk result (λ said. said.0 ≤ 64) }
    ensures value { Reads (script_by (parts_in parts.now)) (λ said. made_script parts.now.catalogue said.0 said.1.items (tasks_in said.2.items)) result }
{
    let (workers, rest) = setting(b"workers", parts.end, &parts.statements)?;
    let entries = entries_of(alloc, &parts.catalogue, workers, rest)?;
    let opening = opening_of(alloc, &entries)?;
    let tasks = all_tasks(alloc, workers, &entries)?;
    Ok((workers, opening, tasks))
}

/// The script that an input is: `%catalogue`, a catalogue, `%script`, `workers N`, then lines `load NAME`,
/// `remove NAME`, `drain NAME`, `finish NAME` or `keep NAME`, then lines of workers, `wW` and one of these or `get NAME`,
/// `put NAME` or `query NAME`. `Line` is the first faulty line, `Memory` says that there was none.
pub fn read_script(alloc: Global, input: &[u8]) -> Result<Script, ScheduleFault>
    ensures script { IfOk result (λ script. script_of input.now ≡ Ok script) }
    ensures refused { IfErr result (λ fault. IsFirstFault fault (script_of input.now)) }
{
    let parts = read_parts(alloc, b"%script", input)?;
    let (workers, opening, tasks) = said_by(alloc, &parts)?;
    let Parts { catalogue, .. } = parts;
    Ok(Script {
        catalogue,
        workers,
        opening,
        tasks,
    })
}
