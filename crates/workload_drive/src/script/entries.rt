//! The lines of a script, each with the slot of its module.
ghost use Rattle.std.specs.Prelude.{◌≡◌, [], map, IfOk};
ghost use Rattle.std.specs.List.{range_with_len};
ghost use Rattle.workload_drive.specs.Script.{has_works, has_place, entry_at, entry_of, entries_of, opening_in, task_in, opening_of, tasks_of, named_act_of};
ghost use Rattle.text_parts.specs.Text.{texts_of, normal_form};
ghost use Rattle.dep_index.specs.Catalogue.{slot_named};
ghost use Rattle.workload_drive.specs.ForProofs.{Reads, statements_in, named_act_in, tasks_in};

use super::acts::{Act, Change, Deed, NamedAct, named_act_of};
use crate::fault::{LineCode, ScheduleFault};
use crate::statement::Statement;
use dep_index::Catalogue;
use std::alloc::{AllocError, Global};
use text_parts::Name;

/// A change that is made before any worker begins, the slot of its module, and the number of its line in the input.
#[derive(Clone, Copy, Drop)]
pub(crate) struct Opening {
    pub(crate) change: Change,
    pub(crate) slot: usize,
    pub(crate) line: usize,
}

/// A worker's line: what is done, the slot of its module, and its number in the input.
#[derive(Clone, Copy, Drop)]
pub(crate) struct Task {
    pub(crate) deed: Deed,
    pub(crate) slot: usize,
    pub(crate) line: usize,
}

/// A line: what it does, the slot of its module, and its number in the input, from 1.
#[derive(Clone, Copy, Drop)]
pub(crate) struct Entry {
    pub(crate) act: Act,
    pub(crate) slot: usize,
    pub(crate) line: usize,
}

impl Entry {
    /// The change before the workers that the line is.
    fn opening(self) -> Option<Opening>
        ensures { result ≡ opening_in self }
    {
        match self.act {
            Act::Opens(change) => Some(Opening {
                change,
                slot: self.slot,
                line: self.line,
            }),
            Act::Works(_, _) => None,
        }
    }

    /// What a worker does by the line.
    fn task(self, worker: usize) -> Option<Task>
        ensures { result ≡ task_in worker self }
    {
        match self.act {
            Act::Works(other, deed) if other == worker => Some(Task {
                deed,
                slot: self.slot,
                line: self.line,
            }),
            _ => None,
        }
    }
}

/// Whether a line that does this may stand here.
fn has_place(workers: usize, after_works: bool, act: Act) -> bool
    ensures { result ≡ has_place workers after_works act }
{
    match act {
        Act::Opens(_) => !after_works,
        Act::Works(worker, _) => worker < workers,
    }
}

/// A line that does this to the module of a name.
fn entry_at(
    alloc: Global,
    catalogue: &Catalogue,
    line: usize,
    asked: NamedAct<'_>,
) -> Result<Entry, ScheduleFault>
    ensures { Reads (entry_at line asked.entry.act (slot_named catalogue.now (normal_form asked.entry.name.now))) (λ entry. entry) result }
{
    let name = Name::new(alloc, asked.name)?;
    match catalogue.slot(name.as_bytes()) {
        Some(slot) => Ok(Entry {
            act: asked.act,
            slot,
            line,
        }),
        None => Err(ScheduleFault::at(LineCode::H2, line)),
    }
}

/// What a statement asks, if workers' lines stand before it or not.
fn entry_of(
    alloc: Global,
    catalogue: &Catalogue,
    workers: usize,
    after_works: bool,
    said: &Statement<'_>,
) -> Result<Entry, ScheduleFault>
    ensures { Reads (entry_of catalogue.now workers after_works said.now.number (named_act_of (texts_of said.now.words.items))) (λ entry. entry) result }
{
    match named_act_of(&said.words) {
        Some(asked) if has_place(workers, after_works, asked.act) => {
            entry_at(alloc, catalogue, said.number, asked)
        }
        _ => Err(ScheduleFault::at(LineCode::H1, said.number)),
    }
}

/// What the lines of statements ask.
pub(crate) fn entries_of(
    alloc: Global,
    catalogue: &Catalogue,
    workers: usize,
    statements: &[Statement<'_>],
) -> Result<Vec<Entry>, ScheduleFault>
    ensures { Reads (entries_of catalogue.now workers [] (statements_in statements.now)) (λ entries. entries.items) result }
{
    let mut entries = Vec::new(alloc);
    let mut after_works = false;
    for said in statements {
        let entry = entry_of(alloc, catalogue, workers, after_works, said)?;
        after_works = after_works || entry.act.is_works();
        entries.push(entry)?;
    }
    Ok(entries)
}

/// The changes before the workers, in order.
pub(crate) fn opening_of(alloc: Global, entries: &[Entry]) -> Result<Vec<Opening>, AllocError>
    ensures { IfOk result (λ opening. opening.items ≡ opening_of entries.now) }
{
    let mut opening = Vec::new(alloc);
    for entry in entries {
        if let Some(change) = entry.opening() {
            opening.push(change)?;
        }
    }
    Ok(opening)
}

/// The lines of a worker, in order.
fn tasks_of(alloc: Global, worker: usize, entries: &[Entry]) -> Result<Vec<Task>, AllocError>
    ensures { IfOk result (λ tasks. tasks.items ≡ tasks_of worker entries.now) }
{
    let mut tasks = Vec::new(alloc);
    for entry in entries {
        if let Some(task) = entry.task(worker) {
            tasks.push(task)?;
        }
    }
    Ok(tasks)
}

/// The lines of each worker.
pub(crate) fn all_tasks(
    alloc: Global,
    workers: usize,
    entries: &[Entry],
) -> Result<Vec<Vec<Task>>, AllocError>
    ensures { IfOk result (λ tasks. tasks_in tasks.items ≡ map (λ worker. tasks_of worker entries.now) (range_with_len 0 workers)) }
{
    let mut tasks = Vec::new(alloc);
    for worker in 0..workers {
        tasks.push(tasks_of(alloc, worker, entries)?)?;
    }
    Ok(tasks)
}
