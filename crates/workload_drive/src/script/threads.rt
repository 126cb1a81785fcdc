//! The workers of a script, each on a thread of its own.
ghost use denote.Param.Send.{IsSync, IsSend};
ghost use Rattle.std.specs.Prelude.{◌≡◌, All};
ghost use Rattle.root_row.specs.Seats.{IsOf};
ghost use Rattle.managed_table.specs.Callers.{IsCallerOf};
ghost use Rattle.workload_drive.specs.declared.script.threads.WorkFault.TheVariants as work_faults;

use super::by_caller::{ManagedCalls, managed_workers};
use super::by_manager::{ManagerCalls, manager_workers};
use super::calls::{Asks, Calls};
use super::course::Course;
use super::listing::listing;
use super::tasks::Script;
use super::worker::{Worker, make_change};
use dep_index::{Catalogue, Reply};
use managed_table::{Caller, ManagedTable};
use module_table::Manager;
use proc_modules::push_number;
use std::alloc::AllocError;
use std::sync::Wait;
use std::thread;
use std::thread::Threads;
use thiserror::Error;
use use_indicator::Reader;

/// Who is asked before each line of a worker, and told after it, and after each change that comes before the workers. Lines are counted from 0, each worker's by itself.
pub trait Gate {
    /// Whether the worker may make this line. If it may not, it makes no further one.
    fn before(&self, worker: usize, line: usize) -> bool;

    /// The change of this number, from 0, which comes before the workers, was made with this reply.
    fn opened(&self, _line: usize, _reply: Reply) {}

    /// The worker has made this line, with this reply.
    fn after(&self, worker: usize, line: usize, reply: Reply);
}

/// A gate that lets every line begin.
#[derive(Drop)]
pub struct OpenGate;

impl Gate for OpenGate {
    fn before(&self, _worker: usize, _line: usize) -> bool {
        true
    }

    fn after(&self, _worker: usize, _line: usize, _reply: Reply) {}
}

/// Why a script was not run to its end.
#[derive(Clone, Copy, Debug, PartialEq, Eq, Drop, Error)]
pub enum WorkFault {
    #[error("out of memory")]
    Memory,
    /// A thread could not be started.
    #[error("spawn fault")]
    Spawn,
    /// The gate let a line not begin.
    #[error("gate")]
    Gate,
}

impl From<AllocError> for WorkFault {
    ghost from_gives = { λ _ fault. fault ≡ work_faults.Memory };

    fn from(_: AllocError) -> WorkFault {
        WorkFault::Memory
    }
}

/// Makes the lines of a worker, in order.
fn work<R: Wait, C: Calls + Drop, A: Asks + Drop, G: Gate>(
    rt: &R,
    mut worker: Worker<C, A>,
    script: &Script,
    gate: &G,
    course: &Course,
) {
    let number = worker.number;
    for (line, task) in script.tasks(number).iter().enumerate() {
        if !gate.before(number, line) {
            course.shut();
            return;
        }
        if let Some(reply) = worker.perform(rt, *task) {
            course.count();
            gate.after(number, line, reply);
        }
    }
}

/// Starts the workers, and waits until all have ended.
fn work_all<
    R: Threads + Wait + Sync,
    C: Calls + Drop + Send,
    A: Asks + Drop + Send,
    G: Gate + Sync,
>(rt: &R, workers: Vec<Worker<C, A>>, script: &Script, gate: &G, course: &Course) {
    thread::scope(
        thread::scope_env(),
        rt,
        move |scope|
            requires { IsSync R.row × IsSync G.row × IsSend C.row × IsSend A.row }
        {
            for worker in workers {
                if scope
                    .spawn(move || work(rt, worker, script, gate, course))
                    .is_err()
                {
                    course.lack();
                }
            }
        },
    );
}

/// Makes the changes of a script that come before its workers.
fn open<R: Wait, C: Calls, G: Gate>(
    rt: &R,
    calls: &mut C,
    script: &Script,
    gate: &G,
    course: &Course,
) {
    for (line, opening) in script.opening().iter().enumerate() {
        if let Some(reply) = make_change(rt, calls, opening.change, opening.slot) {
            course.count();
            gate.opened(line, reply);
        }
    }
}

/// Runs a script by these workers, and lists what is left.
fn run<
    R: AllocGlobal + Threads + Wait + Sync,
    C: Calls + Drop + Send,
    A: Asks + Drop + Send,
    G: Gate + Sync,
>(
    rt: &R,
    catalogue: &Catalogue,
    calls: &mut C,
    workers: Vec<Worker<C, A>>,
    script: &Script,
    gate: &G,
) -> Result<Vec<u8>, WorkFault> {
    let course = Course::new();
    open(rt, calls, script, gate, &course);
    work_all(rt, workers, script, gate, &course);
    let made = course.calls()?;
    let mut text = listing(rt, catalogue, calls)?;
    text.extend_from_slice(b"calls ")?;
    push_number(&mut text, made)?;
    text.extend_from_slice(b"\n")?;
    Ok(text)
}

/// Runs a script on a manager: first the changes that come before the workers, then each worker's lines in order, on a
/// thread of its own, with the gate before and after each. The answer, once all have ended, is the lines of /proc/modules
/// with the counts of all workers, and a line `calls N` with the number of lines that were made. `Gate`: the gate let a
/// line not begin, and its worker ended there. `Spawn`: a thread could not be started. `Memory`: there was none.
///
/// The manager is to be over the script's catalogue, which is handed in beside it, with the script's workers; its readers
/// are to stand in order.
pub fn run_threads<R: AllocGlobal + Threads + Wait + Sync, G: Gate + Sync>(
    rt: &R,
    catalogue: &Catalogue,
    manager: &Manager,
    readers: Vec<Reader>,
    script: &Script,
    gate: &G,
) -> Result<Vec<u8>, WorkFault>
    requires { All (IsOf manager.now) readers.items }
{
    let workers = manager_workers(rt, manager, readers)?;
    run(
        rt,
        catalogue,
        &mut ManagerCalls { manager },
        workers,
        script,
        gate,
    )
}

/// As `run_threads`, on a managed table: each worker has a caller, which comes from this one, so each call that returns is made
/// once.
pub fn run_managed<R: AllocGlobal + Threads + Wait + Sync, G: Gate + Sync>(
    rt: &R,
    catalogue: &Catalogue,
    table: &ManagedTable,
    caller: &mut Caller,
    readers: Vec<Reader>,
    script: &Script,
    gate: &G,
) -> Result<Vec<u8>, WorkFault>
    requires own { IsCallerOf table.now caller.old }
    requires readers { All (IsOf table.now.row) readers.items }
    ensures own { IsCallerOf table.now caller.new }
{
    let workers = managed_workers(rt, table, caller, readers)?;
    run(
        rt,
        catalogue,
        &mut ManagedCalls::by_further(table, caller),
        workers,
        script,
        gate,
    )
}
