//! Scripts on threads with gates of their own.

use dep_index::Reply;
use managed_table::ManagedTable;
use module_table::Manager;
use std::sync::Wait;
use std::sync::atomic::{AtomicBool, AtomicUsize, Ordering};
use std::test::Fail;
use std::thread::Threads;
use workload_drive::{Gate, OpenGate, WorkFault, read_script, run_managed, run_threads};

/// How often a gate looks before it gives up.
const TURNS: usize = 50_000_000;

/// What a script comes to, and how often the workers 0 and 1 hold snd then.
type Course = (Result<Vec<u8>, WorkFault>, [Option<u32>; 2]);

/// The text or the fault that a script ought to come to, and how often the workers ought to hold snd then.
type Wanted = (Result<&'static str, WorkFault>, [Option<u32>; 2]);

/// Runs a script on a manager of its own.
fn run<R: AllocGlobal + Threads + Wait + Sync, G: Gate + Sync>(
    rt: &R,
    input: &[u8],
    gate: &G,
) -> Result<Course, Fail> {
    let script = read_script(rt.alloc(), input)?;
    let (manager, readers) = Manager::new(rt.alloc(), script.catalogue(), script.workers())?;
    let answer = run_threads(rt, script.catalogue(), &manager, readers, &script, gate);
    Ok((answer, [manager.held(rt, 0, 0), manager.held(rt, 1, 0)]))
}

/// The same on a managed table.
fn run_by_callers<R: AllocGlobal + Threads + Wait + Sync, G: Gate + Sync>(
    rt: &R,
    input: &[u8],
    gate: &G,
) -> Result<Course, Fail> {
    let script = read_script(rt.alloc(), input)?;
    let (table, mut caller, readers) = ManagedTable::new(
        rt.alloc(),
        script.catalogue(),
        script.workers(),
    )?;
    let answer = run_managed(
        rt,
        script.catalogue(),
        &table,
        &mut caller,
        readers,
        &script,
        gate,
    );
    let first = table.held(rt, &mut caller, 0, 0);
    Ok((answer, [first, table.held(rt, &mut caller, 1, 0)]))
}

fn is_right(course: &Course, wanted: &Wanted) -> bool {
    let is_answer = match (&course.0, &wanted.0) {
        (Ok(text), Ok(wanted)) => text.as_slice() == wanted.as_bytes(),
        (Err(fault), Err(wanted)) => fault == wanted,
        _ => false,
    };
    is_answer && course.1 == wanted.1
}

/// Whether the script comes to this on a manager and on a managed table, each with a gate of its own.
fn are_right<R: AllocGlobal + Threads + Wait + Sync, G: Gate + Sync>(
    rt: &R,
    input: &[u8],
    gates: &[G; 2],
    wanted: &Wanted,
) -> Result<bool, Fail> {
    Ok(
        is_right(&run(rt, input, &gates[0])?, wanted)
            && is_right(&run_by_callers(rt, input, &gates[1])?, wanted),
    )
}

/// Both workers keep what they get.
const KEPT: &[u8] = b"%catalogue
module snd
size 114688
%script
workers 2
load snd
w0 get snd
w1 get snd
w1 get snd
";

#[test]
fn references_are_left(rt: HostRuntime) -> Result<(), Fail> {
    let text = "snd 114688 3 - Live 0x0000000000000000\ncalls 4\n";
    let wanted = (Ok(text), [Some(1), Some(2)]);
    assert!(rt; are_right(&rt, KEPT, &[OpenGate, OpenGate], &wanted)?);
    Ok(())
}

/// What must have come before each line of a removal that is refused while another worker holds the module. These come in
/// turn: worker 1 is about to ask, worker 0 gets, worker 1 sees it and is refused, worker 0 puts, worker 1 removes.
#[derive(Drop)]
struct Meeting {
    /// How many of these have come.
    come: AtomicUsize,
    turns: AtomicUsize,
}

impl Meeting {
    fn new() -> Meeting {
        Meeting {
            come: AtomicUsize::new(0),
            turns: AtomicUsize::new(0),
        }
    }

    /// One more has come behind so many; nothing if it is not its turn.
    fn comes_behind(&self, count: usize) {
        let next = count.saturating_add(1);
        let _ = self
            .come
            .compare_exchange(count, next, Ordering::SeqCst, Ordering::SeqCst);
    }

    fn have_all_come(&self) -> bool {
        self.come.load(Ordering::SeqCst) == 6
    }

    /// Looks until so many have come, or until the gate has looked too often.
    fn wait_for(&self, count: usize) -> bool {
        for _ in 0..TURNS {
            if self.come.load(Ordering::SeqCst) >= count {
                return true;
            }
            if self.turns.fetch_add(1, Ordering::SeqCst) >= TURNS {
                return false;
            }
        }
        false
    }
}

impl Gate for Meeting {
    fn before(&self, worker: usize, line: usize) -> bool {
        match (worker, line) {
            (0, 0) => self.wait_for(1),
            (1, 0) => {
                self.comes_behind(0);
                self.wait_for(2)
            }
            (0, 1) => self.wait_for(4),
            (1, 2) => self.wait_for(5),
            _ => true,
        }
    }

    fn after(&self, worker: usize, line: usize, reply: Reply) {
        match (worker, line, reply) {
            (0, 0, Reply::Done) => self.comes_behind(1),
            (1, 0, Reply::Yes) => self.comes_behind(2),
            (1, 1, Reply::InUse) => self.comes_behind(3),
            (0, 1, Reply::Done) => self.comes_behind(4),
            (1, 2, Reply::Done) => self.comes_behind(5),
            _ => {}
        }
    }
}

/// A removal beside a worker that holds the module.
const MET: &[u8] = b"%catalogue
module snd
size 114688
%script
workers 2
load snd
w0 get snd
w0 put snd
w1 query snd
w1 remove snd
w1 remove snd
";

#[test]
fn workers_run_at_once(rt: HostRuntime) -> Result<(), Fail> {
    let meetings = [Meeting::new(), Meeting::new()];
    let wanted = (Ok("calls 6\n"), [Some(0), Some(0)]);
    assert!(rt; are_right(&rt, MET, &meetings, &wanted)?);
    assert!(rt; meetings[0].have_all_come() && meetings[1].have_all_come());
    Ok(())
}

/// Lets worker 0 make one line alone, and notes that worker 1 has asked.
#[derive(Drop)]
struct Shut {
    asked: AtomicBool,
}

impl Shut {
    fn new() -> Shut {
        Shut {
            asked: AtomicBool::new(false),
        }
    }
}

impl Gate for Shut {
    fn before(&self, worker: usize, line: usize) -> bool {
        if worker == 1 && line == 2 {
            self.asked.store(true, Ordering::SeqCst);
        }
        worker != 0 || line == 0
    }

    fn after(&self, _worker: usize, _line: usize, _reply: Reply) {}
}

/// Two workers, the first of which is shut out.
const SHUT_OUT: &[u8] = b"%catalogue
module snd
size 114688
%script
workers 2
load snd
w0 get snd
w0 put snd
w1 get snd
w1 put snd
w1 query snd
";

#[test]
fn a_gate_is_shut(rt: HostRuntime) -> Result<(), Fail> {
    let gates = [Shut::new(), Shut::new()];
    let wanted = (Err(WorkFault::Gate), [Some(1), Some(0)]);
    assert!(rt; are_right(&rt, SHUT_OUT, &gates, &wanted)?);
    assert!(rt; gates[0].asked.load(Ordering::SeqCst) && gates[1].asked.load(Ordering::SeqCst));
    Ok(())
}
