//! Processes that are cut off, one after another.
ghost use Rattle.std.specs.Prelude.{[], All, IfOk, OnOk};
ghost use Rattle.line_journal.specs.KillOnly.{history_of};
ghost use Rattle.line_journal.specs.Lines.{AreLines};
ghost use Rattle.tenures.specs.Steps.{AreSteps, commands_of};
ghost use Rattle.tenures.specs.Kept.{IsKept};

use crate::cut_device::CutDevice;
use crate::support::{lines_of, setup};
use crate::watcher::{Life, Watcher};
use durable_table::{NO_NAME, create};
use line_journal::{KillOnly, Repair, are_lines};
use modprobe::Setup;
use std::alloc::{AllocError, Global};
use std::process::Abort;
use std::test::Fail;
use tenures::{Step, run};

/// A process that ends by itself.
const WHOLE: Life = Life {
    calls: 1000,
    replies: 1000,
};

// `open` makes two calls: a sync and a read. A group makes two before its gates. So the second process ends when two of three
// gates are open, the third after its first reply, and the fourth when its journal is replaced.
const LIVES: [Life; 5] = [
    WHOLE,
    Life { calls: 5, ..WHOLE },
    Life {
        replies: 1,
        ..WHOLE
    },
    Life { calls: 2, ..WHOLE },
    WHOLE,
];

const REPLIES: &[u8] = b"ok
ok floppy
ok
--
--
ok
--
--
web19 floppy 1
error EWOULDBLOCK floppy
ok
ok
--
";

// The sums are those of Python's hashlib.sha256.
const JOURNAL: &[u8] = b"+gourzhiel journal 2 - -
+44b05d506e4b021f begin_load floppy
+107b18ff2ed9cf6b end_load floppy ok
+d6d8dbfbdcf5c23a get web19 floppy
+3d5cc8f6eb6eb79a release web19
+bab874f85f576f35 rmmod floppy
 ";

/// Lines as one group.
fn group(alloc: Global, text: &[u8]) -> Result<Step, Fail>
    ensures { IfOk result (λ step. AreLines (commands_of step)) }
{
    let lines = lines_of(alloc, text)?;
    if !are_lines(&lines) {
        return Err("no lines".into());
    }
    Ok(Step::Group(lines))
}

/// Adds a process of these steps.
fn add(processes: &mut Vec<Vec<Step>>, steps: Vec<Step>) -> Result<(), AllocError>
    requires steps { AreSteps steps.items }
    requires processes { All (λ steps. AreSteps steps.items) processes.old.items }
    ensures { OnOk result (All (λ steps. AreSteps steps.items) processes.new.items) }
{
    processes.push(steps)?;
    Ok(())
}

/// Adds a process that makes lines as one group.
fn add_one(alloc: Global, processes: &mut Vec<Vec<Step>>, text: &[u8]) -> Result<(), Fail>
    requires { All (λ steps. AreSteps steps.items) processes.old.items }
    ensures { OnOk result (All (λ steps. AreSteps steps.items) processes.new.items) }
{
    let step = group(alloc, text)?;
    Ok(add(processes, vec![in alloc; step]?)?)
}

/// Adds a process that makes lines as two groups.
fn add_two(
    alloc: Global,
    processes: &mut Vec<Vec<Step>>,
    text: &[u8],
    next: &[u8],
) -> Result<(), Fail>
    requires { All (λ steps. AreSteps steps.items) processes.old.items }
    ensures { OnOk result (All (λ steps. AreSteps steps.items) processes.new.items) }
{
    let first = group(alloc, text)?;
    let second = group(alloc, next)?;
    Ok(add(processes, vec![in alloc; first, second]?)?)
}

/// What each process is asked.
fn add_all(alloc: Global, processes: &mut Vec<Vec<Step>>) -> Result<(), Fail>
    requires { All (λ steps. AreSteps steps.items) processes.old.items }
    ensures { OnOk result (All (λ steps. AreSteps steps.items) processes.new.items) }
{
    add_two(
        alloc,
        processes,
        b"modprobe floppy\nhold web17 floppy\n",
        b"get web18 floppy\n",
    )?;
    add_one(
        alloc,
        processes,
        b"release web17\nrelease web18\nrmmod floppy\n",
    )?;
    add_one(alloc, processes, b"get web19 floppy\nrmmod floppy\n")?;
    add(processes, vec![in alloc; Step::Compaction]?)?;
    add_one(
        alloc,
        processes,
        b"held\nrmmod floppy\nrelease web19\nrmmod floppy\n",
    )
}

/// A device with the journal of a new table.
fn new_device(alloc: Global, setup: &Setup) -> Result<CutDevice, Fail>
    ensures { IfOk result (λ device. IsKept setup.now [] (history_of device.file)) }
{
    let mut file = KillOnly::new(alloc, Vec::new(alloc));
    create(alloc, &mut file, NO_NAME)?;
    Ok(CutDevice::new(file))
}

/// Whether the processes are answered, and leave the journal, as they ought to.
fn end_as_wanted<R: Abort>(
    rt: &R,
    alloc: Global,
    setup: &Setup,
    mut device: CutDevice,
    processes: &[Vec<Step>],
) -> bool
    requires steps { All (λ steps. AreSteps steps.items) processes.now }
    requires kept { IsKept setup.now [] (history_of device.file) }
{
    let mut world = Watcher::new(rt, alloc, &device, &LIVES);
    world.begin_life(&mut device);
    let device = run(
        alloc,
        setup,
        device,
        Repair::CutAtMost(3),
        processes,
        &mut world,
    );
    world.text() == REPLIES && device.bytes() == JOURNAL
}

/// The same of these processes, with a new journal.
fn are_cut_off<R: Abort>(
    rt: &R,
    alloc: Global,
    setup: &Setup,
    processes: &[Vec<Step>],
) -> Result<bool, Fail>
    requires { All (λ steps. AreSteps steps.items) processes.now }
{
    let device = new_device(alloc, setup)?;
    Ok(end_as_wanted(rt, alloc, setup, device, processes))
}

/// The same over a setup.
fn are_cut_off_over_setup<R: Abort>(rt: &R, alloc: Global, setup: &Setup) -> Result<bool, Fail> {
    let mut processes = Vec::new(alloc);
    add_all(alloc, &mut processes)?;
    are_cut_off(rt, alloc, setup, &processes)
}

#[test]
fn processes_are_cut_off(rt: HostRuntime) -> Result<(), Fail> {
    let setup = setup(rt.alloc())?;
    let is_right = are_cut_off_over_setup(&rt, rt.alloc(), &setup)?;
    assert!(rt; is_right);
    Ok(())
}
