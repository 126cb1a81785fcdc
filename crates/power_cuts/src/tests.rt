//! Processes, and between them cuts of the power.
ghost use Rattle.std.specs.Prelude.{All, IfOk, OnOk};
ghost use Rattle.line_journal.specs.Lines.{AreLines};
ghost use Rattle.tenures.specs.Steps.{AreSteps, commands_of};

use crate::{End, Life, MemoryDisk, run_with_power_cuts};
use line_journal::{Device, Repair, are_lines};
use modprobe::{Buffer, FromRead, Lines, Setup, read_setup};
use std::alloc::Global;
use std::test::Fail;
use tenures::Step;

const SECTIONS: &[u8] = b"%catalogue
module floppy
module loop
%session
";

const ASKED: [&[u8]; 4] = [
    b"modprobe floppy\nhold web17 floppy",
    b"get web18 floppy",
    b"get web18 floppy",
    b"held\nget web19 floppy\nrmmod floppy",
];

// `open` makes two calls: a sync and a read. A line then takes four: a write and a sync, and the same for its gate. So a
// process of three calls has written its line, and one of five its gate too. Neither waited for what it wrote last.
const CUTS: [Life; 4] = [
    Life {
        end: End::Power,
        ..Life::WHOLE
    },
    Life {
        calls: 3,
        end: End::Power,
        ..Life::WHOLE
    },
    Life {
        calls: 5,
        end: End::Power,
        ..Life::WHOLE
    },
    Life::WHOLE,
];

const KILLS: [Life; 3] = [
    Life::WHOLE,
    Life {
        calls: 5,
        ..Life::WHOLE
    },
    Life {
        calls: 3,
        ..Life::WHOLE
    },
];

const AFTER_CUTS: &[u8] = b"ok
ok floppy
--
--
--
web17 floppy 1
ok
error EWOULDBLOCK floppy
--
";

const AFTER_KILLS: &[u8] = b"ok
ok floppy
--
--
--
web17 floppy 1
web18 floppy 1
ok
error EWOULDBLOCK floppy
--
";

// The sums are those of Python's hashlib.sha256.
const LEFT_BY_CUTS: &[u8] = b"+gourzhiel journal 2 - -
+38cd8a5884cee84d modprobe floppy
+0fc1d5ff119c1147 hold web17 floppy
+2d4a87fafa6b0cbb get web19 floppy
 ";

const LEFT_BY_KILLS: &[u8] = b"+gourzhiel journal 2 - -
+38cd8a5884cee84d modprobe floppy
+0fc1d5ff119c1147 hold web17 floppy
+3bec57f01c6567ca get web18 floppy
+80b1476cf8c2cad3 get web19 floppy
 ";

/// The setup of two modules.
fn setup(alloc: Global) -> Result<Setup, Fail> {
    let mut reader = FromRead::new(SECTIONS);
    let mut lines = Lines::new(alloc, Buffer::new(alloc)?, &mut reader, 9);
    Ok(read_setup(alloc, &mut lines)?)
}

/// The lines of a text as one group.
fn group(alloc: Global, text: &[u8]) -> Result<Step, Fail>
    ensures { IfOk result (λ step. AreLines (commands_of step)) }
{
    let mut lines = Vec::new(alloc);
    for line in text.split(|byte| *byte == b'\n') {
        lines.push(line.to_vec(alloc)?)?;
    }
    if !are_lines(&lines) {
        return Err("no lines".into());
    }
    Ok(Step::Group(lines))
}

/// Adds a process that makes the lines of a text as one group.
fn add(alloc: Global, processes: &mut Vec<Vec<Step>>, text: &[u8]) -> Result<(), Fail>
    requires { All (λ steps. AreSteps steps.items) processes.old.items }
    ensures { OnOk result (All (λ steps. AreSteps steps.items) processes.new.items) }
{
    let step = group(alloc, text)?;
    processes.push(vec![in alloc; step]?)?;
    Ok(())
}

/// What each process is asked.
fn add_all(alloc: Global, processes: &mut Vec<Vec<Step>>) -> Result<(), Fail>
    requires { All (λ steps. AreSteps steps.items) processes.old.items }
    ensures { OnOk result (All (λ steps. AreSteps steps.items) processes.new.items) }
{
    add(alloc, processes, ASKED[0])?;
    add(alloc, processes, ASKED[1])?;
    add(alloc, processes, ASKED[2])?;
    add(alloc, processes, ASKED[3])
}

/// Whether the processes are answered, and leave the journal, as they ought to.
fn end_as_wanted(
    alloc: Global,
    plan: &[Life],
    replies: &[u8],
    journal: &[u8],
) -> Result<bool, Fail> {
    let setup = setup(alloc)?;
    let mut processes = Vec::new(alloc);
    add_all(alloc, &mut processes)?;
    let repair = Repair::CutAtMost(0);
    let (disk, world) = run_with_power_cuts(alloc, &setup, repair, &processes, plan)?;
    Ok(world.text() == replies && disk.bytes_on_disk() == journal)
}

#[test]
fn lines_that_were_not_synced_are_lost(rt: HostRuntime) -> Result<(), Fail> {
    let is_right = end_as_wanted(rt.alloc(), &CUTS, AFTER_CUTS, LEFT_BY_CUTS)?;
    assert!(rt; is_right);
    Ok(())
}

#[test]
fn kills_lose_no_gate(rt: HostRuntime) -> Result<(), Fail> {
    let is_right = end_as_wanted(rt.alloc(), &KILLS, AFTER_KILLS, LEFT_BY_KILLS)?;
    assert!(rt; is_right);
    Ok(())
}

/// Whether what a read returns, and what is on the disk, is what it ought to be.
fn holds(file: &MemoryDisk, read: &[u8], disk: &[u8]) -> bool {
    file.bytes() == read && file.bytes_on_disk() == disk
}

/// Whether a file is cut and written as it ought to be, and loses what was not synced.
fn loses_what_was_not_synced(alloc: Global) -> Result<bool, Fail> {
    let mut file = MemoryDisk::new(alloc);
    file.replace(b"one")?;
    file.write_at(3, b" two")?;
    let mut is_right = holds(&file, b"one two", b"one");
    file.sync()?;
    file.cut(2)?;
    is_right = is_right && holds(&file, b"on", b"one two");
    file.cut_power();
    Ok(is_right && holds(&file, b"one two", b"one two"))
}

#[test]
fn what_was_not_synced_is_lost(rt: HostRuntime) -> Result<(), Fail> {
    let is_right = loses_what_was_not_synced(rt.alloc())?;
    assert!(rt; is_right);
    Ok(())
}
