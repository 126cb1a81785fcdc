//! Processes that open a journal one after another, in a folder below /tmp.
ghost use Rattle.std.specs.Prelude.{All, IfOk, OnOk};
ghost use Rattle.line_journal.specs.Lines.{AreLines};
ghost use Rattle.tenures.specs.Steps.{AreSteps, commands_of};

use crate::{Life, run_over_files};
use file_journal::{FolderLock, LockKind};
use line_journal::{Repair, are_lines};
use modprobe::{Buffer, FromRead, Lines, Setup, read_setup};
use std::alloc::Global;
use std::test::Fail;
use std::{fs, process};
use tenures::Step;

const SECTIONS: &[u8] = b"%catalogue
module floppy
module loop
%session
";

const ASKED: [&[u8]; 6] = [
    b"modprobe floppy\nhold web17 floppy",
    b"get web18 floppy",
    b"get web19 floppy",
    b"get web20 floppy",
    b"held\nget web21 floppy\nrmmod floppy",
    b"held",
];

// A process reads its file by two calls: a sync and a read. A line then takes four: a write and a sync, and the same for its
// gate. So the third process is killed within the write of the gate, and the fourth within that of the line. The second is cut
// off before it begins a reply, the fifth before it begins its last one.
const PLAN: [Life; 5] = [
    Life::WHOLE,
    Life {
        replies: 0,
        ..Life::WHOLE
    },
    Life {
        calls: 4,
        ..Life::WHOLE
    },
    Life {
        calls: 2,
        ..Life::WHOLE
    },
    Life {
        replies: 2,
        ..Life::WHOLE
    },
];

const REPLIES: &[u8] = b"ok
ok floppy
--
--
--
--
web17 floppy 1
web18 floppy 1
web19 floppy 1
ok
--
web17 floppy 1
web18 floppy 1
web19 floppy 1
web21 floppy 1
--
";

// The sums are those of Python's hashlib.sha256.
const LEFT: &[u8] = b"+gourzhiel journal 2 - -
+38cd8a5884cee84d modprobe floppy
+0fc1d5ff119c1147 hold web17 floppy
+3bec57f01c6567ca get web18 floppy
+80b1476cf8c2cad3 get web19 floppy
+9d624a77e78cf849 get web21 floppy
 ";

/// The setup of two modules.
fn setup(alloc: Global) -> Result<Setup, Fail> {
    let mut reader = FromRead::new(SECTIONS);
    let mut lines = Lines::new(alloc, Buffer::new(alloc)?, &mut reader, 9);
    Ok(read_setup(alloc, &mut lines)?)
}

/// The lines of a text as one group.
fn group(alloc: Global, text: &[u8]) -> Result<Step, Fail>
    ensures { IfOk result (λ step. AreLines (commands_of step)) }
{
    let mut lines = Vec::new(alloc);
    for line in text.split(|byte| *byte == b'\n') {
        lines.push(line.to_vec(alloc)?)?;
    }
    if !are_lines(&lines) {
        return Err("no lines".into());
    }
    Ok(Step::Group(lines))
}

/// Adds a process that makes the lines of a text as one group.
fn add(alloc: Global, processes: &mut Vec<Vec<Step>>, text: &[u8]) -> Result<(), Fail>
    requires { All (λ steps. AreSteps steps.items) processes.old.items }
    ensures { OnOk result (All (λ steps. AreSteps steps.items) processes.new.items) }
{
    let step = group(alloc, text)?;
    processes.push(vec![in alloc; step]?)?;
    Ok(())
}

/// What each process is asked.
fn add_all(alloc: Global, processes: &mut Vec<Vec<Step>>) -> Result<(), Fail>
    requires { All (λ steps. AreSteps steps.items) processes.old.items }
    ensures { OnOk result (All (λ steps. AreSteps steps.items) processes.new.items) }
{
    add(alloc, processes, ASKED[0])?;
    add(alloc, processes, ASKED[1])?;
    add(alloc, processes, ASKED[2])?;
    add(alloc, processes, ASKED[3])?;
    add(alloc, processes, ASKED[4])?;
    add(alloc, processes, ASKED[5])
}

/// The text of the replies of the processes, over a journal in a folder.
fn replies_in(rt: &HostRuntime, folder: &str) -> Result<Vec<u8>, Fail> {
    let alloc = rt.alloc();
    let setup = setup(alloc)?;
    let mut processes = Vec::new(alloc);
    add_all(alloc, &mut processes)?;
    let lock = FolderLock::acquire(rt, alloc, folder, LockKind::Exclusive, 0)?;
    let repair = Repair::CutAtMost(0);
    let (_, world) = run_over_files(rt, alloc, &setup, lock, folder, repair, &processes, &PLAN)?;
    Ok(world.text().to_vec(alloc)?)
}

/// Whether a journal that is there is refused.
fn is_refused(rt: &HostRuntime, folder: &str) -> Result<bool, Fail> {
    let alloc = rt.alloc();
    let setup = setup(alloc)?;
    let lock = FolderLock::acquire(rt, alloc, folder, LockKind::Exclusive, 0)?;
    let repair = Repair::CutAtMost(0);
    Ok(run_over_files(rt, alloc, &setup, lock, folder, repair, &[], &PLAN).is_err())
}

/// Whether the processes are answered, and leave the journal, as they ought to. A second run finds that the journal is there.
fn end_as_wanted(rt: &HostRuntime, folder: &str) -> Result<bool, Fail> {
    let replies = replies_in(rt, folder)?;
    let path = format!(in rt.alloc(); "{folder}/journal")?;
    let left = fs::read(rt, path.as_str())?;
    Ok(replies.as_slice() == REPLIES && left.as_slice() == LEFT && is_refused(rt, folder)?)
}

#[test]
fn each_process_goes_on_from_the_file(rt: HostRuntime) -> Result<(), Fail> {
    let number = process::id(rt.process());
    let folder = format!(in rt.alloc(); "/tmp/file_lives.{number}")?;
    fs::create_dir(&rt, folder.as_str())?;
    let is_right = end_as_wanted(&rt, &folder)?;
    fs::remove_dir_all(&rt, folder.as_str())?;
    assert!(rt; is_right);
    Ok(())
}
