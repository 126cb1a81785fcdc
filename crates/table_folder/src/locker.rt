//! Who has the lock of a folder that was not to be had.
ghost use Rattle.std.specs.Prelude.{◌≡◌, option_map, IfOk};
ghost use Rattle.std.specs.Str.Lines.{lines};
ghost use Rattle.text_parts.specs.Text.{texts_of};
ghost use Rattle.table_folder.specs.Faults.{ending_of_fault};
ghost use Rattle.table_folder.specs.Locks.{locker_of, lockers_in};

use crate::fault::TableFault;
use crate::pair::tell_pair;
use crate::shared::{LOCK, Shared};
use crate::teller::Teller;
use file_journal::LockError;
use program_frame::{Shown, read_path};
use std::alloc::{AllocError, Global};
use std::fs::{self, File, Metadata};
use std::io::Write;
use std::os::unix::fs::MetadataExt;
use std::rt::Files;
use std::time::Clock;
use std::{fmt, str};
use table_words::Ending;
use text_parts::{is_same, whole_lines, words};

/// Where the system lists its locks (proc(5)).
const LOCKS: &str = "/proc/locks";

/// A process that has a lock, and how many others have it too.
#[derive(Drop)]
pub(crate) struct Locker {
    /// Its number.
    process: Vec<u8>,
    /// The name of its command; none, if that is not told.
    command: Option<Vec<u8>>,
    others: usize,
}

impl fmt::Display for Locker {
    fn fmt<W: fmt::Write>(&self, f: &mut fmt::Formatter<W>) -> fmt::Result {
        write!(f, "{}", Shown(&self.process))?;
        if let Some(command) = &self.command {
            write!(f, " ({})", Shown(command))?;
        }
        if self.others > 0 {
            write!(f, " and {} more", self.others)?;
        }
        Ok(())
    }
}

/// The process that the words of a line of /proc/locks name, if it has this file by flock(2).
#[tactic(auto, using(crate::proofs::LockLemmas::few_words))]
fn locker_of<'a>(words: &[&'a [u8]], file: &[u8]) -> Option<&'a [u8]>
    ensures { option_map (λ process. process.now) result ≡ locker_of file.now (texts_of words.entry.now) }
{
    let [_, kind, _, _, process, place, ..] = words else {
        return None;
    };
    if is_same(*kind, b"FLOCK") && is_same(*place, file) {
        Some(*process)
    } else {
        None
    }
}

/// The processes that have this file by flock(2), as a text of /proc/locks lists them. It fails only if memory runs out.
fn lockers_in<'a>(alloc: Global, text: &'a [u8], file: &[u8]) -> Result<Vec<&'a [u8]>, AllocError>
    ensures { IfOk result (λ found. texts_of found.items ≡ lockers_in file.now text.now) }
{
    let mut found = Vec::new(alloc);
    let mut lines = whole_lines(text);
    'lines: while let Some(line) = lines.next() {
        if let Some(process) = locker_of(&words(alloc, line)?, file) {
            found.push(process)?;
        }
    }
    Ok(found)
}

/// A file as /proc/locks names it: by its device, major and minor, and its inode.
fn place_of(alloc: Global, known: &Metadata) -> Result<String, AllocError> {
    let device = known.dev();
    let major = (device >> 8 & 0xfff) | (device >> 32 & 0xffff_f000);
    let minor = (device & 0xff) | (device >> 12 & 0xffff_ff00);
    format!(in alloc; "{major:02x}:{minor:02x}:{}", known.ino())
}

/// The name of a process's command, if the system tells it.
fn command_of<R: Files + AllocGlobal>(rt: &R, process: &[u8]) -> Option<Vec<u8>> {
    let number = str::from_utf8(process).ok()?;
    let path = format!(in rt.alloc(); "/proc/{number}/comm").ok()?;
    let mut name = read_path(rt, &path).ok()?;
    if name.last() == Some(&b'\n') {
        name.pop();
    }
    Some(name)
}

/// The first of these processes, and how many others there are.
fn first_of<R: Files + AllocGlobal>(rt: &R, lockers: &[&[u8]]) -> Option<Locker> {
    let (first, others) = lockers.split_first()?;
    Some(Locker {
        process: (*first).to_vec(rt.alloc()).ok()?,
        command: command_of(rt, *first),
        others: others.len(),
    })
}

/// Who has the lock of the folder now, if the system tells it. It does not, where the process is in another namespace.
fn locker_now<R: Files<File = File> + Clock + AllocGlobal>(
    shared: &Shared<'_, R>,
) -> Option<Locker> {
    let (rt, alloc) = (shared.rt, shared.alloc());
    let known = fs::metadata(rt, &shared.path(LOCK).ok()?).ok()?;
    let place = place_of(alloc, &known).ok()?;
    let text = read_path(rt, LOCKS).ok()?;
    let lockers = lockers_in(alloc, &text, place.as_bytes()).ok()?;
    first_of(rt, &lockers)
}

/// Tells why a run over a folder did not do what was asked, and answers how it ends. If the lock was waited for in vain, it is
/// told who has it. If the journal names another setup, it is told which.
pub fn end_run<R: Files<File = File> + Clock + AllocGlobal, E: Write>(
    shared: &Shared<'_, R>,
    fault: TableFault,
    teller: &mut Teller<'_, E>,
) -> Ending
    ensures { result ≡ ending_of_fault fault }
{
    if let TableFault::Lock(LockError::Held) = fault {
        if let Some(locker) = locker_now(shared) {
            return teller.locked(shared.folder, shared.wait, &locker);
        }
    }
    if let TableFault::Other = fault {
        return tell_pair(shared, teller);
    }
    teller.end(shared.folder, shared.wait, fault)
}
