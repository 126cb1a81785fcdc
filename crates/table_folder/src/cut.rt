//! The file of what was cut off behind a journal's lines.

ghost use Rattle.std.specs.Prelude.{codes, IfErr};
ghost use Rattle.table_folder.specs.Faults.{IsUnwritten};

use crate::fault::{TableFault, unwritten};
use crate::shared::{CUT, JOURNAL, Shared};
use file_journal::{create_like, create_private};
use std::alloc::AllocError;
use std::fs::{self, File, Metadata, OpenFile};
use std::io::{self, ErrorKind, Write};
use std::os::unix::fs::MetadataExt;
use std::rt::Files;
use std::time::Clock;

/// Makes the file of this path, for those who may use the journal, or if it may not be handed over to them, for the owner
/// alone: what is cut off is only kept to be looked at.
fn new_cut<R: Files<File = File> + Clock + AllocGlobal>(
    shared: &Shared<'_, R>,
    path: &str,
) -> io::Result<File> {
    let known = fs::symlink_metadata(shared.rt, &shared.path(JOURNAL)?)?;
    match create_like(shared.rt, path, &known) {
        Err(error) if error.kind() == ErrorKind::PermissionDenied => {
            create_private(shared.rt, path)
        }
        made => made,
    }
}

/// Opens the file of this path, to add to it, if it is still the known one.
fn open_known<R: Files<File = File>>(rt: &R, path: &str, known: &Metadata) -> io::Result<File> {
    let file = File::options().append(true).open(rt, path)?;
    let opened = file.metadata()?;
    if opened.dev() == known.dev() && opened.ino() == known.ino() {
        Ok(file)
    } else {
        Err(io::Error::from(ErrorKind::PermissionDenied))
    }
}

/// Opens the file of this path, to add to it. A link is not followed, nor a file added to that has another name too: a new one
/// takes its place.
fn open_cut<R: Files<File = File> + Clock + AllocGlobal>(
    shared: &Shared<'_, R>,
    path: &str,
) -> io::Result<File> {
    match fs::symlink_metadata(shared.rt, path) {
        Ok(known) if known.is_file() && known.nlink() == 1 => open_known(shared.rt, path, &known),
        Err(error) if error.kind() != ErrorKind::NotFound => Err(error),
        _ => new_cut(shared, path),
    }
}

/// Adds what is to be cut off to the file of a path, with a line feed behind it, and waits until the file and its name are on
/// the disk.
fn add_cut<R: Files<File = File> + Clock + AllocGlobal>(
    shared: &Shared<'_, R>,
    path: &str,
    behind: &[u8],
) -> io::Result<()> {
    let mut file = open_cut(shared, path)?;
    file.write_all(behind)?;
    file.write_all(b"\n")?;
    file.sync_all()?;
    shared.sync_names(shared.folder, shared.syncs)
}

/// Adds what is about to be cut off behind the lines of the folder's journal to `journal.cut`. It is on the disk then.
/// `Unwritten` with the cause if it cannot be written.
pub fn keep_cut<R: Files<File = File> + Clock + AllocGlobal>(
    shared: &Shared<'_, R>,
    behind: &[u8],
) -> Result<(), TableFault>
    ensures { IfErr result (IsUnwritten (codes "journal.cut")) }
{
    let path = shared.path(CUT)?;
    match add_cut(shared, &path, behind) {
        Ok(()) => Ok(()),
        Err(error) => Err(unwritten(CUT, &error)),
    }
}

/// How many bytes the file of what was cut off has: none, if it is not there. Fails only out of memory.
pub fn cut_length<R: Files<File = File> + Clock + AllocGlobal>(
    shared: &Shared<'_, R>,
) -> Result<u64, AllocError> {
    match fs::metadata(shared.rt, &shared.path(CUT)?) {
        Ok(known) => Ok(known.len()),
        Err(_) => Ok(0),
    }
}
