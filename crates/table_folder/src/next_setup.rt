//! The setup that a table gets in place of its own.
ghost use Rattle.std.specs.Prelude.{codes, IfErr};
ghost use Rattle.table_folder.specs.Faults.{IsUnwritten};

use crate::fault::{TableFault, unwritten};
use crate::folder_setup::name_of_setup;
use crate::pair::named_in;
use crate::reading::journal_now;
use crate::shared::{NEXT, SETUP, Shared};
use file_journal::{LockKind, Syncs, create_like};
use program_frame::read_path;
use std::alloc::AllocError;
use std::fs::{self, File, OpenFile};
use std::io::{self, Write};
use std::rt::Files;
use std::time::Clock;

/// Writes the file of the next setup, for those who may use the setup.
fn put_next<R: Files<File = File> + Clock + AllocGlobal>(
    shared: &Shared<'_, R>,
    bytes: &[u8],
) -> io::Result<()> {
    let known = fs::metadata(shared.rt, &shared.path(SETUP)?)?;
    let mut file = create_like(shared.rt, &shared.path(NEXT)?, &known)?;
    file.write_all(bytes)?;
    file.sync_all()?;
    shared.sync_names(shared.folder, Syncs::Kept)
}

/// Writes the next setup of the folder beside its setup, for those who may use that. It is on the disk then, also if `syncs`
/// leaves the rest out. `Unwritten` with the cause if it cannot be written.
pub fn write_next_setup<R: Files<File = File> + Clock + AllocGlobal>(
    shared: &Shared<'_, R>,
    bytes: &[u8],
) -> Result<(), TableFault>
    ensures { IfErr result (IsUnwritten (codes "setup.next")) }
{
    match put_next(shared, bytes) {
        Ok(()) => Ok(()),
        Err(error) => Err(unwritten(NEXT, &error)),
    }
}

/// Puts the next setup in the place of the setup, all at once. The name of the journal comes to the disk before: by the old
/// journal the next setup is none.
fn put_in_place<R: Files<File = File> + Clock + AllocGlobal>(
    shared: &Shared<'_, R>,
) -> io::Result<()> {
    shared.sync_names(shared.folder, Syncs::Kept)?;
    fs::rename(shared.rt, &shared.path(NEXT)?, &shared.path(SETUP)?)?;
    shared.sync_names(shared.folder, Syncs::Kept)
}

/// The next setup becomes that of the folder: its journal names it by now. `Unwritten` with the cause if it cannot be put in its
/// place; then the next call does it.
pub fn take_next_setup<R: Files<File = File> + Clock + AllocGlobal>(
    shared: &Shared<'_, R>,
) -> Result<(), TableFault>
    ensures { IfErr result (IsUnwritten (codes "setup")) }
{
    match put_in_place(shared) {
        Ok(()) => Ok(()),
        Err(error) => Err(unwritten(SETUP, &error)),
    }
}

/// Takes the next setup away: the journal does not name it. If that cannot be done, the next call tries it.
pub fn drop_next_setup<R: Files<File = File> + Clock + AllocGlobal>(shared: &Shared<'_, R>) {
    if let Ok(path) = shared.path(NEXT) {
        let _ = fs::remove_file(shared.rt, &path);
    }
}

/// Whether a file of the folder is the setup of this name. None if it cannot be read.
fn has_name<R: Files<File = File> + Clock + AllocGlobal>(
    shared: &Shared<'_, R>,
    file: &str,
    name: &[u8],
) -> Option<bool> {
    let bytes = read_path(shared.rt, &shared.path(file).ok()?).ok()?;
    match name_of_setup(shared.alloc(), &bytes) {
        Ok(own) => Some(own.as_slice() == name),
        Err(TableFault::OutOfMemory) => None,
        Err(_) => Some(false),
    }
}

/// Whether the journal names the next setup, and not the one that is there. None if that cannot be read. Of two of one name the
/// next one may be torn: it is on the disk as a whole before the journal is written for it.
fn is_next_named<R: Files<File = File> + Clock + AllocGlobal>(
    shared: &Shared<'_, R>,
) -> Option<bool> {
    let journal = journal_now(shared).ok()?;
    let named = named_in(shared.alloc(), &journal)?;
    if has_name(shared, SETUP, &named)? {
        return Some(false);
    }
    has_name(shared, NEXT, &named)
}

/// Ends a renewal that was cut off, under the folder's lock. If the journal names the next setup, that becomes the folder's, and
/// else it is taken away. Where this cannot be done, all stays as it is. Fails only out of memory.
pub fn end_renewal<R: Files<File = File> + Clock + AllocGlobal>(
    shared: &Shared<'_, R>,
) -> Result<(), AllocError> {
    if fs::metadata(shared.rt, &shared.path(NEXT)?).is_err() {
        return Ok(());
    }
    let Ok(lock) = shared.lock(LockKind::Exclusive) else {
        return Ok(());
    };
    match is_next_named(shared) {
        Some(true) => {
            let _ = put_in_place(shared);
        }
        Some(false) => drop_next_setup(shared),
        None => {}
    }
    lock.release();
    Ok(())
}
