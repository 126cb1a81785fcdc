//! How a table is made.
ghost use Rattle.std.specs.Prelude.{◌≡◌, IfOk, OnOk};
ghost use Rattle.file_journal.specs.declared.lock.LockKind.TheVariants.{Exclusive};
ghost use Rattle.gz_table_drive.specs.Log.{HasCreated, HasCreatedOf, HasCreatedTable, HasGrown};

use crate::log::Tenures;
use crate::tenure::begin_over;
use file_journal::{FileDevice, FolderLock, LockKind};
use line_journal::DeviceError;
use std::alloc::Global;
use std::env::Env;
use std::fs::File;
use std::io::Write;
use std::rt::Files;
use std::time::Clock;
use table_folder::{
    Shared, TableFault, Teller, found_in, journal_fault, make_folder, make_journal, make_lock,
    name_of_setup, new_setup, write_setup,
};
use table_words::{Ending, Origin};

/// Writes the journal of a new table of the setup of this name into its file, in a tenure that is noted. One that has commands
/// stays as it is.
fn fill_journal<R: Files + Drop>(
    alloc: Global,
    log: &mut Tenures,
    device: &mut FileDevice<R>,
    name: &[u8],
) -> Result<(), TableFault>
    ensures created { OnOk result (HasCreated name.now log.old log.new) }
    ensures grown { HasGrown log.old log.new }
{
    begin_over(device, log)?;
    let found = found_in(alloc, device)?;
    if found.lines.len() > 1 || !(found.behind.is_empty() || found.is_at_rest()) {
        return Err(TableFault::UsedJournal);
    }
    let created = durable_table::create(alloc, device, name);
    log.end(device.believed());
    match created {
        Ok(()) => Ok(()),
        Err(DeviceError::OutOfMemory) => Err(TableFault::OutOfMemory),
        Err(DeviceError::Failed) => Err(journal_fault(device.fault())),
    }
}

/// Writes the journal of a new table of the setup of this name, which has the lock then. One that has commands stays as it is.
fn write_journal<'r, R: Files<File = File> + Clock + AllocGlobal>(
    shared: &Shared<'r, R>,
    log: &mut Tenures,
    lock: FolderLock,
    name: &[u8],
    mode: u32,
) -> Result<FileDevice<&'r R>, TableFault>
    requires lock { lock.kind ≡ Exclusive }
    ensures created { OnOk result (HasCreated name.now log.old log.new) }
    ensures grown { HasGrown log.old log.new }
{
    let mut device = make_journal(shared, lock, mode)?;
    fill_journal(shared.alloc(), log, &mut device, name)?;
    Ok(device)
}

/// Makes a table in a folder that has none, for those who may use a folder of this mode. The setup is written last.
fn write_table<R: Files<File = File> + Clock + AllocGlobal>(
    shared: &Shared<'_, R>,
    log: &mut Tenures,
    setup: &[u8],
    mode: u32,
) -> Result<(), TableFault>
    ensures created { OnOk result (HasCreatedOf setup.now log.old log.new) }
    ensures grown { HasGrown log.old log.new }
{
    make_folder(shared, mode)?;
    make_lock(shared, mode)?;
    let lock = shared.lock(LockKind::Exclusive)?;
    if shared.has_setup()? {
        return Err(TableFault::ThereAlready);
    }
    let name = name_of_setup(shared.alloc(), setup)?;
    let device = write_journal(shared, log, lock, &name, mode)?;
    write_setup(shared, setup, mode)?;
    drop(device.into_lock());
    Ok(())
}

/// Makes a table of what the words name, for those who may use a folder of this mode.
pub(crate) fn create<R: Files<File = File> + Env + Clock + AllocGlobal, E: Write>(
    shared: &Shared<'_, R>,
    log: &mut Tenures,
    origin: Origin<'_, '_>,
    mode: u32,
    teller: &mut Teller<'_, E>,
) -> Result<Ending, TableFault>
    ensures done { IfOk result (λ ending. ending ≡ Ending.Done) }
    ensures created { OnOk result (HasCreatedTable log.old log.new) }
    ensures grown { HasGrown log.old log.new }
{
    if shared.has_setup()? {
        return Err(TableFault::ThereAlready);
    }
    let setup = new_setup(shared.rt, origin, teller)?;
    write_table(shared, log, &setup, mode)?;
    Ok(Ending::Done)
}
