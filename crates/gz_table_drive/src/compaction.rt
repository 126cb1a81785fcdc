//! The journal of a folder is written anew.
ghost use Rattle.std.specs.Prelude.{◌≡◌, true, Ok, IsErrOf, IfOk, OnOk};
ghost use Rattle.line_journal.specs.Device.{AlwaysLeaves};
ghost use Rattle.line_journal.specs.Journal.{lines_in};
ghost use Rattle.durable_table.specs.Durable.{Stands};
ghost use Rattle.durable_table.specs.Compacting.{compacted, CanBeRemade};
ghost use Rattle.file_journal.specs.declared.lock.LockKind.TheVariants.{Exclusive};
ghost use Rattle.gz_table_drive.specs.Ended.{IsCompacted};
ghost use Rattle.gz_table_drive.specs.Log.{CannotCompact, HasCompacted, HasGrown, IsJournalOf, IsOf};

use crate::kept::Kept;
use crate::log::Tenures;
use crate::opening::no_holders;
use crate::tenure::{FileTable, begin_over, changing_table};
use durable_table::{Compacted, DurableTable, PerformError};
use file_journal::{FileDevice, FolderLock, LockKind};
use line_journal::{Device, DeviceError, Renewable};
use std::alloc::Global;
use std::fs::File;
use std::io::Write;
use std::rt::Files;
use std::time::Clock;
use table_folder::{FolderSetup, Shared, TableFault, Teller, journal_fault, read_setup};

/// Writes the journal anew, as the lines that make its table, with the name of its setup.
fn compact_table<D: Renewable + Drop>(
    alloc: Global,
    setup: &FolderSetup,
    table: &mut DurableTable<'_, D>,
) -> Result<Compacted, PerformError>
    requires stands { Stands D.content D.history setup.now.setup table.old.session.holders.held table.old.journal }
    requires of_setup { table.old.session.setup.now ≡ setup.now.setup }
    requires of { IsOf setup.now (D.content table.old.journal.lines.device) }
    ensures written { result ≡ Ok Compacted.Done → lines_in D.content table.new.journal.lines ≡ compacted setup.now.name.items setup.now.setup table.old.session.holders.held }
    ensures kept { result ≡ Ok Compacted.Kept → table.new.journal ≡ table.old.journal }
    ensures unchanged { IsErrOf result PerformError.OutOfMemory → table.new.journal ≡ table.old.journal }
    ensures needed { result ≡ Ok Compacted.Kept → CanBeRemade setup.now.name.items setup.now.setup table.old.session.holders.held → ⊥ }
    ensures stands { OnOk result (Stands D.content D.history setup.now.setup table.new.session.holders.held table.new.journal) }
    ensures of { OnOk result (IsOf setup.now (D.content table.new.journal.lines.device)) }
    ensures any_moment { AlwaysLeaves (D.history table.old.journal.lines.device) (D.history table.new.journal.lines.device)
        (IsJournalOf setup.now table.old.session.holders.held) }
    ensures session { table.new.session ≡ table.old.session }
{
    match no_holders(alloc, &setup.setup) {
        Ok(fresh) => table.compact(alloc, &setup.name, fresh),
        Err(_) => Err(PerformError::OutOfMemory),
    }
}

/// Writes a journal that has become long anew, with the name of its setup. Returns whether the table may be kept: if the journal
/// could not be written, it stands for the same table all the same, but that is to be opened anew.
pub(crate) fn shorten<D: Renewable + Drop>(
    alloc: Global,
    setup: &FolderSetup,
    table: &mut DurableTable<'_, D>,
) -> bool
    requires stands { Stands D.content D.history setup.now.setup table.old.session.holders.held table.old.journal }
    requires of_setup { table.old.session.setup.now ≡ setup.now.setup }
    requires of { IsOf setup.now (D.content table.old.journal.lines.device) }
    ensures stands { result ≡ true → Stands D.content D.history setup.now.setup table.new.session.holders.held table.new.journal }
    ensures of { result ≡ true → IsOf setup.now (D.content table.new.journal.lines.device) }
    ensures any_moment { AlwaysLeaves (D.history table.old.journal.lines.device) (D.history table.new.journal.lines.device)
        (IsJournalOf setup.now table.old.session.holders.held) }
    ensures session { table.new.session ≡ table.old.session }
{
    if !matches!(table.is_long(alloc, &setup.name), Ok(true)) {
        return true;
    }
    compact_table(alloc, setup, table).is_ok()
}

/// As `compact_table`, in a tenure that is noted.
fn compact_noted<R: Files + Drop>(
    alloc: Global,
    setup: &FolderSetup,
    log: &mut Tenures,
    table: &mut FileTable<'_, R>,
) -> Result<Compacted, TableFault>
    requires stands { Stands ⟦<FileDevice<R> as Device>⟧.content ⟦<FileDevice<R> as Device>⟧.history setup.now.setup table.old.session.holders.held table.old.journal }
    requires of_setup { table.old.session.setup.now ≡ setup.now.setup }
    requires of { IsOf setup.now (⟦<FileDevice<R> as Device>⟧.content table.old.journal.lines.device) }
    ensures done { IfOk result (λ made. made ≡ Compacted.Done → HasCompacted setup.now log.old log.new) }
    ensures kept { IfOk result (λ made. made ≡ Compacted.Kept → CannotCompact setup.now log.old log.new) }
    ensures grown { HasGrown log.old log.new }
{
    begin_over(table.device(), log)?;
    let compacted = compact_table(alloc, setup, table);
    log.end(table.device().believed());
    match compacted {
        Ok(compacted) => Ok(compacted),
        Err(PerformError::Device(DeviceError::Failed)) => Err(journal_fault(
            table.device().fault(),
        )),
        Err(_) => Err(TableFault::OutOfMemory),
    }
}

/// Writes the journal of a folder anew, as the lines that make its table, unless they would not make it. It is one tenure.
fn compact_folder<R: Files<File = File> + Clock + AllocGlobal, E: Write>(
    shared: &Shared<'_, R>,
    setup: &FolderSetup,
    log: &mut Tenures,
    lock: FolderLock,
    teller: &mut Teller<'_, E>,
) -> Result<Compacted, TableFault>
    requires { lock.kind ≡ Exclusive }
    ensures done { IfOk result (λ made. made ≡ Compacted.Done → HasCompacted setup.now log.old log.new) }
    ensures kept { IfOk result (λ made. made ≡ Compacted.Kept → CannotCompact setup.now log.old log.new) }
    ensures grown { HasGrown log.old log.new }
{
    let mut table = changing_table(shared, &mut Kept::new(setup), lock, teller)?;
    compact_noted(shared.alloc(), setup, log, &mut table)
}

/// Writes the journal of a folder anew, as the lines that make its table.
pub(crate) fn compact<R: Files<File = File> + Clock + AllocGlobal, E: Write>(
    shared: &Shared<'_, R>,
    log: &mut Tenures,
    teller: &mut Teller<'_, E>,
) -> Result<Compacted, TableFault>
    ensures done { IfOk result (λ made. made ≡ Compacted.Done → IsCompacted log.old log.new) }
    ensures grown { HasGrown log.old log.new }
{
    let setup = read_setup(shared)?;
    let lock = shared.with_setup(&setup).lock(LockKind::Exclusive)?;
    compact_folder(shared, &setup, log, lock, teller)
}
