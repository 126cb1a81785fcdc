//! A table gets another setup.
ghost use Rattle.std.specs.Prelude.{◌≡◌, ℕ, List, true, Ok, IfOk, OnOk};
ghost use Rattle.line_journal.specs.Device.{AlwaysLeaves};
ghost use Rattle.durable_table.specs.Durable.{Stands};
ghost use Rattle.durable_table.specs.Renewing.{CanBeRenewed, IsRenewal, OldOrRenewal};
ghost use Rattle.file_journal.specs.declared.lock.LockKind.TheVariants.{Exclusive};
ghost use Rattle.table_folder.specs.Setups.{IsNewSetup, IsReadFrom};
ghost use Rattle.gz_table_drive.specs.Ended.{IsRenewed};
ghost use Rattle.gz_table_drive.specs.Log.{CannotRenew, HasGrown, HasRenewed, IsOf};

use crate::kept::Kept;
use crate::log::Tenures;
use crate::opening::no_holders;
use crate::tenure::{FileTable, begin_over, changing_table};
use durable_table::{Compacted, DurableTable, PerformError};
use file_journal::{FileDevice, FolderLock, LockKind};
use line_journal::{Device, DeviceError, Renewable};
use std::alloc::Global;
use std::env::Env;
use std::fs::File;
use std::io::Write;
use std::rt::Files;
use std::time::Clock;
use table_folder::{
    FolderSetup, Shared, TableFault, Teller, drop_next_setup, journal_fault, new_setup, read_setup,
    take_next_setup, write_next_setup,
};
use table_words::{Ending, Origin};

/// Writes the journal anew for the next setup, with its name, if the table of that is the same by names.
fn renew_table<D: Renewable + Drop>(
    alloc: Global,
    setup: &FolderSetup,
    next: &FolderSetup,
    table: &mut DurableTable<'_, D>,
) -> Result<Compacted, PerformError>
    requires stands { Stands D.content D.history setup.now.setup table.old.session.holders.held table.old.journal }
    requires of_setup { table.old.session.setup.now ≡ setup.now.setup }
    ensures done { result ≡ Ok Compacted.Done → IsRenewal next.now.name.items setup.now.setup table.old.session.holders.held next.now.setup (D.content table.new.journal.lines.device) }
    ensures needed { result ≡ Ok Compacted.Kept → CanBeRenewed next.now.name.items setup.now.setup table.old.session.holders.held next.now.setup → ⊥ }
    ensures any_moment { AlwaysLeaves (D.history table.old.journal.lines.device) (D.history table.new.journal.lines.device)
        (OldOrRenewal next.now.name.items setup.now.setup table.old.session.holders.held next.now.setup) }
{
    match no_holders(alloc, &next.setup) {
        Ok(fresh) => table.renew(alloc, &next.name, &next.setup, fresh),
        Err(_) => Err(PerformError::OutOfMemory),
    }
}

/// What lies beside the setup of the folder takes its place, if the journal is of it, and else is taken away.
fn place_next<R: Files<File = File> + Clock + AllocGlobal>(
    shared: &Shared<'_, R>,
    made: Compacted,
) -> Result<Compacted, TableFault>
    ensures { IfOk result (λ same. same ≡ made) }
{
    match made {
        Compacted::Done => take_next_setup(shared)?,
        Compacted::Kept => drop_next_setup(shared),
    }
    Ok(made)
}

/// Writes the journal of a table anew for the next setup, unless that of it would be another one by names. It is one tenure.
fn renew_journal<'r, R: Files<File = File> + Clock + AllocGlobal>(
    alloc: Global,
    setup: &FolderSetup,
    next: &FolderSetup,
    log: &mut Tenures,
    table: &mut FileTable<'_, &'r R>,
) -> Result<Compacted, TableFault>
    requires stands { Stands ⟦<FileDevice<&'r R> as Device>⟧.content ⟦<FileDevice<&'r R> as Device>⟧.history setup.now.setup table.old.session.holders.held table.old.journal }
    requires of_setup { table.old.session.setup.now ≡ setup.now.setup }
    requires of { IsOf setup.now (⟦<FileDevice<&'r R> as Device>⟧.content table.old.journal.lines.device) }
    ensures done { IfOk result (λ made. made ≡ Compacted.Done → HasRenewed setup.now next.now log.old log.new) }
    ensures kept { IfOk result (λ made. made ≡ Compacted.Kept → CannotRenew setup.now next.now log.old log.new) }
    ensures grown { HasGrown log.old log.new }
{
    begin_over(table.device(), log)?;
    let renewed = renew_table(alloc, setup, next, table);
    log.end(table.device().believed());
    match renewed {
        Ok(made) => Ok(made),
        Err(PerformError::Device(DeviceError::Failed)) => Err(journal_fault(
            table.device().fault(),
        )),
        Err(_) => Err(TableFault::OutOfMemory),
    }
}

/// The table of a folder gets the next setup, of these bytes, unless it would be another one by names. It is one tenure. The next
/// setup lies beside the folder's before the journal names it, and takes its place before the lock is given back.
fn renew_folder<R: Files<File = File> + Clock + AllocGlobal, E: Write>(
    shared: &Shared<'_, R>,
    setup: &FolderSetup,
    next: &FolderSetup,
    bytes: &[u8],
    log: &mut Tenures,
    lock: FolderLock,
    teller: &mut Teller<'_, E>,
) -> Result<Compacted, TableFault>
    requires { lock.kind ≡ Exclusive }
    ensures done { IfOk result (λ made. made ≡ Compacted.Done → HasRenewed setup.now next.now log.old log.new) }
    ensures kept { IfOk result (λ made. made ≡ Compacted.Kept → CannotRenew setup.now next.now log.old log.new) }
    ensures grown { HasGrown log.old log.new }
{
    let mut table = changing_table(shared, &mut Kept::new(setup), lock, teller)?;
    write_next_setup(shared, bytes)?;
    let made = renew_journal(shared.alloc(), setup, next, log, &mut table)?;
    place_next(shared, made)
}

/// The table of a folder gets another setup, which the words name: with the same modules and holders, by their names. If it
/// cannot, that is told, and nothing was changed.
pub(crate) fn renew<R: Files<File = File> + Env + Clock + AllocGlobal, E: Write>(
    shared: &Shared<'_, R>,
    log: &mut Tenures,
    origin: Origin<'_, '_>,
    teller: &mut Teller<'_, E>,
) -> Result<Ending, TableFault>
    ensures done { IfOk result (λ ending. ending ≡ Ending.Done) }
    ensures renewed { OnOk result (IsRenewed log.old log.new) }
    ensures grown { HasGrown log.old log.new }
{
    let setup = read_setup(shared)?;
    let bytes = new_setup(shared.rt, origin, teller)?;
    let next = setup.next(shared.alloc(), bytes.to_vec(shared.alloc())?)?;
    let lock = shared.with_setup(&setup).lock(LockKind::Exclusive)?;
    match renew_folder(shared, &setup, &next, &bytes, log, lock, teller)? {
        Compacted::Done => Ok(Ending::Done),
        Compacted::Kept => Err(teller.not_renewed(shared.folder)),
    }
}
