//! What is damaged behind a journal's lines is cut off.
ghost use Rattle.std.specs.Prelude.{◌≡◌, ◌≢◌, ◌⊎◌, [], ◌∷◌, Some, false, IfOk, IfSome, IfNone, OnOk};
ghost use Rattle.line_journal.specs.Device.{AlwaysLeaves};
ghost use Rattle.line_journal.specs.Journal.{IsFound};
ghost use Rattle.line_journal.specs.Lines.{lines_of, at_rest, StandsFor};
ghost use Rattle.durable_table.specs.Tables.{table_of};
ghost use Rattle.durable_table.specs.Durable.{Stands};
ghost use Rattle.file_journal.specs.declared.lock.LockKind.TheVariants.{Exclusive};
ghost use Rattle.gz_table_drive.specs.Log.{HasGrown, HasRepaired, HasRepairedOf, IsOf};

use crate::log::Tenures;
use crate::opening::{OpenFault, no_holders};
use crate::tenure::{begin_over, unopened};
use durable_table::{DurableTable, OpenedTable, open};
use file_journal::{FileDevice, FolderLock, LockKind};
use line_journal::{Device, Found, KillOnly, Repair};
use std::alloc::Global;
use std::fs::File;
use std::io::Write;
use std::rt::Files;
use std::time::Clock;
use table_folder::{
    FolderSetup, Shared, TableFault, Teller, bytes_of, damage_of, found_in, keep_cut, open_journal,
    read_setup,
};

/// A table whose journal is at rest again, and what stood in the journal before.
#[derive(Drop)]
struct Repaired<'s, D: Device + Drop> {
    table: DurableTable<'s, D>,
    found: Found,
}

/// What was found in a journal, unless it is at rest: then nothing is to be cut off.
fn damage_in(found: Found) -> Option<Found>
    ensures same { IfSome result (λ damage. damage ≡ found) }
    ensures damaged { IfSome result (λ damage. damage.behind.items ≢ 32 ∷ []) }
    ensures sound { IfNone result (found.behind.items ≡ 32 ∷ []) }
{
    if found.is_at_rest() {
        None
    } else {
        Some(found)
    }
}

/// The table that the lines of a journal of this setup stand for. What stands behind them is cut off, however much it is.
///
/// A crash at any moment leaves the same lines, or what it might have left before.
fn repair_table<'s, D: Device + Drop>(
    alloc: Global,
    setup: &'s FolderSetup,
    device: D,
) -> Result<Repaired<'s, D>, OpenFault<D>>
    ensures stands { IfOk result (λ r. Stands D.content D.history setup.now.setup r.table.session.holders.held r.table.journal) }
    ensures same { IfOk result (λ r. table_of setup.now.setup (D.content device) ≡ Some r.table.session.holders.held) }
    ensures of { OnOk result (IsOf setup.now (D.content device)) }
    ensures lines { IfOk result (λ r. lines_of (D.content r.table.journal.lines.device) ≡ lines_of (D.content device)) }
    ensures found { IfOk result (λ r. IsFound (D.content device) r.found) }
    ensures setup { IfOk result (λ r. r.table.session.setup.now ≡ setup.now.setup) }
    ensures any_moment { IfOk result (λ r. AlwaysLeaves (D.history device) (D.history r.table.journal.lines.device)
        (λ file. StandsFor (lines_of (D.content device)) file ⊎ (D.history device).leaves file)) }
{
    let holders = no_holders(alloc, &setup.setup)?;
    match open(
        alloc,
        &setup.setup,
        &setup.name,
        holders,
        device,
        Repair::Cut,
    ) {
        Ok(OpenedTable::Ready(table, found)) => Ok(Repaired { table, found }),
        Ok(OpenedTable::Foreign(_)) => Err(OpenFault::Foreign),
        Ok(OpenedTable::Other(_)) => Err(OpenFault::Other),
        Ok(OpenedTable::Changed(_, line)) => Err(OpenFault::Changed(line)),
        Ok(OpenedTable::Damaged(_, found)) => Err(OpenFault::Damaged(damage_of(&found))),
        Err((error, device)) => Err(OpenFault::Device(error, device)),
    }
}

/// Refuses the bytes of a journal of which no table of this setup can be made.
fn try_copy(alloc: Global, setup: &FolderSetup, bytes: Vec<u8>) -> Result<(), TableFault>
    ensures { OnOk result (IsOf setup.now bytes.items) }
{
    match repair_table(alloc, setup, KillOnly::new(alloc, bytes)) {
        Ok(_) => Ok(()),
        Err(OpenFault::Foreign) => Err(TableFault::Foreign),
        Err(OpenFault::Other) => Err(TableFault::Other),
        Err(OpenFault::Changed(line)) => Err(TableFault::Changed(line)),
        Err(_) => Err(TableFault::OutOfMemory),
    }
}

/// Keeps in `journal.cut` what stands behind the lines of a journal of this setup. Whether anything does that is to be cut off: if
/// not, the journal is at rest.
fn keep_damage<'r, R: Files<File = File> + Clock + AllocGlobal>(
    shared: &Shared<'r, R>,
    setup: &FolderSetup,
    device: &mut FileDevice<&'r R>,
) -> Result<bool, TableFault>
    ensures of { OnOk result (IsOf setup.now (⟦<FileDevice<&'r R> as Device>⟧.content device.old)) }
    ensures sound { IfOk result (λ damaged. damaged ≡ false → ⟦<FileDevice<&'r R> as Device>⟧.content device.new ≡ at_rest (lines_of (⟦<FileDevice<&'r R> as Device>⟧.content device.old))) }
    ensures content { OnOk result (⟦<FileDevice<&'r R> as Device>⟧.content device.new ≡ ⟦<FileDevice<&'r R> as Device>⟧.content device.old) }
{
    let alloc = shared.alloc();
    let bytes = bytes_of(alloc, device)?;
    try_copy(alloc, setup, bytes)?;
    let Some(damage) = damage_in(found_in(alloc, device)?) else {
        return Ok(false);
    };
    keep_cut(shared, &damage.behind)?;
    Ok(true)
}

/// The device of a journal of this setup, behind whose lines nothing stands any more. It is kept in `journal.cut` first, and it
/// is told how many lines it has.
fn repaired_device<'r, R: Files<File = File> + Clock + AllocGlobal, E: Write>(
    shared: &Shared<'r, R>,
    setup: &FolderSetup,
    mut device: FileDevice<&'r R>,
    teller: &mut Teller<'_, E>,
) -> Result<FileDevice<&'r R>, TableFault>
    ensures of { OnOk result (IsOf setup.now (⟦<FileDevice<&'r R> as Device>⟧.content device.entry)) }
    ensures left { IfOk result (λ left. ⟦<FileDevice<&'r R> as Device>⟧.content left ≡ at_rest (lines_of (⟦<FileDevice<&'r R> as Device>⟧.content device.entry))) }
{
    if !keep_damage(shared, setup, &mut device)? {
        return Ok(device);
    }
    match repair_table(shared.alloc(), setup, device) {
        Ok(repaired) => {
            teller.repaired(shared.folder, &repaired.found);
            Ok(repaired.table.into_device())
        }
        Err(fault) => Err(unopened(fault)),
    }
}

/// Cuts off what stands behind the lines of a journal, if anything does, in one tenure. The journal is at rest then.
fn repair_journal<R: Files<File = File> + Clock + AllocGlobal, E: Write>(
    shared: &Shared<'_, R>,
    setup: &FolderSetup,
    log: &mut Tenures,
    lock: FolderLock,
    teller: &mut Teller<'_, E>,
) -> Result<(), TableFault>
    requires { lock.kind ≡ Exclusive }
    ensures repaired { OnOk result (HasRepairedOf setup.now log.old log.new) }
    ensures grown { HasGrown log.old log.new }
{
    let device = open_journal(shared, lock)?;
    begin_over(&device, log)?;
    let repaired = repaired_device(shared, setup, device, teller)?;
    log.end(repaired.believed());
    Ok(())
}

/// Brings the journal of a folder back to the lines before what is damaged.
pub(crate) fn repair<R: Files<File = File> + Clock + AllocGlobal, E: Write>(
    shared: &Shared<'_, R>,
    log: &mut Tenures,
    teller: &mut Teller<'_, E>,
) -> Result<(), TableFault>
    ensures repaired { OnOk result (HasRepaired log.old log.new) }
    ensures grown { HasGrown log.old log.new }
{
    let setup = read_setup(shared)?;
    let lock = shared.with_setup(&setup).lock(LockKind::Exclusive)?;
    repair_journal(shared, &setup, log, lock, teller)
}
