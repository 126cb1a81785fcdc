//! How a table is read from its folder.
ghost use Rattle.std.specs.Prelude.{◌≡◌, ◌⊎◌, Some, IfOk, OnOk};
ghost use Rattle.line_journal.specs.Device.{AlwaysLeaves};
ghost use Rattle.line_journal.specs.Lines.{lines_of, StandsFor};
ghost use Rattle.dep_index.specs.Catalogue.{modules_of};
ghost use Rattle.durable_table.specs.Tables.{opening_of, table_of};
ghost use Rattle.durable_table.specs.Durable.{Stands};
ghost use Rattle.durable_table.specs.Opened.{IsTableRead};
ghost use Rattle.gz_table_drive.specs.Log.{IsOf};

use crate::answering::GROUP;
use durable_table::{DurableTable, OpenedTable, ReadTable, open, open_reading};
use file_journal::{Cause, FileDevice};
use held_table::HeldTable;
use line_journal::{Device, DeviceError, Repair};
use modprobe::Setup;
use std::alloc::{AllocError, Global};
use std::fs::File;
use std::io::Write;
use std::rt::Files;
use std::time::Clock;
use table_folder::{
    Damage, FolderSetup, Shared, TableFault, Teller, damage_of, found_in, keep_cut,
};

/// How many lines with open gates a crash leaves behind the journal's lines, at the most. More are damage.
const TORN: usize = GROUP - 1;

/// A table was not opened. The device is handed back.
#[derive(Drop)]
pub(crate) enum OpenFault<D> {
    Device(DeviceError, D),
    OutOfMemory,
    Foreign,
    Other,
    Changed(usize),
    Damaged(Damage),
}

impl<D> From<AllocError> for OpenFault<D> {
    ghost use Rattle.std.specs.Prelude.{◌≡◌};
    ghost use Rattle.gz_table_drive.specs.declared.opening.OpenFault.TheVariants.{OutOfMemory};

    ghost from_gives = { λ _ fault. fault ≡ OutOfMemory };

    fn from(_: AllocError) -> OpenFault<D> {
        OpenFault::OutOfMemory
    }
}

/// Holders of a setup, of which none is there yet.
pub(crate) fn no_holders(alloc: Global, setup: &Setup) -> Result<HeldTable, AllocError>
    ensures over { IfOk result (λ t. t.catalogue ≡ modules_of setup.now.catalogue) }
    ensures opening { IfOk result (λ t. t.held ≡ opening_of setup.now) }
{
    HeldTable::new(alloc, setup.catalogue().slots(alloc)?)
}

/// The table that a journal of this setup stands for.
pub(crate) fn open_table<'s, D: Device + Drop>(
    alloc: Global,
    setup: &'s FolderSetup,
    device: D,
) -> Result<DurableTable<'s, D>, OpenFault<D>>
    ensures stands { IfOk result (λ t. Stands D.content D.history setup.now.setup t.session.holders.held t.journal) }
    ensures same { IfOk result (λ t. table_of setup.now.setup (D.content device) ≡ Some t.session.holders.held) }
    ensures of { OnOk result (IsOf setup.now (D.content device)) }
    ensures lines { IfOk result (λ t. lines_of (D.content t.journal.lines.device) ≡ lines_of (D.content device)) }
    ensures setup { IfOk result (λ t. t.session.setup.now ≡ setup.now.setup) }
    ensures any_moment { IfOk result (λ t. AlwaysLeaves (D.history device) (D.history t.journal.lines.device)
        (λ file. StandsFor (lines_of (D.content device)) file ⊎ (D.history device).leaves file)) }
{
    let holders = no_holders(alloc, &setup.setup)?;
    match open(
        alloc,
        &setup.setup,
        &setup.name,
        holders,
        device,
        Repair::CutAtMost(TORN),
    ) {
        Ok(OpenedTable::Ready(table, _)) => Ok(table),
        Ok(OpenedTable::Foreign(_)) => Err(OpenFault::Foreign),
        Ok(OpenedTable::Other(_)) => Err(OpenFault::Other),
        Ok(OpenedTable::Changed(_, line)) => Err(OpenFault::Changed(line)),
        Ok(OpenedTable::Damaged(_, found)) => Err(OpenFault::Damaged(damage_of(&found))),
        Err((error, device)) => Err(OpenFault::Device(error, device)),
    }
}

/// The table that a journal reads as, if it is whole and at rest, and of this setup.
pub(crate) fn read_table<'s, D: Device + Drop>(
    alloc: Global,
    setup: &'s FolderSetup,
    device: D,
) -> Result<ReadTable<'s, D>, OpenFault<D>>
    ensures read { IfOk result (IsTableRead D.content setup.now.setup setup.now.name.items (D.content device)) }
{
    let fresh = no_holders(alloc, &setup.setup)?;
    match open_reading(alloc, &setup.setup, &setup.name, fresh, device) {
        Ok(table) => Ok(table),
        Err((error, device)) => Err(OpenFault::Device(error, device)),
    }
}

/// Keeps what stands behind the journal's lines, if it is about to be cut off, and tells it. Where the disk is full it is cut off
/// all the same, unless gates are open in it: it has no reply, and as long as it stands there nothing can be given back.
pub(crate) fn keep_torn<R: Files<File = File> + Clock + AllocGlobal, E: Write>(
    shared: &Shared<'_, R>,
    device: &mut FileDevice<&R>,
    teller: &mut Teller<'_, E>,
) -> Result<(), TableFault> {
    let found = found_in(shared.alloc(), device)?;
    if found.is_at_rest() || found.behind.is_empty() || found.open_gates_behind() > TORN {
        return Ok(());
    }
    match keep_cut(shared, &found.behind) {
        Ok(()) => teller.cut(shared.folder, found.behind.len()),
        Err(TableFault::Unwritten(_, Cause::Full)) if found.open_gates_behind() == 0 => {
            teller.cut_unkept(shared.folder, found.behind.len());
        }
        Err(fault) => return Err(fault),
    }
    Ok(())
}
