//! The table of a folder is brought to the modules that a kernel has, as a file lists them.
ghost use Rattle.std.specs.Prelude.{◌≡◌, OnOk, IfOk};
ghost use Rattle.durable_table.specs.Durable.{Stands};
ghost use Rattle.gz_table_drive.specs.Adopting.{AdoptsListing, HasAdopted, adopting_lines};
ghost use Rattle.gz_table_drive.specs.Log.{HasGrown, HasMade, IsOf, LeavesAfter, LeavesOf};

use crate::adopting::{AdoptError, adopt_modules};
use crate::answering::Replies;
use crate::kept::Kept;
use crate::log::Tenures;
use crate::tenure::{FileTable, begin_over, changing_table, cut_unwritten};
use file_journal::{FileDevice, LockKind};
use line_journal::{Device, DeviceError};
use std::alloc::Global;
use std::fs::File;
use std::io::{Read, Write};
use std::rt::Files;
use std::time::Clock;
use table_adopt::KernelModule;
use table_folder::{
    FolderSetup, Shared, TableFault, Teller, journal_fault, listed_text, listing_of, modules_of,
    read_setup,
};

/// Brings the table of a journal's file of this setup to these modules.
fn adopt_file<R: Files + Drop>(
    alloc: Global,
    setup: &FolderSetup,
    table: &mut FileTable<'_, R>,
    kernel: &[KernelModule],
    replies: &mut Replies,
) -> Result<(), TableFault>
    requires stands { Stands ⟦<FileDevice<R> as Device>⟧.content ⟦<FileDevice<R> as Device>⟧.history table.old.session.setup.now table.old.session.holders.held table.old.journal }
    requires of { IsOf setup.now (⟦<FileDevice<R> as Device>⟧.content table.old.journal.lines.device) }
    ensures adopted { OnOk result (HasAdopted table.old.session.setup.now table.old.session.holders.held kernel.now replies.old replies.new) }
    ensures left { OnOk result (LeavesAfter table.old.session.setup.now table.old.session.holders.held
        (adopting_lines table.old.session.setup.now table.old.session.holders.held kernel.now) table.new.journal.lines.device.belief) }
    ensures left_of { LeavesOf setup.now table.new.journal.lines.device.belief }
{
    match adopt_modules(alloc, table, kernel, replies) {
        Ok(()) => Ok(()),
        Err(AdoptError::BadName) => Err(TableFault::CutSetup),
        Err(AdoptError::Device(DeviceError::Failed)) => Err(journal_fault(table.device().fault())),
        Err(_) => Err(TableFault::OutOfMemory),
    }
}

/// As `adopt_file`, in a tenure that is noted.
fn adopt_noted<R: Files + Drop>(
    alloc: Global,
    setup: &FolderSetup,
    log: &mut Tenures,
    table: &mut FileTable<'_, R>,
    kernel: &[KernelModule],
    replies: &mut Replies,
) -> Result<(), TableFault>
    requires of_setup { table.old.session.setup.now ≡ setup.now.setup }
    requires stands { Stands ⟦<FileDevice<R> as Device>⟧.content ⟦<FileDevice<R> as Device>⟧.history setup.now.setup table.old.session.holders.held table.old.journal }
    requires of { IsOf setup.now (⟦<FileDevice<R> as Device>⟧.content table.old.journal.lines.device) }
    ensures adopted { OnOk result (HasAdopted setup.now.setup table.old.session.holders.held kernel.now replies.old replies.new) }
    ensures made { OnOk result (HasMade setup.now table.old.session.holders.held
        (adopting_lines setup.now.setup table.old.session.holders.held kernel.now) log.old log.new) }
    ensures grown { HasGrown log.old log.new }
{
    begin_over(table.device(), log)?;
    let adopted = adopt_file(alloc, setup, table, kernel, replies);
    log.end(table.device().believed());
    adopted
}

/// As `adopt_noted`, and what a full disk took of that is cut off again.
fn adopt_into<'r, R: Files<File = File> + Clock + AllocGlobal>(
    shared: &Shared<'r, R>,
    setup: &FolderSetup,
    log: &mut Tenures,
    mut table: FileTable<'_, &'r R>,
    kernel: &[KernelModule],
    replies: &mut Replies,
) -> Result<(), TableFault>
    requires of_setup { table.session.setup.now ≡ setup.now.setup }
    requires stands { Stands ⟦<FileDevice<&'r R> as Device>⟧.content ⟦<FileDevice<&'r R> as Device>⟧.history setup.now.setup table.session.holders.held table.journal }
    requires of { IsOf setup.now (⟦<FileDevice<&'r R> as Device>⟧.content table.journal.lines.device) }
    ensures adopted { OnOk result (HasAdopted setup.now.setup table.entry.session.holders.held kernel.now replies.old replies.new) }
    ensures made { OnOk result (HasMade setup.now table.entry.session.holders.held
        (adopting_lines setup.now.setup table.entry.session.holders.held kernel.now) log.old log.new) }
    ensures grown { HasGrown log.old log.new }
{
    let adopted = adopt_noted(shared.alloc(), setup, log, &mut table, kernel, replies);
    if let Err(fault) = &adopted {
        cut_unwritten(shared, setup, fault, table.into_device());
    }
    adopted
}

/// Brings the table of a folder to the modules that a file lists. What is not done is answered, a line each. The file is
/// read while the table is locked, and standard input before.
pub(crate) fn adopt<R: Files<File = File> + Clock + AllocGlobal, I: Read, E: Write>(
    shared: &Shared<'_, R>,
    log: &mut Tenures,
    file: &[u8],
    input: &mut I,
    teller: &mut Teller<'_, E>,
) -> Result<Replies, TableFault>
    ensures adopted { IfOk result (AdoptsListing file.now (I.remaining input.old) log.old log.new) }
    ensures grown { HasGrown log.old log.new }
{
    let alloc = shared.alloc();
    let setup = read_setup(shared)?;
    let listing = listing_of(alloc, file, input, teller)?;
    let lock = shared.with_setup(&setup).lock(LockKind::Exclusive)?;
    let text = listed_text(shared.rt, listing, teller)?;
    let kernel = modules_of(alloc, &text, teller)?;
    let table = changing_table(shared, &mut Kept::new(&setup), lock, teller)?;
    let mut replies = Replies::new(alloc);
    adopt_into(shared, &setup, log, table, &kernel, &mut replies)?;
    Ok(replies)
}
