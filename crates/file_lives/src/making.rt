//! How the file of a new journal is made.
ghost use Rattle.std.specs.Prelude.{◌≡◌, Some, IfOk};
ghost use Rattle.modprobe.specs.Setup.{Setup as AnySetup};
ghost use Rattle.line_journal.specs.Device.{IsOnDisk};
ghost use Rattle.durable_table.specs.Tables.{opening_of, table_of};
ghost use Rattle.file_journal.specs.Belief.{history_of};
ghost use Rattle.file_journal.specs.declared.disk_file.Syncs.TheVariants.{Kept};

use durable_table::{NO_NAME, create};
use file_journal::{Action, FileDevice, FileFault, FolderLock, OpenError, Syncs, Target};
use std::alloc::Global;
use std::fs::File;
use std::rt::Files;

/// Makes an empty file `journal` in a folder, which must not be there, and opens it under the folder's lock.
fn open_new_file<R: Files + Drop>(
    rt: R,
    alloc: Global,
    lock: FolderLock,
    folder: &str,
) -> Result<FileDevice<R>, OpenError>
    ensures { IfOk result (λ device. device.disk.syncs ≡ Kept) }
{
    let path = format!(in alloc; "{folder}/journal")?;
    let made = File::create_new(&rt, path.as_str());
    made.map_err(|error| FileFault::of(Action::Create, Target::Journal, &error))?;
    let opened = FileDevice::open(rt, alloc, lock, folder, "journal", Syncs::Kept);
    opened.map_err(|unopened| unopened.error)
}

/// Makes the journal of a new table as the file `journal` of a folder, which must not be there. An error: it was not made. An
/// empty file may be there then.
pub(crate) fn make_journal<R: Files + Drop>(
    rt: R,
    alloc: Global,
    lock: FolderLock,
    folder: &str,
) -> Result<FileDevice<R>, OpenError>
    ensures opens { IfOk result (λ device. (s : AnySetup) → table_of s device.belief.bytes.items ≡ Some (opening_of s)) }
    ensures on_disk { IfOk result (λ device. IsOnDisk device.belief.bytes.items (history_of device.belief)) }
{
    let mut device = open_new_file(rt, alloc, lock, folder)?;
    match create(alloc, &mut device, NO_NAME) {
        Ok(()) => Ok(device),
        Err(_) => match device.fault() {
            Some(fault) => Err(OpenError::Failed(fault)),
            None => Err(OpenError::OutOfMemory),
        },
    }
}
