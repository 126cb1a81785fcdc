//! The file of a folder's journal, and what stands in it.
ghost use Rattle.std.specs.Prelude.{◌≡◌, ◌⊎◌, ◌+◌, ◌<◌, ◌^◌, None, Some, IfOk, IfErr, OnOk, length};
ghost use Rattle.file_journal.specs.Belief.{history_of, MayBeAnything};
ghost use Rattle.line_journal.specs.Device.{Goes, Unchanged};
ghost use Rattle.line_journal.specs.Journal.{IsFound};
ghost use Rattle.line_journal.specs.Lines.{open_gates};
ghost use Rattle.table_folder.specs.Faults.{fault_of_file};
ghost use Rattle.table_folder.specs.declared.fault.TableFault.TheVariants.{OutOfMemory};

use crate::fault::{Damage, TableFault, journal_fault};
use crate::rights::create_file;
use crate::shared::{JOURNAL, Shared};
use file_journal::{Action, FileDevice, FileFault, FolderLock, OpenError, Target, Unopened};
use line_journal::{Device, DeviceError, Found, peek};
use std::alloc::Global;
use std::fs::File;
use std::io::ErrorKind;
use std::rt::Files;
use std::time::Clock;

/// Opens the file of the folder's journal, which has to be there, under the folder's lock, and reads it. Nothing is known of what
/// a crash leaves of it.
pub fn open_journal<'r, R: Files<File = File> + Clock + AllocGlobal>(
    shared: &Shared<'r, R>,
    lock: FolderLock,
) -> Result<FileDevice<&'r R>, Unopened>
    ensures unknown { IfOk result (λ device. MayBeAnything (history_of device.belief)) }
    ensures no_fault { IfOk result (λ device. device.fault ≡ None) }
    ensures lock { IfOk result (λ device. device.lock ≡ Some lock) }
    ensures syncs { IfOk result (λ device. device.disk.syncs ≡ shared.now.syncs) }
    ensures handed_back { IfErr result (λ unopened. unopened.lock ≡ lock) }
{
    FileDevice::open(
        shared.rt,
        shared.alloc(),
        lock,
        shared.folder,
        JOURNAL,
        shared.syncs,
    )
}

/// The file of a new table's journal: an empty one, for those who may use a folder of this mode, or, if there is a journal, that
/// one as it is. A `create` may have left it that did not come to its end.
pub fn make_journal<'r, R: Files<File = File> + Clock + AllocGlobal>(
    shared: &Shared<'r, R>,
    lock: FolderLock,
    mode: u32,
) -> Result<FileDevice<&'r R>, TableFault>
    ensures unknown { IfOk result (λ device. MayBeAnything (history_of device.belief)) }
    ensures no_fault { IfOk result (λ device. device.fault ≡ None) }
    ensures lock { IfOk result (λ device. device.lock ≡ Some lock) }
    ensures syncs { IfOk result (λ device. device.disk.syncs ≡ shared.now.syncs) }
{
    match create_file(shared.rt, &shared.path(JOURNAL)?, mode) {
        Err(error) if error.kind() != ErrorKind::AlreadyExists => {
            let fault = FileFault::of(Action::Create, Target::Journal, &error);
            Err(TableFault::from(OpenError::from(fault)))
        }
        _ => Ok(open_journal(shared, lock)?),
    }
}

/// All bytes of a journal's file, read once more. At an error there was no memory, or the fault is that of the device.
pub fn bytes_of<R: Files + Drop>(
    alloc: Global,
    device: &mut FileDevice<R>,
) -> Result<Vec<u8>, TableFault>
    ensures bytes { IfOk result (λ bytes. bytes.items ≡ ⟦<FileDevice<R> as Device>⟧.content device.old) }
    ensures fault { IfErr result (λ fault. fault ≡ OutOfMemory ⊎ fault ≡ fault_of_file device.new.fault) }
    ensures content { ⟦<FileDevice<R> as Device>⟧.content device.new ≡ ⟦<FileDevice<R> as Device>⟧.content device.old }
    ensures writes { ⟦<FileDevice<R> as Device>⟧.writes device.new ≡ ⟦<FileDevice<R> as Device>⟧.writes device.old }
    ensures crash { Goes Unchanged (⟦<FileDevice<R> as Device>⟧.history device.old) (⟦<FileDevice<R> as Device>⟧.history device.new) }
{
    match device.read_from(alloc, 0) {
        Ok(bytes) => Ok(bytes),
        Err(DeviceError::OutOfMemory) => Err(TableFault::OutOfMemory),
        Err(DeviceError::Failed) => Err(journal_fault(device.fault())),
    }
}

/// What stands in the file of a journal. Nothing is written, and nothing is waited for. At an error the file was not read:
/// there was no memory, or its fault is that of the device.
pub fn found_in<R: Files + Drop>(
    alloc: Global,
    device: &mut FileDevice<R>,
) -> Result<Found, TableFault>
    ensures found { IfOk result (IsFound (⟦<FileDevice<R> as Device>⟧.content device.old)) }
    ensures fits { OnOk result (length (⟦<FileDevice<R> as Device>⟧.content device.old) < 2 ^ 64) }
    ensures fault { IfErr result (λ fault. fault ≡ OutOfMemory ⊎ fault ≡ fault_of_file device.new.fault) }
    ensures content { ⟦<FileDevice<R> as Device>⟧.content device.new ≡ ⟦<FileDevice<R> as Device>⟧.content device.old }
    ensures writes { ⟦<FileDevice<R> as Device>⟧.writes device.new ≡ ⟦<FileDevice<R> as Device>⟧.writes device.old }
    ensures crash { Goes Unchanged (⟦<FileDevice<R> as Device>⟧.history device.old) (⟦<FileDevice<R> as Device>⟧.history device.new) }
{
    match peek(alloc, device) {
        Ok(found) => Ok(found),
        Err(DeviceError::OutOfMemory) => Err(TableFault::OutOfMemory),
        Err(DeviceError::Failed) => Err(journal_fault(device.fault())),
    }
}

/// The damage of a journal in which this was found: the line behind its lines, from 1, and how many lines with open gates
/// stand there.
pub fn damage_of(found: &Found) -> Damage
    ensures line { result.line ≡ length found.now.lines.items + 1 }
    ensures lost { result.lost ≡ open_gates found.now.behind.items }
{
    Damage {
        line: found.lines.len() + 1,
        lost: found.open_gates_behind(),
    }
}
