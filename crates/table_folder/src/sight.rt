//! What a journal read as, as clauses see it.
ghost use Rattle.std.specs.Prelude.{◌≡◌, IfOk};

use crate::fault::{TableFault, journal_fault};
use file_journal::{FileDevice, FolderLock};
use line_journal::Device;
use std::rt::Files;
use std::snapshot::Snapshot;

/// The bytes of a folder's journal, as they were read under the folder's lock. Only clauses read it, and nothing but a journal
/// that was read makes one.
#[derive(Drop)]
pub struct Sight {
    bytes: Snapshot<Vec<u8>>,
}

impl Sight {
    /// Of a journal whose device has the lock. Without the lock, or if a call has failed since the file was read, it fails.
    pub fn of<R: Files + Drop>(device: &FileDevice<R>) -> Result<Sight, TableFault>
        ensures { IfOk result (λ sight. sight.bytes.value.items ≡ ⟦<FileDevice<R> as Device>⟧.content device.now) }
    {
        match device.seen() {
            Ok(bytes) => Ok(Sight { bytes }),
            Err(fault) => Err(journal_fault(Some(fault))),
        }
    }

    /// Of a copy that was read.
    pub(crate) fn of_copy(bytes: &Vec<u8>, _lock: &FolderLock) -> Sight
        ensures { result.bytes.value ≡ bytes.now }
    {
        Sight {
            bytes: Snapshot::of(bytes),
        }
    }
}
