//! The names in a folder, and how they come to the disk.
ghost use Rattle.std.specs.Prelude.{◌≡◌, IfOk};

use crate::disk_file::Syncs;
use std::fs::{self, OpenFile};
use std::io;
use std::rt::Files;

/// The names in a folder, which fsync(2) of the folder brings to the disk.
#[derive(Drop)]
pub struct FolderNames<F: Drop> {
    /// None if nothing is waited for.
    folder: Option<F>,
    syncs: Syncs,
}

impl<F: OpenFile + Drop> FolderNames<F> {
    /// Opens the folder, unless `syncs` leaves out that its names are waited for. PermissionDenied for who may not list it.
    pub fn open<R: Files<File = F>>(rt: &R, folder: &str, syncs: Syncs) -> io::Result<Self>
        ensures { IfOk result (λ names. names.syncs ≡ syncs) }
    {
        Ok(FolderNames {
            folder: match syncs {
                Syncs::Kept => Some(fs::open(rt, folder)?),
                Syncs::LeftOut => None,
            },
            syncs,
        })
    }

    /// Whether they are waited for.
    pub(crate) fn syncs(&self) -> Syncs
        ensures { result ≡ self.now.syncs }
    {
        self.syncs
    }

    /// Waits until the names that are there now are on the disk.
    pub fn sync(&self) -> io::Result<()> {
        match &self.folder {
            Some(folder) => folder.sync_all(),
            None => Ok(()),
        }
    }
}
