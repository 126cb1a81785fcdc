//! The folder of a table, and how a run uses it.

ghost use Rattle.std.specs.Prelude.{◌≡◌, ◌++◌, Some, codes, string_bytes, IfOk};

use crate::fault::TableFault;
use crate::folder_setup::FolderSetup;
use crate::mark::FileMark;
use file_journal::{FolderLock, FolderNames, LockKind, Syncs};
use std::alloc::{AllocError, Global};
use std::fs::{self, File};
use std::io::{self, ErrorKind};
use std::rt::Files;
use std::time::Clock;

/// What the table was made of.
pub(crate) const SETUP: &str = "setup";

/// What it is about to be made of.
pub(crate) const NEXT: &str = "setup.next";

/// What happened since.
pub(crate) const JOURNAL: &str = "journal";

/// The empty file that processes lock.
pub(crate) const LOCK: &str = "lock";

/// What was cut off behind the journal's lines.
pub(crate) const CUT: &str = "journal.cut";

/// A table's folder, as one process uses it.
#[derive(Clone, Copy)]
pub struct Shared<'a, R> {
    pub rt: &'a R,
    pub folder: &'a str,
    /// How many seconds another process is waited for.
    pub wait: u32,
    pub syncs: Syncs,
    /// Which setup was read, if one was.
    pub setup: Option<FileMark>,
}

impl<'a, R: Files<File = File> + Clock + AllocGlobal> Shared<'a, R> {
    /// What memory is taken from.
    pub fn alloc(&self) -> Global {
        self.rt.alloc()
    }

    /// The path of a file in the folder.
    pub(crate) fn path(&self, name: &str) -> Result<String, AllocError>
        ensures { IfOk result (λ path. string_bytes path ≡ self.now.folder.now ++ codes "/" ++ name.now) }
    {
        let folder = self.folder;
        format!(in self.rt.alloc(); "{folder}/{name}")
    }

    /// Whether the folder has a setup: it is written last, so there is a table then. Fails only out of memory.
    pub fn has_setup(&self) -> Result<bool, AllocError> {
        Ok(fs::metadata(self.rt, &self.path(SETUP)?).is_ok())
    }

    /// Brings the names in a folder to the disk, unless `syncs` leaves that out. Who may not list the folder cannot open it:
    /// then that is left to the system.
    pub(crate) fn sync_names(&self, folder: &str, syncs: Syncs) -> io::Result<()> {
        match FolderNames::open(self.rt, folder, syncs) {
            Ok(names) => names.sync(),
            Err(error) if error.kind() == ErrorKind::PermissionDenied => Ok(()),
            Err(error) => Err(error),
        }
    }

    /// The same folder, of which this setup was read.
    pub fn with_setup(&self, found: &FolderSetup) -> Shared<'a, R>
        ensures setup { result.setup ≡ Some found.now.mark }
        ensures folder { result.folder ≡ self.now.folder }
        ensures wait { result.wait ≡ self.now.wait }
        ensures syncs { result.syncs ≡ self.now.syncs }
    {
        Shared {
            rt: self.rt,
            folder: self.folder,
            wait: self.wait,
            syncs: self.syncs,
            setup: Some(found.mark),
        }
    }

    /// Whether a setup was read, and another one, or none, lies in the folder now. Fails only out of memory.
    fn is_anew(&self) -> Result<bool, AllocError> {
        let Some(read) = self.setup else {
            return Ok(false);
        };
        match fs::metadata(self.rt, &self.path(SETUP)?) {
            Ok(known) => Ok(FileMark::of(&known) != read),
            Err(_) => Ok(true),
        }
    }

    /// Takes the lock of the folder (flock(2)). Another process that has it is waited for, `wait` seconds at the most. `MadeAnew`
    /// if the setup that was read does not lie there then: the lock is given back.
    pub fn lock(&self, kind: LockKind) -> Result<FolderLock, TableFault>
        ensures { IfOk result (λ lock. lock.kind ≡ kind) }
    {
        let alloc = self.rt.alloc();
        let lock = FolderLock::acquire(self.rt, alloc, self.folder, kind, self.wait)?;
        if self.is_anew()? {
            lock.release();
            return Err(TableFault::MadeAnew);
        }
        Ok(lock)
    }
}
