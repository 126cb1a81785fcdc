ghost use Rattle.std.specs.Prelude.{◌≡◌, ◌+◌, ◌≤◌, length, IfOk, OnOk};
ghost use Rattle.line_journal.specs.Device.{Unchanged, UnchangedOr, IsOnDisk, Goes};
ghost use Rattle.file_journal.specs.Belief.{history_of, IsLooked, IsOpenedAgain, IsReplaced};
ghost use Rattle.file_journal.specs.Calls.{IsSynced};
ghost use Rattle.file_journal.specs.Counts.{looks_of, writes_of};
ghost use Rattle.file_journal.specs.Renewed.{IsRenewedTo};
ghost use Rattle.file_journal.specs.declared.lock.LockKind.TheVariants.{Exclusive};

use crate::belief::Belief;
use crate::fault::{Action, Cause, FileFault, Target};
use crate::folder_names::FolderNames;
use crate::lock::FolderLock;
use crate::new_file::{NewFile, not_written};
use line_journal::Renewed;
use std::alloc::{AllocError, Global};
use std::fs::{self, File, OpenFile};
use std::os::unix::fs::MetadataExt;
use std::rt::Files;

/// Whether what was written is waited for until it is on the disk.
#[derive(Clone, Copy, Debug, PartialEq, Eq)]
pub enum Syncs {
    /// By fsync(2), so that a crash of the machine loses nothing.
    Kept,
    /// Nothing is waited for, but a new file before it takes the place of another. Only while the machine goes on is nothing
    /// lost.
    LeftOut,
}

/// The path of a file in a folder.
pub(crate) fn path_in(
    alloc: Global,
    folder: &str,
    name: &str,
    ending: &str,
) -> Result<String, AllocError> {
    format!(in alloc; "{folder}/{name}{ending}")
}

/// Where a journal stands.
#[derive(Drop)]
pub(crate) struct Paths {
    folder: String,
    pub(crate) journal: String,
    /// The file that is to take its place.
    pub(crate) new_journal: String,
}

impl Paths {
    pub(crate) fn new(alloc: Global, folder: &str, name: &str) -> Result<Self, AllocError> {
        Ok(Paths {
            folder: format!(in alloc; "{folder}")?,
            journal: path_in(alloc, folder, name, "")?,
            new_journal: path_in(alloc, folder, name, ".new")?,
        })
    }
}

/// The names in the folder of a journal.
fn open_names<R: Files>(
    rt: &R,
    paths: &Paths,
    syncs: Syncs,
) -> Result<FolderNames<R::File>, FileFault>
    ensures { IfOk result (λ names. names.syncs ≡ syncs) }
{
    let opened = FolderNames::open(rt, paths.folder.as_str(), syncs);
    opened.map_err(|error| FileFault::of(Action::Open, Target::Folder, &error))
}

/// Opens a journal's file, to read and to write.
pub(crate) fn open_file<R: Files>(rt: &R, path: &str) -> Result<R::File, FileFault> {
    let opened = File::options().read(true).write(true).open(rt, path);
    let file = opened.map_err(|error| FileFault::of(Action::Open, Target::Journal, &error))?;
    let known = file.metadata();
    let known = known.map_err(|error| FileFault::of(Action::Open, Target::Journal, &error))?;
    if known.is_file() {
        Ok(file)
    } else {
        Err(FileFault {
            action: Action::Open,
            target: Target::Journal,
            cause: Cause::NoFile,
        })
    }
}

/// Whether a file that was opened is this one.
pub(crate) fn is_same_file<F: OpenFile>(opened: &F, file: &F) -> Result<bool, FileFault> {
    let opened = opened.metadata();
    let opened = opened.map_err(|error| FileFault::of(Action::Open, Target::Journal, &error))?;
    let known = file.metadata();
    let known = known.map_err(|error| FileFault::of(Action::Open, Target::Journal, &error))?;
    Ok(opened.dev() == known.dev() && opened.ino() == known.ino())
}

/// A journal's file in its folder.
#[derive(Drop)]
pub(crate) struct DiskFile<R: Files + Drop> {
    rt: R,
    pub(crate) file: R::File,
    paths: Paths,
    pub(crate) syncs: Syncs,
}

impl<R: Files + Drop> DiskFile<R> {
    /// Opens the file that is there, to read and to write.
    pub(crate) fn open(rt: R, paths: Paths, syncs: Syncs) -> Result<Self, FileFault>
        ensures { IfOk result (λ disk. disk.syncs ≡ syncs) }
    {
        let file = open_file(&rt, paths.journal.as_str())?;
        Ok(DiskFile {
            rt,
            file,
            paths,
            syncs,
        })
    }

    /// Whether the file that has the journal's path now is this one, and has so many bytes or more.
    fn is_there(&self, least: usize) -> Result<bool, FileFault> {
        let there = fs::metadata(&self.rt, self.paths.journal.as_str());
        let there = there.map_err(|error| FileFault::of(Action::Open, Target::Journal, &error))?;
        let known = self.file.metadata();
        let known = known.map_err(|error| FileFault::of(Action::Open, Target::Journal, &error))?;
        let is_same = there.dev() == known.dev() && there.ino() == known.ino();
        Ok(is_same && there.len() >= least as u64)
    }

    /// Looks at what others made of the file that has the journal's path now. Later calls go to that one.
    pub(crate) fn look(
        &mut self,
        belief: &mut Belief,
        lock: &FolderLock,
        alloc: Global,
        kept: usize,
    ) -> Result<Renewed, FileFault>
        requires { kept ≤ length belief.old.bytes.items }
        ensures renewed { IfOk result (IsRenewedTo kept belief.old belief.new) }
        ensures believed { OnOk result (IsLooked kept belief.old belief.new) }
        ensures looks { OnOk result (looks_of belief.new ≡ looks_of belief.old + 1) }
        ensures writes { writes_of belief.new ≡ writes_of belief.old }
        ensures syncs { self.new.syncs ≡ self.old.syncs }
    {
        if self.is_there(kept)? {
            return belief.look(&mut self.file, lock, alloc, kept);
        }
        self.file = open_file(&self.rt, self.paths.journal.as_str())?;
        belief.look_at_other(&mut self.file, lock, alloc, kept)
    }

    /// Opens the file once more, and reads all of it. Later calls go to what was opened. An error if another file has the
    /// journal's path now, or it has other bytes than are believed.
    pub(crate) fn open_again(
        &mut self,
        belief: &mut Belief,
        lock: &FolderLock,
        alloc: Global,
    ) -> Result<(), FileFault>
        ensures opened { OnOk result (IsOpenedAgain belief.old belief.new) }
        ensures bytes { belief.new.bytes ≡ belief.old.bytes }
        ensures crash { Goes Unchanged (history_of belief.old) (history_of belief.new) }
        ensures looks { looks_of belief.new ≡ looks_of belief.old }
        ensures writes { writes_of belief.new ≡ writes_of belief.old }
        ensures syncs { self.new.syncs ≡ self.old.syncs }
    {
        let path = self.paths.journal.as_str();
        self.file = belief.open_again(&self.rt, path, &self.file, lock, alloc)?;
        Ok(())
    }

    /// Writes a new file, with the owner and the rights of the one that is there, and brings it to the disk, also where nothing
    /// else is waited for: others may have waited for what the one that is there has.
    fn write_new(
        &self,
        lock: &FolderLock,
        alloc: Global,
        bytes: Vec<u8>,
    ) -> Result<NewFile<R::File>, FileFault>
        requires { lock.now.kind ≡ Exclusive }
        ensures bytes { IfOk result (λ new. new.bytes ≡ bytes) }
        ensures synced { IfOk result (λ new. IsSynced new.bytes.items new.calls.noted.items) }
    {
        let known = self.file.metadata();
        let known = known.map_err(|error| not_written(Cause::of(&error)))?;
        let path = self.paths.new_journal.as_str();
        NewFile::make(&self.rt, alloc, lock, path, &known, bytes)
    }

    /// Puts a new file of these bytes in the place of this one.
    fn put_new(
        &mut self,
        belief: &mut Belief,
        lock: &FolderLock,
        alloc: Global,
        bytes: Vec<u8>,
    ) -> Result<(), FileFault>
        requires { lock.now.kind ≡ Exclusive }
        ensures replaced { OnOk result (belief.new.bytes.items ≡ bytes.items) }
        ensures on_disk { OnOk result (IsOnDisk bytes.items (history_of belief.new)) }
        ensures settled { OnOk result (IsReplaced self.old.syncs bytes.items belief.old belief.new) }
        ensures crash { Goes (UnchangedOr bytes.items) (history_of belief.old) (history_of belief.new) }
        ensures looks { looks_of belief.new ≡ looks_of belief.old }
        ensures syncs { self.new.syncs ≡ self.old.syncs }
    {
        let names = open_names(&self.rt, &self.paths, self.syncs)?;
        let new = self.write_new(lock, alloc, bytes)?;
        self.file = belief.replace(&self.rt, lock, &names, new, &self.paths)?;
        Ok(())
    }

    /// Puts a new file of these bytes in the place of this one. Nothing is done if the folder cannot be opened, which would
    /// leave the new name to a crash. What was written of a new file that does not come to its place is removed.
    pub(crate) fn replace(
        &mut self,
        belief: &mut Belief,
        lock: &FolderLock,
        alloc: Global,
        bytes: Vec<u8>,
    ) -> Result<(), FileFault>
        requires { lock.now.kind ≡ Exclusive }
        ensures replaced { OnOk result (belief.new.bytes.items ≡ bytes.items) }
        ensures on_disk { OnOk result (IsOnDisk bytes.items (history_of belief.new)) }
        ensures settled { OnOk result (IsReplaced self.old.syncs bytes.items belief.old belief.new) }
        ensures crash { Goes (UnchangedOr bytes.items) (history_of belief.old) (history_of belief.new) }
        ensures looks { looks_of belief.new ≡ looks_of belief.old }
        ensures syncs { self.new.syncs ≡ self.old.syncs }
    {
        let put = self.put_new(belief, lock, alloc, bytes);
        if put.is_err() {
            let _ = fs::remove_file(&self.rt, self.paths.new_journal.as_str());
        }
        put
    }
}
