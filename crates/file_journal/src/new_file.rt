//! Files that are made in the place of what stands at a path.
ghost use Rattle.std.specs.Prelude.{◌≡◌, IfOk};
ghost use Rattle.file_journal.specs.Calls.{IsSynced};
ghost use Rattle.file_journal.specs.declared.lock.LockKind.TheVariants.{Exclusive};

use crate::calls::Calls;
use crate::disk_file::Syncs;
use crate::fault::{Action, Cause, FileFault, Target};
use crate::lock::FolderLock;
use std::alloc::Global;
use std::fs::{self, File, Metadata, OpenFile, Permissions};
use std::io::{self, ErrorKind, Seek, Write};
use std::os::unix::fs::{MetadataExt, OpenOptionsExt, PermissionsExt, lchown};
use std::rt::Files;

/// Removes what stands at a path: a process that was killed may have left it. Where it is a link, what that leads to is not
/// touched.
fn clear<R: Files>(rt: &R, path: &str) -> io::Result<()> {
    match fs::remove_file(rt, path) {
        Err(error) if error.kind() != ErrorKind::NotFound => Err(error),
        _ => Ok(()),
    }
}

/// Makes a file of this path, to read and to write, in the place of what stands there.
pub fn create_anew<R: Files>(rt: &R, path: &str) -> io::Result<R::File> {
    clear(rt, path)?;
    File::create_new(rt, path)
}

/// Makes a file as `create_anew` does, which its owner alone may use.
pub fn create_private<R: Files>(rt: &R, path: &str) -> io::Result<R::File> {
    clear(rt, path)?;
    let mut options = File::options();
    options.read(true).write(true).create_new(true).mode(0o600);
    options.open(rt, path)
}

/// What each of the three classes may do with a file, by its mode: read 4, write 2, execute 1.
#[derive(Clone, Copy)]
struct Rights {
    owner: u32,
    group: u32,
    others: u32,
}

impl Rights {
    fn of(mode: u32) -> Rights {
        Rights {
            owner: mode >> 6 & 7,
            group: mode >> 3 & 7,
            others: mode & 7,
        }
    }

    /// Whether nobody is shut out of a file that has another group.
    fn spare_group(self) -> bool {
        self.group & !self.others == 0
    }

    /// Whether the owner is not shut out of a file that has another one: all others may do as much, or the group, if that stays.
    fn spare_owner(self, keeps_group: bool) -> bool {
        self.owner & !self.others == 0 || keeps_group && self.owner & !self.group == 0
    }
}

/// Gives a file that was made the group and the owner of a known one, and then its rights. A group or an owner that it may not
/// be given to is left out, if nobody is shut out so.
fn hand_over<R: Files>(rt: &R, file: &R::File, path: &str, known: &Metadata) -> io::Result<()> {
    let (made, rights) = (file.metadata()?, Rights::of(known.mode()));
    let mut keeps_group = true;
    if made.gid() != known.gid() {
        let given = lchown(rt, path, None, Some(known.gid()));
        keeps_group = given.is_ok();
        if !rights.spare_group() {
            given?;
        }
    }
    if made.uid() != known.uid() {
        let given = lchown(rt, path, Some(known.uid()), None);
        if !rights.spare_owner(keeps_group) {
            given?;
        }
    }
    file.set_permissions(Permissions::from_mode(known.mode() & 0o777))
}

/// Makes a file as `create_anew` does, for those who may use a known one. If it may not be handed over to them, it is removed.
pub fn create_like<R: Files>(rt: &R, path: &str, known: &Metadata) -> io::Result<R::File> {
    let file = create_private(rt, path)?;
    match hand_over(rt, &file, path, known) {
        Ok(()) => Ok(file),
        Err(error) => {
            let _ = fs::remove_file(rt, path);
            Err(error)
        }
    }
}

/// A new file that is to take a journal's place: the bytes that were written to it, and the calls that it got.
#[derive(Drop)]
pub(crate) struct NewFile<F: Drop> {
    pub(crate) file: F,
    pub(crate) bytes: Vec<u8>,
    calls: Calls,
}

/// The fault of a new file that was not made, not written, or did not come to the disk.
pub(crate) fn not_written(cause: Cause) -> FileFault {
    FileFault {
        action: Action::Write,
        target: Target::NewJournal,
        cause,
    }
}

impl<F: OpenFile + Write + Seek + Drop> NewFile<F> {
    /// Of a file that was made: writes bytes to it, and waits until they are on the disk.
    fn write(file: F, alloc: Global, lock: &FolderLock, bytes: Vec<u8>) -> Result<Self, FileFault>
        requires { lock.now.kind ≡ Exclusive }
        ensures bytes { IfOk result (λ new. new.bytes ≡ bytes) }
        ensures synced { IfOk result (λ new. IsSynced new.bytes.items new.calls.noted.items) }
    {
        let (mut file, mut calls) = (file, Calls::new(alloc));
        let nothing = Vec::new(alloc);
        calls.write(&mut file, lock, 0, &bytes, &nothing)?;
        calls.settle(&file, lock, Syncs::Kept, &bytes)?;
        Ok(NewFile { file, bytes, calls })
    }

    /// Makes a file as `create_like` does, writes bytes to it, and waits until they are on the disk.
    pub(crate) fn make<R: Files<File = F>>(
        rt: &R,
        alloc: Global,
        lock: &FolderLock,
        path: &str,
        known: &Metadata,
        bytes: Vec<u8>,
    ) -> Result<Self, FileFault>
        requires { lock.now.kind ≡ Exclusive }
        ensures bytes { IfOk result (λ new. new.bytes ≡ bytes) }
        ensures synced { IfOk result (λ new. IsSynced new.bytes.items new.calls.noted.items) }
    {
        let file = create_like(rt, path, known);
        let file = file.map_err(|error| not_written(Cause::of(&error)))?;
        let new = NewFile::write(file, alloc, lock, bytes);
        new.map_err(|fault| not_written(fault.cause))
    }
}
