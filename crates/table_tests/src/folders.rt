//! Folders below /tmp, and journals in them.

use file_journal::{FileDevice, FolderLock, LockKind, Syncs};
use line_journal::Renewable;
use std::test::Fail;
use std::{fs, process};

/// A journal's file.
pub(crate) type Disk<'a> = FileDevice<&'a HostRuntime>;

/// A new folder of this name.
pub(crate) fn folder(rt: &HostRuntime, name: &str) -> Result<String, Fail> {
    let number = process::id(rt.process());
    let folder = format!(in rt.alloc(); "/tmp/file_journal.{number}.{name}")?;
    fs::create_dir(rt, folder.as_str())?;
    Ok(folder)
}

/// A journal gets these bytes from outside.
pub(crate) fn write(rt: &HostRuntime, folder: &str, text: &str) -> Result<(), Fail> {
    let path = format!(in rt.alloc(); "{folder}/journal")?;
    Ok(fs::write(rt, path.as_str(), text)?)
}

/// The file of the journal in a folder, which has the folder's lock.
pub(crate) fn device_in<'a>(
    rt: &'a HostRuntime,
    folder: &str,
    syncs: Syncs,
) -> Result<Disk<'a>, Fail> {
    let lock = FolderLock::acquire(rt, rt.alloc(), folder, LockKind::Exclusive, 0)?;
    match FileDevice::open(rt, rt.alloc(), lock, folder, "journal", syncs) {
        Ok(device) => Ok(device),
        Err(unopened) => Err(unopened.error.into()),
    }
}

/// The file of a new, empty journal in a folder.
pub(crate) fn new_device<'a>(rt: &'a HostRuntime, folder: &str) -> Result<Disk<'a>, Fail> {
    write(rt, folder, "")?;
    device_in(rt, folder, Syncs::Kept)
}

/// Where the turns of devices come from.
pub(crate) trait Turns<D: Renewable> {
    /// The turn of a device begins.
    fn begin(&self) -> Result<D::Turn, Fail>;
}

/// The folder of a journal, by its lock.
#[derive(Clone, Copy)]
pub(crate) struct Locks<'a> {
    pub(crate) rt: &'a HostRuntime,
    pub(crate) folder: &'a str,
}

impl<'a> Turns<Disk<'a>> for Locks<'a> {
    fn begin(&self) -> Result<FolderLock, Fail> {
        let (rt, folder) = (self.rt, self.folder);
        Ok(FolderLock::acquire(rt, rt.alloc(), folder, LockKind::Exclusive, 0)?)
    }
}
