//! Folders and files that are made with rights, which the process's umask does not change.

use std::fs::{self, DirBuilder, File, OpenFile, Permissions};
use std::io;
use std::os::unix::fs::{DirBuilderExt, OpenOptionsExt, PermissionsExt};
use std::rt::Files;

/// Makes a folder of exactly this mode. Until it has it, its owner alone may use it.
pub(crate) fn create_folder<R: Files>(rt: &R, path: &str, mode: u32) -> io::Result<()> {
    let mut options = DirBuilder::new();
    options.mode(0o700);
    options.create(rt, path)?;
    fs::set_permissions(rt, path, Permissions::from_mode(mode))
}

/// Gives a file the rights of a folder of this mode, but for those to execute it.
pub(crate) fn set_rights<F: OpenFile>(file: &F, mode: u32) -> io::Result<()> {
    file.set_permissions(Permissions::from_mode(mode & 0o666))
}

/// Makes an empty file for those who may use a folder of this mode. Until it has its rights, its owner alone may use it.
/// AlreadyExists if something stands at the path, which stays as it is.
pub(crate) fn create_file<R: Files>(rt: &R, path: &str, mode: u32) -> io::Result<R::File> {
    let mut options = File::options();
    options.read(true).write(true).create_new(true).mode(0o600);
    let file = options.open(rt, path)?;
    set_rights(&file, mode)?;
    Ok(file)
}
