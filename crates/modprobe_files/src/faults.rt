//! What is told of files and folders that are missing or are not read.
ghost use Rattle.std.specs.Prelude.{◌≡◌, [], false, Ok};
ghost use Rattle.modprobe_files.specs.Texts.{is_cut};

use crate::host::{Host, folder_of, joined};
use crate::releases::tell_releases;
use crate::system::{Kind, System};
use modprobe_words::{Level, Messages};
use std::alloc::AllocError;
use std::io::{self, ErrorKind, Write};

/// Why a file was not read, in C's words if it has them.
pub fn reason(error: &io::Error) -> &'static [u8] {
    match error.kind() {
        ErrorKind::NotFound => b"No such file or directory",
        ErrorKind::PermissionDenied => b"Permission denied",
        ErrorKind::IsADirectory => b"Is a directory",
        ErrorKind::NotADirectory => b"Not a directory",
        ErrorKind::FilesystemLoop => b"Too many levels of symbolic links",
        ErrorKind::InvalidFilename => b"The name is no UTF-8, or too long",
        _ => b"It cannot be read",
    }
}

/// Whether a path was not asked of the system at all, since it is no UTF-8.
pub(crate) fn is_no_text(error: &io::Error) -> bool {
    error.kind() == ErrorKind::InvalidFilename && error.raw_os_error().is_none()
}

/// Tells that a file was not read. Out of memory is no such fault.
pub fn tell_unread<E: Write>(
    path: &[u8],
    error: &io::Error,
    messages: &mut Messages<'_, E>,
) -> Result<(), AllocError> {
    if error.kind() == ErrorKind::OutOfMemory {
        return Err(AllocError);
    }
    messages.tell(Level::Error, b"cannot read ", path, b": ", reason(error));
    Ok(())
}

/// The texts of a folder of modules without which names are not found, and who writes them.
const TEXTS: [(&[u8], &[u8]); 4] = [
    (b"/modules.dep", b", which depmod(8) writes"),
    (b"/modules.alias", b", which depmod(8) writes"),
    (b"/modules.symbols", b", which depmod(8) writes"),
    (b"/modules.builtin", b", which the kernel's build writes"),
];

/// Whether a text ends within a line, as one does whose writing was cut off.
fn is_cut(text: &[u8]) -> bool
    ensures { result ≡ is_cut text.now }
{
    match text.last() {
        Some(byte) => *byte != b'\n',
        None => false,
    }
}

/// Tells what is wrong with a text of a folder of modules: it is missing, or ends within a line.
fn tell_text<S: System, E: Write>(
    host: &Host<'_, S>,
    path: &[u8],
    who: &[u8],
    messages: &mut Messages<'_, E>,
) -> Result<(), AllocError> {
    match host.read(path) {
        Ok(text) if is_cut(&text) => {
            messages.tell(Level::Notice, path, b" ends within a line", b"", b"");
        }
        Err(error) if error.kind() == ErrorKind::OutOfMemory => return Err(AllocError),
        Err(error) if error.kind() == ErrorKind::NotFound => {
            messages.tell(Level::Notice, b"there is no file ", path, who, b"");
        }
        _ => {}
    }
    Ok(())
}

/// Tells what is wrong with a folder of modules: it is missing, or a text of it is missing or ends within a line.
pub fn tell_folder<S: System, E: Write>(
    host: &Host<'_, S>,
    directory: &[u8],
    messages: &mut Messages<'_, E>,
) -> Result<(), AllocError> {
    if !matches!(host.kind(directory)?, Kind::Folder) {
        messages.tell(Level::Notice, b"there is no folder ", directory, b"", b"");
        return tell_releases(host, folder_of(directory), messages);
    }
    for (name, who) in TEXTS.iter() {
        let path = joined(host.alloc(), directory, *name, b"")?;
        tell_text(host, &path, *who, messages)?;
    }
    Ok(())
}

/// Tells that the folder of `--root` is none, if it is none. Returns whether it was told.
pub fn is_rootless<S: System, E: Write>(
    host: &Host<'_, S>,
    root: &[u8],
    messages: &mut Messages<'_, E>,
) -> Result<bool, AllocError>
    ensures empty { root.now ≡ [] → result ≡ Ok false }
    ensures silent { result ≡ Ok false → messages.new ≡ messages.old }
{
    if root.is_empty() || matches!(host.kind(b"/")?, Kind::Folder) {
        return Ok(false);
    }
    let text = b"there is no folder ";
    messages.tell_always(Level::Fatal, text, root, b", which --root names", b"");
    Ok(true)
}
