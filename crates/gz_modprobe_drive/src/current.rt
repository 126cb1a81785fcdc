//! Paths below the current folder, where nobody knows which that is: it was removed, or its path is no UTF-8.
ghost use Rattle.std.specs.Prelude.{◌≡◌, false, true, IfOk, IfSome};
ghost use Rattle.modprobe_words.specs.Asked.{text_of};
ghost use Rattle.modprobe_files.specs.Chosen.{IsDirectory, is_whole};

use modprobe_files::{Host, System, directory};
use modprobe_words::{Asked, Level, Messages};
use std::alloc::AllocError;
use std::io::{ErrorKind, Write};

/// Whether a path is printed behind the current folder, and that is not known. It fails only if memory runs out.
pub(crate) fn is_adrift<S: System>(host: &Host<'_, S>, path: &[u8]) -> Result<bool, AllocError>
    ensures whole { is_whole path.now ≡ true → IfOk result (λ adrift. adrift ≡ false) }
    ensures rooted { S.is_rooted host.now.system.now ≡ true → IfOk result (λ adrift. adrift ≡ false) }
{
    if path.is_empty() || path.starts_with(b"/") {
        return Ok(false);
    }
    match host.current_folder() {
        Ok(_) => Ok(false),
        Err(error) if error.kind() == ErrorKind::OutOfMemory => Err(AllocError),
        Err(_) => Ok(true),
    }
}

/// The folder of modules, as it is printed; None if the release is not known, or the current folder where it counts. That is
/// told. It fails only if memory runs out.
pub(crate) fn known_directory<S: System, E: Write>(
    host: &Host<'_, S>,
    asked: &Asked<'_>,
    messages: &mut Messages<'_, E>,
) -> Result<Option<Vec<u8>>, AllocError>
    ensures { IfOk result (λ found. IfSome found (λ folder.
        IsDirectory (S.is_rooted host.now.system.now) (text_of asked.now.directory) (text_of asked.now.release) folder.items)) }
{
    if is_adrift(host, asked.directory.unwrap_or(b""))? {
        let text = b"the current folder is not known: -d wants a path that begins with /";
        messages.tell_always(Level::Error, text, b"", b"", b"");
        return Ok(None);
    }
    directory(host, asked, messages)
}
