//! Files of a configuration that lie beside the machine they are for, as those of a repository.
ghost use Rattle.std.specs.Prelude.{◌≡◌, None, false, [], map, IfOk};
ghost use Rattle.text_parts.specs.Text.{texts_of};
ghost use Rattle.modprobe_files.specs.Beside.{is_of_folder};
ghost use Rattle.modprobe_files.specs.Chosen.{AreRead, AreSomeOf, paths_of_files};
ghost use Rattle.modprobe_files.specs.Files.{files_of};
ghost use Rattle.modprobe_files.specs.Paths.{path_in};

use crate::files::File;
use crate::host::Host;
use crate::machine::{chosen_files, text_of};
use crate::system::System;
use crate::texts::{ConfTexts, TextFile};
use kmod_version::Kmod;
use modprobe_words::Messages;
use std::alloc::AllocError;
use std::io::Write;
use text_parts::is_same;

/// Whether a path is that of a file of the configuration in the folder of modules.
pub fn is_of_folder(directory: &[u8], path: &[u8]) -> bool
    ensures { result ≡ is_of_folder directory.now path.now }
{
    match path.strip_prefix(directory) {
        Some(name) => is_same(name, b"/modules.softdep") || is_same(name, b"/modules.weakdep"),
        None => false,
    }
}

/// The text of a file that may be missing: of one in the folder of modules from the machine.
fn text_at<S: System, E: Write>(
    host: &Host<'_, S>,
    beside: &Host<'_, S>,
    directory: &[u8],
    path: &[u8],
    messages: &mut Messages<'_, E>,
) -> Result<Option<Vec<u8>>, AllocError> {
    if is_of_folder(directory, path) {
        text_of(host, path, messages)
    } else {
        text_of(beside, path, messages)
    }
}

/// Reads the files that count: those of the folder of modules from the machine, and all others from where the words are.
fn read_files<S: System, E: Write>(
    host: &Host<'_, S>,
    beside: &Host<'_, S>,
    directory: &[u8],
    files: Vec<File>,
    messages: &mut Messages<'_, E>,
) -> Result<Vec<TextFile>, AllocError>
    ensures { IfOk result (λ texts. AreSomeOf (map path_in texts.items) (paths_of_files (files_of files.items))) }
{
    let mut texts = Vec::new(host.alloc());
    for file in files.into_iter() {
        if let Some(text) = text_at(host, beside, directory, &file.path, messages)? {
            let File { name: _name, path } = file;
            texts.push(TextFile { path, text })?;
        }
    }
    Ok(texts)
}

/// The texts of a configuration whose files do not lie on the machine: the files and folders at these paths of `beside`, and
/// those of the folder of modules of `host`. The kernel's command line is not read, since it is not theirs.
pub fn read_beside<S: System, E: Write>(
    host: &Host<'_, S>,
    beside: &Host<'_, S>,
    kmod: Kmod,
    directory: &[u8],
    paths: &[&[u8]],
    messages: &mut Messages<'_, E>,
) -> Result<ConfTexts, AllocError>
    ensures kmod { IfOk result (λ texts. texts.kmod ≡ kmod) }
    ensures files { IfOk result (λ texts. AreRead kmod directory.now (texts_of paths.now) (map path_in texts.files.items)) }
    ensures hidden { IfOk result (λ texts. messages.old.explains ≡ false → texts.hidden.items ≡ []) }
    ensures line { IfOk result (λ texts. texts.command_line ≡ None) }
{
    let (files, hidden) = chosen_files(beside, kmod, directory, paths, messages)?;
    Ok(ConfTexts {
        kmod,
        files: read_files(host, beside, directory, files, messages)?,
        command_line: None,
        hidden,
    })
}
