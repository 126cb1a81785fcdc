//! Whether all was read that a lint looks at.
ghost use Rattle.std.specs.Prelude.{◌≡◌};
ghost use Rattle.gz_modprobe_drive.specs.Missed.{are_read, has_file, has_name, was_read};

use crate::listing::names_of;
use crate::run::Run;
use kmod_version::Kmod;
use modprobe_files::{
    COMMAND_LINE, ConfTexts, Host, Kind, System, TextFile, is_read, joined, paths_by_rank,
    tell_unread,
};
use modprobe_words::Messages;
use std::alloc::AllocError;
use std::io::{self, ErrorKind, Write};
use text_parts::is_same;

/// The texts of a folder of modules that are read for every kmod.
const TEXTS: [&[u8]; 6] = [
    b"modules.softdep",
    b"modules.dep",
    b"modules.alias",
    b"modules.symbols",
    b"modules.builtin",
    b"modules.builtin.modinfo",
];

const WEAKDEP: &[u8] = b"modules.weakdep";

/// Whether a path is that of a file of this name in some folder.
fn has_name(path: &[u8], name: &[u8]) -> bool
    ensures { result ≡ has_name path.now name.now }
{
    let start = path.len().saturating_sub(name.len());
    path[..start].ends_with(b"/") && is_same(&path[start..], name)
}

fn has_file(files: &[TextFile], name: &[u8]) -> bool
    ensures { result ≡ has_file files.now name.now }
{
    files.iter().any(|file| has_name(&file.path, name))
}

/// Whether a name of a folder is not to be read, or a file of this name was. Which one does not matter: of files of one name
/// only the first is opened.
fn was_read(kmod: Kmod, files: &[TextFile], name: &[u8]) -> bool
    ensures { result ≡ was_read kmod files.now name.now }
{
    !is_read(kmod, name) || has_file(files, name)
}

fn are_read(kmod: Kmod, files: &[TextFile], names: &[Vec<u8>]) -> bool
    ensures { result ≡ are_read kmod files.now names.now }
{
    names.iter().all(|name| was_read(kmod, files, name))
}

/// Whether what stands at the path of a name is to be read. A folder and a link that leads to nothing, or to itself, are not,
/// and are told of among the files that are not read.
fn is_due<S: System>(host: &Host<'_, S>, path: &[u8]) -> Result<bool, AllocError> {
    match host.look(path) {
        Ok(kind) => Ok(matches!(kind, Kind::File)),
        Err(error) if error.kind() == ErrorKind::FilesystemLoop => Ok(false),
        Err(error) => Ok(!is_missing(&error)?),
    }
}

/// The names of a folder that are to be read, if their endings are.
fn due_names<S: System>(
    host: &Host<'_, S>,
    folder: &[u8],
    names: Vec<Vec<u8>>,
) -> Result<Vec<Vec<u8>>, AllocError> {
    let mut due = Vec::new(host.alloc());
    for name in names.into_iter() {
        if is_due(host, &joined(host.alloc(), folder, b"/", &name)?)? {
            due.push(name)?;
        }
    }
    Ok(due)
}

/// Whether a file that was named was read, or stands back behind another of its name.
fn is_known(texts: &ConfTexts, path: &[u8]) -> bool {
    texts.files.iter().any(|file| is_same(&file.path, path))
        || texts.hidden.iter().any(|file| is_same(&file.path, path))
}

/// Whether an error says that nothing is there. Out of memory is no such fault.
fn is_missing(error: &io::Error) -> Result<bool, AllocError> {
    match error.kind() {
        ErrorKind::OutOfMemory => Err(AllocError),
        ErrorKind::NotFound | ErrorKind::NotADirectory => Ok(true),
        _ => Ok(false),
    }
}

/// Whether what stands at a path of the configuration was read. What is missing was to be read if it was named; a folder of
/// modprobe.d(5) that cannot be looked at is told of here, since nobody has told of it.
fn is_path_read<S: System, E: Write>(
    host: &Host<'_, S>,
    texts: &ConfTexts,
    path: &[u8],
    is_named: bool,
    messages: &mut Messages<'_, E>,
) -> Result<bool, AllocError> {
    match host.look(path) {
        Ok(Kind::Folder) => match names_of(host, path)? {
            Some(names) => {
                let due = due_names(host, path, names)?;
                Ok(are_read(texts.kmod, &texts.files, &due))
            }
            None => Ok(false),
        },
        Ok(Kind::File) => Ok(is_known(texts, path)),
        Ok(Kind::Nothing) => Ok(!is_named),
        Err(error) => {
            let is_missing = is_missing(&error)?;
            if !is_named && !is_missing {
                tell_unread(path, &error, messages)?;
            }
            Ok(!is_named && is_missing)
        }
    }
}

/// Whether a file is there and cannot be read. Whoever tried to read it has told of it.
fn is_kept_back<S: System>(host: &Host<'_, S>, path: &[u8]) -> Result<bool, AllocError> {
    match host.read(path) {
        Ok(_) => Ok(false),
        Err(error) => Ok(!is_missing(&error)?),
    }
}

fn is_folder_read<S: System>(
    host: &Host<'_, S>,
    kmod: Kmod,
    directory: &[u8],
) -> Result<bool, AllocError> {
    let alloc = host.alloc();
    for name in TEXTS.iter() {
        if is_kept_back(host, &joined(alloc, directory, b"/", *name)?)? {
            return Ok(false);
        }
    }
    if !kmod.knows_weakdeps() {
        return Ok(true);
    }
    Ok(!is_kept_back(host, &joined(alloc, directory, b"/", WEAKDEP)?)?)
}

/// Whether all was read that a lint of a configuration looks at, over a folder of modules: no file or folder is there that
/// cannot be read, and each path that was named leads to one. It fails only if memory runs out.
pub(crate) fn is_all_read<S: System, E: Write>(
    run: &Run<'_, S>,
    messages: &mut Messages<'_, E>,
) -> Result<bool, AllocError> {
    let (host, named) = (run.configuration_host(), run.named);
    let mut is_whole = true;
    for path in paths_by_rank(run.texts.kmod, named) {
        if !is_path_read(host, run.texts, *path, !named.is_empty(), messages)? {
            is_whole = false;
        }
    }
    if !is_whole || (run.texts.command_line.is_none() && is_kept_back(run.host, COMMAND_LINE)?) {
        return Ok(false);
    }
    is_folder_read(run.host, run.texts.kmod, run.directory)
}
