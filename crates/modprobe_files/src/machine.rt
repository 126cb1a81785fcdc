//! The texts of the machine that is asked.
ghost use Rattle.std.specs.Prelude.{◌≡◌, [], false, true, map, IfOk, IfSome, IsSome};
ghost use Rattle.text_parts.specs.Text.{texts_of};
ghost use Rattle.modprobe_words.specs.Asked.{text_of};
ghost use Rattle.modprobe_files.specs.Chosen.{AreCounted, AreRead, AreSomeOf, IsDirectory, IsPrinted, paths_of_files};
ghost use Rattle.modprobe_files.specs.Files.{files_of};
ghost use Rattle.modprobe_files.specs.Paths.{path_in};

use crate::faults::tell_unread;
use crate::files::{File, counted_files};
use crate::hidden_files::hidden_files;
use crate::host::{Host, joined};
use crate::releases::release_there;
use crate::sources::configuration_sources;
use crate::system::System;
use crate::texts::{COMMAND_LINE, ConfTexts, HiddenFile, LaterTexts, ModuleTexts, TextFile};
use kmod_version::Kmod;
use modprobe_words::{Asked, Level, Messages};
use std::alloc::AllocError;
use std::io::{ErrorKind, Write};

const RELEASE: &[u8] = b"/proc/sys/kernel/osrelease";

/// The text of a file that may be missing. One that cannot be read is reported, and has no text.
pub(crate) fn text_of<S: System, E: Write>(
    host: &Host<'_, S>,
    path: &[u8],
    messages: &mut Messages<'_, E>,
) -> Result<Option<Vec<u8>>, AllocError> {
    match host.read(path) {
        Ok(text) => Ok(Some(text)),
        Err(error) if matches!(error.kind(), ErrorKind::NotFound | ErrorKind::NotADirectory) => Ok(
            None,
        ),
        Err(error) => {
            tell_unread(path, &error, messages)?;
            Ok(None)
        }
    }
}

/// The release of the machine's kernel; None if that is not known. Without a root that is reported, and within one the one
/// release counts that is there.
fn own_release<S: System, E: Write>(
    host: &Host<'_, S>,
    folder: &[u8],
    messages: &mut Messages<'_, E>,
) -> Result<Option<Vec<u8>>, AllocError> {
    match host.read(RELEASE) {
        Ok(mut text) => {
            if text.ends_with(b"\n") {
                text.pop();
            }
            return Ok(Some(text));
        }
        Err(error) if error.kind() == ErrorKind::OutOfMemory => return Err(AllocError),
        Err(_) => {}
    }
    if host.is_rooted() {
        let release = release_there(host, folder, messages)?;
        if release.is_some() {
            return Ok(release);
        }
    }
    let text = b": name a release with -S";
    messages.tell_always(Level::Error, b"cannot read ", RELEASE, text, b"");
    Ok(None)
}

/// A path as it is printed. One that does not begin at the root stands below the current folder, which below another root is
/// `/`. The empty path stays empty.
pub fn absolute_path<S: System>(host: &Host<'_, S>, path: &[u8]) -> Result<Vec<u8>, AllocError>
    ensures { IfOk result (λ printed. IsPrinted (S.is_rooted host.now.system.now) path.now printed.items) }
{
    let alloc = host.alloc();
    if path.is_empty() || path.starts_with(b"/") {
        return Vec::from_slice(alloc, path);
    }
    match host.current_folder() {
        Ok(Some(current)) => joined(alloc, &current, b"/", path),
        Err(error) if error.kind() == ErrorKind::OutOfMemory => Err(AllocError),
        _ => joined(alloc, b"//", path, b""),
    }
}

/// The folder of modules, as it is printed; None if the release is not known, which is reported.
pub fn directory<S: System, E: Write>(
    host: &Host<'_, S>,
    asked: &Asked<'_>,
    messages: &mut Messages<'_, E>,
) -> Result<Option<Vec<u8>>, AllocError>
    ensures folder { IfOk result (λ found. IfSome found (λ folder.
        IsDirectory (S.is_rooted host.now.system.now) (text_of asked.now.directory) (text_of asked.now.release) folder.items)) }
    ensures asked { IfOk result (λ found. IsSome asked.now.release → IsSome found) }
{
    let alloc = host.alloc();
    let parent = absolute_path(host, asked.directory.unwrap_or(b""))?;
    let folder = joined(alloc, &parent, b"/lib/modules", b"")?;
    if let Some(release) = asked.release {
        return Ok(Some(joined(alloc, &folder, b"/", release)?));
    }
    match own_release(host, &folder, messages)? {
        Some(release) => Ok(Some(joined(alloc, &folder, b"/", &release)?)),
        None => Ok(None),
    }
}

/// Reads the files that count. One that is missing or cannot be read is left out.
fn read_files<S: System, E: Write>(
    host: &Host<'_, S>,
    files: Vec<File>,
    messages: &mut Messages<'_, E>,
) -> Result<Vec<TextFile>, AllocError>
    ensures { IfOk result (λ texts. AreSomeOf (map path_in texts.items) (paths_of_files (files_of files.items))) }
{
    let mut texts = Vec::new(host.alloc());
    for file in files.into_iter() {
        if let Some(text) = text_of(host, &file.path, messages)? {
            let File { name: _name, path } = file;
            texts.push(TextFile { path, text })?;
        }
    }
    Ok(texts)
}

/// The files that count, and, if answers are explained, those that do not.
pub(crate) fn chosen_files<S: System, E: Write>(
    host: &Host<'_, S>,
    kmod: Kmod,
    directory: &[u8],
    paths: &[&[u8]],
    messages: &mut Messages<'_, E>,
) -> Result<(Vec<File>, Vec<HiddenFile>), AllocError>
    ensures files { IfOk result (λ chosen. AreCounted kmod directory.now (texts_of paths.now) (files_of chosen.0.items)) }
    ensures hidden { IfOk result (λ chosen. messages.old.explains ≡ false → chosen.1.items ≡ []) }
{
    let alloc = host.alloc();
    let explains = messages.explains;
    let sources = configuration_sources(host, kmod, directory, paths, messages)?;
    let files = counted_files(alloc, kmod, &sources)?;
    let hidden = if explains {
        hidden_files(alloc, kmod, &sources, &files)?
    } else {
        Vec::new(alloc)
    };
    Ok((files, hidden))
}

/// The texts of the configuration: the files that count for this version of kmod, and the kernel's command line.
pub fn read_configuration<S: System, E: Write>(
    host: &Host<'_, S>,
    kmod: Kmod,
    directory: &[u8],
    paths: &[&[u8]],
    messages: &mut Messages<'_, E>,
) -> Result<ConfTexts, AllocError>
    ensures kmod { IfOk result (λ texts. texts.kmod ≡ kmod) }
    ensures files { IfOk result (λ texts. AreRead kmod directory.now (texts_of paths.now) (map path_in texts.files.items)) }
    ensures hidden { IfOk result (λ texts. messages.old.explains ≡ false → texts.hidden.items ≡ []) }
{
    let (files, hidden) = chosen_files(host, kmod, directory, paths, messages)?;
    Ok(ConfTexts {
        kmod,
        files: read_files(host, files, messages)?,
        command_line: text_of(host, COMMAND_LINE, messages)?,
        hidden,
    })
}

/// The text of a file of a folder; empty if it is missing.
fn text_in<S: System, E: Write>(
    host: &Host<'_, S>,
    directory: &[u8],
    name: &[u8],
    messages: &mut Messages<'_, E>,
) -> Result<Vec<u8>, AllocError> {
    let alloc = host.alloc();
    let path = joined(alloc, directory, b"/", name)?;
    match text_of(host, &path, messages)? {
        Some(text) => Ok(text),
        None => Ok(Vec::new(alloc)),
    }
}

/// Reads the texts of a folder of modules that each query may ask: modules.dep and those of built-in modules.
pub fn read_modules<S: System, E: Write>(
    host: &Host<'_, S>,
    directory: &[u8],
    messages: &mut Messages<'_, E>,
) -> Result<ModuleTexts, AllocError> {
    Ok(ModuleTexts {
        dep: text_in(host, directory, b"modules.dep", messages)?,
        builtin: text_in(host, directory, b"modules.builtin", messages)?,
        builtin_modinfo: text_in(host, directory, b"modules.builtin.modinfo", messages)?,
    })
}

/// Reads the large texts of a folder of modules: modules.alias, and modules.symbols if it is asked for.
pub fn read_later<S: System, E: Write>(
    host: &Host<'_, S>,
    directory: &[u8],
    has_symbols: bool,
    messages: &mut Messages<'_, E>,
) -> Result<LaterTexts, AllocError>
    ensures alias { IfOk result (λ texts. IsSome texts.alias) }
    ensures symbols { IfOk result (λ texts. has_symbols ≡ true → IsSome texts.symbols) }
{
    let alias = Some(text_in(host, directory, b"modules.alias", messages)?);
    if !has_symbols {
        return Ok(LaterTexts {
            alias,
            symbols: None,
        });
    }
    let symbols = Some(text_in(host, directory, b"modules.symbols", messages)?);
    Ok(LaterTexts { alias, symbols })
}
