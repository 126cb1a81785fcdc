//! Files of a configuration that do not count, since others of their names come first.

use crate::files::{File, Name, Source, is_counted};
use crate::host::joined;
use crate::sources::{LIB, USR_LIB};
use crate::texts::HiddenFile;
use kmod_version::Kmod;
use std::alloc::{AllocError, Global};
use text_parts::is_same;

/// Notes a file, if the one of its name that counts is another.
fn add_file(
    alloc: Global,
    hidden: &mut Vec<HiddenFile>,
    files: &[File],
    name: &[u8],
    path: &[u8],
) -> Result<(), AllocError> {
    match files.iter().find(|file| is_same(&file.name, name)) {
        Some(file) if !is_same(&file.path, path) => {
            let path = Vec::from_slice(alloc, path)?;
            let by = Vec::from_slice(alloc, &file.path)?;
            hidden.push(HiddenFile { path, by })?;
            Ok(())
        }
        _ => Ok(()),
    }
}

fn add_folder(
    alloc: Global,
    kmod: Kmod,
    hidden: &mut Vec<HiddenFile>,
    files: &[File],
    folder: &[u8],
    names: &[Name],
) -> Result<(), AllocError> {
    for name in names {
        if is_counted(kmod, name) {
            let path = joined(alloc, folder, b"/", &name.text)?;
            add_file(alloc, hidden, files, &name.text, &path)?;
        }
    }
    Ok(())
}

/// Whether all of some names are among others.
fn are_among(names: &[Name], others: &[Name]) -> bool {
    names.iter().all(|name| others.iter().any(|other| is_same(&other.text, &name.text)))
}

/// Whether a folder is taken for another one under a second path: /lib/modprobe.d with no name that /usr/lib/modprobe.d has
/// not, as if /lib is a link to /usr/lib.
fn is_second_path(sources: &[Source], folder: &[u8], names: &[Name]) -> bool {
    is_same(folder, LIB)
        && sources.iter().any(|source| match source {
            Source::Folder(path, others) => is_same(path, USR_LIB) && are_among(names, others),
            Source::Single(_, _) => false,
        })
}

/// The files of sources that are not among those that count. It fails only out of memory.
pub(crate) fn hidden_files(
    alloc: Global,
    kmod: Kmod,
    sources: &[Source],
    files: &[File],
) -> Result<Vec<HiddenFile>, AllocError> {
    let mut hidden = Vec::new(alloc);
    for source in sources {
        match source {
            Source::Single(name, path) => add_file(alloc, &mut hidden, files, name, path)?,
            Source::Folder(path, names) if is_second_path(sources, path, names) => {}
            Source::Folder(path, names) => {
                add_folder(alloc, kmod, &mut hidden, files, path, names)?;
            }
        }
    }
    Ok(hidden)
}
