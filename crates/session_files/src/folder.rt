//! The files of a folder that is a configuration.
use program_frame::{PathFault, counted_names, folder_names};
use std::alloc::{AllocError, Global};
use std::rt::Files;
use std::str;

/// The path of a name in a folder.
fn path_in(alloc: Global, folder: &str, name: &str) -> Result<String, AllocError> {
    let slash = if folder.ends_with('/') { "" } else { "/" };
    format!(in alloc; "{folder}{slash}{name}")
}

/// The paths of the files of a folder that count as a configuration (modprobe.d(5)), in the order of their names' bytes.
pub fn paths_in<R: Files>(alloc: Global, rt: &R, folder: &str) -> Result<Vec<String>, PathFault> {
    let names = counted_names(folder_names(alloc, rt, folder)?);
    let mut paths = Vec::new(alloc);
    for name in &names {
        let name = str::from_utf8(name).map_err(|_| PathFault::Name)?;
        paths.push(path_in(alloc, folder, name)?)?;
    }
    Ok(paths)
}
