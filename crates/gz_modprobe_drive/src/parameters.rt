//! The parameters of the modules that options lines name, by the files of these modules (modinfo(8)).

use crate::sys::bytes_at;
use indexmap::IndexSet;
use kmod_conf::Conf;
use kmod_index::Index;
use kmod_names::Text;
use kmod_query::file_of;
use machine_lint::ModuleParameters;
use modprobe_files::{Host, System};
use module_info::parameters;
use std::alloc::AllocError;

/// The parameters of a module, None if it has no file that can be read and is not compressed.
fn parameters_of<S: System>(
    host: &Host<'_, S>,
    directory: &[u8],
    index: &Index<'_>,
    name: &[u8],
) -> Result<Option<ModuleParameters>, AllocError> {
    let alloc = host.alloc();
    let path = match index.find(name) {
        Some(line) if line.path().ends_with(b".ko") => file_of(alloc, directory, line.path())?,
        _ => return Ok(None),
    };
    let Some(bytes) = bytes_at(host, &path)? else {
        return Ok(None);
    };
    let Some(names) = parameters(alloc, &bytes)? else {
        return Ok(None);
    };
    let module = Text::new(alloc, name)?;
    Ok(Some(ModuleParameters { module, names }))
}

/// The parameters of the modules that options lines name, as far as their files say them. It fails only if memory runs out.
pub(crate) fn known_parameters<S: System>(
    host: &Host<'_, S>,
    directory: &[u8],
    conf: &Conf,
    index: &Index<'_>,
) -> Result<Vec<ModuleParameters>, AllocError> {
    let alloc = host.alloc();
    let mut known = Vec::new(alloc);
    let mut looked_up: IndexSet<Vec<u8>> = IndexSet::new(alloc);
    for line in conf.options() {
        let name = line.name.as_bytes();
        if !looked_up.insert(Vec::from_slice(alloc, name)?)? {
            continue;
        }
        if let Some(own) = parameters_of(host, directory, index, name)? {
            known.push(own)?;
        }
    }
    Ok(known)
}
