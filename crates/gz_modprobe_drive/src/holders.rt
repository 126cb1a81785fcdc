//! Which modules hold a module, as /sys/module has them (sysfs(5)).

use crate::listing::names_of;
use kmod_query::{Holders, States, has_users};
use modprobe_files::{Host, MODULES, System, holders_folder};
use std::alloc::AllocError;

/// Adds who holds a module, if that can be listed.
fn add_holders<S: System>(
    host: &Host<'_, S>,
    name: &[u8],
    holders: &mut Vec<Holders>,
) -> Result<(), AllocError> {
    let alloc = host.alloc();
    let folder = holders_folder(alloc, name)?;
    if let Some(names) = names_of(host, &folder)? {
        let module = Vec::from_slice(alloc, name)?;
        holders.push(Holders { module, names })?;
    }
    Ok(())
}

/// Who holds each module that is used, the names in the order of the bytes. It fails only if memory runs out.
pub(crate) fn read_holders<S: System>(
    host: &Host<'_, S>,
    states: &States,
) -> Result<Vec<Holders>, AllocError> {
    let mut holders = Vec::new(host.alloc());
    let modules = names_of(host, MODULES)?;
    for name in modules.as_deref().unwrap_or(&[]) {
        if has_users(states.of(name)) {
            add_holders(host, name, &mut holders)?;
        }
    }
    Ok(holders)
}
