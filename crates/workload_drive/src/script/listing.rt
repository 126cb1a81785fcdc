//! The modules that a script leaves, as lines of /proc/modules (proc(5)).
ghost use Rattle.std.specs.Prelude.{◌≡◌, ◌<◌, length, All, IfOk};

use super::calls::Calls;
use dep_index::{Catalogue, ModuleState};
use proc_modules::{Entry, push_line};
use std::alloc::{AllocError, Global};
use std::sync::Wait;

/// The modules of the table that are in the catalogue, the newest first.
fn newest_first<R: AllocGlobal + Wait, C: Calls>(
    rt: &R,
    catalogue: &Catalogue,
    calls: &mut C,
) -> Result<Vec<u16>, AllocError>
    ensures { IfOk result (λ found. All (λ slot. slot < length catalogue.now) found.items) }
{
    let loaded = calls.loaded(rt);
    let mut found = Vec::new(rt.alloc());
    for age in 0..loaded {
        match calls.loaded_at(rt, loaded - 1 - age) {
            Some(slot) if slot < catalogue.len() => found.push(slot as u16)?,
            _ => {}
        }
    }
    Ok(found)
}

/// The users of a module among these, in their order.
fn users_of(
    alloc: Global,
    catalogue: &Catalogue,
    modules: &[u16],
    slot: u16,
) -> Result<Vec<u16>, AllocError>
    requires { All (λ user. user < length catalogue.now) modules.now }
    ensures { IfOk result (λ users. All (λ user. user < length catalogue.now) users.items) }
{
    let mut users = Vec::new(alloc);
    for user in modules {
        if catalogue.needs(*user as usize).contains(&slot) {
            users.push(*user)?;
        }
    }
    Ok(users)
}

/// How often the workers hold a module.
fn held<R: Wait, C: Calls>(rt: &R, calls: &mut C, slot: usize) -> u32 {
    let mut held = 0u32;
    for worker in 0..calls.workers() {
        let count = calls.held(rt, worker, slot).unwrap_or(0);
        held = held.saturating_add(count);
    }
    held
}

/// What is shown of a module of these users.
fn entry<'a, R: Wait, C: Calls>(rt: &R, calls: &mut C, slot: usize, users: &'a [u16]) -> Entry<'a>
    ensures slot { result.slot ≡ slot }
    ensures users { result.users.now ≡ users.now }
{
    let used = u32::try_from(users.len()).unwrap_or(u32::MAX);
    Entry {
        slot,
        state: calls.state(rt, slot).unwrap_or(ModuleState::Absent),
        count: held(rt, calls, slot).saturating_add(used),
        users,
    }
}

/// A line for each module of the table, the newest first, with the counts of all workers.
pub(super) fn listing<R: AllocGlobal + Wait, C: Calls>(
    rt: &R,
    catalogue: &Catalogue,
    calls: &mut C,
) -> Result<Vec<u8>, AllocError> {
    let newest = newest_first(rt, catalogue, calls)?;
    let mut text = Vec::new(rt.alloc());
    for slot in &newest {
        let users = users_of(rt.alloc(), catalogue, &newest, *slot)?;
        let entry = entry(rt, calls, *slot as usize, &users);
        push_line(&mut text, catalogue, &entry)?;
    }
    Ok(text)
}
