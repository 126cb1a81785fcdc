//! What keeps a module in the table.
ghost use Rattle.std.specs.Prelude.{◌≡◌, ◌<◌, length, IfOk};
ghost use Rattle.dep_index.specs.Table.{users};
ghost use Rattle.modsh_drive.specs.Holders.{holders_of};

use seq_table::Modules;
use std::alloc::{AllocError, Global};

/// The modules of the table that need this one, the oldest first.
pub(crate) fn users<M: Modules>(
    alloc: Global,
    table: &M,
    slot: usize,
) -> Result<Vec<usize>, AllocError>
    requires { slot < length (M.catalogue table.now) }
    ensures { IfOk result (λ found. found.items ≡ users (M.catalogue table.now) (M.table table.now).book slot) }
{
    let mut found = Vec::new(alloc);
    for place in 0..table.loaded() {
        let user = table.loaded_at(place);
        if table.is_user(user, slot) {
            found.push(user)?;
        }
    }
    Ok(found)
}

/// The workers that hold the module, in their order.
pub(crate) fn holders<M: Modules>(
    alloc: Global,
    table: &M,
    slot: usize,
) -> Result<Vec<usize>, AllocError>
    requires { slot < length (M.catalogue table.now) }
    ensures { IfOk result (λ found. found.items ≡ holders_of (M.table table.now) slot) }
{
    let mut found = Vec::new(alloc);
    for worker in 0..table.workers() {
        if table.held(worker, slot) > 0 {
            found.push(worker)?;
        }
    }
    Ok(found)
}
