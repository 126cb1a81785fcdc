//! The modules of a table, the newest first, and who uses them.
ghost use Rattle.std.specs.Prelude.{◌≡◌, ◌<◌, ◌≤◌, ℕ, [], ◌∷◌, ◌++◌, length, filter, replicate, slice_index_or, slice_set, vec_len, All, IfOk, OnOk};
ghost use Rattle.dep_index.specs.Table.{needs_slot};
ghost use Rattle.dep_index.specs.Catalogue.{modules_of};
ghost use Rattle.seq_table.specs.Rows.{rows_of};
ghost use Rattle.proc_modules.specs.Listings.{newest_first};
ghost use Rattle.proc_modules.specs.UserRows.{EachOnce, with_user_at, WithUser, HaveUsers, AllListed};

use dep_index::Catalogue;
use seq_table::Modules;
use std::alloc::{AllocError, Global};

/// The modules of the table, the newest first.
fn newest_first<M: Modules>(alloc: Global, table: &M) -> Result<Vec<u16>, AllocError>
    ensures order { IfOk result (λ found. found.items ≡ newest_first (M.table table.now)) }
    ensures slots { IfOk result (λ found. All (λ slot. slot < length (M.catalogue table.now)) found.items) }
    ensures few { IfOk result (λ found. length found.items ≤ 65535) }
{
    let loaded = table.loaded();
    let mut found = Vec::new(alloc);
    for age in 0..loaded {
        prove!(age < loaded);
        let slot = table.loaded_at(loaded - 1 - age);
        prove!(slot < table.slots());
        found.push(slot as u16)?;
    }
    Ok(found)
}

/// Adds a slot to the row of another.
fn push_user(rows: &mut Vec<Vec<u16>>, slot: usize, user: u16) -> Result<(), AllocError>
    requires { slot < length rows.old.items }
    ensures after { OnOk result (rows_of rows.new.items ≡ with_user_at (rows_of rows.old.items) slot user) }
    ensures len { OnOk result (vec_len rows.new ≡ vec_len rows.old) }
{
    let row = &mut rows[slot];
    row.push(user)?;
    Ok(())
}

/// Adds a user to the rows of what it needs.
fn push_to_needs(rows: &mut Vec<Vec<u16>>, needs: &[u16], user: u16) -> Result<(), AllocError>
    requires within { All (λ n. n < length rows.old.items) needs.now }
    requires once { EachOnce needs.now }
    ensures after { OnOk result (WithUser (rows_of rows.old.items) (rows_of rows.new.items) needs.now user) }
    ensures len { OnOk result (vec_len rows.new ≡ vec_len rows.old) }
{
    for need in needs {
        push_user(rows, *need as usize, user)?;
    }
    Ok(())
}

fn empty_rows(alloc: Global, len: usize) -> Result<Vec<Vec<u16>>, AllocError>
    ensures { IfOk result (λ rows. rows_of rows.items ≡ replicate len []) }
{
    let mut rows = Vec::with_capacity(alloc, len)?;
    for _ in 0..len {
        rows.push(Vec::new(alloc))?;
    }
    Ok(rows)
}

/// For each slot of the catalogue those of the modules that need it, in their order. The time is linear in the
/// modules and their needs.
fn users_by_slot(
    alloc: Global,
    catalogue: &Catalogue,
    modules: &[u16],
) -> Result<Vec<Vec<u16>>, AllocError>
    requires { All (λ slot. slot < length catalogue.now) modules.now }
    ensures len { IfOk result (λ rows. length rows.items ≡ length catalogue.now) }
    ensures users { IfOk result (λ rows. HaveUsers catalogue.now modules.now (rows_of rows.items)) }
{
    let mut rows = empty_rows(alloc, catalogue.len())?;
    for user in modules {
        push_to_needs(&mut rows, catalogue.needs(*user as usize), *user)?;
    }
    Ok(rows)
}

/// The modules of the table, the newest first, and for each slot its users, the newest first.
pub(crate) fn listed<M: Modules>(
    alloc: Global,
    catalogue: &Catalogue,
    table: &M,
) -> Result<(Vec<u16>, Vec<Vec<u16>>), AllocError>
    requires { M.catalogue table.now ≡ modules_of catalogue.now }
    ensures modules { IfOk result (λ x. x.0.items ≡ newest_first (M.table table.now)) }
    ensures users { IfOk result (λ x. AllListed catalogue.now (M.table table.now) x.0.items (rows_of x.1.items)) }
{
    let newest = newest_first(alloc, table)?;
    let users = users_by_slot(alloc, catalogue, &newest)?;
    Ok((newest, users))
}

/// The row of a slot.
pub(crate) fn row(rows: &[Vec<u16>], slot: usize) -> &[u16]
    requires { slot < length (rows_of rows.now) }
    ensures { result.now ≡ slice_index_or (rows_of rows.now) slot [] }
{
    &rows[slot]
}
