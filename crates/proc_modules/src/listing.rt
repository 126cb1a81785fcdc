//! The listings of a table of modules.
ghost use Rattle.std.specs.Prelude.{◌≡◌, ◌<◌, ◌++◌, length, All, IfOk, OnOk};
ghost use Rattle.dep_index.specs.Catalogue.{modules_of};
ghost use Rattle.dep_index.specs.Table.{references};
ghost use Rattle.proc_modules.specs.LineText.{line_text};
ghost use Rattle.proc_modules.specs.Listings.{names_of, line_at, columns, used_by, proc_text, lsmod_line, lsmod_text};
ghost use Rattle.proc_modules.specs.UserRows.{IsListed};

use crate::columns::{push_left, push_names, push_right};
use crate::entry::{Entry, push_line};
use crate::users::{listed, row};
use crate::write::push_number;
use dep_index::Catalogue;
use itoa::Buffer;
use seq_table::Modules;
use std::alloc::{AllocError, Global};

/// How many references there are to a module of these users.
fn references<M: Modules>(catalogue: &Catalogue, table: &M, slot: usize, users: &[u16]) -> u32
    requires over { M.catalogue table.now ≡ modules_of catalogue.now }
    requires listed { IsListed catalogue.now (M.table table.now) slot users.now }
    ensures { result ≡ references (modules_of catalogue.now) (M.table table.now) slot }
{
    table.pairs(slot) + users.len() as u32
}

/// Adds the line of /proc/modules of a module of these users.
fn push_listed<M: Modules>(
    text: &mut Vec<u8>,
    catalogue: &Catalogue,
    table: &M,
    slot: usize,
    users: &[u16],
) -> Result<(), AllocError>
    requires over { M.catalogue table.now ≡ modules_of catalogue.now }
    requires listed { IsListed catalogue.now (M.table table.now) slot users.now }
    ensures { OnOk result (text.new.items ≡ text.old.items ++ line_text (line_at catalogue.now (M.table table.now) slot)) }
{
    let entry = Entry {
        slot,
        state: table.state(slot),
        count: references(catalogue, table, slot, users),
        users,
    };
    push_line(text, catalogue, &entry)
}

/// The text of /proc/modules (proc(5)) for a table over the catalogue: a line for each module of the table, the
/// newest first, its users in the same order. A module that drains is shown as unloading.
pub fn proc_text<M: Modules>(
    alloc: Global,
    catalogue: &Catalogue,
    table: &M,
) -> Result<Vec<u8>, AllocError>
    requires { M.catalogue table.now ≡ modules_of catalogue.now }
    ensures { IfOk result (λ text. text.items ≡ proc_text catalogue.now (M.table table.now)) }
{
    let (newest, users) = listed(alloc, catalogue, table)?;
    let mut text = Vec::new(alloc);
    for slot in &newest {
        let slot = *slot as usize;
        push_listed(&mut text, catalogue, table, slot, row(&users, slot))?;
    }
    Ok(text)
}

/// Adds the first two columns of lsmod.
fn push_columns(text: &mut Vec<u8>, name: &[u8], size: &[u8]) -> Result<(), AllocError>
    ensures { OnOk result (text.new.items ≡ text.old.items ++ columns name.now size.now) }
{
    push_left(text, 19, name)?;
    text.push(b' ')?;
    push_right(text, 8, size)?;
    text.extend_from_slice(b"  ")?;
    Ok(())
}

/// Adds the users of a module in the last column of lsmod.
fn push_used_by(text: &mut Vec<u8>, catalogue: &Catalogue, users: &[u16]) -> Result<(), AllocError>
    requires { All (λ u. u < length catalogue.now) users.now }
    ensures { OnOk result (text.new.items ≡ text.old.items ++ used_by (names_of catalogue.now users.now)) }
{
    if users.is_empty() {
        return Ok(());
    }
    text.push(b' ')?;
    push_names(text, catalogue, users)
}

/// Adds the line of lsmod of a module of these users.
fn push_lsmod_line<M: Modules>(
    text: &mut Vec<u8>,
    catalogue: &Catalogue,
    table: &M,
    slot: usize,
    users: &[u16],
) -> Result<(), AllocError>
    requires over { M.catalogue table.now ≡ modules_of catalogue.now }
    requires listed { IsListed catalogue.now (M.table table.now) slot users.now }
    ensures { OnOk result (text.new.items ≡ text.old.items ++ lsmod_line catalogue.now (M.table table.now) slot) }
{
    let mut size = Buffer::new();
    push_columns(
        text,
        catalogue.name(slot),
        size.format(catalogue.size(slot)).as_bytes(),
    )?;
    push_number(text, references(catalogue, table, slot, users) as usize)?;
    push_used_by(text, catalogue, users)?;
    text.push(b'\n')?;
    Ok(())
}

/// The text of lsmod (lsmod(8)) for a table over the catalogue: a header, then for each module of the table, the
/// newest first, its name, its size, how many references there are to it, and its users, the newest first.
pub fn lsmod_text<M: Modules>(
    alloc: Global,
    catalogue: &Catalogue,
    table: &M,
) -> Result<Vec<u8>, AllocError>
    requires { M.catalogue table.now ≡ modules_of catalogue.now }
    ensures { IfOk result (λ text. text.items ≡ lsmod_text catalogue.now (M.table table.now)) }
{
    let (newest, users) = listed(alloc, catalogue, table)?;
    let mut text = Vec::new(alloc);
    push_columns(&mut text, b"Module", b"Size")?;
    text.extend_from_slice(b"Used by\n")?;
    for slot in &newest {
        let slot = *slot as usize;
        push_lsmod_line(&mut text, catalogue, table, slot, row(&users, slot))?;
    }
    Ok(text)
}
