//! The lines that make a table from the one in which each module is absent and no holder is there.
ghost use Rattle.std.specs.Prelude.{◌≡◌, ◌<◌, ◌++◌, [], length, codes, replicate, slice_index_or, IfOk, OnOk};
ghost use Rattle.dep_index.specs.Catalogue.{modules_of};
ghost use Rattle.held_lines.specs.Listings.{each_line};
ghost use Rattle.held_lines.specs.Snapshots.{texts_in, end_lines, load_lines, get_line, holder_lines, leave_lines, by_module, snapshot_of};

use dep_index::ModuleState;
use held_table::HeldTable;
use modprobe::Setup;
use seq_table::Modules;
use std::alloc::{AllocError, Global};

/// A word and a space, a name, and what stands behind it.
fn line_of(alloc: Global, word: &[u8], name: &[u8], end: &[u8]) -> Result<Vec<u8>, AllocError>
    ensures { IfOk result (λ line. line.items ≡ word.now ++ (name.now ++ end.now)) }
{
    let mut line = Vec::from_slice(alloc, word)?;
    line.extend_from_slice(name)?;
    line.extend_from_slice(end)?;
    Ok(line)
}

/// Adds the line by which a load ends, unless the module loads still.
fn push_end(
    lines: &mut Vec<Vec<u8>>,
    alloc: Global,
    name: &[u8],
    state: ModuleState,
) -> Result<(), AllocError>
    ensures { OnOk result (texts_in lines.new.items ≡ texts_in lines.old.items ++ end_lines name.now state) }
{
    match state {
        ModuleState::Loading => {}
        _ => lines.push(line_of(alloc, b"end_load ", name, b" ok")?)?,
    }
    Ok(())
}

/// Adds the lines that load a module, up to its state.
fn push_load(
    lines: &mut Vec<Vec<u8>>,
    alloc: Global,
    name: &[u8],
    state: ModuleState,
) -> Result<(), AllocError>
    ensures { OnOk result (texts_in lines.new.items ≡ texts_in lines.old.items ++ load_lines name.now state) }
{
    lines.push(line_of(alloc, b"begin_load ", name, b"")?)?;
    push_end(lines, alloc, name, state)
}

/// Adds the line by which a module drains or unloads, if it does.
fn push_leave(
    lines: &mut Vec<Vec<u8>>,
    alloc: Global,
    name: &[u8],
    state: ModuleState,
) -> Result<(), AllocError>
    ensures { OnOk result (texts_in lines.new.items ≡ texts_in lines.old.items ++ leave_lines name.now state) }
{
    match state {
        ModuleState::Draining => lines.push(line_of(alloc, b"drain ", name, b"")?)?,
        ModuleState::Unloading => lines.push(line_of(alloc, b"begin_remove ", name, b"")?)?,
        _ => {}
    }
    Ok(())
}

/// Adds a get for each of so many references of a holder to a module.
fn push_gets(
    lines: &mut Vec<Vec<u8>>,
    alloc: Global,
    holder: &[u8],
    name: &[u8],
    count: u32,
) -> Result<(), AllocError>
    ensures { OnOk result (texts_in lines.new.items ≡ texts_in lines.old.items ++ replicate count (get_line holder.now name.now)) }
{
    for _ in 0..count {
        let mut line = line_of(alloc, b"get ", holder, b" ")?;
        line.extend_from_slice(name)?;
        lines.push(line)?;
    }
    Ok(())
}

/// Adds the lines that load the modules of the table, the oldest first.
#[tactic(auto, using(crate::proofs::SlotLemmas::modules_of_length))]
fn push_loads<M: Modules>(
    lines: &mut Vec<Vec<u8>>,
    alloc: Global,
    setup: &Setup,
    table: &M,
) -> Result<(), AllocError>
    requires { M.catalogue table.now ≡ modules_of setup.now.catalogue }
    ensures { OnOk result (texts_in lines.new.items ≡ texts_in lines.old.items ++ by_module setup.now (M.table table.now).book load_lines) }
{
    for place in 0..table.loaded() {
        let slot = table.loaded_at(place);
        push_load(
            lines,
            alloc,
            setup.catalogue().name(slot),
            table.state(slot),
        )?;
    }
    Ok(())
}

/// Adds the lines by which modules of the table drain or unload, the oldest first.
#[tactic(auto, using(crate::proofs::SlotLemmas::modules_of_length))]
fn push_leaves<M: Modules>(
    lines: &mut Vec<Vec<u8>>,
    alloc: Global,
    setup: &Setup,
    table: &M,
) -> Result<(), AllocError>
    requires { M.catalogue table.now ≡ modules_of setup.now.catalogue }
    ensures { OnOk result (texts_in lines.new.items ≡ texts_in lines.old.items ++ by_module setup.now (M.table table.now).book leave_lines) }
{
    for place in 0..table.loaded() {
        let slot = table.loaded_at(place);
        push_leave(
            lines,
            alloc,
            setup.catalogue().name(slot),
            table.state(slot),
        )?;
    }
    Ok(())
}

/// Adds a get for each reference of a holder, the oldest module first.
#[tactic(auto, using(crate::proofs::SlotLemmas::modules_of_length))]
fn push_holder(
    lines: &mut Vec<Vec<u8>>,
    alloc: Global,
    setup: &Setup,
    holders: &HeldTable,
    number: usize,
) -> Result<(), AllocError>
    requires over { holders.now.catalogue ≡ modules_of setup.now.catalogue }
    requires number { number < length holders.now.held.names }
    ensures { OnOk result (texts_in lines.new.items ≡ texts_in lines.old.items ++ holder_lines setup.now holders.now.held.table number (slice_index_or holders.now.held.names number [])) }
{
    holders.holder_laws();
    let holder = holders.name(number).as_bytes();
    for place in 0..holders.loaded() {
        let slot = holders.loaded_at(place);
        let count = holders.held(number, slot);
        push_gets(lines, alloc, holder, setup.catalogue().name(slot), count)?;
    }
    Ok(())
}

/// Adds a get for each reference, by the holders' numbers.
fn push_holders(
    lines: &mut Vec<Vec<u8>>,
    alloc: Global,
    setup: &Setup,
    holders: &HeldTable,
) -> Result<(), AllocError>
    requires { holders.now.catalogue ≡ modules_of setup.now.catalogue }
    ensures { OnOk result (texts_in lines.new.items ≡ texts_in lines.old.items ++ each_line (holder_lines setup.now holders.now.held.table) 0 holders.now.held.names) }
{
    holders.holder_laws();
    for number in 0..holders.workers() {
        push_holder(lines, alloc, setup, holders, number)?;
    }
    Ok(())
}

/// The lines of a table: its modules are loaded, its holders take their references, and then modules drain and unload.
pub(crate) fn snapshot(
    alloc: Global,
    setup: &Setup,
    holders: &HeldTable,
) -> Result<Vec<Vec<u8>>, AllocError>
    requires { holders.now.catalogue ≡ modules_of setup.now.catalogue }
    ensures { IfOk result (λ lines. texts_in lines.items ≡ snapshot_of setup.now holders.now.held) }
{
    let mut lines = Vec::new(alloc);
    push_loads(&mut lines, alloc, setup, holders)?;
    push_holders(&mut lines, alloc, setup, holders)?;
    push_leaves(&mut lines, alloc, setup, holders)?;
    Ok(lines)
}
