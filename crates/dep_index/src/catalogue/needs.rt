//! Which slots a slot needs.
ghost use Rattle.std.specs.Prelude.{◌≡◌, ◌+◌, ◌<◌, ◌≤◌, ℕ, List, [], is_none, length, slice_index, Some, IfOk, IfSome, OnOk};
ghost use Rattle.std.specs.List.{list_any};
ghost use Rattle.dep_index.specs.Catalogue.{modules_of, with_need};
ghost use Rattle.dep_index.specs.Catalogue.Descriptions.{descriptions_in};
ghost use Rattle.dep_index.specs.Catalogue.Exports.{slot_at, links_of, needs_by};
ghost use Rattle.dep_index.specs.Catalogue.Marks.{IsMarked};

use crate::catalogue::details::Details;
use crate::catalogue::exporters::Exporters;
use crate::catalogue::symbols::Symbols;
use crate::table::slots::Slots;
use indexmap::IndexMap;
use std::alloc::{AllocError, Global};

/// Adds a need to the needs of a slot, unless it is the slot itself or is there already. `marks` has `turn` at just the needs
/// that are there, so no list is searched.
fn add_need(
    needs: &mut Vec<u16>,
    marks: &mut [u16],
    slot: u16,
    turn: u16,
    need: u16,
) -> Result<(), AllocError>
    requires slot { need < length marks.old }
    requires marked { IsMarked turn marks.old needs.old.items }
    ensures needs { OnOk result (needs.new.items ≡ with_need slot needs.old.items (Some need)) }
    ensures marked { OnOk result (IsMarked turn marks.new needs.new.items) }
{
    if need != slot && marks[need as usize] != turn {
        needs.push(need)?;
        marks[need as usize] = turn;
    }
    Ok(())
}

/// What the symbols that a module needs come to.
#[derive(Drop)]
struct Needs {
    slots: Vec<u16>,
    unknown_symbol: bool,
}

/// The slots of the exporters of the symbols, each once and without the slot itself, and whether no module exports one
/// of the symbols. Each symbol is looked up once.
fn needs_of(
    alloc: Global,
    exporters: &Exporters<'_>,
    marks: &mut [u16],
    slot: u16,
    symbols: &Symbols,
) -> Result<Needs, AllocError>
    requires small { slot < 65535 }
    requires slots { (s : List ℕ) → IfSome (slot_at exporters.now s) (λ k. k < length marks.old) }
    requires marks { (k : ℕ) → slice_index marks.old k ≤ slot }
    ensures needs { IfOk result (λ needs. needs.slots.items ≡ needs_by exporters.now slot [] symbols.now) }
    ensures unknown { IfOk result (λ needs. needs.unknown_symbol ≡ list_any (λ s. is_none (slot_at exporters.now s)) symbols.now) }
    ensures marks { OnOk result ((k : ℕ) → slice_index marks.new k ≤ slot + 1) }
{
    let mut slots = Vec::new(alloc);
    let mut unknown_symbol = false;
    let mut left = symbols.iter();
    'symbols: while let Some((symbol, rest)) = left.split_first() {
        match exporters.slot(symbol) {
            Some(k) => add_need(&mut slots, marks, slot, slot + 1, k)?,
            None => unknown_symbol = true,
        }
        left = rest;
    }
    Ok(Needs {
        slots,
        unknown_symbol,
    })
}

/// Needs and marks of all modules, by slot.
pub(crate) fn slots_of(
    alloc: Global,
    modules: &IndexMap<Vec<u8>, Details>,
    exporters: &Exporters<'_>,
) -> Result<Slots, AllocError>
    requires links { exporters.now ≡ links_of (descriptions_in modules.now.entries) }
    requires few { length modules.now.entries ≤ 65535 }
    ensures { IfOk result (λ slots. slots ≡ modules_of (descriptions_in modules.now.entries)) }
{
    let mut marks = vec![in alloc; 0u16; modules.len()]?;
    let marks = marks.as_mut_slice();
    let mut slots = Slots::new(alloc);
    for slot in 0..modules.len() {
        let (_, details) = modules.get_index(slot).unwrap();
        let symbols = &details.needed_symbols;
        let needs = needs_of(alloc, exporters, marks, slot as u16, symbols)?;
        slots.push(needs.slots, needs.unknown_symbol, details.permanent)?;
    }
    Ok(slots)
}
