//! A copy of which modules a table has, and in which states.
ghost use Rattle.std.specs.Prelude.{◌≡◌, true, IfOk};
ghost use Rattle.held_lines.specs.ForProofs.{IsBookOf};

use dep_index::ModuleState;
use seq_table::Modules;
use std::alloc::{AllocError, Global};

/// The states of all modules, and the order of those in the table, as they were.
#[derive(Drop)]
pub(crate) struct BookCopy {
    states: Vec<ModuleState>,
    order: Vec<usize>,
}

fn copy_states<M: Modules>(alloc: Global, table: &M) -> Result<Vec<ModuleState>, AllocError>
    ensures { IfOk result (λ states. states.items ≡ (M.table table.now).book.states) }
{
    table.laws();
    let mut states = Vec::new(alloc);
    for slot in 0..table.slots() {
        states.push(table.state(slot))?;
    }
    Ok(states)
}

fn copy_order<M: Modules>(alloc: Global, table: &M) -> Result<Vec<usize>, AllocError>
    ensures { IfOk result (λ order. order.items ≡ (M.table table.now).book.order) }
{
    let mut order = Vec::new(alloc);
    for place in 0..table.loaded() {
        order.push(table.loaded_at(place))?;
    }
    Ok(order)
}

/// Whether the two states are one.
fn is_same(state: ModuleState, other: ModuleState) -> bool
    ensures is { result ≡ true → state ≡ other }
    ensures all { state ≡ other → result ≡ true }
{
    state == other
}

fn has_states<M: Modules>(states: &[ModuleState], table: &M) -> bool
    ensures is { result ≡ true → states.now ≡ (M.table table.now).book.states }
    ensures all { states.now ≡ (M.table table.now).book.states → result ≡ true }
{
    table.laws();
    if states.len() != table.slots() {
        return false;
    }
    for (slot, state) in states.iter().enumerate() {
        if !is_same(*state, table.state(slot)) {
            return false;
        }
    }
    true
}

fn has_order<M: Modules>(order: &[usize], table: &M) -> bool
    ensures is { result ≡ true → order.now ≡ (M.table table.now).book.order }
    ensures all { order.now ≡ (M.table table.now).book.order → result ≡ true }
{
    if order.len() != table.loaded() {
        return false;
    }
    for (place, slot) in order.iter().enumerate() {
        if *slot != table.loaded_at(place) {
            return false;
        }
    }
    true
}

impl BookCopy {
    pub(crate) fn of<M: Modules>(alloc: Global, table: &M) -> Result<BookCopy, AllocError>
        ensures { IfOk result (λ copy. IsBookOf copy (M.table table.now)) }
    {
        Ok(BookCopy {
            states: copy_states(alloc, table)?,
            order: copy_order(alloc, table)?,
        })
    }

    /// Whether it is the table's book.
    pub(crate) fn is_of<M: Modules>(&self, table: &M) -> bool
        ensures is { result ≡ true → IsBookOf self.now (M.table table.now) }
        ensures all { IsBookOf self.now (M.table table.now) → result ≡ true }
    {
        has_states(&self.states, table) && has_order(&self.order, table)
    }
}
