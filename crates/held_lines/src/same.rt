//! Whether two tables with holders are the same.
ghost use Rattle.std.specs.Prelude.{◌≡◌, ◌<◌, ℕ, true, [], length, slice_index_or, IfOk};
ghost use Rattle.dep_index.specs.Table.{count_of};

use crate::book_copy::BookCopy;
use held_table::HeldTable;
use seq_table::Modules;
use std::alloc::{AllocError, Global};

/// Whether a holder holds the same in two tables whose modules have the same states.
fn holds_same<M: Modules>(table: &M, other: &M, number: usize) -> bool
    requires catalogue { M.catalogue other.now ≡ M.catalogue table.now }
    requires book { (M.table other.now).book ≡ (M.table table.now).book }
    requires number { number < length (M.table table.now).rows }
    requires too { number < length (M.table other.now).rows }
    ensures is { result ≡ true → slice_index_or (M.table other.now).rows number [] ≡ slice_index_or (M.table table.now).rows number [] }
    ensures all { slice_index_or (M.table other.now).rows number [] ≡ slice_index_or (M.table table.now).rows number [] → result ≡ true }
{
    table.laws();
    other.laws();
    for place in 0..table.loaded() {
        let slot = table.loaded_at(place);
        if other.held(number, slot) != table.held(number, slot) {
            return false;
        }
    }
    true
}

/// Whether the holders of a number have one name.
fn has_same_name(holders: &HeldTable, other: &HeldTable, number: usize) -> bool
    requires number { number < length holders.now.held.names }
    requires too { number < length other.now.held.names }
    ensures is { result ≡ true → slice_index_or other.now.held.names number [] ≡ slice_index_or holders.now.held.names number [] }
    ensures all { slice_index_or other.now.held.names number [] ≡ slice_index_or holders.now.held.names number [] → result ≡ true }
{
    other.name(number).as_bytes() == holders.name(number).as_bytes()
}

/// Whether the same holders hold the same in two tables whose modules have the same states.
fn has_same_holders(holders: &HeldTable, other: &HeldTable) -> bool
    requires catalogue { other.now.catalogue ≡ holders.now.catalogue }
    requires book { other.now.held.table.book ≡ holders.now.held.table.book }
    ensures is { result ≡ true → other.now.held ≡ holders.now.held }
    ensures all { other.now.held ≡ holders.now.held → result ≡ true }
{
    holders.holder_laws();
    other.holder_laws();
    if other.workers() != holders.workers() {
        return false;
    }
    for number in 0..holders.workers() {
        if !has_same_name(holders, other, number) || !holds_same(holders, other, number) {
            return false;
        }
    }
    true
}

/// Whether two tables over one catalogue are the same, with their holders.
pub(crate) fn is_same(
    alloc: Global,
    holders: &HeldTable,
    other: &HeldTable,
) -> Result<bool, AllocError>
    requires { other.now.catalogue ≡ holders.now.catalogue }
    ensures is { IfOk result (λ is_same. is_same ≡ true → other.now.held ≡ holders.now.held) }
    ensures all { IfOk result (λ is_same. other.now.held ≡ holders.now.held → is_same ≡ true) }
{
    let book = BookCopy::of(alloc, holders)?;
    Ok(book.is_of(other) && has_same_holders(holders, other))
}
