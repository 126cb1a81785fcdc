//! The words that looks find if they are no points, and the exchange of a leaf.
ghost use Rattle.std.specs.Prelude.{◌≡◌, ◌<◌, length, All};
ghost use Rattle.std.specs.Bool.{OnTrue};
ghost use Rattle.dep_index.specs.Table.{module_at, no_module};
ghost use Rattle.root_row.specs.World.{slots};
ghost use Rattle.root_row.specs.Seats.{IsOf};
ghost use Rattle.root_row.specs.Made.{new_leaf, new_book};
ghost use Rattle.root_row.specs.Views.{book_of, counts_of, count_of, worker_of};
ghost use Rattle.root_row.specs.BookSteps.{MayLeave};

use super::new_row;
use super::steps::{arrive, drain, finish, load, look_get, put_last, remove, two_seats};
use dep_index::words::{CLOSED, DRAINED};
use root_row::{BookSeat, LeafSeat, Row};
use std::test::Fail;

/// A leaf finds this word, misses the exchange of another, and makes the exchange of this one.
fn enters(row: &Row, leaf: &mut LeafSeat, word: u64) -> bool
    requires inside { 0 < slots row.now.world }
    requires leaf { IsOf row.now leaf.old }
    requires none_held { count_of leaf.old.view 0 ≡ 0 }
    requires wide { 0 < length (counts_of leaf.old.view) }
    requires few { word < 64 }
    ensures leaf { IsOf row.now leaf.new }
    ensures held { OnTrue result (count_of leaf.new.view 0 ≡ 1) }
{
    look_get(row, leaf) == word && !arrive(row, leaf, word + 1) && arrive(row, leaf, word)
}

/// Both leaves put, the first before a drain and the second in it. Then the module leaves.
fn both_put(row: &Row, book: &mut BookSeat, first: &mut LeafSeat, second: &mut LeafSeat) -> bool
    requires inside { 0 < slots row.now.world }
    requires book { IsOf row.now book.old }
    requires may { MayLeave book.old.view 0 }
    requires wide { 0 < length (book_of book.old.view).states }
    requires first { IsOf row.now first.old × (count_of first.old.view 0 ≡ 1) }
    requires second { IsOf row.now second.old × (count_of second.old.view 0 ≡ 1) }
{
    let last = put_last(row, first);
    let found = drain(row, book);
    let (refused, closed) = finish(row, book);
    if closed {
        return false;
    }
    let late = put_last(row, second);
    let end = finish(row, book);
    [last, found, refused, late] == [2, 1, DRAINED + 1, DRAINED + 1] && end == (DRAINED, true)
}

/// Both leaves enter, so the module is not removed.
fn both_enter(row: &Row, book: &mut BookSeat, seats: &mut (LeafSeat, LeafSeat)) -> bool
    requires inside { 0 < slots row.now.world }
    requires book { IsOf row.now book.old }
    requires may { MayLeave book.old.view 0 }
    requires wide { 0 < length (book_of book.old.view).states }
    requires first { seats.old.0 ≡ new_leaf row.now.id row.now.world (worker_of seats.old.0.view) }
    requires second { seats.old.1 ≡ new_leaf row.now.id row.now.world (worker_of seats.old.1.view) }
{
    let (first, second) = seats;
    if !enters(row, first, 0) || !enters(row, second, 1) {
        return false;
    }
    let (word, closed) = remove(row, book);
    word == 2 && !closed && both_put(row, book, first, second)
}

/// The load of the first module and what comes of it with the last two seats; None if there are fewer.
fn are_right(row: &Row, book: &mut BookSeat, leaves: Vec<LeafSeat>) -> Option<bool>
    requires inside { 0 < slots row.now.world }
    requires free { module_at row.now.world.catalogue 0 ≡ no_module }
    requires new { book.old ≡ new_book row.now.id row.now.world }
    requires leaves { All (λ s. s ≡ new_leaf row.now.id row.now.world (worker_of s.view)) leaves.items }
{
    let mut seats = two_seats(row, leaves)?;
    Some(load(row, book) == (CLOSED, CLOSED) && both_enter(row, book, &mut seats))
}

#[test]
fn looks_answer_the_word(rt: HostRuntime) -> Result<(), Fail> {
    let (row, leaves, mut book, _) = new_row(rt.alloc())?;
    assert!(rt; are_right(&row, &mut book, leaves) == Some(true));
    Ok(())
}
