//! Steps on the first slot of a row, each with what the next one asks for.
ghost use Rattle.std.specs.Prelude.{◌≡◌, ◌<◌, ◌∷◌, [], length, All, IfOk, IfSome, None, if◌then◌else◌};
ghost use Rattle.std.specs.Bool.{OnFalse};
ghost use Rattle.dep_index.specs.Table.{module_at, no_module};
ghost use Rattle.dep_index.specs.Calls.{book_refusal};
ghost use Rattle.dep_index.specs.Words.{closed};
ghost use Rattle.root_row.specs.World.{slots};
ghost use Rattle.root_row.specs.Views.{worker_of, reader_of, counts_of, count_of, book_of, state_in};
ghost use Rattle.root_row.specs.Seats.{IsOf};
ghost use Rattle.root_row.specs.Made.{new_leaf, new_reader, new_book};
ghost use Rattle.root_row.specs.BookSteps.{MayLeave};

use dep_index::{Call, ModuleState};
use root_row::{
    AskBeginDrain, AskBeginLoad, AskBeginRemove, AskCancelRemove, AskEndLoad, AskEndRemove,
    BookSeat, LeafCall, LeafSeat, ReadSeat, Row,
};
use std::alloc::Global;
use std::test::Fail;
use use_indicator::{Leaf, Reader};

/// A leaf's seat of a new row.
fn take_leaf(row: &Row, leaves: &mut Vec<LeafSeat>) -> Option<LeafSeat>
    requires { All (λ s. s ≡ new_leaf row.now.id row.now.world (worker_of s.view)) leaves.old.items }
    ensures others { All (λ s. s ≡ new_leaf row.now.id row.now.world (worker_of s.view)) leaves.new.items }
    ensures leaf { IfSome result (λ s. s ≡ new_leaf row.now.id row.now.world (worker_of s.view)) }
{
    leaves.pop()
}

/// The two last seats.
pub(super) fn two_seats(row: &Row, mut leaves: Vec<LeafSeat>) -> Option<(LeafSeat, LeafSeat)>
    requires { All (λ s. s ≡ new_leaf row.now.id row.now.world (worker_of s.view)) leaves.items }
    ensures first { IfSome result (λ s. s.0 ≡ new_leaf row.now.id row.now.world (worker_of s.0.view)) }
    ensures second { IfSome result (λ s. s.1 ≡ new_leaf row.now.id row.now.world (worker_of s.1.view)) }
{
    let second = take_leaf(row, &mut leaves)?;
    let first = take_leaf(row, &mut leaves)?;
    Some((first, second))
}

/// The leaves of the two last seats.
pub(crate) fn two_leaves(
    alloc: Global,
    row: &Row,
    seats: Vec<LeafSeat>,
) -> Result<(Leaf, Leaf), Fail>
    requires { All (λ s. s ≡ new_leaf row.now.id row.now.world (worker_of s.view)) seats.items }
    ensures { IfOk result (λ leaves. IsOf row.now leaves.0 × IsOf row.now leaves.1) }
{
    let (first, second) = two_seats(row, seats).ok_or("no leaf")?;
    let first = Leaf::new(alloc, first, row.slots())?;
    let second = Leaf::new(alloc, second, row.slots())?;
    Ok((first, second))
}

/// The reader of the last seat.
pub(super) fn one_reader(row: &Row, mut seats: Vec<ReadSeat>) -> Result<Reader, Fail>
    requires { All (λ s. s ≡ new_reader row.now.id row.now.world (reader_of s.view)) seats.items }
    ensures { IfOk result (IsOf row.now) }
{
    let seat = seats.pop().ok_or("no reader")?;
    Ok(Reader::new(seat))
}

/// Begins the first load of a new row, and answers the word that the look found.
fn begin_load(row: &Row, book: &mut BookSeat) -> u64
    requires inside { 0 < slots row.now.world }
    requires free { module_at row.now.world.catalogue 0 ≡ no_module }
    requires new { book.old ≡ new_book row.now.id row.now.world }
    ensures own { IsOf row.now book.new }
    ensures loading { state_in book.new.view 0 ≡ ModuleState.Loading }
    ensures wide { 0 < length (book_of book.new.view).states }
    ensures alone { (book_of book.new.view).order ≡ 0 ∷ [] }
{
    row.look_book::<AskBeginLoad>(book, 0)
}

/// Ends the load well, and answers the word that the look found.
fn end_load(row: &Row, book: &mut BookSeat) -> u64
    requires own { IsOf row.now book.old }
    requires inside { 0 < slots row.now.world }
    requires free { module_at row.now.world.catalogue 0 ≡ no_module }
    requires loading { state_in book.old.view 0 ≡ ModuleState.Loading }
    requires wide { 0 < length (book_of book.old.view).states }
    requires alone { (book_of book.old.view).order ≡ 0 ∷ [] }
    ensures own { IsOf row.now book.new }
    ensures live { state_in book.new.view 0 ≡ ModuleState.Live }
    ensures alone { (book_of book.new.view).order ≡ 0 ∷ [] }
{
    let found = row.look_book::<AskEndLoad>(book, 0);
    row.open(book, 0);
    found
}

/// Loads a new row's first module, and answers the words that the two looks found.
pub(super) fn load(row: &Row, book: &mut BookSeat) -> (u64, u64)
    requires inside { 0 < slots row.now.world }
    requires free { module_at row.now.world.catalogue 0 ≡ no_module }
    requires new { book.old ≡ new_book row.now.id row.now.world }
    ensures own { IsOf row.now book.new }
    ensures may { MayLeave book.new.view 0 }
    ensures live { state_in book.new.view 0 ≡ ModuleState.Live }
    ensures wide { 0 < length (book_of book.new.view).states }
{
    let begun = begin_load(row, book);
    let ended = end_load(row, book);
    (begun, ended)
}

/// Tries a removal that the book does not refuse: the word that the look found, and whether the exchange was made.
pub(super) fn remove(row: &Row, book: &mut BookSeat) -> (u64, bool)
    requires own { IsOf row.now book.old }
    requires inside { 0 < slots row.now.world }
    requires may { MayLeave book.old.view 0 }
    ensures own { IsOf row.now book.new }
    ensures still { OnFalse result.1 (MayLeave book.new.view 0) }
{
    let found = row.look_book::<AskBeginRemove>(book, 0);
    (found, row.try_close(book, 0))
}

/// Begins a drain that the book does not refuse, and answers the word that the look found.
pub(super) fn drain(row: &Row, book: &mut BookSeat) -> u64
    requires own { IsOf row.now book.old }
    requires inside { 0 < slots row.now.world }
    requires may { MayLeave book.old.view 0 }
    requires wide { 0 < length (book_of book.old.view).states }
    ensures own { IsOf row.now book.new }
    ensures draining { state_in book.new.view 0 ≡ ModuleState.Draining }
{
    let found = row.look_book::<AskBeginDrain>(book, 0);
    row.drain(book, 0);
    found
}

/// Tries to end a drain: the word that the look found, and whether the exchange was made.
pub(super) fn finish(row: &Row, book: &mut BookSeat) -> (u64, bool)
    requires own { IsOf row.now book.old }
    requires inside { 0 < slots row.now.world }
    requires draining { state_in book.old.view 0 ≡ ModuleState.Draining }
    ensures own { IsOf row.now book.new }
    ensures still { OnFalse result.1 (state_in book.new.view 0 ≡ ModuleState.Draining) }
{
    let found = row.look_book::<AskEndRemove>(book, 0);
    (found, row.try_close(book, 0))
}

/// Calls a drain off, and answers the word that the look found.
pub(super) fn undrain(row: &Row, book: &mut BookSeat) -> u64
    requires own { IsOf row.now book.old }
    requires inside { 0 < slots row.now.world }
    requires draining { state_in book.old.view 0 ≡ ModuleState.Draining }
    ensures own { IsOf row.now book.new }
{
    let found = row.look_book::<AskCancelRemove>(book, 0);
    row.undrain(book, 0);
    found
}

/// Begins a removal of a live module and calls it off. Answers the word that a look found between, or None if the
/// module is held.
pub(super) fn close_and_reopen(row: &Row, book: &mut BookSeat) -> Option<u64>
    requires own { IsOf row.now book.old }
    requires inside { 0 < slots row.now.world }
    requires may { MayLeave book.old.view 0 }
    requires live { state_in book.old.view 0 ≡ ModuleState.Live }
    requires wide { 0 < length (book_of book.old.view).states }
    ensures own { IsOf row.now book.new }
{
    if !row.try_close(book, 0) {
        return None;
    }
    let found = row.look_book::<AskCancelRemove>(book, 0);
    row.reopen(book, 0);
    Some(found)
}

/// A get's look by a leaf that does not hold the slot.
pub(super) fn look_get(row: &Row, leaf: &mut LeafSeat) -> u64
    requires own { IsOf row.now leaf.old }
    requires inside { 0 < slots row.now.world }
    requires none_held { count_of leaf.old.view 0 ≡ 0 }
    ensures own { IsOf row.now leaf.new }
    ensures counts { counts_of leaf.new.view ≡ counts_of leaf.old.view }
{
    row.look(leaf, 0, LeafCall::Get)
}

/// A get's exchange.
pub(super) fn arrive(row: &Row, leaf: &mut LeafSeat, expected: u64) -> bool
    requires own { IsOf row.now leaf.old }
    requires inside { 0 < slots row.now.world }
    requires none_held { count_of leaf.old.view 0 ≡ 0 }
    requires wide { 0 < length (counts_of leaf.old.view) }
    requires open { expected < closed }
    ensures own { IsOf row.now leaf.new }
    ensures held { count_of leaf.new.view 0 ≡ (if result then 1 else 0) }
    ensures wide { 0 < length (counts_of leaf.new.view) }
{
    row.try_arrive(leaf, 0, expected)
}

/// A put's look and its subtraction, if the leaf gives its last reference back. Answers the word that was found.
pub(super) fn put_last(row: &Row, leaf: &mut LeafSeat) -> u64
    requires own { IsOf row.now leaf.old }
    requires inside { 0 < slots row.now.world }
    requires last_held { count_of leaf.old.view 0 ≡ 1 }
    ensures own { IsOf row.now leaf.new }
{
    let found = row.look(leaf, 0, LeafCall::Put);
    row.depart(leaf, 0);
    found
}
