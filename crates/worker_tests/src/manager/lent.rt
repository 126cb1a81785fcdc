//! A lent book and two lent leaves in threads of their own.
ghost use Rattle.std.specs.Prelude.{◌≡◌, ◌<◌, All};
ghost use Rattle.dep_index.specs.Catalogue.{modules_of};
ghost use Rattle.root_row.specs.Made.{new_book, new_leaf};
ghost use Rattle.root_row.specs.Views.{worker_of};
ghost use Rattle.root_row.specs.World.{slots};
ghost use Rattle.root_row.specs.Seats.{IsOf};

use crate::leaves::steps::two_leaves;
use crate::leaves::threads::{meet_with_none, take_and_give_at_once};
use crate::sound::sound;
use dep_index::{Catalogue, ModuleState};
use module_table::Book;
use root_row::{BookSeat, LeafSeat, Row};
use std::sync::Wait;
use std::test::Fail;
use std::thread::{Threads, join_mut};
use use_indicator::Leaf;

const TURNS: u32 = 10_000;

/// Loads the first module and drains it over and over, and calls each first drain off; whether there is at most that
/// one at the end.
fn load_and_drain(row: &Row, book: &mut Book) -> bool
    requires inside { 0 < slots row.now.world }
    requires own { IsOf row.now book.old }
    ensures { IsOf row.now book.new }
{
    for _ in 0..TURNS {
        let _ = book.begin_load(row, 0);
        let _ = book.end_load(row, 0, true);
        let _ = book.begin_drain(row, 0);
        let _ = book.cancel_remove(row, 0);
        let _ = book.begin_drain(row, 0);
        let _ = book.end_remove(row, 0);
    }
    book.loaded() <= 1
}

/// Both leaves and the book at once; whether each was left as it ought to be.
fn all_at_once<R: Threads + Wait + Sync>(
    rt: &R,
    row: &Row,
    book: &mut Book,
    one: &mut Leaf,
    other: &mut Leaf,
) -> bool
    requires inside { 0 < slots row.now.world }
    requires book { IsOf row.now book.old }
    requires one { IsOf row.now one.old }
    requires other { IsOf row.now other.old }
    ensures book { IsOf row.now book.new }
    ensures one { IsOf row.now one.new }
    ensures other { IsOf row.now other.new }
{
    let ((mine, theirs), drained) = join_mut(
        rt,
        &mut ||
            requires inside { 0 < slots row.now.world }
            requires one { IsOf row.now one.now }
            requires other { IsOf row.now other.now }
        { take_and_give_at_once(rt, row, TURNS, one, other) },
        &mut || load_and_drain(row, book),
    );
    mine.0 == mine.1 && theirs.0 == theirs.1 && drained
}

/// All work at once, and leave nothing behind.
fn all_end_well<R: Threads + Wait + Sync>(
    rt: &R,
    row: &Row,
    book: &mut Book,
    leaves: (Leaf, Leaf),
) -> bool
    requires inside { 0 < slots row.now.world }
    requires book { IsOf row.now book.old }
    requires leaves { IsOf row.now leaves.0 × IsOf row.now leaves.1 }
{
    let (mut one, mut other) = leaves;
    let done = all_at_once(rt, row, book, &mut one, &mut other);
    let _ = book.end_remove(row, 0);
    meet_with_none(row, one, other) && done && book.state(0) == ModuleState::Absent
}

/// What the book and the leaves of these seats do at once.
fn on_seats<R: AllocGlobal + Threads + Wait + Sync>(
    rt: &R,
    catalogue: &Catalogue,
    row: &Row,
    seat: BookSeat,
    seats: Vec<LeafSeat>,
) -> Result<bool, Fail>
    requires inside { 0 < slots row.now.world }
    requires same { modules_of catalogue.now ≡ row.now.world.catalogue }
    requires new { seat ≡ new_book row.now.id row.now.world }
    requires leaves { All (λ s. s ≡ new_leaf row.now.id row.now.world (worker_of s.view)) seats.items }
{
    let leaves = two_leaves(rt.alloc(), row, seats)?;
    let mut book = Book::new(rt.alloc(), seat, catalogue)?;
    Ok(all_end_well(rt, row, &mut book, leaves))
}

#[test]
fn a_book_and_two_leaves(rt: HostRuntime) -> Result<(), Fail> {
    let catalogue = sound(rt.alloc())?;
    let (row, seats, seat, _) = Row::new(rt.alloc(), &catalogue, 2, 0)?;
    assert!(rt; row.slots() == 2);
    assert!(rt; on_seats(&rt, &catalogue, &row, seat, seats)?);
    Ok(())
}
