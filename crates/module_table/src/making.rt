//! The locks and readers of a new manager.
ghost use Rattle.std.specs.Prelude.{◌≡◌, All, IfOk, length};
ghost use Rattle.std.specs.Arc.{arc_value};
ghost use Rattle.root_row.specs.Made.{new_leaf};
ghost use Rattle.root_row.specs.Views.{worker_of};

use crate::own_leaf::OwnLeaf;
use crossbeam_utils::CachePadded;
use root_row::{LeafSeat, ReadSeat, Row};
use std::alloc::{AllocError, Global};
use std::sync::{Arc, Mutex};
use use_indicator::{Leaf, Reader};

// A lock for each new seat of the row.
pub(crate) fn own_leaves(
    alloc: Global,
    row: &Arc<Row, Global>,
    seats: Vec<LeafSeat>,
) -> Result<Vec<CachePadded<Mutex<OwnLeaf>>>, AllocError>
    requires { All (λ s. s ≡ new_leaf (arc_value row.now).id (arc_value row.now).world (worker_of s.view)) seats.items }
    ensures { IfOk result (λ locks. length locks.items ≡ length seats.items) }
{
    let mut locks = Vec::new(alloc);
    for seat in seats {
        let lock = own_leaf(alloc, row, seat)?;
        locks.push(CachePadded::new(lock))?;
    }
    Ok(locks)
}

fn own_leaf(
    alloc: Global,
    row: &Arc<Row, Global>,
    seat: LeafSeat,
) -> Result<Mutex<OwnLeaf>, AllocError>
    requires { seat ≡ new_leaf (arc_value row.now).id (arc_value row.now).world (worker_of seat.view) }
{
    let leaf = Leaf::new(alloc, seat, row.slots())?;
    let row = Arc::try_clone(row)?;
    Ok(Mutex::new(OwnLeaf::new(leaf, row)))
}

pub(crate) fn readers_of(alloc: Global, seats: Vec<ReadSeat>) -> Result<Vec<Reader>, AllocError>
    ensures { IfOk result (λ readers. readers.items ≡ seats.items) }
{
    let mut readers = Vec::with_capacity(alloc, seats.len())?;
    for seat in seats {
        readers.push(Reader::new(seat))?;
    }
    Ok(readers)
}
