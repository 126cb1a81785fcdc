//! The leaves and readers of a new row.
ghost use Rattle.std.specs.Prelude.{◌≡◌, All, IfOk};
ghost use Rattle.root_row.specs.Made.{new_leaf};
ghost use Rattle.root_row.specs.Views.{worker_of};

use root_row::{LeafSeat, ReadSeat, Row};
use std::alloc::{AllocError, Global};
use use_indicator::{Leaf, Reader};

pub(crate) fn leaves_of(
    alloc: Global,
    row: &Row,
    seats: Vec<LeafSeat>,
) -> Result<Vec<Leaf>, AllocError>
    requires { All (λ s. s ≡ new_leaf row.now.id row.now.world (worker_of s.view)) seats.items }
    ensures { IfOk result (λ leaves. leaves.items ≡ seats.items) }
{
    let mut leaves = Vec::with_capacity(alloc, seats.len())?;
    for seat in seats {
        leaves.push(Leaf::new(alloc, seat, row.slots())?)?;
    }
    Ok(leaves)
}

pub(crate) fn readers_of(alloc: Global, seats: Vec<ReadSeat>) -> Result<Vec<Reader>, AllocError>
    ensures { IfOk result (λ readers. readers.items ≡ seats.items) }
{
    let mut readers = Vec::with_capacity(alloc, seats.len())?;
    for seat in seats {
        readers.push(Reader::new(seat))?;
    }
    Ok(readers)
}
