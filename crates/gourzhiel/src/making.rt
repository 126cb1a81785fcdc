//! A new table in boxes, before handles have them.
ghost use Rattle.std.specs.Prelude.{◌≡◌, ◌<◌, map, All, IfOk};
ghost use Rattle.std.specs.Arc.{arc_value};
ghost use Rattle.std_alloc.specs.Box.{box_value};
ghost use Rattle.dep_index.specs.Catalogue.{modules_of};
ghost use Rattle.dep_index.specs.Words.{closed};
ghost use Rattle.root_row.specs.Made.{new_leaf, new_reader};
ghost use Rattle.root_row.specs.Views.{worker_of, reader_of};
ghost use Rattle.gourzhiel.specs.Making.{IsTable};

use dep_index::Catalogue;
use module_table::{Book, OwnBook, OwnLeaf, OwnReader};
use root_row::{LeafSeat, ReadSeat, Row};
use std::alloc::{AllocError, Global};
use std::sync::Arc;
use use_indicator::{Leaf, Reader};

/// The boxes of a new table. Dropped, they free it.
#[derive(Drop)]
pub struct Made {
    pub book: Box<OwnBook>,
    pub leaves: Vec<Box<OwnLeaf>>,
    pub readers: Vec<Box<OwnReader>>,
}

/// A new table over a catalogue, with so many leaves and readers.
pub fn make(
    alloc: Global,
    catalogue: &Catalogue,
    leaves: usize,
    readers: usize,
) -> Result<Made, AllocError>
    requires few { leaves < closed }
    ensures { IfOk result (λ t. IsTable (modules_of catalogue.now) leaves readers t.book.value (map box_value t.leaves.items) (map box_value t.readers.items)) }
{
    let (row, leaf_seats, book_seat, read_seats) = Row::new(alloc, catalogue, leaves, readers)?;
    let book = Book::new(alloc, book_seat, catalogue)?;
    let row = Arc::new(alloc, row)?;
    let leaves = leaf_boxes(alloc, &row, leaf_seats)?;
    let readers = reader_boxes(alloc, &row, read_seats)?;
    let book = Box::new(alloc, OwnBook::new(book, row))?;
    Ok(Made {
        book,
        leaves,
        readers,
    })
}

fn leaf_boxes(
    alloc: Global,
    row: &Arc<Row, Global>,
    seats: Vec<LeafSeat>,
) -> Result<Vec<Box<OwnLeaf>>, AllocError>
    requires { All (λ s. s ≡ new_leaf (arc_value row.now).id (arc_value row.now).world (worker_of s.view)) seats.items }
    ensures { IfOk result (λ boxes. map (λ b. b.value) boxes.items ≡ seats.items) }
{
    let mut boxes = Vec::new(alloc);
    for seat in seats {
        let boxed = leaf_box(alloc, row, seat)?;
        boxes.push(boxed)?;
    }
    Ok(boxes)
}

fn leaf_box(
    alloc: Global,
    row: &Arc<Row, Global>,
    seat: LeafSeat,
) -> Result<Box<OwnLeaf>, AllocError>
    requires { seat ≡ new_leaf (arc_value row.now).id (arc_value row.now).world (worker_of seat.view) }
    ensures { IfOk result (λ boxed. boxed.value ≡ seat) }
{
    let leaf = Leaf::new(alloc, seat, row.slots())?;
    let row = Arc::try_clone(row)?;
    Ok(Box::new(alloc, OwnLeaf::new(leaf, row))?)
}

fn reader_boxes(
    alloc: Global,
    row: &Arc<Row, Global>,
    seats: Vec<ReadSeat>,
) -> Result<Vec<Box<OwnReader>>, AllocError>
    requires { All (λ s. s ≡ new_reader (arc_value row.now).id (arc_value row.now).world (reader_of s.view)) seats.items }
    ensures { IfOk result (λ boxes. map (λ b. b.value) boxes.items ≡ seats.items) }
{
    let mut boxes = Vec::new(alloc);
    for seat in seats {
        let boxed = reader_box(alloc, row, seat)?;
        boxes.push(boxed)?;
    }
    Ok(boxes)
}

fn reader_box(
    alloc: Global,
    row: &Arc<Row, Global>,
    seat: ReadSeat,
) -> Result<Box<OwnReader>, AllocError>
    requires { seat ≡ new_reader (arc_value row.now).id (arc_value row.now).world (reader_of seat.view) }
    ensures { IfOk result (λ boxed. boxed.value ≡ seat) }
{
    let row = Arc::try_clone(row)?;
    Ok(Box::new(alloc, OwnReader::new(Reader::new(seat), row))?)
}
