//! Pairs of a get and a put by lent leaves, each in a thread of its own.
ghost use Rattle.std.specs.Prelude.{◌≡◌, ◌<◌, ◌≤◌, All, IfOk};
ghost use Rattle.root_row.specs.World.{slots};
ghost use Rattle.root_row.specs.Seats.{IsOf};
ghost use Rattle.root_row.specs.Views.{worker_of};
ghost use Rattle.root_row.specs.Made.{new_book, new_leaf};
ghost use Rattle.dep_index.specs.Catalogue.{modules_of};

use crate::texts::plain_catalogue;
use crate::workers::{COUNT, Holder, Host, Worker, measure_workers, worker_counts};
use anyhow::{Result, ensure};
use crossbeam_utils::CachePadded;
use dep_index::Catalogue;
use module_table::Book;
use root_row::{BookSeat, LeafSeat, Row};
use std::alloc::{AllocError, Global};
use std::ops::Range;
use std::sync::Wait;
use use_indicator::Leaf;

/// A leaf of a row that has all slots.
#[derive(Drop)]
struct RowLeaf<'a> {
    row: &'a Row,
    leaf: Leaf,
    ghost wide: { 8 ≤ slots row.now.world },
    ghost own: { IsOf row.now leaf },
}

impl Holder for CachePadded<RowLeaf<'_>> {
    fn get<R: Wait>(&mut self, rt: &R, slot: usize) {
        let own: &mut RowLeaf<'_> = self;
        let _ = own.leaf.get(rt, own.row, slot);
    }

    fn put<R: Wait>(&mut self, _: &R, slot: usize) {
        let own: &mut RowLeaf<'_> = self;
        let _ = own.leaf.put(own.row, slot);
    }
}

impl Worker for CachePadded<RowLeaf<'_>> {
    fn make_pairs<R: Wait>(&mut self, rt: &R, range: Range<usize>, rounds: u64) {
        let own: &mut RowLeaf<'_> = self;
        make_pairs(rt, own.row, &mut own.leaf, range, rounds);
    }
}

// In a function of its own, with the row apart from the leaf, the loop keeps its registers.
#[inline(never)]
fn make_pairs<R: Wait>(rt: &R, row: &Row, leaf: &mut Leaf, range: Range<usize>, rounds: u64)
    requires inside { range.end ≤ 8 }
    requires wide { 8 ≤ slots row.now.world }
    requires own { IsOf row.now leaf.old }
    ensures own { IsOf row.now leaf.new }
{
    for _ in 0..rounds {
        make_round(rt, row, leaf, range.start, range.end);
    }
}

/// A reference to each is taken and given back.
fn make_round<R: Wait>(rt: &R, row: &Row, leaf: &mut Leaf, from: usize, to: usize)
    requires inside { to ≤ 8 }
    requires wide { 8 ≤ slots row.now.world }
    requires own { IsOf row.now leaf.old }
    ensures own { IsOf row.now leaf.new }
{
    for slot in from..to {
        let _ = leaf.get(rt, row, slot);
        let _ = leaf.put(row, slot);
    }
}

pub fn measure<R: Host>(rt: &R) -> Result<()> {
    let catalogue = plain_catalogue(rt.alloc(), COUNT)?;
    for workers in worker_counts(rt)? {
        measure_count(rt, &catalogue, *workers)?;
    }
    Ok(())
}

fn measure_count<R: Host>(rt: &R, catalogue: &Catalogue, workers: u8) -> Result<()> {
    let (row, seats, seat, _) = Row::new(rt.alloc(), catalogue, usize::from(workers), 0)?;
    measure_row(rt, catalogue, &row, seats, seat)
}

fn measure_row<R: Host>(
    rt: &R,
    catalogue: &Catalogue,
    row: &Row,
    seats: Vec<LeafSeat>,
    seat: BookSeat,
) -> Result<()>
    requires new { seat ≡ new_book row.now.id row.now.world }
    requires same { modules_of catalogue.now ≡ row.now.world.catalogue }
    requires leaves { All (λ s. s ≡ new_leaf row.now.id row.now.world (worker_of s.view)) seats.items }
{
    ensure!(row.slots() >= COUNT, "too few slots");
    let mut book = Book::new(rt.alloc(), seat, catalogue)?;
    load_all(row, &mut book)?;
    let mut leaves = leaves_of(rt.alloc(), row, seats)?;
    measure_workers(rt, "leaf_pairs", &mut leaves)
}

/// Loads all modules.
fn load_all(row: &Row, book: &mut Book) -> Result<()>
    requires eight { 8 ≤ slots row.now.world }
    requires own { IsOf row.now book.old }
{
    for slot in 0..COUNT {
        book.begin_load(row, slot)?;
        book.end_load(row, slot, true)?;
    }
    Ok(())
}

/// The leaves, each on cache lines of its own: counts of another leaf may lie beside it.
fn leaves_of<'a>(
    alloc: Global,
    row: &'a Row,
    seats: Vec<LeafSeat>,
) -> Result<Vec<CachePadded<RowLeaf<'a>>>, AllocError>
    requires eight { 8 ≤ slots row.now.world }
    requires new { All (λ s. s ≡ new_leaf row.now.id row.now.world (worker_of s.view)) seats.items }
{
    let mut leaves = Vec::new(alloc);
    for seat in seats {
        push_leaf(alloc, &mut leaves, row, seat)?;
    }
    Ok(leaves)
}

fn push_leaf<'a>(
    alloc: Global,
    leaves: &mut Vec<CachePadded<RowLeaf<'a>>>,
    row: &'a Row,
    seat: LeafSeat,
) -> Result<(), AllocError>
    requires wide { 8 ≤ slots row.now.world }
    requires new { seat ≡ new_leaf row.now.id row.now.world (worker_of seat.view) }
{
    let leaf = Leaf::new(alloc, seat, row.slots())?;
    leaves.push(CachePadded::new(RowLeaf { row, leaf }))?;
    Ok(())
}
