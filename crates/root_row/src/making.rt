//! A new row, and its seats.
ghost use Rattle.std.specs.Prelude.{◌≡◌, ◌<◌, List, [], ◌++◌, length, All, IfOk};
ghost use Rattle.dep_index.specs.Catalogue.{modules_of};
ghost use Rattle.dep_index.specs.Words.{closed};
ghost use Rattle.root_row.specs.Views.{Part, worker_of, reader_of};
ghost use Rattle.root_row.specs.Trails.{new_trail, first_trail, other_trail};
ghost use Rattle.root_row.specs.Setting.{world_of, leaf_parts, reader_parts};
ghost use Rattle.root_row.specs.Made.{AreNew, new_leaf, new_reader, new_book};

use crate::book_seat::BookSeat;
use crate::leaf_seat::LeafSeat;
use crate::plays::FirstMember;
use crate::read_seat::ReadSeat;
use crate::row::{Row, SLOTS_FREE, WORDS_APART};
use crate::rule::{OneHistory, Setting};
use crate::view::Trail;
use atomic_table::{Seat, Table};
use dep_index::words::CLOSED;
use dep_index::{Catalogue, Slots};
use std::alloc::{AllocError, Global};
use std::snapshot::Snapshot;

impl Row {
    /// A row over a catalogue, where all is absent, with the seat of each worker's leaf in order, the book's seat and the
    /// readers' seats. No seat has seen anything.
    pub fn new(
        alloc: Global,
        catalogue: &Catalogue,
        workers: usize,
        readers: usize,
    ) -> Result<(Row, Vec<LeafSeat>, BookSeat, Vec<ReadSeat>), AllocError>
        requires few_workers { workers < closed }
        ensures world { IfOk result (λ r. r.0.world ≡ record { catalogue = modules_of catalogue.now; workers = workers }) }
        ensures leaves { IfOk result (λ r. AreNew (new_leaf r.0.id r.0.world) workers r.1.items) }
        ensures unused { IfOk result (λ r. All (λ s. s ≡ new_leaf r.0.id r.0.world (worker_of s.view)) r.1.items) }
        ensures book { IfOk result (λ r. r.2 ≡ new_book r.0.id r.0.world) }
        ensures readers { IfOk result (λ r. AreNew (new_reader r.0.id r.0.world) readers r.3.items) }
        ensures new_readers { IfOk result (λ r. All (λ s. s ≡ new_reader r.0.id r.0.world (reader_of s.view)) r.3.items) }
    {
        let slots = catalogue.slots(alloc)?;
        Row::over(alloc, &slots, workers, readers)
    }

    /// The same over the slots of a catalogue.
    pub fn over(
        alloc: Global,
        catalogue: &Slots,
        workers: usize,
        readers: usize,
    ) -> Result<(Row, Vec<LeafSeat>, BookSeat, Vec<ReadSeat>), AllocError>
        requires few_workers { workers < closed }
        ensures world { IfOk result (λ r. r.0.world ≡ record { catalogue = catalogue.now; workers = workers }) }
        ensures leaves { IfOk result (λ r. AreNew (new_leaf r.0.id r.0.world) workers r.1.items) }
        ensures unused { IfOk result (λ r. All (λ s. s ≡ new_leaf r.0.id r.0.world (worker_of s.view)) r.1.items) }
        ensures book { IfOk result (λ r. r.2 ≡ new_book r.0.id r.0.world) }
        ensures readers { IfOk result (λ r. AreNew (new_reader r.0.id r.0.world) readers r.3.items) }
        ensures new_readers { IfOk result (λ r. All (λ s. s ≡ new_reader r.0.id r.0.world (reader_of s.view)) r.3.items) }
    {
        let slot_count = catalogue.len();
        let word_count = (slot_count + SLOTS_FREE + 1) * WORDS_APART;
        let words = Vec::from_elem(alloc, CLOSED, word_count)?;
        let draining = Vec::from_elem(alloc, false, slot_count)?;
        let setting = Setting {
            workers,
            readers,
            catalogue: Snapshot::of(catalogue),
        };
        let (table, mut rest) = Table::of_words(alloc, words.as_slice(), &setting)?;
        let leaves = cut_leaves(alloc, &table, &mut rest, workers)?;
        let read_seats = cut_readers(alloc, &table, &mut rest, readers)?;
        Ok((
            Row {
                table,
                slot_count,
                room: [0; 16],
            },
            leaves,
            BookSeat {
                seat: rest,
                draining,
            },
            read_seats,
        ))
    }
}

fn cut(
    table: &Table<(), Trail, Setting, OneHistory, Global>,
    rest: &mut Seat<(), Trail>,
) -> Seat<(), Trail>
    requires own { rest.old.table_id ≡ table.now.shared.table_id }
    requires words { 0 < table.now.shared.table_id.words }
    ensures first { (result.table_id ≡ rest.old.table_id) × (result.me ≡ (first_trail rest.old.me.0, [])) }
    ensures rest { (rest.new.table_id ≡ rest.old.table_id) × (rest.new.me ≡ (other_trail rest.old.me.0, rest.old.me.1)) }
{
    table.shared.split_seat::<FirstMember>(rest)
}

fn cut_leaves(
    alloc: Global,
    table: &Table<(), Trail, Setting, OneHistory, Global>,
    rest: &mut Seat<(), Trail>,
    workers: usize,
) -> Result<Vec<LeafSeat>, AllocError>
    ghost tail: { List Part }
    requires own { rest.old.table_id ≡ table.now.shared.table_id }
    requires words { 0 < table.now.shared.table_id.words }
    requires all { workers ≡ table.now.shared.key.workers }
    requires view { rest.old.me ≡ (new_trail (world_of table.now.shared.key) (leaf_parts (world_of table.now.shared.key) workers 0 ++ tail), []) }
    ensures leaves { IfOk result (λ v. AreNew (new_leaf table.now.shared.table_id (world_of table.now.shared.key)) workers v.items) }
    ensures rest { IfOk result (λ _. (rest.new.table_id ≡ table.now.shared.table_id) × (rest.new.me ≡ (new_trail (world_of table.now.shared.key) tail, []))) }
{
    let mut leaves = Vec::new(alloc);
    for _worker in 0..workers {
        let seat = cut(table, rest);
        leaves.push(LeafSeat { seat })?;
    }
    Ok(leaves)
}

fn cut_readers(
    alloc: Global,
    table: &Table<(), Trail, Setting, OneHistory, Global>,
    rest: &mut Seat<(), Trail>,
    readers: usize,
) -> Result<Vec<ReadSeat>, AllocError>
    ghost tail: { List Part }
    requires own { rest.old.table_id ≡ table.now.shared.table_id }
    requires words { 0 < table.now.shared.table_id.words }
    requires view { rest.old.me ≡ (new_trail (world_of table.now.shared.key) (reader_parts readers 0 ++ tail), []) }
    ensures readers { IfOk result (λ v. AreNew (new_reader table.now.shared.table_id (world_of table.now.shared.key)) readers v.items) }
    ensures rest { IfOk result (λ _. (rest.new.table_id ≡ table.now.shared.table_id) × (rest.new.me ≡ (new_trail (world_of table.now.shared.key) tail, []))) }
{
    let mut seats = Vec::new(alloc);
    for _reader in 0..readers {
        let seat = cut(table, rest);
        seats.push(ReadSeat { seat })?;
    }
    Ok(seats)
}
