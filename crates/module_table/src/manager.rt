use crate::book::Book;
use crate::making::{own_leaves, readers_of};
use crate::own_book::OwnBook;
use crate::own_leaf::OwnLeaf;
use crossbeam_utils::CachePadded;
use dep_index::{
    BeginDrainError, BeginLoadError, BeginRemoveError, CancelRemoveError, Catalogue, EndLoadError,
    EndRemoveError, GetError, ModuleState, PutError,
};
use root_row::Row;
use std::alloc::{AllocError, Global};
use std::marker::Model;
use std::sync::{Arc, Mutex, MutexGuard, Wait};
use use_indicator::Reader;

/// A row of root words, a lock for each worker's leaf and one for the book. Contracts see its row.
///
/// A call that locks takes one lock, makes one call and lets go. It answers None if the worker, the slot or the place
/// is out of range, and nothing is changed then. What it did under the lock no contract says, nor how often it locked: a
/// caller who wants to know takes the lock by `leaf` or `book`, and reads the contracts of `OwnLeaf` and `OwnBook`.
///
/// Each lock has cache lines of its own, so workers who hold a module don't slow each other.
#[derive(Drop)]
pub struct Manager {
    row: Arc<Row, Global>,
    leaves: Vec<CachePadded<Mutex<OwnLeaf>>>,
    book: CachePadded<Mutex<OwnBook>>,
}

impl Model for Manager {
    ghost use Rattle.std.specs.Prelude.{◌≡◌, length};
    ghost use Rattle.std.specs.Arc.{arc_value};
    ghost use Rattle.root_row.specs.Seats.{RowIs};

    ghost Value = { RowIs };

    ghost view = { λ m. arc_value m.row };

    ghost invariant = { λ m. length m.leaves.items ≡ (arc_value m.row).world.workers };
}

impl Manager {
    ghost use Rattle.std.specs.Prelude.{◌≡◌, ◌<◌, ◌≤◌, ◌↔◌, All, IfOk, IsNone, if◌then◌else◌};
    ghost use Rattle.dep_index.specs.Catalogue.{modules_of};
    ghost use Rattle.dep_index.specs.Words.{closed};
    ghost use Rattle.root_row.specs.World.{slots};
    ghost use Rattle.root_row.specs.Made.{new_reader, AreNew};
    ghost use Rattle.root_row.specs.Seats.{IsOf};
    ghost use Rattle.root_row.specs.Steps.{ReaderAnswered};
    ghost use Rattle.dep_index.specs.declared.table.calls.Reply.TheVariants.{Yes, No};

    /// A manager over a catalogue, with a reader for each worker. Every module is Absent, and nothing is held.
    pub fn new(
        alloc: Global,
        catalogue: &Catalogue,
        workers: usize,
    ) -> Result<(Manager, Vec<Reader>), AllocError>
        requires few_workers { workers < closed }
        ensures world { IfOk result (λ r. r.0.world ≡ record { catalogue = modules_of catalogue.now; workers = workers }) }
        ensures readers { IfOk result (λ r. AreNew (new_reader r.0.id r.0.world) workers r.1.items) }
        ensures own { IfOk result (λ r. All (IsOf r.0) r.1.items) }
    {
        let (row, leaf_seats, book_seat, read_seats) = Row::new(
            alloc, catalogue, workers, workers,
        )?;
        let book = Book::new(alloc, book_seat, catalogue)?;
        let row = Arc::new(alloc, row)?;
        let leaves = own_leaves(alloc, &row, leaf_seats)?;
        let book = CachePadded::new(Mutex::new(OwnBook::new(book, Arc::try_clone(&row)?)));
        let readers = readers_of(alloc, read_seats)?;
        Ok((Manager { row, leaves, book }, readers))
    }

    /// How many workers there are.
    pub fn workers(&self) -> usize
        ensures { result ≡ self.now.world.workers }
    {
        self.leaves.len()
    }

    /// How many modules the catalogue has.
    pub fn slots(&self) -> usize
        ensures { result ≡ slots self.now.world }
    {
        self.row.slots()
    }

    /// The lock of a worker's leaf. It is None exactly if the worker is out of range.
    pub fn leaf(&self, worker: usize) -> Option<&Mutex<OwnLeaf>>
        ensures { IsNone result ↔ (self.now.world.workers ≤ worker) }
    {
        if worker >= self.leaves.len() {
            return None;
        }
        Some(&self.leaves[worker])
    }

    /// The lock of the book.
    pub fn book(&self) -> &Mutex<OwnBook> {
        &self.book
    }

    // The lock of a worker's leaf, for a call on this slot.
    fn leaf_for(&self, worker: usize, slot: usize) -> Option<&Mutex<OwnLeaf>>
        ensures worker { self.now.world.workers ≤ worker → IsNone result }
        ensures slot { slots self.now.world ≤ slot → IsNone result }
    {
        if slot >= self.slots() {
            return None;
        }
        self.leaf(worker)
    }

    // The lock of the book, for a call on this slot, or on this place in the order, which has no more places than slots.
    fn book_for(&self, slot: usize) -> Option<&Mutex<OwnBook>>
        ensures { slots self.now.world ≤ slot → IsNone result }
    {
        if slot >= self.slots() {
            return None;
        }
        Some(&self.book)
    }

    /// Whether some worker holds the module. It locks nothing.
    pub fn query(&self, reader: &mut Reader, slot: usize) -> bool
        requires own { IsOf self.now reader.old }
        requires inside { slot < slots self.now.world }
        ensures own { IsOf self.now reader.new }
        ensures call { ReaderAnswered reader.old.view slot (if result then Yes else No) reader.new.view }
    {
        reader.in_use(&self.row, slot)
    }

    /// How often the worker holds the module.
    pub fn held<R: Wait>(&self, rt: &R, worker: usize, slot: usize) -> Option<u32>
        ensures worker { self.now.world.workers ≤ worker → IsNone result }
        ensures slot { slots self.now.world ≤ slot → IsNone result }
    {
        lock_leaf(rt, self.leaf_for(worker, slot)?).held(slot)
    }

    /// Takes one reference for the worker.
    pub fn get<R: Wait>(&self, rt: &R, worker: usize, slot: usize) -> Option<Result<(), GetError>>
        ensures worker { self.now.world.workers ≤ worker → IsNone result }
        ensures slot { slots self.now.world ≤ slot → IsNone result }
    {
        lock_leaf(rt, self.leaf_for(worker, slot)?).get(rt, slot)
    }

    /// Gives one reference of the worker back.
    pub fn put<R: Wait>(&self, rt: &R, worker: usize, slot: usize) -> Option<Result<(), PutError>>
        ensures worker { self.now.world.workers ≤ worker → IsNone result }
        ensures slot { slots self.now.world ≤ slot → IsNone result }
    {
        lock_leaf(rt, self.leaf_for(worker, slot)?).put(slot)
    }

    /// Begins a load.
    pub fn begin_load<R: Wait>(&self, rt: &R, slot: usize) -> Option<Result<(), BeginLoadError>>
        ensures { slots self.now.world ≤ slot → IsNone result }
    {
        self.book_for(slot)?.lock(rt).begin_load(slot)
    }

    /// Ends a load, well or not.
    pub fn end_load<R: Wait>(
        &self,
        rt: &R,
        slot: usize,
        ok: bool,
    ) -> Option<Result<(), EndLoadError>>
        ensures { slots self.now.world ≤ slot → IsNone result }
    {
        self.book_for(slot)?.lock(rt).end_load(slot, ok)
    }

    /// Begins a drain.
    pub fn begin_drain<R: Wait>(&self, rt: &R, slot: usize) -> Option<Result<(), BeginDrainError>>
        ensures { slots self.now.world ≤ slot → IsNone result }
    {
        self.book_for(slot)?.lock(rt).begin_drain(slot)
    }

    /// Begins a removal.
    pub fn begin_remove<R: Wait>(&self, rt: &R, slot: usize) -> Option<Result<(), BeginRemoveError>>
        ensures { slots self.now.world ≤ slot → IsNone result }
    {
        self.book_for(slot)?.lock(rt).begin_remove(slot)
    }

    /// Ends a removal or a drain.
    pub fn end_remove<R: Wait>(&self, rt: &R, slot: usize) -> Option<Result<(), EndRemoveError>>
        ensures { slots self.now.world ≤ slot → IsNone result }
    {
        self.book_for(slot)?.lock(rt).end_remove(slot)
    }

    /// Calls off a removal or a drain.
    pub fn cancel_remove<R: Wait>(
        &self,
        rt: &R,
        slot: usize,
    ) -> Option<Result<(), CancelRemoveError>>
        ensures { slots self.now.world ≤ slot → IsNone result }
    {
        self.book_for(slot)?.lock(rt).cancel_remove(slot)
    }

    /// The state of the module.
    pub fn state<R: Wait>(&self, rt: &R, slot: usize) -> Option<ModuleState>
        ensures { slots self.now.world ≤ slot → IsNone result }
    {
        self.book_for(slot)?.lock(rt).state(slot)
    }

    /// How many modules are loaded, in any state.
    pub fn loaded<R: Wait>(&self, rt: &R) -> usize {
        self.book.lock(rt).loaded()
    }

    /// The loaded module at this place, the oldest first.
    pub fn loaded_at<R: Wait>(&self, rt: &R, place: usize) -> Option<usize>
        ensures { slots self.now.world ≤ place → IsNone result }
    {
        self.book_for(place)?.lock(rt).loaded_at(place)
    }
}

// A lock that another has is waited for in a call of its own, so that taking a free one saves no registers.
#[inline(always)]
fn lock_leaf<'a, R: Wait>(rt: &R, lock: &'a Mutex<OwnLeaf>) -> MutexGuard<'a, OwnLeaf> {
    match lock.try_lock() {
        Some(leaf) => leaf,
        None => wait_for(rt, lock),
    }
}

#[cold]
#[inline(never)]
fn wait_for<'a, R: Wait>(rt: &R, lock: &'a Mutex<OwnLeaf>) -> MutexGuard<'a, OwnLeaf> {
    lock.lock(rt)
}
