//! A row with its leaves and its book behind locks.
use crate::caller::Caller;
use crate::locks::Locks;
use crate::making::{leaves_of, readers_of};
use dep_index::Catalogue;
use module_table::Book;
use root_row::Row;
use std::alloc::{AllocError, Global};
use std::marker::Model;
use std::sync::Wait;
use use_indicator::{Leaf, Reader};

/// A row of root words, and its leaves and its book behind locks that know whose they are. Contracts see its row.
///
/// Any thread calls it, with a caller of its own. A managed call waits for one lock, makes one call of a leaf or of the book,
/// and lets go. `held`, `state`, `loaded`, `loaded_at`, `meet_leaf` and `meet_book` take a lock and make no call. `query` and
/// `compare` take none.
///
/// None: the worker or the slot is out of range, and nothing was done. The None of `loaded_at` is an answer, after one turn: no
/// module stands at the place.
///
/// Each lock's word has cache lines of its own. So a worker that holds a module gets and puts without slowing others.
pub struct ManagedTable {
    pub(crate) row: Row,
    pub(crate) leaves: Locks<Leaf>,
    pub(crate) book: Locks<Book>,
}

// By hand, since a derived drop is written out, and proved, at each place where a value is let go.
impl Drop for ManagedTable {
    fn drop(self) {
        let ManagedTable {
            row: _,
            leaves: _,
            book: _,
        } = self;
    }
}

impl Model for ManagedTable {
    ghost use Rattle.std.specs.Prelude.{◌≡◌};
    ghost use Rattle.managed_table.specs.Callers.{ManagedIs};

    ghost Value = { ManagedIs };

    ghost view = { λ t. record { row = t.row; leaves = t.leaves.table.shared.table_id; book = t.book.table.shared.table_id } };

    ghost invariant = { λ t. (t.leaves.table.shared.key.row.value ≡ t.row) × (t.book.table.shared.key.row.value ≡ t.row)
        × (t.leaves.table.shared.key.locks ≡ t.row.world.workers) × (t.book.table.shared.key.locks ≡ 1) };
}

impl ManagedTable {
    ghost use Rattle.std.specs.Prelude.{◌≡◌, ◌<◌, [], All, IfOk, IfSome, MatchOption, if◌then◌else◌};
    ghost use Rattle.std.specs.Fn.{FnOnceReturnsAtMut};
    ghost use Rattle.dep_index.specs.Catalogue.{modules_of};
    ghost use Rattle.dep_index.specs.Words.{closed};
    ghost use Rattle.dep_index.specs.declared.table.calls.Reply.TheVariants.{Yes, No};
    ghost use Rattle.root_row.specs.World.{slots};
    ghost use Rattle.root_row.specs.Made.{new_reader, AreNew};
    ghost use Rattle.root_row.specs.Seats.{IsOf};
    ghost use Rattle.root_row.specs.Steps.{ReaderAnswered};
    ghost use Rattle.managed_table.specs.Kept.{shown, leaf_fits, book_fits};
    ghost use Rattle.managed_table.specs.Passes.{MayActOn};
    ghost use Rattle.managed_table.specs.Callers.{CallerIs, IsCallerOf, IsFirst, GaveFurther, IsInside, IsOutside, LeafTurned, BookTurned};

    /// A managed table over a catalogue, its first caller, and a reader for each worker. Every module is Absent, and nothing is
    /// held.
    pub fn new(
        alloc: Global,
        catalogue: &Catalogue,
        workers: usize,
    ) -> Result<(ManagedTable, Caller, Vec<Reader>), AllocError>
        requires few_workers { workers < closed }
        ensures world { IfOk result (λ r. r.0.row.world ≡ record { catalogue = modules_of catalogue.now; workers = workers }) }
        ensures first { IfOk result (λ r. IsCallerOf r.0 r.1 × IsFirst r.1) }
        ensures readers { IfOk result (λ r. AreNew (new_reader r.0.row.id r.0.row.world) workers r.2.items) }
        ensures own { IfOk result (λ r. All (IsOf r.0.row) r.2.items) }
    {
        let (row, leaf_seats, book_seat, read_seats) = Row::new(
            alloc, catalogue, workers, workers,
        )?;
        let (leaves, leaf_pass) = Locks::new(alloc, &row, leaves_of(alloc, &row, leaf_seats)?)?;
        let mut books = Vec::with_capacity(alloc, 1)?;
        books.push_reserved(Book::new(alloc, book_seat, catalogue)?);
        let (book, book_pass) = Locks::new(alloc, &row, books)?;
        let readers = readers_of(alloc, read_seats)?;
        let first = Caller {
            leaves: leaf_pass,
            book: book_pass,
        };
        Ok((ManagedTable { row, leaves, book }, first, readers))
    }

    /// A further caller of this table, which comes from the given one. It has done nothing. Two loads, and no memory.
    pub fn further(&self, caller: &mut Caller) -> Caller
        requires own { IsCallerOf self.now caller.old }
        ensures own { IsCallerOf self.now caller.new × IsCallerOf self.now result }
        ensures further { GaveFurther caller.old caller.new result }
    {
        Caller {
            leaves: self.leaves.further(&mut caller.leaves),
            book: self.book.further(&mut caller.book),
        }
    }

    /// The last further caller that came from the given one goes back, if it has done nothing. Two loads.
    pub(crate) fn take_back(&self, caller: &mut Caller, further: Caller)
        requires own { IsCallerOf self.now caller.old × IsCallerOf self.now further }
        requires last { (before : CallerIs) × GaveFurther before caller.old further }
        ensures own { IsCallerOf self.now caller.new }
        ensures back { (before : CallerIs) → GaveFurther before caller.old further → caller.new ≡ before }
    {
        let Caller { leaves, book } = further;
        self.leaves.take_back(&mut caller.leaves, leaves);
        self.book.take_back(&mut caller.book, book);
    }

    /// How many workers there are.
    pub fn workers(&self) -> usize
        ensures { result ≡ self.now.row.world.workers }
    {
        self.leaves.count()
    }

    /// How many modules the catalogue has.
    pub fn slots(&self) -> usize
        ensures { result ≡ slots self.now.row.world }
    {
        self.row.slots()
    }

    /// Whether some worker holds the module. It locks nothing.
    pub fn query(&self, reader: &mut Reader, slot: usize) -> bool
        requires own { IsOf self.now.row reader.old }
        requires inside { slot < slots self.now.row.world }
        ensures own { IsOf self.now.row reader.new }
        ensures call { ReaderAnswered reader.old.view slot (if result then Yes else No) reader.new.view }
    {
        reader.in_use(&self.row, slot)
    }

    // One turn of the lock of the worker's leaf, if worker and slot are in range. It makes the steps of `Locks::turn` itself:
    // behind each call that may wait the compiled code has a check.
    #[inline(always)]
    pub(crate) fn leaf_turn<R: Wait, A, F: FnOnce(&mut Leaf) -> A>(
        &self,
        rt: &R,
        caller: &mut Caller,
        worker: usize,
        slot: usize,
        act: F,
    ) -> Option<A>
        requires own { IsCallerOf self.now caller.old }
        requires may { slot < slots self.now.row.world → MayActOn F.FnOnce leaf_fits shown self.now.row worker act }
        ensures own { IsCallerOf self.now caller.new }
        ensures range { MatchOption result (IsOutside self.now worker slot × (caller.new ≡ caller.old)) (λ _. IsInside self.now worker slot) }
        ensures turn { IfSome result (λ r. LeafTurned worker (λ x y. FnOnceReturnsAtMut F.FnOnce act x r y) caller.old caller.new) }
        ensures book { caller.new.book ≡ caller.old.book }
    {
        if worker >= self.leaves.count() || slot >= self.row.slots() {
            return None;
        }
        let seat = &mut caller.leaves;
        if !self.leaves.try_take(seat, worker) {
            self.leaves.wait_for(rt, seat, worker);
        }
        let answer = self.leaves.lend(seat, worker, act);
        self.leaves.put_back(seat, worker);
        Some(answer)
    }

    // One turn of the book's lock.
    #[inline(always)]
    pub(crate) fn book_turn<R: Wait, A, F: FnOnce(&mut Book) -> A>(
        &self,
        rt: &R,
        caller: &mut Caller,
        act: F,
    ) -> A
        requires own { IsCallerOf self.now caller.old }
        requires may { MayActOn F.FnOnce book_fits shown self.now.row 0 act }
        ensures own { IsCallerOf self.now caller.new }
        ensures turn { BookTurned (λ x y. FnOnceReturnsAtMut F.FnOnce act x result y) caller.old caller.new }
        ensures leaves { caller.new.leaves ≡ caller.old.leaves }
    {
        self.book.turn(rt, &mut caller.book, 0, act)
    }
}
