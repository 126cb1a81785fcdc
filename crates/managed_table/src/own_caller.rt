//! A caller that owns a share of its table.
use crate::attempt::Attempt;
use crate::caller::Caller;
use crate::table::ManagedTable;
use crate::teller::{Teller, tellers_of};
use dep_index::{Call, Catalogue, GetError, PutError};
use std::alloc::{AllocError, Global};
use std::marker::Model;
use std::sync::Arc;

/// A caller with a share of a table that only such callers have, for threads that must not wait. Contracts see the caller.
///
/// Its calls never wait, and so wake nobody. Each tries its lock at most `tries` times, and an `Attempt` says how it ended.
#[derive(Drop)]
pub struct OwnCaller {
    pub(crate) caller: Caller,
    pub(crate) table: Arc<ManagedTable, Global>,
}

impl Model for OwnCaller {
    ghost use Rattle.std.specs.Arc.{arc_value};
    ghost use Rattle.managed_table.specs.Callers.{CallerIs, IsCallerOf};

    ghost Value = { CallerIs };

    ghost view = { λ c. c.caller };

    ghost invariant = { λ c. IsCallerOf (arc_value c.table) c.caller };
}

impl OwnCaller {
    ghost use Rattle.std.specs.Prelude.{◌≡◌, ◌<◌, All, IfOk, IfErr};
    ghost use Rattle.dep_index.specs.Catalogue.{modules_of};
    ghost use Rattle.dep_index.specs.Words.{closed};
    ghost use Rattle.dep_index.specs.Refusals.{reply_of, get_refusal, put_refusal};
    ghost use Rattle.root_row.specs.World.{slots};
    ghost use Rattle.root_row.specs.Made.{new_reader, AreNew};
    ghost use Rattle.root_row.specs.Seats.{IsOf};
    ghost use Rattle.managed_table.specs.Shown.{HoldsSoOften};
    ghost use Rattle.managed_table.specs.Callers.{CallerIs, IsFirst, GaveFurther};
    ghost use Rattle.managed_table.specs.Owned.{row_of, SameTable};
    ghost use Rattle.managed_table.specs.Attempts.{LeafEnded, GetGivenUp, GetDid, LeafDid, LeafShows};

    /// A table over a catalogue, and its first caller. Every module is Absent, and nothing is held.
    pub fn new(
        alloc: Global,
        catalogue: &Catalogue,
        workers: usize,
    ) -> Result<OwnCaller, AllocError>
        requires few_workers { workers < closed }
        ensures world { IfOk result (λ c. (row_of c).world ≡ record { catalogue = modules_of catalogue.now; workers = workers }) }
        ensures first { IfOk result IsFirst }
    {
        let (table, caller, _readers) = ManagedTable::new(alloc, catalogue, workers)?;
        let table = Arc::new(alloc, table)?;
        Ok(OwnCaller { caller, table })
    }

    /// The same, with a teller for each worker.
    pub fn with_tellers(
        alloc: Global,
        catalogue: &Catalogue,
        workers: usize,
    ) -> Result<(OwnCaller, Vec<Teller>), AllocError>
        requires few_workers { workers < closed }
        ensures world { IfOk result (λ r. (row_of r.0).world ≡ record { catalogue = modules_of catalogue.now; workers = workers }) }
        ensures first { IfOk result (λ r. IsFirst r.0) }
        ensures tellers { IfOk result (λ r. AreNew (new_reader (row_of r.0).id (row_of r.0).world) workers r.1.items) }
        ensures own { IfOk result (λ r. All (IsOf (row_of r.0)) r.1.items) }
    {
        let (table, caller, readers) = ManagedTable::new(alloc, catalogue, workers)?;
        let tellers = tellers_of(alloc, readers)?;
        let table = Arc::new(alloc, table)?;
        Ok((OwnCaller { caller, table }, tellers))
    }

    /// A further caller of the same table, which comes from this one. It has done nothing. At an error this one is as it was.
    pub fn further(&mut self) -> Result<OwnCaller, AllocError>
        ensures further { IfOk result (GaveFurther self.old self.new) }
        ensures err { IfErr result (λ e. self.new ≡ self.old) }
    {
        let table = Arc::try_clone(&self.table)?;
        let caller = table.further(&mut self.caller);
        Ok(OwnCaller { caller, table })
    }

    /// The last further caller that came from this one goes back, if it has done nothing.
    pub fn take_back(&mut self, further: OwnCaller)
        requires last { (before : CallerIs) × GaveFurther before self.old further }
        ensures back { (before : CallerIs) → GaveFurther before self.old further → self.new ≡ before }
    {
        let OwnCaller { caller, table: _ } = further;
        self.table.take_back(&mut self.caller, caller);
    }

    /// How many workers there are.
    pub fn workers(&self) -> usize
        ensures { result ≡ (row_of self.now).world.workers }
    {
        self.table.workers()
    }

    /// How many modules the catalogue has.
    pub fn slots(&self) -> usize
        ensures { result ≡ slots (row_of self.now).world }
    {
        self.table.slots()
    }

    /// Takes one reference for the worker. `Missed`: this caller had the lock, the worker holds no reference to the module, and
    /// each of `tries` tries of the module's word was missed.
    pub fn get(&mut self, worker: usize, slot: usize, tries: u32) -> Attempt<Result<(), GetError>>
        ensures same { SameTable self.old self.new }
        ensures call { LeafEnded worker slot tries (GetGivenUp worker slot tries self.old self.new) (λ r. GetDid worker slot tries self.old self.new (reply_of get_refusal r)) self.old result self.new }
    {
        self.table.get_within(&mut self.caller, worker, slot, tries)
    }

    /// Gives one reference of the worker back.
    pub fn put(&mut self, worker: usize, slot: usize, tries: u32) -> Attempt<Result<(), PutError>>
        ensures same { SameTable self.old self.new }
        ensures call { LeafEnded worker slot tries ⊥ (λ r. LeafDid worker (Call.Put worker slot) self.old self.new (reply_of put_refusal r)) self.old result self.new }
    {
        let row = &self.table.row;
        self.table.try_leaf_turn(
            &mut self.caller,
            worker,
            slot,
            tries,
            |leaf| leaf.put(row, slot),
        )
    }

    /// How often the worker holds the module. The turn makes no call.
    pub fn held(&mut self, worker: usize, slot: usize, tries: u32) -> Attempt<u32>
        ensures same { SameTable self.old self.new }
        ensures shown { LeafEnded worker slot tries ⊥ (λ count. LeafShows worker (HoldsSoOften worker slot count) self.old self.new) self.old result self.new }
    {
        self.table
            .try_leaf_turn(&mut self.caller, worker, slot, tries, |leaf| {
                leaf.laws();
                leaf.held(slot)
            })
    }
}
