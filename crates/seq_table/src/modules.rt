//! What a table of modules does.
ghost use Rattle.std.specs.Prelude.{◌≡◌, ◌<◌, ◌≤◌, ◌↔◌, ℕ, length, slice_index, List, Contains, IsTrue, OnOk};
ghost use Rattle.dep_index.specs.Table.{Module, Table as OneThread, state_of, count_of, is_held, needs_slot, pairs, users, references};
ghost use Rattle.dep_index.specs.Calls.{reply, next};
ghost use Rattle.dep_index.specs.Refusals.{reply_of, get_refusal, put_refusal, begin_load_refusal, end_load_refusal};
ghost use Rattle.dep_index.specs.Refusals.{begin_drain_refusal, begin_remove_refusal, end_remove_refusal, cancel_remove_refusal};
ghost use Rattle.dep_index.specs.Laws.{IsShaped, IsLawful};
ghost use Rattle.dep_index.specs.declared.table.calls.Call.TheVariants.{Get, Put, BeginLoad, EndLoad, BeginDrain, BeginRemove, EndRemove, CancelRemove};

use dep_index::{
    BeginDrainError, BeginLoadError, BeginRemoveError, CancelRemoveError, EndLoadError,
    EndRemoveError, GetError, ModuleState, PutError,
};
use std::alloc::AllocError;

/// A table of modules over a catalogue, used by one thread. Modules go by slot and workers by number, both from 0.
/// A refused call changes nothing; the refusals of a call are tested in the order in which they are listed.
pub trait Modules {
    /// The catalogue, slot by slot.
    ghost catalogue: { Self → List Module };

    /// The table that it is.
    ghost table: { Self → OneThread };

    /// The names of the workers, by number, if they have names. No call changes them.
    ghost names: { Self → List (List ℕ) };

    /// A get by this worker takes no memory.
    ghost has_room: { Self → ℕ → Type 0 };

    /// How many workers there are.
    fn workers(&self) -> usize
        ensures { result ≡ length (table self.now).rows };

    /// How many modules the catalogue has, 65,535 at most.
    fn slots(&self) -> usize
        ensures all { result ≡ length (catalogue self.now) }
        ensures bound { result ≤ 65535 };

    /// The state of a module.
    fn state(&self, slot: usize) -> ModuleState
        requires { slot < length (catalogue self.now) }
        ensures { result ≡ state_of (table self.now).book slot };

    /// How many references a worker holds to a module, 65,535 at most.
    fn held(&self, worker: usize, slot: usize) -> u32
        requires worker { worker < length (table self.now).rows }
        requires slot { slot < length (catalogue self.now) }
        ensures count { result ≡ count_of (table self.now) worker slot }
        ensures bound { result ≤ 65535 };

    /// Whether any worker holds a reference to a module.
    fn in_use(&self, slot: usize) -> bool
        requires { slot < length (catalogue self.now) }
        ensures { result ≡ is_held (table self.now) slot };

    /// How many references all workers together hold to a module: those of 65,536 workers at most.
    fn pairs(&self, slot: usize) -> u32
        requires { slot < length (catalogue self.now) }
        ensures sum { result ≡ pairs (table self.now).rows slot }
        ensures bound { result ≤ 4294901760 };

    /// How many references there are to a module, and modules of the table that need it.
    fn references(&self, slot: usize) -> u32
        requires { slot < length (catalogue self.now) }
        ensures { result ≡ references (catalogue self.now) (table self.now) slot };

    /// How many modules the table has, in any state but Absent; no more than the catalogue.
    fn loaded(&self) -> usize
        ensures all { result ≡ length (table self.now).book.order }
        ensures bound { result ≤ length (catalogue self.now) }
        ensures limit { result ≤ 65535 };

    /// A module of the table by its age, the oldest at 0.
    fn loaded_at(&self, place: usize) -> usize
        requires { place < length (table self.now).book.order }
        ensures element { result ≡ slice_index (table self.now).book.order place }
        ensures slot { result < length (catalogue self.now) };

    /// Whether `user` is in the table and needs `slot`.
    fn is_user(&self, user: usize, slot: usize) -> bool
        requires user { user < length (catalogue self.now) }
        requires slot { slot < length (catalogue self.now) }
        ensures user { IsTrue result ↔ Contains (users (catalogue self.now) (table self.now).book slot) user }
        ensures needs { Contains (table self.now).book.order user → result ≡ needs_slot (catalogue self.now) slot user };

    /// The table has a state for each module and a row for each worker, and it is lawful: its order has each module
    /// of the table once, references name live or draining modules, and the needs of each module of the table are live.
    fn laws(&self)
        ensures shaped { IsShaped (length (catalogue self.now)) (length (table self.now).rows) (table self.now) }
        ensures lawful { IsLawful (catalogue self.now) (table self.now) };

    /// Makes room for a get by a worker. Out of memory, it may have none; the table stays in either case.
    fn make_room(&mut self, worker: usize) -> Result<(), AllocError>
        requires { worker < length (table self.old).rows }
        ensures room { OnOk result (has_room self.new worker) }
        ensures stays { table self.new ≡ table self.old }
        ensures over { catalogue self.new ≡ catalogue self.old }
        ensures named { names self.new ≡ names self.old };

    /// A worker takes a reference to a module. `NotLive`: the module is not live. `TooMany`: the worker holds
    /// 65,535 references to it.
    fn get(&mut self, worker: usize, slot: usize) -> Result<(), GetError>
        requires worker { worker < length (table self.old).rows }
        requires slot { slot < length (catalogue self.old) }
        requires room { has_room self.old worker }
        ensures answers { reply_of get_refusal result ≡ reply (catalogue self.old) (table self.old) (Get worker slot) }
        ensures becomes { table self.new ≡ next (catalogue self.old) (table self.old) (Get worker slot) }
        ensures over { catalogue self.new ≡ catalogue self.old }
        ensures named { names self.new ≡ names self.old };

    /// A worker puts a reference back. `NotHeld`: it holds none.
    fn put(&mut self, worker: usize, slot: usize) -> Result<(), PutError>
        requires worker { worker < length (table self.old).rows }
        requires slot { slot < length (catalogue self.old) }
        ensures answers { reply_of put_refusal result ≡ reply (catalogue self.old) (table self.old) (Put worker slot) }
        ensures becomes { table self.new ≡ next (catalogue self.old) (table self.old) (Put worker slot) }
        ensures over { catalogue self.new ≡ catalogue self.old }
        ensures named { names self.new ≡ names self.old };

    /// A module enters the table and loads (init_module(2)). `Exists`: it is in the table. `UnknownSymbol`: it needs
    /// a symbol that no module exports. `NeedNotLive`: the first of its needs that is not live.
    fn begin_load(&mut self, slot: usize) -> Result<(), BeginLoadError>
        requires { slot < length (catalogue self.old) }
        ensures answers { reply_of begin_load_refusal result ≡ reply (catalogue self.old) (table self.old) (BeginLoad slot) }
        ensures becomes { table self.new ≡ next (catalogue self.old) (table self.old) (BeginLoad slot) }
        ensures over { catalogue self.new ≡ catalogue self.old }
        ensures named { names self.new ≡ names self.old };

    /// A load ends: the module is live, or if it did not go well it leaves the table. `NotLoading`: it does not load.
    fn end_load(&mut self, slot: usize, ok: bool) -> Result<(), EndLoadError>
        requires { slot < length (catalogue self.old) }
        ensures answers { reply_of end_load_refusal result ≡ reply (catalogue self.old) (table self.old) (EndLoad slot ok) }
        ensures becomes { table self.new ≡ next (catalogue self.old) (table self.old) (EndLoad slot ok) }
        ensures over { catalogue self.new ≡ catalogue self.old }
        ensures named { names self.new ≡ names self.old };

    /// A live module takes no further reference; those that are held stay. `NoEntry`: it is not in the table.
    /// `NeededBy`: a module of the table needs it. `NotLive`: it loads, drains or unloads. `Permanent`: it stays for good.
    fn begin_drain(&mut self, slot: usize) -> Result<(), BeginDrainError>
        requires { slot < length (catalogue self.old) }
        ensures answers { reply_of begin_drain_refusal result ≡ reply (catalogue self.old) (table self.old) (BeginDrain slot) }
        ensures becomes { table self.new ≡ next (catalogue self.old) (table self.old) (BeginDrain slot) }
        ensures over { catalogue self.new ≡ catalogue self.old }
        ensures named { names self.new ≡ names self.old };

    /// A live module begins to unload (delete_module(2)). The refusals of `begin_drain`, then `InUse`: a worker holds
    /// a reference.
    fn begin_remove(&mut self, slot: usize) -> Result<(), BeginRemoveError>
        requires { slot < length (catalogue self.old) }
        ensures answers { reply_of begin_remove_refusal result ≡ reply (catalogue self.old) (table self.old) (BeginRemove slot) }
        ensures becomes { table self.new ≡ next (catalogue self.old) (table self.old) (BeginRemove slot) }
        ensures over { catalogue self.new ≡ catalogue self.old }
        ensures named { names self.new ≡ names self.old };

    /// An unloading or draining module leaves the table. `NotUnloading`: it is neither. `InUse`: it drains, and a worker
    /// holds a reference.
    fn end_remove(&mut self, slot: usize) -> Result<(), EndRemoveError>
        requires { slot < length (catalogue self.old) }
        ensures answers { reply_of end_remove_refusal result ≡ reply (catalogue self.old) (table self.old) (EndRemove slot) }
        ensures becomes { table self.new ≡ next (catalogue self.old) (table self.old) (EndRemove slot) }
        ensures over { catalogue self.new ≡ catalogue self.old }
        ensures named { names self.new ≡ names self.old };

    /// An unloading or draining module is live again, and is needed and given as before; its references stay.
    /// `NotUnloading`: it is neither.
    fn cancel_remove(&mut self, slot: usize) -> Result<(), CancelRemoveError>
        requires { slot < length (catalogue self.old) }
        ensures answers { reply_of cancel_remove_refusal result ≡ reply (catalogue self.old) (table self.old) (CancelRemove slot) }
        ensures becomes { table self.new ≡ next (catalogue self.old) (table self.old) (CancelRemove slot) }
        ensures over { catalogue self.new ≡ catalogue self.old }
        ensures named { names self.new ≡ names self.old };
}
