//! The calls of the book.
use crate::caller::Caller;
use crate::table::ManagedTable;
use dep_index::{
    BeginDrainError, BeginLoadError, BeginRemoveError, Call, CancelRemoveError, EndLoadError,
    EndRemoveError, ModuleState,
};
use std::sync::Wait;

impl ManagedTable {
    ghost use Rattle.std.specs.Prelude.{◌≡◌, ◌<◌, ◌≤◌, IfSome, IfNone, MatchOption};
    ghost use Rattle.dep_index.specs.Refusals.{reply_of, begin_load_refusal, end_load_refusal};
    ghost use Rattle.dep_index.specs.Refusals.{begin_drain_refusal, begin_remove_refusal, end_remove_refusal, cancel_remove_refusal};
    ghost use Rattle.root_row.specs.World.{slots};
    ghost use Rattle.managed_table.specs.Shown.{IsInState, HasLoaded, HasLoadedAt, HasNoneAt};
    ghost use Rattle.managed_table.specs.Callers.{IsCallerOf, BookMade, BookShown};

    /// Begins a load. It is None exactly if the slot is out of range.
    ///
    /// Else the caller made one turn more: in it the book made this one call, which was answered so.
    pub fn begin_load<R: Wait>(
        &self,
        rt: &R,
        caller: &mut Caller,
        slot: usize,
    ) -> Option<Result<(), BeginLoadError>>
        requires own { IsCallerOf self.now caller.old }
        ensures own { IsCallerOf self.now caller.new }
        ensures range { MatchOption result ((slots self.now.row.world ≤ slot) × (caller.new ≡ caller.old)) (λ _. slot < slots self.now.row.world) }
        ensures call { IfSome result (λ r. BookMade self.now (Call.BeginLoad slot) (reply_of begin_load_refusal r) caller.old caller.new) }
        ensures leaves { caller.new.leaves ≡ caller.old.leaves }
    {
        if slot >= self.slots() {
            return None;
        }
        let row = &self.row;
        Some(self.book_turn(rt, caller, |book| book.begin_load(row, slot)))
    }

    /// Ends a load, well or not.
    pub fn end_load<R: Wait>(
        &self,
        rt: &R,
        caller: &mut Caller,
        slot: usize,
        ok: bool,
    ) -> Option<Result<(), EndLoadError>>
        requires own { IsCallerOf self.now caller.old }
        ensures own { IsCallerOf self.now caller.new }
        ensures range { MatchOption result ((slots self.now.row.world ≤ slot) × (caller.new ≡ caller.old)) (λ _. slot < slots self.now.row.world) }
        ensures call { IfSome result (λ r. BookMade self.now (Call.EndLoad slot ok) (reply_of end_load_refusal r) caller.old caller.new) }
        ensures leaves { caller.new.leaves ≡ caller.old.leaves }
    {
        if slot >= self.slots() {
            return None;
        }
        let row = &self.row;
        Some(self.book_turn(rt, caller, |book| book.end_load(row, slot, ok)))
    }

    /// Begins a drain: no further get succeeds.
    pub fn begin_drain<R: Wait>(
        &self,
        rt: &R,
        caller: &mut Caller,
        slot: usize,
    ) -> Option<Result<(), BeginDrainError>>
        requires own { IsCallerOf self.now caller.old }
        ensures own { IsCallerOf self.now caller.new }
        ensures range { MatchOption result ((slots self.now.row.world ≤ slot) × (caller.new ≡ caller.old)) (λ _. slot < slots self.now.row.world) }
        ensures call { IfSome result (λ r. BookMade self.now (Call.BeginDrain slot) (reply_of begin_drain_refusal r) caller.old caller.new) }
        ensures leaves { caller.new.leaves ≡ caller.old.leaves }
    {
        if slot >= self.slots() {
            return None;
        }
        let row = &self.row;
        Some(self.book_turn(rt, caller, |book| book.begin_drain(row, slot)))
    }

    /// Begins a removal.
    pub fn begin_remove<R: Wait>(
        &self,
        rt: &R,
        caller: &mut Caller,
        slot: usize,
    ) -> Option<Result<(), BeginRemoveError>>
        requires own { IsCallerOf self.now caller.old }
        ensures own { IsCallerOf self.now caller.new }
        ensures range { MatchOption result ((slots self.now.row.world ≤ slot) × (caller.new ≡ caller.old)) (λ _. slot < slots self.now.row.world) }
        ensures call { IfSome result (λ r. BookMade self.now (Call.BeginRemove slot) (reply_of begin_remove_refusal r) caller.old caller.new) }
        ensures leaves { caller.new.leaves ≡ caller.old.leaves }
    {
        if slot >= self.slots() {
            return None;
        }
        let row = &self.row;
        Some(self.book_turn(rt, caller, |book| book.begin_remove(row, slot)))
    }

    /// Ends a removal or a drain.
    pub fn end_remove<R: Wait>(
        &self,
        rt: &R,
        caller: &mut Caller,
        slot: usize,
    ) -> Option<Result<(), EndRemoveError>>
        requires own { IsCallerOf self.now caller.old }
        ensures own { IsCallerOf self.now caller.new }
        ensures range { MatchOption result ((slots self.now.row.world ≤ slot) × (caller.new ≡ caller.old)) (λ _. slot < slots self.now.row.world) }
        ensures call { IfSome result (λ r. BookMade self.now (Call.EndRemove slot) (reply_of end_remove_refusal r) caller.old caller.new) }
        ensures leaves { caller.new.leaves ≡ caller.old.leaves }
    {
        if slot >= self.slots() {
            return None;
        }
        let row = &self.row;
        Some(self.book_turn(rt, caller, |book| book.end_remove(row, slot)))
    }

    /// Calls off a removal or a drain: the module is live again, and the references stay.
    pub fn cancel_remove<R: Wait>(
        &self,
        rt: &R,
        caller: &mut Caller,
        slot: usize,
    ) -> Option<Result<(), CancelRemoveError>>
        requires own { IsCallerOf self.now caller.old }
        ensures own { IsCallerOf self.now caller.new }
        ensures range { MatchOption result ((slots self.now.row.world ≤ slot) × (caller.new ≡ caller.old)) (λ _. slot < slots self.now.row.world) }
        ensures call { IfSome result (λ r. BookMade self.now (Call.CancelRemove slot) (reply_of cancel_remove_refusal r) caller.old caller.new) }
        ensures leaves { caller.new.leaves ≡ caller.old.leaves }
    {
        if slot >= self.slots() {
            return None;
        }
        let row = &self.row;
        Some(self.book_turn(rt, caller, |book| book.cancel_remove(row, slot)))
    }

    /// The state of the module. The turn makes no call.
    pub fn state<R: Wait>(&self, rt: &R, caller: &mut Caller, slot: usize) -> Option<ModuleState>
        requires own { IsCallerOf self.now caller.old }
        ensures own { IsCallerOf self.now caller.new }
        ensures range { MatchOption result ((slots self.now.row.world ≤ slot) × (caller.new ≡ caller.old)) (λ _. slot < slots self.now.row.world) }
        ensures shown { IfSome result (λ r. BookShown self.now (IsInState slot r) caller.old caller.new) }
        ensures leaves { caller.new.leaves ≡ caller.old.leaves }
    {
        if slot >= self.slots() {
            return None;
        }
        Some(self.book_turn(rt, caller, |book| {
            book.laws();
            book.state(slot)
        }))
    }

    /// How many modules are loaded, in any state. The turn makes no call.
    pub fn loaded<R: Wait>(&self, rt: &R, caller: &mut Caller) -> usize
        requires own { IsCallerOf self.now caller.old }
        ensures own { IsCallerOf self.now caller.new }
        ensures shown { BookShown self.now (HasLoaded result) caller.old caller.new }
        ensures leaves { caller.new.leaves ≡ caller.old.leaves }
    {
        self.book_turn(rt, caller, |book| {
            book.laws();
            book.loaded()
        })
    }

    /// The loaded module at this place, the oldest first. It is None if no more modules are loaded. The turn makes no call.
    pub fn loaded_at<R: Wait>(&self, rt: &R, caller: &mut Caller, place: usize) -> Option<usize>
        requires own { IsCallerOf self.now caller.old }
        ensures own { IsCallerOf self.now caller.new }
        ensures shown { IfSome result (λ r. BookShown self.now (HasLoadedAt place r) caller.old caller.new) }
        ensures none { IfNone result (BookShown self.now (HasNoneAt place) caller.old caller.new) }
        ensures leaves { caller.new.leaves ≡ caller.old.leaves }
    {
        self.book_turn(rt, caller, |book| {
            book.laws();
            if place >= book.loaded() {
                return None;
            }
            Some(book.loaded_at(place))
        })
    }
}
