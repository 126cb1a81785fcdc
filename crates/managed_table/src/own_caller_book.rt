//! The calls of the book by a caller that owns a share of its table.
use crate::attempt::Attempt;
use crate::own_caller::OwnCaller;
use dep_index::{
    BeginDrainError, BeginLoadError, BeginRemoveError, Call, CancelRemoveError, EndLoadError,
    EndRemoveError, ModuleState,
};

impl OwnCaller {
    ghost use Rattle.dep_index.specs.Refusals.{reply_of, begin_load_refusal, end_load_refusal};
    ghost use Rattle.dep_index.specs.Refusals.{begin_drain_refusal, begin_remove_refusal, end_remove_refusal, cancel_remove_refusal};
    ghost use Rattle.managed_table.specs.Shown.{IsInState, HasLoaded};
    ghost use Rattle.managed_table.specs.Owned.{SameTable, Has};
    ghost use Rattle.managed_table.specs.Attempts.{BookEnded, LookEnded, BookDid, BookShows};

    /// Begins a load.
    pub fn begin_load(&mut self, slot: usize, tries: u32) -> Attempt<Result<(), BeginLoadError>>
        ensures same { SameTable self.old self.new }
        ensures call { BookEnded slot tries (λ r. BookDid (Call.BeginLoad slot) self.old self.new (reply_of begin_load_refusal r)) self.old result self.new }
    {
        let row = &self.table.row;
        self.table.try_slot_turn(
            &mut self.caller,
            slot,
            tries,
            |book| book.begin_load(row, slot),
        )
    }

    /// Ends a load, well or not.
    pub fn end_load(
        &mut self,
        slot: usize,
        ok: bool,
        tries: u32,
    ) -> Attempt<Result<(), EndLoadError>>
        ensures same { SameTable self.old self.new }
        ensures call { BookEnded slot tries (λ r. BookDid (Call.EndLoad slot ok) self.old self.new (reply_of end_load_refusal r)) self.old result self.new }
    {
        let row = &self.table.row;
        self.table.try_slot_turn(
            &mut self.caller,
            slot,
            tries,
            |book| book.end_load(row, slot, ok),
        )
    }

    /// Begins a drain: no further get succeeds.
    pub fn begin_drain(&mut self, slot: usize, tries: u32) -> Attempt<Result<(), BeginDrainError>>
        ensures same { SameTable self.old self.new }
        ensures call { BookEnded slot tries (λ r. BookDid (Call.BeginDrain slot) self.old self.new (reply_of begin_drain_refusal r)) self.old result self.new }
    {
        let row = &self.table.row;
        self.table.try_slot_turn(
            &mut self.caller,
            slot,
            tries,
            |book| book.begin_drain(row, slot),
        )
    }

    /// Begins a removal.
    pub fn begin_remove(&mut self, slot: usize, tries: u32) -> Attempt<Result<(), BeginRemoveError>>
        ensures same { SameTable self.old self.new }
        ensures call { BookEnded slot tries (λ r. BookDid (Call.BeginRemove slot) self.old self.new (reply_of begin_remove_refusal r)) self.old result self.new }
    {
        let row = &self.table.row;
        self.table.try_slot_turn(
            &mut self.caller,
            slot,
            tries,
            |book| book.begin_remove(row, slot),
        )
    }

    /// Ends a removal or a drain.
    pub fn end_remove(&mut self, slot: usize, tries: u32) -> Attempt<Result<(), EndRemoveError>>
        ensures same { SameTable self.old self.new }
        ensures call { BookEnded slot tries (λ r. BookDid (Call.EndRemove slot) self.old self.new (reply_of end_remove_refusal r)) self.old result self.new }
    {
        let row = &self.table.row;
        self.table.try_slot_turn(
            &mut self.caller,
            slot,
            tries,
            |book| book.end_remove(row, slot),
        )
    }

    /// Calls off a removal or a drain: the module is live again, and the references stay.
    pub fn cancel_remove(
        &mut self,
        slot: usize,
        tries: u32,
    ) -> Attempt<Result<(), CancelRemoveError>>
        ensures same { SameTable self.old self.new }
        ensures call { BookEnded slot tries (λ r. BookDid (Call.CancelRemove slot) self.old self.new (reply_of cancel_remove_refusal r)) self.old result self.new }
    {
        let row = &self.table.row;
        self.table.try_slot_turn(
            &mut self.caller,
            slot,
            tries,
            |book| book.cancel_remove(row, slot),
        )
    }

    /// The state of the module. The turn makes no call.
    pub fn state(&mut self, slot: usize, tries: u32) -> Attempt<ModuleState>
        ensures same { SameTable self.old self.new }
        ensures shown { BookEnded slot tries (λ state. BookShows (IsInState slot state) self.old self.new) self.old result self.new }
    {
        self.table
            .try_slot_turn(&mut self.caller, slot, tries, |book| {
                book.laws();
                book.state(slot)
            })
    }

    /// How many modules are loaded, in any state. The turn makes no call.
    pub fn loaded(&mut self, tries: u32) -> Attempt<usize>
        ensures same { SameTable self.old self.new }
        ensures shown { LookEnded tries (λ count. BookShows (HasLoaded count) self.old self.new) self.old result self.new }
    {
        self.table.try_book_turn(&mut self.caller, tries, |book| {
            book.laws();
            book.loaded()
        })
    }

    /// The loaded module at this place, the oldest first. The answer is None if no more modules are loaded. The turn makes no
    /// call.
    pub fn loaded_at(&mut self, place: usize, tries: u32) -> Attempt<Option<usize>>
        ensures same { SameTable self.old self.new }
        ensures shown { LookEnded tries (λ found. BookShows (Has place found) self.old self.new) self.old result self.new }
    {
        self.table.try_book_turn(&mut self.caller, tries, |book| {
            book.laws();
            if place >= book.loaded() {
                return None;
            }
            Some(book.loaded_at(place))
        })
    }
}
