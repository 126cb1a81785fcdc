//! A leaf or the book and a reader hear of each other, under the lock.
use crate::caller::Caller;
use crate::table::ManagedTable;
use std::sync::Wait;
use use_indicator::Reader;

impl ManagedTable {
    ghost use Rattle.std.specs.Prelude.{◌≡◌, ◌<◌, MatchBool};
    ghost use Rattle.root_row.specs.Seats.{IsOf};
    ghost use Rattle.managed_table.specs.Callers.{IsCallerOf, LeafMissed, BookMissed};
    ghost use Rattle.managed_table.specs.Hearing.{LeafMet, BookMet};

    /// The worker's leaf and a reader hear of each other: both have then seen one list of calls. It begins with what each had
    /// seen, is legal, and has of each one's calls just those that it made. The turn makes no call.
    ///
    /// So a reader gives order across locks. A later call at this lock, by a caller that met there, has in its history all
    /// that the reader had seen, and the reader takes on what the leaf had seen. Three loads besides the lock.
    pub fn meet_leaf<R: Wait>(
        &self,
        rt: &R,
        caller: &mut Caller,
        worker: usize,
        reader: Reader,
    ) -> Reader
        requires own { IsCallerOf self.now caller.old }
        requires reader_own { IsOf self.now.row reader }
        requires inside { worker < self.now.row.world.workers }
        ensures own { IsCallerOf self.now caller.new }
        ensures reader_own { IsOf self.now.row result }
        ensures met { LeafMet self.now worker caller.old caller.new reader.view result.view }
        ensures book { caller.new.book ≡ caller.old.book }
    {
        let row = &self.row;
        let seat = &mut caller.leaves;
        self.leaves
            .turn(rt, seat, worker, |leaf| reader.hear_leaf(row, leaf))
    }

    /// The same of the book and the reader.
    pub fn meet_book<R: Wait>(&self, rt: &R, caller: &mut Caller, reader: Reader) -> Reader
        requires own { IsCallerOf self.now caller.old }
        requires reader_own { IsOf self.now.row reader }
        ensures own { IsCallerOf self.now caller.new }
        ensures reader_own { IsOf self.now.row result }
        ensures met { BookMet self.now caller.old caller.new reader.view result.view }
        ensures leaves { caller.new.leaves ≡ caller.old.leaves }
    {
        let row = &self.row;
        self.book_turn(rt, caller, |book| book.hear(row, reader))
    }

    /// As `meet_leaf`, but it never waits. False: the lock was found taken at each of so many tries, and the reader is as it was.
    pub(crate) fn try_meet_leaf(
        &self,
        caller: &mut Caller,
        worker: usize,
        reader: Reader,
        tries: u32,
    ) -> (bool, Reader)
        requires own { IsCallerOf self.now caller.old }
        requires reader_own { IsOf self.now.row reader }
        requires inside { worker < self.now.row.world.workers }
        ensures own { IsCallerOf self.now caller.new }
        ensures reader_own { IsOf self.now.row result.1 }
        ensures met { MatchBool result.0 (LeafMet self.now worker caller.old caller.new reader.view result.1.view) (LeafMissed worker tries caller.old caller.new × (result.1 ≡ reader)) }
        ensures book { caller.new.book ≡ caller.old.book }
    {
        let row = &self.row;
        let seat = &mut caller.leaves;
        if !self.leaves.take_within(seat, worker, tries) {
            return (false, reader);
        }
        let reader = self
            .leaves
            .lend(seat, worker, |leaf| reader.hear_leaf(row, leaf));
        self.leaves.let_go(seat, worker);
        (true, reader)
    }

    /// The same of the book and the reader.
    pub(crate) fn try_meet_book(
        &self,
        caller: &mut Caller,
        reader: Reader,
        tries: u32,
    ) -> (bool, Reader)
        requires own { IsCallerOf self.now caller.old }
        requires reader_own { IsOf self.now.row reader }
        ensures own { IsCallerOf self.now caller.new }
        ensures reader_own { IsOf self.now.row result.1 }
        ensures met { MatchBool result.0 (BookMet self.now caller.old caller.new reader.view result.1.view) (BookMissed tries caller.old caller.new × (result.1 ≡ reader)) }
        ensures leaves { caller.new.leaves ≡ caller.old.leaves }
    {
        let row = &self.row;
        let seat = &mut caller.book;
        if !self.book.take_within(seat, 0, tries) {
            return (false, reader);
        }
        let reader = self.book.lend(seat, 0, |book| book.hear(row, reader));
        self.book.let_go(seat, 0);
        (true, reader)
    }
}
