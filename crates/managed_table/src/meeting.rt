//! Two callers meet.
ghost use Rattle.std.specs.Prelude.{◌≡◌};
ghost use Rattle.managed_table.specs.Kept.{leaf_name, book_name};
ghost use Rattle.managed_table.specs.Turns.{pass_of};
ghost use Rattle.managed_table.specs.Passes.{IsFree};
ghost use Rattle.managed_table.specs.Callers.{IsCallerOf};
ghost use Rattle.managed_table.specs.Meeting.{AreApart};

use crate::caller::Caller;
use crate::keyed::Keyed;
use crate::locks::Locks;
use crate::plays::{FirstPass, TellApart, Together};
use crate::table::ManagedTable;
use crate::view::Passes;
use atomic_table::Seat;

impl ManagedTable {
    /// Two callers share no call, and any two of their turns at one lock are ordered: the later saw at its start all that the
    /// earlier had seen at its end.
    ///
    /// It changes nothing, takes no lock and does not wait. Six loads.
    pub fn compare(&self, first: Caller, second: Caller) -> (Caller, Caller)
        requires own { IsCallerOf self.now first × IsCallerOf self.now second }
        ensures same { (result.0 ≡ first) × (result.1 ≡ second) }
        ensures leaves { AreApart leaf_name first.leaves.pass second.leaves.pass }
        ensures book { AreApart book_name first.book.pass second.book.pass }
    {
        let Caller { leaves, book } = first;
        let Caller {
            leaves: other_leaves,
            book: other_book,
        } = second;
        let (leaves, other_leaves) = self.leaves.compare(leaves, other_leaves);
        let (book, other_book) = self.book.compare(book, other_book);
        let first = Caller { leaves, book };
        let second = Caller {
            leaves: other_leaves,
            book: other_book,
        };
        (first, second)
    }
}

impl<T: Keyed + Drop> Locks<T> {
    // Puts two passes in one view, learns that they are apart, and cuts them apart again.
    fn compare(
        &self,
        first: Seat<T, Passes>,
        second: Seat<T, Passes>,
    ) -> (Seat<T, Passes>, Seat<T, Passes>)
        requires first { IsFree self.now.table.shared.table_id self.now.table.shared.key.row.value first }
        requires second { IsFree self.now.table.shared.table_id self.now.table.shared.key.row.value second }
        ensures ids { (result.0.table_id ≡ first.table_id) × (result.1.table_id ≡ first.table_id) }
        ensures same { (result.0.me ≡ first.me) × (result.1.me ≡ second.me) }
        ensures apart { AreApart T.by (pass_of first.me.0) (pass_of second.me.0) }
    {
        let mut first = first;
        let shared = &self.table.shared;
        shared.join_seat::<Together>(&mut first, second);
        shared.load::<TellApart<T>>(&mut first, 0);
        let second = shared.split_seat::<FirstPass>(&mut first);
        (first, second)
    }
}
