//! A leaf or the book and a reader hear of each other.
ghost use Rattle.std.specs.Prelude.{◌≡◌, [], ◌∷◌};
ghost use Rattle.root_row.specs.Seats.{IsOf};
ghost use Rattle.root_row.specs.Views.{IsOne, part_of};
ghost use Rattle.root_row.specs.Hearing.{HeardBoth};
ghost use Rattle.root_row.specs.declared.view.AtomicStep.TheVariants.{LoadSpare};

use crate::book_seat::BookSeat;
use crate::leaf_seat::LeafSeat;
use crate::plays::{FirstMember, Hear, Together};
use crate::read_seat::ReadSeat;
use crate::row::Row;
use crate::view::Trail;
use atomic_table::Seat;
use std::mem;

impl Row {
    /// A leaf and a reader hear of each other: both have then seen one list of calls. It begins with what each had seen, and
    /// has of each one's calls just those that it made.
    ///
    /// Three loads, which are no points: it adds no call, changes no word, takes no memory and does not wait. The steps of both
    /// begin anew, with the one of the loads by which they are told.
    pub fn hear_leaf(&self, leaf: &mut LeafSeat, reader: ReadSeat) -> ReadSeat
        requires leaf_own { IsOf self.now leaf.old }
        requires reader_own { IsOf self.now reader }
        ensures own { IsOf self.now leaf.new × IsOf self.now result }
        ensures heard { HeardBoth leaf.old.view reader.view leaf.new.view result.view }
        ensures anew { (leaf.new.steps ≡ LoadSpare ∷ []) × (result.steps ≡ LoadSpare ∷ []) }
    {
        let ReadSeat { seat } = reader;
        let seat = self.hear(&mut leaf.seat, seat);
        ReadSeat { seat }
    }

    /// The same of the book and a reader.
    pub fn hear_book(&self, book: &mut BookSeat, reader: ReadSeat) -> ReadSeat
        requires book_own { IsOf self.now book.old }
        requires reader_own { IsOf self.now reader }
        ensures own { IsOf self.now book.new × IsOf self.now result }
        ensures heard { HeardBoth book.old.view reader.view book.new.view result.view }
        ensures anew { (book.new.steps ≡ LoadSpare ∷ []) × (result.steps ≡ LoadSpare ∷ []) }
    {
        let ReadSeat { seat } = reader;
        let seat = self.hear(&mut book.seat, seat);
        ReadSeat { seat }
    }

    // Puts two seats together, tells them one list, and cuts them apart.
    fn hear(&self, one: &mut Seat<(), Trail>, other: Seat<(), Trail>) -> Seat<(), Trail>
        requires ids { (one.old.table_id ≡ self.now.id) × (other.table_id ≡ self.now.id) }
        requires singles { IsOne one.old.me.0.view (part_of one.old.me.0.view) × IsOne other.me.0.view (part_of other.me.0.view) }
        requires empty { (one.old.me.1 ≡ []) × (other.me.1 ≡ []) }
        ensures ids { (one.new.table_id ≡ self.now.id) × (result.table_id ≡ self.now.id) }
        ensures empty { (one.new.me.1 ≡ []) × (result.me.1 ≡ []) }
        ensures heard { HeardBoth one.old.me.0.view other.me.0.view one.new.me.0.view result.me.0.view }
        ensures anew { (one.new.me.0.steps ≡ LoadSpare ∷ []) × (result.me.0.steps ≡ LoadSpare ∷ []) }
    {
        let shared = &self.table.shared;
        shared.join_seat::<Together>(one, other);
        shared.load::<Hear>(one, 0);
        let first = shared.split_seat::<FirstMember>(one);
        mem::replace(one, first)
    }
}
