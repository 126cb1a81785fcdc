//! Two leaves' seats are put together and cut apart again.
ghost use Rattle.std.specs.Prelude.{◌≡◌, [], ◌∷◌};
ghost use Rattle.root_row.specs.Seats.{IsOf};
ghost use Rattle.root_row.specs.Seating.{Paired, first_member, other_members};
ghost use Rattle.root_row.specs.declared.view.AtomicStep.TheVariants.{LoadSpare};

use crate::leaf_seat::LeafSeat;
use crate::pair_seat::PairSeat;
use crate::plays::{FirstMember, Hear, Together};
use crate::row::Row;

impl Row {
    /// Puts two leaves' seats together, which have then seen one list. Two loads, which are no points.
    ///
    /// The steps of the pair begin anew. The first of the loads, by which the seats become one, is not among them.
    pub fn join(&self, first: LeafSeat, second: LeafSeat) -> PairSeat
        requires first_own { IsOf self.now first }
        requires second_own { IsOf self.now second }
        ensures own { IsOf self.now result }
        ensures paired { Paired first.view second.view result.view }
        ensures anew { result.steps ≡ LoadSpare ∷ [] }
    {
        let LeafSeat { mut seat } = first;
        let LeafSeat { seat: other } = second;
        let shared = &self.table.shared;
        shared.join_seat::<Together>(&mut seat, other);
        shared.load::<Hear>(&mut seat, 0);
        PairSeat { seat }
    }

    /// Cuts a pair in its two leaves' seats. One load, which is no point and stands in no list of steps. Both leaves go on
    /// with the steps of the pair.
    pub fn part(&self, pair: PairSeat) -> (LeafSeat, LeafSeat)
        requires own { IsOf self.now pair }
        ensures own { IsOf self.now result.0 × IsOf self.now result.1 }
        ensures first { result.0.view ≡ first_member pair.view }
        ensures second { result.1.view ≡ other_members pair.view }
        ensures steps { (result.0.steps ≡ pair.steps) × (result.1.steps ≡ pair.steps) }
    {
        let PairSeat { mut seat } = pair;
        let first = self.table.shared.split_seat::<FirstMember>(&mut seat);
        (LeafSeat { seat: first }, LeafSeat { seat })
    }
}
