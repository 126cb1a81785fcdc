//! An own caller's get of several slots: all or none.
use crate::all_or_none::{NotTaken, has_slots, take_all};
use crate::attempt::Attempt;
use crate::own_caller::OwnCaller;

impl OwnCaller {
    ghost use Rattle.std.specs.Prelude.{◌≡◌};
    ghost use Rattle.managed_table.specs.Owned.{SameTable};
    ghost use Rattle.managed_table.specs.AllOrNone.{AllOrNoneEnded};

    /// Takes one reference for the worker to each of these slots, in one turn, or to none: if a get is refused or missed, those
    /// before it are given back, and the answer has its place. A slot that is named twice is taken twice.
    pub fn get_all(
        &mut self,
        worker: usize,
        wanted: &[usize],
        tries: u32,
    ) -> Attempt<Result<(), NotTaken>>
        ensures same { SameTable self.old self.new }
        ensures call { AllOrNoneEnded worker wanted.now tries self.old result self.new }
    {
        let row = &self.table.row;
        if !has_slots(row, wanted) {
            return Attempt::OutOfRange;
        }
        self.table
            .try_worker_turn(&mut self.caller, worker, tries, |leaf| {
                leaf.laws();
                let taken = take_all(row, leaf, wanted, tries);
                leaf.laws();
                taken
            })
    }
}
