//! A caller that owns a share of its table, and a teller.
use crate::attempt::Attempt;
use crate::own_caller::OwnCaller;
use crate::teller::Teller;

impl OwnCaller {
    ghost use Rattle.root_row.specs.Seats.{IsOf};
    ghost use Rattle.managed_table.specs.Owned.{row_of, SameTable};
    ghost use Rattle.managed_table.specs.Attempts.{LeafMeets, BookMeets};

    /// The worker's leaf and a teller hear of each other, as by `ManagedTable::meet_leaf`. The turn makes no call.
    pub fn meet_leaf(&mut self, worker: usize, teller: &mut Teller, tries: u32) -> Attempt<()>
        requires teller_own { IsOf (row_of self.old) teller.old }
        ensures same { SameTable self.old self.new }
        ensures teller_own { IsOf (row_of self.old) teller.new }
        ensures met { LeafMeets worker tries teller.old teller.new self.old result self.new }
    {
        if worker >= self.workers() {
            return Attempt::OutOfRange;
        }
        let Some(reader) = teller.reader.take() else {
            unreachable!()
        };
        let (met, reader) = self
            .table
            .try_meet_leaf(&mut self.caller, worker, reader, tries);
        teller.reader = Some(reader);
        if met {
            Attempt::Answered(())
        } else {
            Attempt::LockBusy
        }
    }

    /// The same of the book and a teller.
    pub fn meet_book(&mut self, teller: &mut Teller, tries: u32) -> Attempt<()>
        requires teller_own { IsOf (row_of self.old) teller.old }
        ensures same { SameTable self.old self.new }
        ensures teller_own { IsOf (row_of self.old) teller.new }
        ensures met { BookMeets tries teller.old teller.new self.old result self.new }
    {
        let Some(reader) = teller.reader.take() else {
            unreachable!()
        };
        let (met, reader) = self.table.try_meet_book(&mut self.caller, reader, tries);
        teller.reader = Some(reader);
        if met {
            Attempt::Answered(())
        } else {
            Attempt::LockBusy
        }
    }
}
