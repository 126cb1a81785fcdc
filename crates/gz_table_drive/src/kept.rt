//! The table that a process keeps from one tenure to the next.
ghost use Rattle.std.specs.Prelude.{◌≡◌, IfSome};
ghost use Rattle.std.proofs.Props.{props};
ghost use Rattle.durable_table.specs.Durable.{Reads};
ghost use Rattle.gz_table_drive.specs.Log.{IsOf};
ghost use Rattle.gz_table_drive.specs.Taken.{IsTaken};

use durable_table::{CaughtUp, DurableTable};
use line_journal::{Device, Renewable};
use std::alloc::Global;
use table_folder::FolderSetup;

/// The setup that a process goes by, and a table that is kept of it, if there is one. It read as its journal did when it was
/// put here, and that was of this setup.
#[derive(Drop)]
pub(crate) struct Kept<'s, D: Device + Drop> {
    setup: &'s FolderSetup,
    table: Option<DurableTable<'s, D>>,
    ghost of_setup: { IfSome table (λ t. t.session.setup.now ≡ setup.now.setup) } by { Prim.hlevel props },
    ghost reads: { IfSome table (λ t. Reads D.content setup.now.setup t.session.holders.held t.journal) } by { Prim.hlevel props },
    ghost of: { IfSome table (λ t. IsOf setup.now (D.content t.journal.lines.device)) } by { Prim.hlevel props },
}

/// What there is of a table that is kept, once it is taken. Its device has the turn.
#[derive(Drop)]
pub(crate) enum Taken<'s, D: Renewable + Drop> {
    /// The table, with all that others have made of its journal since.
    Table(DurableTable<'s, D>),
    /// The journal is another one, or is not at rest. The table is to be opened anew over its device.
    Anew(D),
    /// It could not be looked at. The table is to be opened anew over its device, once that has read the file again.
    Failed(D),
    /// No table was kept. The turn is handed back.
    Missing(D::Turn),
}

/// A table whose turn is over.
#[tactic(auto, using(durable_table::proofs::KeptLemmas::rested))]
pub(crate) fn rested<'s, D: Renewable + Drop>(mut table: DurableTable<'s, D>) -> DurableTable<'s, D>
    requires reads { Reads D.content table.session.setup.now table.session.holders.held table.journal }
    ensures reads { Reads D.content table.entry.session.setup.now result.session.holders.held result.journal }
    ensures session { result.session ≡ table.entry.session }
    ensures content { D.content result.journal.lines.device ≡ D.content table.entry.journal.lines.device }
{
    table.rest();
    table
}

impl<'s, D: Renewable + Drop> Kept<'s, D> {
    /// No table is kept yet, of the setup of a folder.
    pub(crate) fn new(setup: &'s FolderSetup) -> Kept<'s, D>
        ensures { result.setup.now ≡ setup.now }
    {
        Kept { setup, table: None }
    }

    /// The setup.
    pub(crate) fn setup(&self) -> &'s FolderSetup
        ensures { result.now ≡ self.now.setup.now }
    {
        self.setup
    }

    /// The turn of this process begins: takes the table, and looks at what others have made of its journal. None is kept then.
    #[tactic(auto, using(crate::proofs::TenureLemmas::stays_of))]
    pub(crate) fn take(&mut self, alloc: Global, turn: D::Turn) -> Taken<'s, D>
        ensures taken { IsTaken D.content D.looks self.old.setup.now self.old.table result }
        ensures setup { self.new.setup.now ≡ self.old.setup.now }
    {
        let Some(mut table) = self.table.take() else {
            return Taken::Missing(turn);
        };
        match table.catch_up(alloc, turn) {
            Ok(CaughtUp::Ready) => Taken::Table(table),
            Ok(CaughtUp::Anew) => Taken::Anew(table.into_device()),
            Err(_) => Taken::Failed(table.into_device()),
        }
    }

    /// The turn of this process is over: keeps a table that reads as its journal does.
    pub(crate) fn keep(&mut self, table: DurableTable<'s, D>)
        requires of_setup { table.session.setup.now ≡ self.old.setup.now.setup }
        requires reads { Reads D.content self.old.setup.now.setup table.session.holders.held table.journal }
        requires of { IsOf self.old.setup.now (D.content table.journal.lines.device) }
        ensures { self.new.setup.now ≡ self.old.setup.now }
    {
        self.table = Some(rested(table));
    }
}
