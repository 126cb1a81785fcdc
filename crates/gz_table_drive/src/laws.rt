//! What is true of every run.
ghost use Rattle.gz_table_drive.specs.Adopting.{AdoptingKeepsHeld};
ghost use Rattle.gz_table_drive.specs.Reading.{ReadsOnly};

/// A line that asks leaves the table and its holders as they are, so it may be answered from a copy of the journal.
pub fn what_asks_changes_nothing()
    ensures { ReadsOnly }
{}

/// Whatever a kernel has, and wherever `adopt_modules` stops, each holder holds what it held, and no module that anybody held
/// is absent.
pub fn adopting_keeps_held()
    ensures { AdoptingKeepsHeld }
{}
