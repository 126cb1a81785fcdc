//! The tenures of a run, as clauses see them.
ghost use Rattle.std.specs.Prelude.{◌≡◌, [], OnOk, OnErr};
ghost use Rattle.gz_table_drive.specs.Log.{HasBegun, HasEnded};

use file_journal::Belief;
use std::alloc::{AllocError, Global};
use std::snapshot::Snapshot;
use table_folder::Sight;

/// What a process did from where it had the lock of a table to where it gave it back. Only clauses read it.
#[derive(Drop)]
pub struct Tenure {
    /// The journal, as it was read once the lock was had.
    found: Sight,
    /// What is believed of the journal's file at the end. None if all lines asked.
    left: Snapshot<Option<Snapshot<Belief>>>,
}

/// The tenures of a run, oldest first. It takes no memory.
#[derive(Drop)]
pub struct Tenures {
    noted: Vec<Tenure>,
}

impl Tenures {
    /// None yet.
    pub fn new(alloc: Global) -> Self
        ensures { result.noted.items ≡ [] }
    {
        Tenures {
            noted: Vec::new(alloc),
        }
    }

    /// A tenure begins over a journal that was read.
    pub(crate) fn begin(&mut self, found: Sight) -> Result<(), AllocError>
        ensures ok { OnOk result (HasBegun found.bytes.value.items self.old self.new) }
        ensures err { OnErr result (self.new.noted.items ≡ self.old.noted.items) }
    {
        let left = Snapshot::of(&None);
        self.noted.push(Tenure { found, left })?;
        Ok(())
    }

    /// The tenure that began last may have changed its table. This is what is believed of the file at its end.
    pub(crate) fn end(&mut self, belief: Snapshot<Belief>)
        ensures { HasEnded belief.value self.old self.new }
    {
        if let Some(last) = self.noted.last_mut() {
            last.left = Snapshot::of(&Some(belief));
        }
    }
}
