//! The table, and the journal that stands for it.
ghost use Rattle.std.specs.Prelude.{◌≡◌, ◌⊎◌, ◌<◌, ◌≤◌, true, false, IfOk, OnOk, IsErrOf};
ghost use Rattle.line_journal.specs.Device.{AlwaysLeaves};
ghost use Rattle.line_journal.specs.Lines.{IsLine};
ghost use Rattle.held_lines.specs.Laws.{KeepsHeld};
ghost use Rattle.held_lines.specs.Outcomes.{held_line_outcome};
ghost use Rattle.held_lines.specs.Reading.{is_reading};
ghost use Rattle.durable_table.specs.Durable.{Stands, BeforeOrAfter};

use crate::chained::Chained;
use crate::seal::seal;
use held_lines::{HeldReply, HeldSession};
use line_journal::{Device, DeviceError};
use std::alloc::{AllocError, Global};
use thiserror::Error;

/// Why a line was given no reply.
#[derive(Clone, Copy, Debug, PartialEq, Eq, Drop, Error)]
pub enum PerformError {
    /// Out of memory. The journal is as it was.
    #[error("out of memory")]
    OutOfMemory,
    /// The journal could not be written. It stands for what a crash might have left: open it again.
    #[error("{0}")]
    Device(DeviceError),
}

/// A table with named holders, over the catalogue of a setup, and the journal that stands for it.
#[derive(Drop)]
pub struct DurableTable<'s, D: Device> {
    pub(crate) session: HeldSession<'s>,
    pub(crate) journal: Chained<D>,
}

impl<'s, D: Device> DurableTable<'s, D> {
    /// Makes what a line asks for. At `Ok` the reply is the one of the table, and the journal stands for the table after
    /// the line, on the disk: each crash from then on leaves a journal that does. A line whose reply reports no change writes
    /// nothing, and a line that asks reports none.
    ///
    /// A crash at any moment of the call leaves a journal of the table before the line, or of the one after it. Whatever the
    /// line is, no module that anybody held before it is removed. Out of memory, nothing was changed, and the table may be
    /// used further.
    #[tactic(auto, using(crate::proofs::MomentLemmas::no_moments, crate::proofs::ChainLemmas::seal_is_line))]
    pub fn perform(&mut self, alloc: Global, line: &[u8]) -> Result<HeldReply, PerformError>
        requires stands { Stands D.content D.history self.old.session.setup.now self.old.session.holders.held self.old.journal }
        requires line { IsLine line.now }
        ensures reply { IfOk result (λ r. r.reply ≡ (held_line_outcome self.old.session.setup.now self.old.session.holders.held line.now).0) }
        ensures becomes { OnOk result (self.new.session.holders.held
            ≡ (held_line_outcome self.old.session.setup.now self.old.session.holders.held line.now).1) }
        ensures stands { OnOk result (Stands D.content D.history self.old.session.setup.now self.new.session.holders.held self.new.journal) }
        ensures idle { IfOk result (λ r. r.changed ≡ false → self.new.journal ≡ self.old.journal) }
        ensures asking { OnOk result (is_reading line.now ≡ true → self.new.journal ≡ self.old.journal) }
        ensures same { IfOk result (λ r. r.changed ≡ false → self.new.session.holders.held ≡ self.old.session.holders.held) }
        ensures unchanged { IsErrOf result PerformError.OutOfMemory → (self.new.journal ≡ self.old.journal)
            × (self.new.session.holders.held ≡ self.old.session.holders.held) }
        ensures held { IsErrOf result PerformError.OutOfMemory
            ⊎ KeepsHeld self.old.session.holders.held.table (held_line_outcome self.old.session.setup.now self.old.session.holders.held line.now).1.table }
        ensures any_moment { AlwaysLeaves (D.history self.old.journal.lines.device) (D.history self.new.journal.lines.device)
            (BeforeOrAfter self.old.session.setup.now self.old.session.holders.held line.now) }
        ensures faults { IsErrOf result (PerformError.Device DeviceError.Failed) → D.faults self.old.journal.lines.device < D.faults self.new.journal.lines.device }
        ensures no_fewer { D.faults self.old.journal.lines.device ≤ D.faults self.new.journal.lines.device }
        ensures setup { self.new.session.setup ≡ self.old.session.setup }
    {
        let Ok(sealed) = seal(alloc, &self.journal.link, line) else {
            return Err(PerformError::OutOfMemory);
        };
        let Ok(reply) = self.session.perform(alloc, line) else {
            return Err(PerformError::OutOfMemory);
        };
        if !reply.changed {
            return Ok(reply);
        }
        match self.journal.put(alloc, sealed) {
            Ok(()) => Ok(reply),
            Err(error) => Err(PerformError::Device(error)),
        }
    }

    /// The table with its holders, and the setup that it is over.
    pub fn session(&self) -> &HeldSession<'s>
        ensures { result.now ≡ self.now.session }
    {
        &self.session
    }

    /// The device that the journal is on.
    pub fn device(&self) -> &D
        ensures { result.now ≡ self.now.journal.lines.device }
    {
        self.journal.lines.device()
    }

    /// Gives the device back.
    pub fn into_device(self) -> D
        ensures { result ≡ self.entry.journal.lines.device }
    {
        self.journal.into_device()
    }
}
