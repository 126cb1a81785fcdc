//! A journal is rewritten for another setup.
ghost use Rattle.std.specs.Prelude.{◌≡◌, true, ◌<◌, ◌≤◌, Ok, map, drop, OnOk, IfOk, IfSome, IfNone, IsErrOf};
ghost use Rattle.held_lines.specs.Outcomes.{after};
ghost use Rattle.held_lines.specs.Snapshots.{snapshot_of};
ghost use Rattle.dep_index.specs.Catalogue.{modules_of};
ghost use Rattle.line_journal.specs.Device.{AlwaysLeaves};
ghost use Rattle.line_journal.specs.declared.device.DeviceError.TheVariants.{Failed};
ghost use Rattle.line_journal.specs.Lines.{bytes_of};
ghost use Rattle.durable_table.specs.Tables.{opening_of};
ghost use Rattle.durable_table.specs.Durable.{Stands};
ghost use Rattle.durable_table.specs.Compacting.{compacted};
ghost use Rattle.durable_table.specs.Renewing.{CanBeRenewed, IsRenewal, OldOrRenewal};

use crate::compaction::{Compacted, journal_of};
use crate::durable::{DurableTable, PerformError};
use crate::replay::replay;
use held_lines::HeldSession;
use held_table::HeldTable;
use line_journal::{Device, are_lines};
use modprobe::Setup;
use std::alloc::{AllocError, Global};

/// Whether lines are the same as others, in the same order.
fn are_same(lines: &[Vec<u8>], others: &[Vec<u8>]) -> bool
    ensures is { result ≡ true → bytes_of lines.now ≡ bytes_of others.now }
    ensures all { bytes_of lines.now ≡ bytes_of others.now → result ≡ true }
{
    if lines.len() != others.len() {
        return false;
    }
    for place in 0..lines.len() {
        if lines[place].as_slice() != others[place].as_slice() {
            return false;
        }
    }
    true
}

/// The snapshot of a table of another setup after the commands of these lines. It begins with holders of which none is there yet.
fn snapshot_after(
    alloc: Global,
    next: &Setup,
    fresh: HeldTable,
    lines: &[Vec<u8>],
) -> Result<Vec<Vec<u8>>, AllocError>
    requires over { fresh.catalogue ≡ modules_of next.now.catalogue }
    ensures { IfOk result (λ commands. bytes_of commands.items ≡ snapshot_of next.now (after next.now fresh.held (map (drop 17) (bytes_of lines.now)))) }
{
    let mut other = HeldSession::new(next, fresh);
    replay(alloc, &mut other, lines)?;
    other.snapshot(alloc)
}

/// The lines of a journal that make a table anew, of the name of another setup, if they make one of that which is the same by
/// names. They are tried on holders of which none is there yet.
#[tactic(auto, using(crate::proofs::CompactLemmas::has_first))]
fn remake_for(
    alloc: Global,
    session: &HeldSession<'_>,
    name: &[u8],
    next: &Setup,
    fresh: HeldTable,
) -> Result<Option<Vec<Vec<u8>>>, AllocError>
    requires over { fresh.catalogue ≡ modules_of next.now.catalogue }
    requires opening { fresh.held ≡ opening_of next.now }
    ensures made { IfOk result (λ found. IfSome found (λ lines. bytes_of lines.items ≡ compacted name.now session.now.setup.now session.now.holders.held)) }
    ensures can { IfOk result (λ found. IfSome found (λ _. CanBeRenewed name.now session.now.setup.now session.now.holders.held next.now)) }
    ensures none { IfOk result (λ found. IfNone found (CanBeRenewed name.now session.now.setup.now session.now.holders.held next.now → ⊥)) }
{
    let commands = session.snapshot(alloc)?;
    let lines = journal_of(alloc, name, &commands)?;
    let others = snapshot_after(alloc, next, fresh, &lines[1..])?;
    if !are_same(&others, &commands) {
        return Ok(None);
    }
    if !are_lines(&lines) {
        return Ok(None);
    }
    Ok(Some(lines))
}

impl<'s, D: Device> DurableTable<'s, D> {
    /// Rewrites the journal as the lines that make the table, for another setup, which has this name: if they make a table of
    /// that setup which is the same by names, and only then. They are first tried, on holders of that setup of which none is
    /// there yet. At `Ok` it is on the disk. If it was rewritten, it is to be opened anew, with the other setup.
    ///
    /// A crash at any moment of the call leaves a journal of the table, or one of the other setup's. Out of memory, nothing was
    /// changed.
    pub fn renew(
        &mut self,
        alloc: Global,
        name: &[u8],
        next: &Setup,
        fresh: HeldTable,
    ) -> Result<Compacted, PerformError>
        requires over { fresh.catalogue ≡ modules_of next.now.catalogue }
        requires opening { fresh.held ≡ opening_of next.now }
        requires stands { Stands D.content D.history self.old.session.setup.now self.old.session.holders.held self.old.journal }
        ensures done { result ≡ Ok Compacted.Done → IsRenewal name.now self.old.session.setup.now self.old.session.holders.held next.now (D.content self.new.journal.lines.device) }
        ensures kept { result ≡ Ok Compacted.Kept → self.new.journal ≡ self.old.journal }
        ensures needed { result ≡ Ok Compacted.Kept → CanBeRenewed name.now self.old.session.setup.now self.old.session.holders.held next.now → ⊥ }
        ensures unchanged { IsErrOf result PerformError.OutOfMemory → self.new.journal ≡ self.old.journal }
        ensures any_moment { AlwaysLeaves (D.history self.old.journal.lines.device) (D.history self.new.journal.lines.device)
            (OldOrRenewal name.now self.old.session.setup.now self.old.session.holders.held next.now) }
        ensures faults { IsErrOf result (PerformError.Device Failed) → D.faults self.old.journal.lines.device < D.faults self.new.journal.lines.device }
        ensures no_fewer { D.faults self.old.journal.lines.device ≤ D.faults self.new.journal.lines.device }
        ensures session { self.new.session ≡ self.old.session }
    {
        let Ok(found) = remake_for(alloc, &self.session, name, next, fresh) else {
            return Err(PerformError::OutOfMemory);
        };
        let Some(lines) = found else {
            return Ok(Compacted::Kept);
        };
        match self.journal.rewrite(alloc, lines) {
            Ok(()) => Ok(Compacted::Done),
            Err(error) => Err(PerformError::Device(error)),
        }
    }
}
