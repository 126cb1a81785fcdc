//! Lines that are there already, made as one group.
ghost use Rattle.std.specs.Prelude.{◌≡◌, ◌⊎◌, ◌<◌, ◌≤◌, ◌++◌, ◌∷◌, [], true, false, if◌then◌else◌, map, IfOk, OnOk, IsErrOf};
ghost use Rattle.line_journal.specs.Device.{AlwaysLeaves};
ghost use Rattle.line_journal.specs.declared.device.DeviceError.TheVariants.{Failed};
ghost use Rattle.line_journal.specs.Lines.{bytes_of, lines_of, IsLine, AreLines};
ghost use Rattle.held_lines.specs.Laws.{KeepsHeld};
ghost use Rattle.held_lines.specs.Outcomes.{after, held_line_outcome};
ghost use Rattle.held_lines.specs.Reading.{is_reading};
ghost use Rattle.line_journal.specs.Journal.{lines_in};
ghost use Rattle.durable_table.specs.Seals.{seal, last_link};
ghost use Rattle.durable_table.specs.Commands.{StaysOf};
ghost use Rattle.durable_table.specs.Durable.{Stands};
ghost use Rattle.durable_table.specs.Groups.{replies_of, KeepsHeldAlong, AfterFirstOf, AreIdle, AreMade, AreAsking};

use crate::chained::last_link;
use crate::durable::{DurableTable, PerformError};
use crate::seal::seal;
use held_lines::{HeldReply, HeldSession};
use line_journal::Device;
use std::alloc::{AllocError, Global};

/// What lines are answered in memory, and the seals of those that may have changed anything.
#[derive(Drop)]
pub(crate) struct Group {
    pub(crate) replies: Vec<HeldReply>,
    sealed: Vec<Vec<u8>>,
}

/// Makes what a line asks for, in memory. If that may have changed anything, the seal of the line comes behind the others, of
/// which the first is sealed with this link.
fn make(
    alloc: Global,
    session: &mut HeldSession<'_>,
    line: &[u8],
    link: &[u8],
    sealed: &mut Vec<Vec<u8>>,
) -> Result<HeldReply, AllocError>
    ensures reply { IfOk result (λ r. r.reply ≡ (held_line_outcome session.old.setup.now session.old.holders.held line.now).0) }
    ensures becomes { OnOk result (session.new.holders.held ≡ (held_line_outcome session.old.setup.now session.old.holders.held line.now).1) }
    ensures held { OnOk result (KeepsHeld session.old.holders.held.table session.new.holders.held.table) }
    ensures same { IfOk result (λ r. r.changed ≡ false → session.new.holders.held ≡ session.old.holders.held) }
    ensures asking { IfOk result (λ r. is_reading line.now ≡ true → r.changed ≡ false) }
    ensures sealed { IfOk result (λ r. bytes_of sealed.new.items ≡ bytes_of sealed.old.items ++ (if r.changed then seal (last_link link.now (bytes_of sealed.old.items)) line.now ∷ [] else [])) }
    ensures setup { session.new.setup ≡ session.old.setup }
{
    let reply = session.perform(alloc, line)?;
    if reply.changed {
        let seal = seal(alloc, last_link(link, sealed), line)?;
        sealed.push(seal)?;
    }
    Ok(reply)
}

/// Makes what each line asks for, in memory, one after another. The first seal is made with this link.
pub(crate) fn make_each(
    alloc: Global,
    session: &mut HeldSession<'_>,
    link: &[u8],
    lines: &[Vec<u8>],
) -> Result<Group, AllocError>
    requires { AreLines (bytes_of lines.now) }
    ensures made { IfOk result (λ group. AreMade session.old.setup.now session.old.holders.held session.new.holders.held link.now
        (bytes_of lines.now) group.replies.items (bytes_of group.sealed.items)) }
    ensures setup { session.new.setup ≡ session.old.setup }
{
    let mut replies = Vec::new(alloc);
    let mut sealed = Vec::new(alloc);
    for line in lines {
        replies.push(make(alloc, session, line, link, &mut sealed)?)?;
    }
    Ok(Group { replies, sealed })
}

impl<'s, D: Device> DurableTable<'s, D> {
    /// Makes what lines ask for, one after another, as one group: the disk is waited for as often as for one line. At `Ok` the
    /// replies are those of the table, in order, and the journal stands for the table after all of them, on the disk: each
    /// crash from then on leaves a journal that does. If no reply reports a change, nothing is written.
    ///
    /// A crash at any moment of the call leaves a journal of the table after the first of the lines: none, some or all. It
    /// leaves open gates behind the lines that count, at most one less than the group has lines: `open` needs a `Repair` for
    /// that. The journal is of each setup that it was of. Whatever the lines are, none of them removes a module that anybody
    /// held before it. Out of memory, the journal is as it was; but some lines may have been made in memory, so open it again.
    #[tactic(auto, using(crate::proofs::GroupLemmas::idle_stands))]
    pub fn perform_all(
        &mut self,
        alloc: Global,
        lines: &[Vec<u8>],
    ) -> Result<Vec<HeldReply>, PerformError>
        requires stands { Stands D.content D.history self.old.session.setup.now self.old.session.holders.held self.old.journal }
        requires lines { AreLines (bytes_of lines.now) }
        ensures replies { IfOk result (λ replies. map (λ r. r.reply) replies.items ≡ replies_of self.old.session.setup.now self.old.session.holders.held (bytes_of lines.now)) }
        ensures becomes { OnOk result (self.new.session.holders.held
            ≡ after self.old.session.setup.now self.old.session.holders.held (bytes_of lines.now)) }
        ensures stands { OnOk result (Stands D.content D.history self.old.session.setup.now self.new.session.holders.held self.new.journal) }
        ensures of { OnOk result (StaysOf (lines_in D.content self.old.journal.lines) (lines_in D.content self.new.journal.lines)) }
        ensures any_of { AlwaysLeaves (D.history self.old.journal.lines.device) (D.history self.new.journal.lines.device)
            (λ file. StaysOf (lines_in D.content self.old.journal.lines) (lines_of file)) }
        ensures idle { IfOk result (λ replies. AreIdle replies.items → self.new.journal ≡ self.old.journal) }
        ensures asking { OnOk result (AreAsking (bytes_of lines.now) → self.new.journal ≡ self.old.journal) }
        ensures unchanged { IsErrOf result PerformError.OutOfMemory → self.new.journal ≡ self.old.journal }
        ensures held { IsErrOf result PerformError.OutOfMemory
            ⊎ KeepsHeldAlong self.old.session.setup.now self.old.session.holders.held (bytes_of lines.now) }
        ensures any_moment { AlwaysLeaves (D.history self.old.journal.lines.device) (D.history self.new.journal.lines.device)
            (AfterFirstOf self.old.session.setup.now self.old.session.holders.held (bytes_of lines.now)) }
        ensures faults { IsErrOf result (PerformError.Device Failed) → D.faults self.old.journal.lines.device < D.faults self.new.journal.lines.device }
        ensures no_fewer { D.faults self.old.journal.lines.device ≤ D.faults self.new.journal.lines.device }
        ensures setup { self.new.session.setup ≡ self.old.session.setup }
    {
        let Ok(Group { replies, sealed }) = make_each(
            alloc,
            &mut self.session,
            &self.journal.link,
            lines,
        ) else {
            return Err(PerformError::OutOfMemory);
        };
        if sealed.is_empty() {
            return Ok(replies);
        }
        match self.journal.put_group(alloc, sealed) {
            Ok(()) => Ok(replies),
            Err(error) => Err(PerformError::Device(error)),
        }
    }
}
