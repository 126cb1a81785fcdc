//! A journal is rewritten as the lines that make its table.
ghost use Rattle.std.specs.Prelude.{◌≡◌, [], true, ◌+◌, ◌<◌, ◌≤◌, nat_lt, Ok, length, IfOk, IfSome, IfNone, OnOk, IsErrOf};
ghost use Rattle.dep_index.specs.Catalogue.{modules_of};
ghost use Rattle.line_journal.specs.Device.{AlwaysLeaves};
ghost use Rattle.line_journal.specs.declared.device.DeviceError.TheVariants.{Failed};
ghost use Rattle.line_journal.specs.Journal.{lines_in};
ghost use Rattle.line_journal.specs.Lines.{bytes_of, lines_of, open_text};
ghost use Rattle.durable_table.specs.Seals.{chain};
ghost use Rattle.durable_table.specs.Commands.{is_of};
ghost use Rattle.durable_table.specs.Tables.{opening_of};
ghost use Rattle.durable_table.specs.Durable.{Stands, FileStands};
ghost use Rattle.durable_table.specs.Compacting.{journal_of, compacted, IsRemade, CanBeRemade};

use crate::chained::link_behind;
use crate::durable::{DurableTable, PerformError};
use crate::head::head_line;
use crate::replay::replay;
use crate::seal::{FRONT, seal};
use held_lines::HeldSession;
use held_table::HeldTable;
use line_journal::{Device, are_lines};
use std::alloc::{AllocError, Global};

/// By how many bytes a long journal is longer than the lines that make its table.
const LONG: usize = 65536;

/// What stands in a journal beside the bytes of a command: a gate, what stands before the command, and a line feed.
const BESIDE: usize = FRONT + 2;

/// What `compact` made of a journal.
#[derive(Clone, Copy, Debug, PartialEq, Eq)]
pub enum Compacted {
    /// It has the lines that make its table, and no others.
    Done,
    /// These lines do not make its table, or one has a line feed: it is as it was.
    Kept,
}

/// The lines of a journal of these commands, of the setup of this name.
pub(crate) fn journal_of(
    alloc: Global,
    name: &[u8],
    commands: &[Vec<u8>],
) -> Result<Vec<Vec<u8>>, AllocError>
    ensures { IfOk result (λ lines. bytes_of lines.items ≡ journal_of name.now (bytes_of commands.now)) }
{
    let mut lines = Vec::new(alloc);
    lines.push(head_line(alloc, name)?)?;
    for command in commands {
        let line = seal(alloc, link_behind(&lines), command)?;
        lines.push(line)?;
    }
    Ok(lines)
}

/// The lines of a journal that make a table anew, if they do. They are tried on holders of which none is there yet.
#[tactic(auto, using(crate::proofs::CompactLemmas::has_first))]
fn remake(
    alloc: Global,
    session: &HeldSession<'_>,
    name: &[u8],
    fresh: HeldTable,
) -> Result<Option<Vec<Vec<u8>>>, AllocError>
    requires over { fresh.catalogue ≡ modules_of session.now.setup.now.catalogue }
    requires opening { fresh.held ≡ opening_of session.now.setup.now }
    ensures made { IfOk result (λ found. IfSome found (λ lines. IsRemade name.now session.now.setup.now session.now.holders.held (bytes_of lines.items))) }
    ensures none { IfOk result (λ found. IfNone found (CanBeRemade name.now session.now.setup.now session.now.holders.held → ⊥)) }
{
    let lines = journal_of(alloc, name, &session.snapshot(alloc)?)?;
    let mut other = HeldSession::new(session.setup(), fresh);
    replay(alloc, &mut other, &lines[1..])?;
    if !are_lines(&lines) {
        return Ok(None);
    }
    if !session.is_same(alloc, &other)? {
        return Ok(None);
    }
    Ok(Some(lines))
}

/// Whether a journal has less than so many bytes of these commands behind its first line. What that is makes no line longer.
#[tactic(auto, using(crate::proofs::SizeLemmas::size_more))]
fn is_room(room: usize, commands: &[Vec<u8>]) -> bool
    ensures { result ≡ nat_lt (length (open_text (chain [] (bytes_of commands.now)))) room }
{
    let mut left = room;
    for command in commands {
        if left <= BESIDE || left - BESIDE <= command.len() {
            return false;
        }
        left -= BESIDE + command.len();
    }
    left > 0
}

impl<'s, D: Device> DurableTable<'s, D> {
    /// Rewrites the journal as the lines that make the table, of the setup of this name. They are first tried, on holders of
    /// which none is there yet: if they make the same table, and only then, the journal is rewritten. At `Ok` it stands for the
    /// table, on the disk.
    ///
    /// A crash at any moment of the call leaves a journal of the same table. Out of memory, nothing was changed.
    #[tactic(auto, using(crate::proofs::CompactLemmas::still_stands))]
    pub fn compact(
        &mut self,
        alloc: Global,
        name: &[u8],
        fresh: HeldTable,
    ) -> Result<Compacted, PerformError>
        requires over { fresh.catalogue ≡ modules_of self.old.session.setup.now.catalogue }
        requires opening { fresh.held ≡ opening_of self.old.session.setup.now }
        requires stands { Stands D.content D.history self.old.session.setup.now self.old.session.holders.held self.old.journal }
        ensures done { result ≡ Ok Compacted.Done → lines_in D.content self.new.journal.lines ≡ compacted name.now self.old.session.setup.now self.old.session.holders.held }
        ensures stands { OnOk result (Stands D.content D.history self.old.session.setup.now self.old.session.holders.held self.new.journal) }
        ensures of { result ≡ Ok Compacted.Done → is_of name.now (lines_in D.content self.new.journal.lines) ≡ true }
        ensures any_of { is_of name.now (lines_in D.content self.old.journal.lines) ≡ true
            → AlwaysLeaves (D.history self.old.journal.lines.device) (D.history self.new.journal.lines.device) (λ file. is_of name.now (lines_of file) ≡ true) }
        ensures kept { result ≡ Ok Compacted.Kept → self.new.journal ≡ self.old.journal }
        ensures needed { result ≡ Ok Compacted.Kept → CanBeRemade name.now self.old.session.setup.now self.old.session.holders.held → ⊥ }
        ensures unchanged { IsErrOf result PerformError.OutOfMemory → self.new.journal ≡ self.old.journal }
        ensures any_moment { AlwaysLeaves (D.history self.old.journal.lines.device) (D.history self.new.journal.lines.device)
            (FileStands self.old.session.setup.now self.old.session.holders.held) }
        ensures faults { IsErrOf result (PerformError.Device Failed) → D.faults self.old.journal.lines.device < D.faults self.new.journal.lines.device }
        ensures no_fewer { D.faults self.old.journal.lines.device ≤ D.faults self.new.journal.lines.device }
        ensures session { self.new.session ≡ self.old.session }
    {
        let Ok(found) = remake(alloc, &self.session, name, fresh) else {
            return Err(PerformError::OutOfMemory);
        };
        let Some(lines) = found else {
            return Ok(Compacted::Kept);
        };
        match self.journal.rewrite(alloc, lines) {
            Ok(()) => Ok(Compacted::Done),
            Err(error) => Err(PerformError::Device(error)),
        }
    }

    /// Whether the lines of the journal are longer by more than 64 KiB than those that `compact` would write.
    #[tactic(auto, using(crate::proofs::SizeLemmas::size_behind, crate::proofs::SizeLemmas::any_link))]
    pub fn is_long(&self, alloc: Global, name: &[u8]) -> Result<bool, AllocError>
        ensures { IfOk result (λ is_long. is_long ≡ nat_lt (length (open_text (compacted name.now self.now.session.setup.now self.now.session.holders.held)) + 65536) self.now.journal.lines.end) }
    {
        let front = LONG + head_line(alloc, name)?.len() + 2;
        if self.journal.lines.end() <= front {
            return Ok(false);
        }
        let commands = self.session.snapshot(alloc)?;
        Ok(is_room(self.journal.lines.end() - front, &commands))
    }
}
