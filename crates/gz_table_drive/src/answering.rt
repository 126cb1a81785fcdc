//! Lines over a table, and their replies.
ghost use Rattle.std.specs.Prelude.{◌≡◌, ◌<◌, ◌≤◌, ℕ, [], ◌∷◌, length, map, take, IfOk, OnOk, OnErr, IsErrOf};
ghost use Rattle.line_journal.specs.Device.{AlwaysLeaves};
ghost use Rattle.line_journal.specs.declared.device.DeviceError.TheVariants.{Failed};
ghost use Rattle.line_journal.specs.Lines.{AreLines, bytes_of, lines_of};
ghost use Rattle.line_journal.specs.Journal.{lines_in};
ghost use Rattle.held_lines.specs.Outcomes.{after};
ghost use Rattle.durable_table.specs.Commands.{StaysOf};
ghost use Rattle.durable_table.specs.Durable.{Stands};
ghost use Rattle.durable_table.specs.Groups.{AfterFirstOf};
ghost use Rattle.gz_table_drive.specs.Answers.{HasMore, HasAnswered, StoppedWithin};
ghost use Rattle.table_words.specs.Endings.{ending_of_lines};

use durable_table::{DurableTable, PerformError};
use held_lines::HeldReply;
use line_journal::{Device, DeviceError};
use modprobe::Reply;
use std::alloc::{AllocError, Global};
use table_folder::ending_of;
use table_words::Ending;
use thiserror::Error;

/// Past so many bytes of replies no further line is answered.
const ENOUGH: usize = 1_048_576;

/// How many lines a group has at the most.
pub(crate) const GROUP: usize = 64;

/// Why a line has no reply. The lines before it have theirs.
#[derive(Clone, Copy, Debug, PartialEq, Eq, Drop, Error)]
pub enum AnswerError {
    /// Out of memory.
    #[error("out of memory")]
    OutOfMemory,
    /// The journal could not be written.
    #[error("{0}")]
    Device(DeviceError),
}

/// The replies to lines, one after another, and how each line ended.
#[derive(Drop)]
pub struct Replies {
    pub text: Vec<u8>,
    pub endings: Vec<Ending>,
}

impl Replies {
    /// No reply.
    pub fn new(alloc: Global) -> Replies
        ensures text { result.text.items ≡ [] }
        ensures endings { result.endings.items ≡ [] }
    {
        Replies {
            text: Vec::new(alloc),
            endings: Vec::new(alloc),
        }
    }

    /// How the lines end together: as the first of them that was refused.
    pub fn ending(&self) -> Ending
        ensures { result ≡ ending_of_lines self.now.endings.items }
    {
        for ending in &self.endings {
            if ending.is_refusal() {
                return *ending;
            }
        }
        Ending::Done
    }

    /// Adds the reply to a line. Out of memory, nothing is added.
    fn add(&mut self, reply: &Reply) -> Result<(), AllocError>
        ensures ok { OnOk result (HasMore (reply.now ∷ []) self.old self.new) }
        ensures text { OnErr result (self.new.text.items ≡ self.old.text.items) }
        ensures endings { OnErr result (self.new.endings.items ≡ self.old.endings.items) }
    {
        self.endings.push(ending_of(reply))?;
        match self.text.extend_from_slice(reply.text()) {
            Ok(()) => Ok(()),
            Err(error) => {
                self.endings.pop();
                Err(error)
            }
        }
    }

    /// Adds the replies to lines, one after another. Out of memory, the first of them are added.
    pub(crate) fn add_all(&mut self, answered: &[HeldReply]) -> Result<(), AllocError>
        ensures ok { OnOk result (HasMore (map (λ r. r.reply) answered.now) self.old self.new) }
        ensures err { OnErr result ((count : ℕ) × (count ≤ length answered.now) × HasMore (map (λ r. r.reply) (take count answered.now)) self.old self.new) }
    {
        for each in answered {
            self.add(&each.reply)?;
        }
        Ok(())
    }
}

/// Answers lines as one group. What they change is on the disk before any of their replies is there. A crash at any moment
/// leaves the table after the first of them: none, some or all.
fn answer_group<D: Device>(
    alloc: Global,
    table: &mut DurableTable<'_, D>,
    group: &[Vec<u8>],
    replies: &mut Replies,
) -> Result<(), AnswerError>
    requires stands { Stands D.content D.history table.old.session.setup.now table.old.session.holders.held table.old.journal }
    requires lines { AreLines (bytes_of group.now) }
    ensures answered { OnOk result (HasAnswered table.old.session.setup.now table.old.session.holders.held (bytes_of group.now) replies.old replies.new) }
    ensures becomes { OnOk result (table.new.session.holders.held
        ≡ after table.old.session.setup.now table.old.session.holders.held (bytes_of group.now)) }
    ensures stands { OnOk result (Stands D.content D.history table.old.session.setup.now table.new.session.holders.held table.new.journal) }
    ensures of { OnOk result (StaysOf (lines_in D.content table.old.journal.lines) (lines_in D.content table.new.journal.lines)) }
    ensures any_of { AlwaysLeaves (D.history table.old.journal.lines.device) (D.history table.new.journal.lines.device)
        (λ file. StaysOf (lines_in D.content table.old.journal.lines) (lines_of file)) }
    ensures stopped { OnErr result (StoppedWithin table.old.session.setup.now table.old.session.holders.held (bytes_of group.now)
        (D.history table.new.journal.lines.device).leaves replies.old replies.new) }
    ensures any_moment { AlwaysLeaves (D.history table.old.journal.lines.device) (D.history table.new.journal.lines.device)
        (AfterFirstOf table.old.session.setup.now table.old.session.holders.held (bytes_of group.now)) }
    ensures faults { IsErrOf result (AnswerError.Device Failed) → D.faults table.old.journal.lines.device < D.faults table.new.journal.lines.device }
    ensures no_fewer { D.faults table.old.journal.lines.device ≤ D.faults table.new.journal.lines.device }
    ensures setup { table.new.session.setup ≡ table.old.session.setup }
{
    let answered = match table.perform_all(alloc, group) {
        Ok(answered) => answered,
        Err(PerformError::OutOfMemory) => return Err(AnswerError::OutOfMemory),
        Err(PerformError::Device(error)) => return Err(AnswerError::Device(error)),
    };
    match replies.add_all(&answered) {
        Ok(()) => Ok(()),
        Err(_) => Err(AnswerError::OutOfMemory),
    }
}

/// Answers the first of these lines, one after another, and adds their replies: as many lines as it takes for a megabyte of
/// replies, or all. Returns how many. What a line changes is on the disk before its reply is there.
///
/// A crash at any moment leaves the table after the first lines, for some number of them. At an error some lines were
/// answered, and a crash leaves the table after these, or after more.
pub fn answer_lines<D: Device>(
    alloc: Global,
    table: &mut DurableTable<'_, D>,
    lines: &[Vec<u8>],
    replies: &mut Replies,
) -> Result<usize, AnswerError>
    requires stands { Stands D.content D.history table.old.session.setup.now table.old.session.holders.held table.old.journal }
    requires lines { AreLines (bytes_of lines.now) }
    ensures within { IfOk result (λ count. count ≤ length lines.now) }
    ensures some { IfOk result (λ count. 0 < length lines.now → 0 < count) }
    ensures enough { IfOk result (λ count. count < length lines.now → 1048576 < length replies.new.text.items) }
    ensures answered { IfOk result (λ count. HasAnswered table.old.session.setup.now table.old.session.holders.held (take count (bytes_of lines.now)) replies.old replies.new) }
    ensures becomes { IfOk result (λ count. table.new.session.holders.held
        ≡ after table.old.session.setup.now table.old.session.holders.held (take count (bytes_of lines.now))) }
    ensures stands { OnOk result (Stands D.content D.history table.old.session.setup.now table.new.session.holders.held table.new.journal) }
    ensures of { OnOk result (StaysOf (lines_in D.content table.old.journal.lines) (lines_in D.content table.new.journal.lines)) }
    ensures any_of { AlwaysLeaves (D.history table.old.journal.lines.device) (D.history table.new.journal.lines.device)
        (λ file. StaysOf (lines_in D.content table.old.journal.lines) (lines_of file)) }
    ensures stopped { OnErr result (StoppedWithin table.old.session.setup.now table.old.session.holders.held (bytes_of lines.now)
        (D.history table.new.journal.lines.device).leaves replies.old replies.new) }
    ensures any_moment { AlwaysLeaves (D.history table.old.journal.lines.device) (D.history table.new.journal.lines.device)
        (AfterFirstOf table.old.session.setup.now table.old.session.holders.held (bytes_of lines.now)) }
    ensures faults { IsErrOf result (AnswerError.Device Failed) → D.faults table.old.journal.lines.device < D.faults table.new.journal.lines.device }
    ensures no_fewer { D.faults table.old.journal.lines.device ≤ D.faults table.new.journal.lines.device }
    ensures setup { table.new.session.setup ≡ table.old.session.setup }
{
    let mut start = 0;
    while start < lines.len() && (start == 0 || replies.text.len() <= ENOUGH) {
        let end = lines.len().min(start + GROUP);
        answer_group(alloc, table, &lines[start..end], replies)?;
        start = end;
    }
    Ok(start)
}
