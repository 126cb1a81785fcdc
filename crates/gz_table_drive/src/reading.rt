//! Lines that change nothing, and their replies from a copy of the journal.
ghost use Rattle.std.specs.Prelude.{◌≡◌, Some, true, take, ◌<◌, ◌≤◌, length, IfOk, OnOk, OnErr};
ghost use Rattle.line_journal.specs.Lines.{AreLines, bytes_of};
ghost use Rattle.durable_table.specs.Durable.{Reads, Stands};
ghost use Rattle.durable_table.specs.Groups.{AreAsking};
ghost use Rattle.durable_table.specs.Tables.{table_of};
ghost use Rattle.gz_table_drive.specs.Answers.{HasAnswered, HasAnsweredFirst};
ghost use Rattle.gz_table_drive.specs.Log.{IsOf};

use crate::answering::{GROUP, Replies, answer_lines};
use crate::opening::{OpenFault, open_table};
use durable_table::DurableTable;
use line_journal::{Device, KillOnly};
use std::alloc::{AllocError, Global};
use table_folder::{FolderSetup, TableFault, is_reading};

/// Whether all lines ask, or are no commands. It fails only if memory runs out.
pub(crate) fn are_reading(alloc: Global, lines: &[Vec<u8>]) -> Result<bool, AllocError>
    ensures { IfOk result (λ all. all ≡ true → AreAsking (bytes_of lines.now)) }
{
    for line in lines {
        if !is_reading(alloc, line)? {
            return Ok(false);
        }
    }
    Ok(true)
}

/// The table that a journal's bytes stand for, if they are of this setup, over a copy of them in memory.
pub(crate) fn copy_of<'s>(
    alloc: Global,
    setup: &'s FolderSetup,
    bytes: Vec<u8>,
) -> Result<DurableTable<'s, KillOnly>, TableFault>
    ensures stands { IfOk result (λ t. Stands ⟦<KillOnly as Device>⟧.content ⟦<KillOnly as Device>⟧.history setup.now.setup t.session.holders.held t.journal) }
    ensures same { IfOk result (λ t. table_of setup.now.setup bytes.items ≡ Some t.session.holders.held) }
    ensures of { OnOk result (IsOf setup.now bytes.items) }
    ensures setup { IfOk result (λ t. t.session.setup.now ≡ setup.now.setup) }
{
    match open_table(alloc, setup, KillOnly::new(alloc, bytes)) {
        Ok(table) => Ok(table),
        Err(OpenFault::Foreign) => Err(TableFault::Foreign),
        Err(OpenFault::Other) => Err(TableFault::Other),
        Err(OpenFault::Changed(line)) => Err(TableFault::Changed(line)),
        Err(OpenFault::Damaged(damage)) => Err(TableFault::Damaged(damage)),
        Err(_) => Err(TableFault::OutOfMemory),
    }
}

/// Answers the first of some lines, as `answer_lines` does, from the table of a copy.
pub(crate) fn answer_copy(
    alloc: Global,
    table: &mut DurableTable<'_, KillOnly>,
    lines: &[Vec<u8>],
    replies: &mut Replies,
) -> Result<usize, TableFault>
    requires lines { AreLines (bytes_of lines.now) }
    requires stands { Stands ⟦<KillOnly as Device>⟧.content ⟦<KillOnly as Device>⟧.history table.old.session.setup.now table.old.session.holders.held table.old.journal }
    ensures answered { IfOk result (λ count. HasAnswered table.old.session.setup.now table.old.session.holders.held (take count (bytes_of lines.now)) replies.old replies.new) }
    ensures stopped { OnErr result (HasAnsweredFirst table.old.session.setup.now table.old.session.holders.held (bytes_of lines.now) replies.old replies.new) }
    ensures some { IfOk result (λ count. 0 < length lines.now → 0 < count) }
    ensures within { IfOk result (λ count. count ≤ length lines.now) }
{
    match answer_lines(alloc, table, lines, replies) {
        Ok(count) => Ok(count),
        Err(_) => Err(TableFault::OutOfMemory),
    }
}

/// Answers the first of some lines that ask, from a table that reads as its journal does. It still does so then. Nothing is
/// written. How many is answered, a group at the most.
pub(crate) fn ask_lines<D: Device + Drop>(
    alloc: Global,
    table: &mut DurableTable<'_, D>,
    lines: &[Vec<u8>],
    replies: &mut Replies,
) -> Result<usize, TableFault>
    requires lines { AreLines (bytes_of lines.now) }
    requires asks { AreAsking (bytes_of lines.now) }
    requires reads { Reads D.content table.old.session.setup.now table.old.session.holders.held table.old.journal }
    ensures answered { IfOk result (λ count. HasAnswered table.old.session.setup.now table.old.session.holders.held (take count (bytes_of lines.now)) replies.old replies.new) }
    ensures stopped { OnErr result (HasAnsweredFirst table.old.session.setup.now table.old.session.holders.held (bytes_of lines.now) replies.old replies.new) }
    ensures some { IfOk result (λ count. 0 < length lines.now → 0 < count) }
    ensures within { IfOk result (λ count. count ≤ length lines.now) }
    ensures reads { OnOk result (Reads D.content table.old.session.setup.now table.new.session.holders.held table.new.journal) }
    ensures journal { table.new.journal ≡ table.old.journal }
    ensures setup { table.new.session.setup ≡ table.old.session.setup }
{
    let count = lines.len().min(GROUP);
    let answered = table.ask(alloc, &lines[..count])?;
    replies.add_all(&answered)?;
    Ok(count)
}
