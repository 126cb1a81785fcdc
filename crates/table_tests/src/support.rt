//! A table over a small catalogue, and its journal.
ghost use Rattle.std.specs.Prelude.{◌≡◌, IfOk, OnOk};
ghost use Rattle.dep_index.specs.Catalogue.{modules_of};
ghost use Rattle.line_journal.specs.KillOnly.{held_by, history_of};
ghost use Rattle.durable_table.specs.Durable.{Stands};
ghost use Rattle.durable_table.specs.Tables.{opening_of};

use durable_table::{Compacted, DurableTable, NO_NAME, OpenedTable, create, open};
use held_lines::HeldReply;
use held_table::HeldTable;
use line_journal::{Device, KillOnly, Repair, are_lines, is_line};
use modprobe::{Buffer, FromRead, Lines, Setup, read_setup};
use std::alloc::Global;
use std::test::Fail;

const SECTIONS: &[u8] = b"%catalogue
module snd
exports card
module snd-pcm
needs card
module soundcore
module floppy
module loop
%session
";

/// The setup of five modules, of which snd-pcm needs snd.
pub(crate) fn setup(alloc: Global) -> Result<Setup, Fail> {
    let mut reader = FromRead::new(SECTIONS);
    let mut lines = Lines::new(alloc, Buffer::new(alloc)?, &mut reader, 9);
    Ok(read_setup(alloc, &mut lines)?)
}

/// A table of holders of which none is there.
pub(crate) fn fresh(alloc: Global, setup: &Setup) -> Result<HeldTable, Fail>
    ensures over { IfOk result (λ made. made.catalogue ≡ modules_of setup.now.catalogue) }
    ensures opening { IfOk result (λ made. made.held ≡ opening_of setup.now) }
{
    Ok(HeldTable::new(alloc, setup.catalogue().slots(alloc)?)?)
}

/// The table that a journal stands for.
pub(crate) fn opened<'s, D: Device + Drop>(
    alloc: Global,
    setup: &'s Setup,
    device: D,
) -> Result<DurableTable<'s, D>, Fail>
    ensures stands { IfOk result (λ made. Stands D.content D.history setup.now made.session.holders.held made.journal) }
    ensures setup { IfOk result (λ made. made.session.setup.now ≡ setup.now) }
{
    let holders = fresh(alloc, setup)?;
    match open(alloc, setup, NO_NAME, holders, device, Repair::CutAtMost(0)) {
        Ok(OpenedTable::Ready(table, _)) => Ok(table),
        Ok(_) => Err("no table".into()),
        Err((error, _)) => Err(error.into()),
    }
}

/// A table in which nothing is loaded, and its new journal in memory.
pub(crate) fn new_table<'s>(
    alloc: Global,
    setup: &'s Setup,
) -> Result<DurableTable<'s, KillOnly>, Fail>
    ensures stands { IfOk result (λ made. Stands held_by history_of setup.now made.session.holders.held made.journal) }
    ensures setup { IfOk result (λ made. made.session.setup.now ≡ setup.now) }
{
    let mut file = KillOnly::new(alloc, Vec::new(alloc));
    create(alloc, &mut file, NO_NAME)?;
    opened(alloc, setup, file)
}

/// The lines of a text.
pub(crate) fn lines_of(alloc: Global, text: &[u8]) -> Result<Vec<Vec<u8>>, Fail> {
    let mut lines = Vec::new(alloc);
    for line in text.split(|byte| *byte == b'\n') {
        if !line.is_empty() {
            lines.push(line.to_vec(alloc)?)?;
        }
    }
    Ok(lines)
}

/// Makes what a line asks for. Whether this is the reply.
pub(crate) fn is_answered<D: Device>(
    table: &mut DurableTable<'_, D>,
    alloc: Global,
    line: &[u8],
    wanted: &[u8],
) -> Result<bool, Fail>
    requires { Stands D.content D.history table.old.session.setup.now table.old.session.holders.held table.old.journal }
    ensures stands { OnOk result (Stands D.content D.history table.new.session.setup.now table.new.session.holders.held table.new.journal) }
    ensures setup { table.new.session.setup ≡ table.old.session.setup }
{
    if !is_line(line) {
        return Err("no line".into());
    }
    let reply = table.perform(alloc, line)?;
    Ok(reply.reply.text() == wanted)
}

/// Makes what a line asks for, whatever the reply is.
pub(crate) fn make<D: Device>(
    table: &mut DurableTable<'_, D>,
    alloc: Global,
    line: &[u8],
) -> Result<(), Fail>
    requires { Stands D.content D.history table.old.session.setup.now table.old.session.holders.held table.old.journal }
    ensures stands { OnOk result (Stands D.content D.history table.new.session.setup.now table.new.session.holders.held table.new.journal) }
    ensures setup { table.new.session.setup ≡ table.old.session.setup }
{
    is_answered(table, alloc, line, b"")?;
    Ok(())
}

/// Whether these are the texts of the replies, one after another.
pub(crate) fn are_texts(replies: &[HeldReply], wanted: &[u8]) -> bool {
    let mut rest = wanted;
    for reply in replies {
        match rest.strip_prefix(reply.reply.text()) {
            Some(behind) => rest = behind,
            None => return false,
        }
    }
    rest.is_empty()
}

/// Makes what the lines of a text ask for, as one group. Whether these are the texts of the replies.
pub(crate) fn are_answered<D: Device>(
    table: &mut DurableTable<'_, D>,
    alloc: Global,
    text: &[u8],
    wanted: &[u8],
) -> Result<bool, Fail>
    requires { Stands D.content D.history table.old.session.setup.now table.old.session.holders.held table.old.journal }
    ensures stands { OnOk result (Stands D.content D.history table.new.session.setup.now table.new.session.holders.held table.new.journal) }
    ensures setup { table.new.session.setup ≡ table.old.session.setup }
{
    let lines = lines_of(alloc, text)?;
    if !are_lines(&lines) {
        return Err("no lines".into());
    }
    let replies = table.perform_all(alloc, &lines)?;
    Ok(are_texts(&replies, wanted))
}

/// A module is loaded, and a holder holds it.
pub(crate) fn hold_floppy<D: Device>(
    table: &mut DurableTable<'_, D>,
    alloc: Global,
) -> Result<(), Fail>
    requires { Stands D.content D.history table.old.session.setup.now table.old.session.holders.held table.old.journal }
    ensures stands { OnOk result (Stands D.content D.history table.new.session.setup.now table.new.session.holders.held table.new.journal) }
    ensures setup { table.new.session.setup ≡ table.old.session.setup }
{
    make(table, alloc, b"modprobe floppy")?;
    make(table, alloc, b"hold web17 floppy")
}

/// The journal is compacted.
pub(crate) fn compacted<D: Device>(
    table: &mut DurableTable<'_, D>,
    alloc: Global,
    setup: &Setup,
) -> Result<(), Fail>
    requires stands { Stands D.content D.history table.old.session.setup.now table.old.session.holders.held table.old.journal }
    requires setup { table.old.session.setup.now ≡ setup.now }
    ensures stands { OnOk result (Stands D.content D.history table.new.session.setup.now table.new.session.holders.held table.new.journal) }
    ensures setup { table.new.session.setup ≡ table.old.session.setup }
{
    let holders = fresh(alloc, setup)?;
    match table.compact(alloc, NO_NAME, holders)? {
        Compacted::Done => Ok(()),
        Compacted::Kept => Err("not compacted".into()),
    }
}
