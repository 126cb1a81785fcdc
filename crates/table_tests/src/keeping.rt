//! A table that a process keeps while others use its journal.
ghost use Rattle.std.specs.Prelude.{◌≡◌, IfOk, OnOk};
ghost use Rattle.durable_table.specs.Durable.{Reads, Stands};

use crate::folders::{Disk, Locks, Turns, device_in, folder, new_device};
use crate::support::{
    are_texts, compacted, fresh, hold_floppy, is_answered, lines_of, make, new_table, opened,
};
use durable_table::{CaughtUp, DurableTable, NO_NAME, ReadTable, create, open_reading};
use file_journal::Syncs;
use line_journal::{Device, KillOnly, Renewable, are_lines};
use modprobe::Setup;
use std::alloc::Global;
use std::fs;
use std::test::Fail;

/// The table that a journal reads as.
fn table_read<'s, D: Device + Drop>(
    alloc: Global,
    setup: &'s Setup,
    device: D,
) -> Result<DurableTable<'s, D>, Fail>
    ensures reads { IfOk result (λ made. Reads D.content setup.now made.session.holders.held made.journal) }
    ensures setup { IfOk result (λ made. made.session.setup.now ≡ setup.now) }
{
    let holders = fresh(alloc, setup)?;
    match open_reading(alloc, setup, NO_NAME, holders, device) {
        Ok(ReadTable::Ready(table)) => Ok(table),
        Ok(ReadTable::Anew(_)) => Err("no table".into()),
        Err((error, _)) => Err(error.into()),
    }
}

/// The turn of a table begins: it is brought up to its journal, which is on the disk then.
fn begin<D: Renewable>(
    table: &mut DurableTable<'_, D>,
    alloc: Global,
    turn: D::Turn,
) -> Result<(), Fail>
    requires { Reads D.content table.old.session.setup.now table.old.session.holders.held table.old.journal }
    ensures stands { OnOk result (Stands D.content D.history table.new.session.setup.now table.new.session.holders.held table.new.journal) }
    ensures setup { table.new.session.setup ≡ table.old.session.setup }
{
    match table.catch_up(alloc, turn)? {
        CaughtUp::Ready => Ok(table.settle()?),
        CaughtUp::Anew => Err("another journal".into()),
    }
}

/// The turn of a table is over.
#[tactic(auto, using(durable_table::proofs::KeptLemmas::stands_reads, durable_table::proofs::KeptLemmas::rested))]
fn end<D: Renewable>(table: &mut DurableTable<'_, D>)
    requires { Stands D.content D.history table.old.session.setup.now table.old.session.holders.held table.old.journal }
    ensures reads { Reads D.content table.new.session.setup.now table.new.session.holders.held table.new.journal }
    ensures setup { table.new.session.setup ≡ table.old.session.setup }
{
    table.rest();
}

/// Whether lines that ask have these replies.
fn are_asked<D: Device>(
    table: &mut DurableTable<'_, D>,
    alloc: Global,
    text: &[u8],
    wanted: &[u8],
) -> Result<bool, Fail>
    ensures journal { table.new.journal ≡ table.old.journal }
    ensures setup { table.new.session.setup ≡ table.old.session.setup }
{
    let lines = lines_of(alloc, text)?;
    if !are_lines(&lines) {
        return Err("no lines".into());
    }
    let replies = table.ask(alloc, &lines)?;
    Ok(are_texts(&replies, wanted))
}

/// What a process leaves that holds a module.
fn left(alloc: Global, setup: &Setup) -> Result<KillOnly, Fail> {
    let mut table = new_table(alloc, setup)?;
    hold_floppy(&mut table, alloc)?;
    Ok(table.into_device())
}

/// Whether questions are answered over what was left.
pub(crate) fn answers_questions(alloc: Global, setup: &Setup) -> Result<bool, Fail> {
    let mut table = table_read(alloc, setup, left(alloc, setup)?)?;
    are_asked(
        &mut table,
        alloc,
        b"held\nholders floppy\nquery floppy\n",
        b"web17 floppy 1\nweb17 1\nyes\n",
    )
}

/// Two processes use a table in turn. Whether each finds what the other did. It is the turn of the other one then.
fn take_turns<D: Renewable, W: Turns<D>>(
    alloc: Global,
    turns: &W,
    kept: &mut DurableTable<'_, D>,
    other: &mut DurableTable<'_, D>,
) -> Result<bool, Fail>
    requires kept { Reads D.content kept.old.session.setup.now kept.old.session.holders.held kept.old.journal }
    requires other { Reads D.content other.old.session.setup.now other.old.session.holders.held other.old.journal }
    ensures kept { OnOk result (Reads D.content kept.new.session.setup.now kept.new.session.holders.held kept.new.journal) }
    ensures other { OnOk result (Stands D.content D.history other.new.session.setup.now other.new.session.holders.held other.new.journal) }
    ensures setup { other.new.session.setup ≡ other.old.session.setup }
{
    begin(other, alloc, turns.begin()?)?;
    hold_floppy(other, alloc)?;
    end(other);
    begin(kept, alloc, turns.begin()?)?;
    let lines = kept.session().snapshot(alloc)?.len();
    make(kept, alloc, b"release web17")?;
    end(kept);
    begin(other, alloc, turns.begin()?)?;
    Ok(is_answered(other, alloc, b"rmmod floppy", b"ok\n")? && lines == 3)
}

/// Whether they take turns, until the other one writes the journal anew.
fn take_turns_until_anew<D: Renewable, W: Turns<D>>(
    alloc: Global,
    setup: &Setup,
    turns: &W,
    kept: &mut DurableTable<'_, D>,
    other: &mut DurableTable<'_, D>,
) -> Result<bool, Fail>
    requires kept { Reads D.content kept.old.session.setup.now kept.old.session.holders.held kept.old.journal }
    requires other { Reads D.content other.old.session.setup.now other.old.session.holders.held other.old.journal }
    requires setup { other.old.session.setup.now ≡ setup.now }
{
    let is_right = take_turns(alloc, turns, kept, other)?;
    compacted(other, alloc, setup)?;
    other.rest();
    let caught_up = kept.catch_up(alloc, turns.begin()?)?;
    Ok(matches!(caught_up, CaughtUp::Anew) && is_right)
}

/// The table of a new journal in a folder. Its turn is over.
fn new_kept<'s, 'a>(
    rt: &'a HostRuntime,
    folder: &str,
    setup: &'s Setup,
) -> Result<DurableTable<'s, Disk<'a>>, Fail>
    ensures reads { IfOk result (λ made. Reads ⟦<Disk<'a> as Device>⟧.content setup.now made.session.holders.held made.journal) }
    ensures setup { IfOk result (λ made. made.session.setup.now ≡ setup.now) }
{
    let mut device = new_device(rt, folder)?;
    create(rt.alloc(), &mut device, NO_NAME)?;
    let mut table = opened(rt.alloc(), setup, device)?;
    end(&mut table);
    Ok(table)
}

/// The table of a journal that is there in a folder. Its turn is over.
fn other_kept<'s, 'a>(
    rt: &'a HostRuntime,
    folder: &str,
    setup: &'s Setup,
) -> Result<DurableTable<'s, Disk<'a>>, Fail>
    ensures reads { IfOk result (λ made. Reads ⟦<Disk<'a> as Device>⟧.content setup.now made.session.holders.held made.journal) }
    ensures setup { IfOk result (λ made. made.session.setup.now ≡ setup.now) }
{
    let device = device_in(rt, folder, Syncs::Kept)?;
    let mut table = table_read(rt.alloc(), setup, device)?;
    table.settle()?;
    end(&mut table);
    Ok(table)
}

fn keep_in(rt: &HostRuntime, setup: &Setup, folder: &str) -> Result<bool, Fail> {
    let mut kept = new_kept(rt, folder, setup)?;
    let mut other = other_kept(rt, folder, setup)?;
    let turns = Locks { rt, folder };
    take_turns_until_anew(rt.alloc(), setup, &turns, &mut kept, &mut other)
}

/// Whether a process keeps its table until another one writes the journal anew.
pub(crate) fn is_kept(rt: &HostRuntime, setup: &Setup) -> Result<bool, Fail> {
    let folder = folder(rt, "kept")?;
    let is_right = keep_in(rt, setup, &folder)?;
    fs::remove_dir_all(rt, folder.as_str())?;
    Ok(is_right)
}
