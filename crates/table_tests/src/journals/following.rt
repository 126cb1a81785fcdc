//! A journal that other processes write to as well.
ghost use Rattle.std.specs.Prelude.{IfOk, OnOk};
ghost use Rattle.line_journal.specs.Journal.{IsReady};
ghost use Rattle.line_journal.specs.Renewed.{IsRead};

use super::files::{are_these, begin_in, put_in, rewrite_in};
use super::lines::put;
use crate::folders::{Locks, Turns, device_in};
use file_journal::Syncs;
use line_journal::{Device, Followed, Journal, Opened, Renewable, Repair, look, open_found};
use std::alloc::Global;
use std::test::Fail;

/// The journal of a file that is looked at first.
fn journal<D: Device + Drop>(alloc: Global, mut device: D) -> Result<Journal<D>, Fail>
    ensures { IfOk result (λ journal. IsReady D.content D.history journal) }
{
    let found = look(alloc, &mut device)?;
    match open_found(device, found, Repair::CutAtMost(0)) {
        Ok(Opened::Ready(journal, _)) => Ok(journal),
        Ok(Opened::Damaged(_, _)) => Err("no journal".into()),
        Err((error, _)) => Err(error.into()),
    }
}

/// The lines that others added.
fn added<D: Renewable>(
    journal: &mut Journal<D>,
    alloc: Global,
    turn: D::Turn,
) -> Result<Vec<Vec<u8>>, Fail>
    requires { IsRead D.content journal.old }
    ensures { OnOk result (IsRead D.content journal.new) }
{
    match journal.follow(alloc, turn)? {
        Followed::AtRest(lines) => Ok(lines),
        Followed::Anew => Err("another journal".into()),
    }
}

/// Whether another process has added one line.
fn has_one_more<D: Renewable>(
    journal: &mut Journal<D>,
    alloc: Global,
    turn: D::Turn,
) -> Result<bool, Fail>
    requires { IsRead D.content journal.old }
    ensures { OnOk result (IsRead D.content journal.new) }
{
    let lines = added(journal, alloc, turn)?;
    Ok(are_these(&lines, &[b"release web17"]))
}

/// Finds the line of another process, and adds one. Whether both are there.
fn go_on<D: Renewable>(alloc: Global, journal: &mut Journal<D>, turn: D::Turn) -> Result<bool, Fail>
    requires { IsRead D.content journal.old }
{
    let is_right = has_one_more(journal, alloc, turn)?;
    journal.settle()?;
    put(journal, alloc, b"get web18 overlay")?;
    Ok(is_right && journal.end() == 53)
}

/// Whether the journal of one process follows another one.
#[tactic(auto, using(line_journal::proofs::FollowLemmas::at_rest_reads))]
fn follows(rt: &HostRuntime, folder: &str) -> Result<bool, Fail> {
    begin_in(rt, folder)?;
    let mut journal = journal(rt.alloc(), device_in(rt, folder, Syncs::Kept)?)?;
    journal.rest();
    put_in(rt, folder, Syncs::Kept, b"release web17")?;
    go_on(rt.alloc(), &mut journal, Locks { rt, folder }.begin()?)
}

/// Whether it does not follow one that writes the journal anew.
#[tactic(auto, using(line_journal::proofs::FollowLemmas::at_rest_reads))]
fn follows_no_other(rt: &HostRuntime, folder: &str) -> Result<bool, Fail> {
    let mut journal = journal(rt.alloc(), device_in(rt, folder, Syncs::Kept)?)?;
    journal.rest();
    rewrite_in(rt, folder, b"get web17 snd_pcm", b"put web17 snd_pcm")?;
    let followed = journal.follow(rt.alloc(), Locks { rt, folder }.begin()?)?;
    Ok(matches!(followed, Followed::Anew))
}

/// Whether a journal in a folder follows another process, until that one writes it anew.
pub(super) fn is_followed(rt: &HostRuntime, folder: &str) -> Result<bool, Fail> {
    Ok(follows(rt, folder)? && follows_no_other(rt, folder)?)
}
