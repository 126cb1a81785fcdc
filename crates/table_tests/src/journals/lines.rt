//! Journals in memory: lines that are put and rewritten, and what was found.
ghost use Rattle.std.specs.Prelude.{IfOk, OnOk};
ghost use Rattle.line_journal.specs.Journal.{IsReady};
ghost use Rattle.line_journal.specs.KillOnly.{held_by, history_of};

use line_journal::{
    Device, Found, Journal, KillOnly, Opened, Repair, are_lines, is_line, look, open, peek,
    peek_from,
};
use std::alloc::{AllocError, Global};
use std::test::Fail;

/// The journal of these bytes.
fn journal(alloc: Global, bytes: &[u8]) -> Result<Journal<KillOnly>, Fail>
    ensures { IfOk result (λ journal. IsReady held_by history_of journal) }
{
    let file = KillOnly::new(alloc, bytes.to_vec(alloc)?);
    match open(alloc, file, Repair::Cut) {
        Ok(Opened::Ready(journal, _)) => Ok(journal),
        Ok(Opened::Damaged(_, _)) => Err("no journal".into()),
        Err((error, _)) => Err(error.into()),
    }
}

/// Adds a line.
pub(crate) fn put<D: Device>(
    journal: &mut Journal<D>,
    alloc: Global,
    line: &[u8],
) -> Result<(), Fail>
    requires { IsReady D.content D.history journal.old }
    ensures { OnOk result (IsReady D.content D.history journal.new) }
{
    if !is_line(line) {
        return Err("no line".into());
    }
    Ok(journal.put(alloc, line)?)
}

/// Lines as a group.
fn group(alloc: Global, lines: &[&[u8]]) -> Result<Vec<Vec<u8>>, AllocError> {
    let mut group = Vec::new(alloc);
    for line in lines {
        group.push(line.to_vec(alloc)?)?;
    }
    Ok(group)
}

/// Adds a group of two lines.
fn put_two<D: Device>(journal: &mut Journal<D>, alloc: Global) -> Result<(), Fail>
    requires { IsReady D.content D.history journal.old }
    ensures { OnOk result (IsReady D.content D.history journal.new) }
{
    let lines = group(alloc, &[b"hold 2", b""])?;
    if !are_lines(&lines) {
        return Err("no lines".into());
    }
    Ok(journal.put_group(alloc, &lines)?)
}

/// Whether a line is put, and a group.
fn are_put(journal: &mut Journal<KillOnly>, alloc: Global) -> Result<bool, Fail>
    requires { IsReady held_by history_of journal.old }
{
    put(journal, alloc, b"hold 1")?;
    let is_put = journal.device().bytes() == b"+hold 1\n ".as_slice();
    put_two(journal, alloc)?;
    let are_put = journal.device().bytes() == b"+hold 1\n+hold 2\n+\n ".as_slice();
    Ok(is_put && are_put && journal.end() == 18)
}

#[test]
fn lines_are_put(rt: HostRuntime) -> Result<(), Fail> {
    let mut journal = journal(rt.alloc(), b"")?;
    let is_right = are_put(&mut journal, rt.alloc());
    assert!(rt; is_right?);
    Ok(())
}

/// Rewrites the journal as one line.
fn rewrite<D: Device>(journal: &mut Journal<D>, alloc: Global) -> Result<(), Fail>
    requires { IsReady D.content D.history journal.old }
    ensures { OnOk result (IsReady D.content D.history journal.new) }
{
    let lines = group(alloc, &[b"held 0"])?;
    if !are_lines(&lines) {
        return Err("no lines".into());
    }
    Ok(journal.rewrite(alloc, &lines)?)
}

/// Whether a line stands behind those that the journal is rewritten as.
fn are_rewritten(journal: &mut Journal<KillOnly>, alloc: Global) -> Result<bool, Fail>
    requires { IsReady held_by history_of journal.old }
{
    rewrite(journal, alloc)?;
    put(journal, alloc, b"get 1")?;
    Ok(journal.device().bytes() == b"+held 0\n+get 1\n ".as_slice())
}

#[test]
fn lines_are_rewritten(rt: HostRuntime) -> Result<(), Fail> {
    let mut journal = journal(rt.alloc(), b"+get 0\n+put 0\n ")?;
    let is_right = are_rewritten(&mut journal, rt.alloc());
    assert!(rt; is_right?);
    Ok(())
}

/// Whether two lines are found, which end behind 14 bytes.
fn are_found(found: &Found) -> bool {
    found.lines.len() == 2 && found.end == 14
}

/// Whether the file is at rest.
fn is_found(alloc: Global, file: &mut KillOnly) -> Result<bool, Fail> {
    let found = look(alloc, file)?;
    Ok(are_found(&found) && found.is_at_rest())
}

/// Whether the same is found without a sync.
fn is_peeked(alloc: Global, file: &mut KillOnly) -> Result<bool, Fail> {
    let found = peek(alloc, file)?;
    Ok(are_found(&found))
}

/// Whether the same is found from the beginning.
fn is_peeked_from(alloc: Global, file: &mut KillOnly) -> Result<bool, Fail> {
    let found = peek_from(alloc, file, 0)?;
    Ok(are_found(&found))
}

fn is_known(alloc: Global, file: &mut KillOnly) -> Result<bool, Fail> {
    Ok(is_found(alloc, file)? && is_peeked(alloc, file)? && is_peeked_from(alloc, file)?)
}

#[test]
fn a_journal_goes_on_from_what_was_found(rt: HostRuntime) -> Result<(), Fail> {
    let bytes = b"+get 0\n+put 0\n ".to_vec(rt.alloc())?;
    let mut file = KillOnly::new(rt.alloc(), bytes);
    let is_known = is_known(rt.alloc(), &mut file)?;
    let journal = Journal::resume(file, 14);
    assert!(rt; is_known && journal.end() == 14);
    Ok(())
}
