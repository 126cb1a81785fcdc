//! Journals in files: what is there for the next process, what others wrote, and refusals.

use crate::folders::{Disk, device_in, folder, new_device, write};
use file_journal::{
    Cause, FileDevice, FolderLock, LockError, LockKind, OpenError, Syncs, Unopened,
};
use line_journal::{
    Device, DeviceError, Found, Opened, Renewable, Renewed, Repair, are_lines, is_line, look, open,
};
use std::alloc::Global;
use std::fs;
use std::test::Fail;

/// Adds a line to the journal of a device.
pub(crate) fn put<D: Device + Drop>(alloc: Global, device: D, line: &[u8]) -> Result<(), Fail> {
    match open(alloc, device, Repair::CutAtMost(0)) {
        Ok(Opened::Ready(mut journal, _)) if is_line(line) => Ok(journal.put(alloc, line)?),
        Ok(_) => Err("no journal".into()),
        Err((error, _)) => Err(error.into()),
    }
}

/// Rewrites the journal of a device as one line, and adds another.
pub(crate) fn rewrite<D: Device + Drop>(
    alloc: Global,
    device: D,
    line: &[u8],
    next: &[u8],
) -> Result<(), Fail> {
    let lines = vec![in alloc; line.to_vec(alloc)?]?;
    match open(alloc, device, Repair::CutAtMost(0)) {
        Ok(Opened::Ready(mut journal, _)) if are_lines(&lines) && is_line(next) => {
            journal.rewrite(alloc, &lines)?;
            Ok(journal.put(alloc, next)?)
        }
        Ok(_) => Err("no journal".into()),
        Err((error, _)) => Err(error.into()),
    }
}

/// Adds a line to the journal in a folder, with syncs or without.
pub(crate) fn put_in(
    rt: &HostRuntime,
    folder: &str,
    syncs: Syncs,
    line: &[u8],
) -> Result<(), Fail> {
    put(rt.alloc(), device_in(rt, folder, syncs)?, line)
}

/// A new journal in a folder gets its first line.
pub(crate) fn begin_in(rt: &HostRuntime, folder: &str) -> Result<(), Fail> {
    put(rt.alloc(), new_device(rt, folder)?, b"get web17 overlay")
}

/// Rewrites the journal in a folder as one line, and adds another.
pub(crate) fn rewrite_in(
    rt: &HostRuntime,
    folder: &str,
    line: &[u8],
    next: &[u8],
) -> Result<(), Fail> {
    rewrite(rt.alloc(), device_in(rt, folder, Syncs::Kept)?, line, next)
}

/// Whether these are the lines.
pub(crate) fn are_these(lines: &[Vec<u8>], wanted: &[&[u8]]) -> bool {
    for (line, wanted) in lines.iter().zip(wanted) {
        if line.as_slice() != *wanted {
            return false;
        }
    }
    lines.len() == wanted.len()
}

/// What stands in a journal.
fn found_by(rt: &HostRuntime, device: &mut Disk<'_>) -> Result<Found, Fail> {
    Ok(look(rt.alloc(), device)?)
}

/// What stands in the journal in a folder.
fn found_in(rt: &HostRuntime, folder: &str) -> Result<Found, Fail> {
    let mut device = device_in(rt, folder, Syncs::Kept)?;
    found_by(rt, &mut device)
}

/// Whether the journal in a folder has these bytes.
fn has_bytes(rt: &HostRuntime, folder: &str, wanted: &[u8]) -> Result<bool, Fail> {
    let path = format!(in rt.alloc(); "{folder}/journal")?;
    let bytes = fs::read(rt, path.as_str())?;
    Ok(bytes.as_slice() == wanted)
}

/// Whether a line is there for the next process, with syncs or without.
fn is_put(rt: &HostRuntime, folder: &str) -> Result<bool, Fail> {
    begin_in(rt, folder)?;
    put_in(rt, folder, Syncs::LeftOut, b"release web17")?;
    let found = found_in(rt, folder)?;
    Ok(found.is_at_rest() && are_these(&found.lines, &[b"get web17 overlay", b"release web17"]))
}

/// Whether a journal is replaced.
fn is_replaced(rt: &HostRuntime, folder: &str) -> Result<bool, Fail> {
    begin_in(rt, folder)?;
    rewrite_in(rt, folder, b"held", b"next")?;
    has_bytes(rt, folder, b"+held\n+next\n ")
}

/// Whether a torn end is cut off.
fn is_cut_off(rt: &HostRuntime, folder: &str) -> Result<bool, Fail> {
    write(rt, folder, "+get web17 overlay\n rel")?;
    put_in(rt, folder, Syncs::Kept, b"next")?;
    has_bytes(rt, folder, b"+get web17 overlay\n+next\n ")
}

/// Whether a device says that another process wrote to its file.
fn reports(rt: &HostRuntime, folder: &str, device: &mut Disk<'_>) -> Result<bool, Fail> {
    write(rt, folder, "+other\n ")?;
    let error = look(rt.alloc(), device).err();
    Ok(match device.fault() {
        Some(fault) => {
            error == Some(DeviceError::Failed) && fault.cause == Cause::ReadsOtherwise
        }
        None => false,
    })
}

/// Whether what another process wrote is reported.
fn is_reported(rt: &HostRuntime, folder: &str) -> Result<bool, Fail> {
    let mut device = new_device(rt, folder)?;
    reports(rt, folder, &mut device)
}

/// Whether a file is opened once more as long as it has the bytes of before, and again when it has them again.
fn is_opened_again(rt: &HostRuntime, folder: &str) -> Result<bool, Fail> {
    begin_in(rt, folder)?;
    let mut device = device_in(rt, folder, Syncs::Kept)?;
    let is_same = device.open_again().is_ok();
    write(rt, folder, "+other\n ")?;
    let is_other = device.open_again().is_err() && look(rt.alloc(), &mut device).is_err();
    write(rt, folder, "+get web17 overlay\n ")?;
    Ok(is_same && is_other && device.open_again().is_ok())
}

/// Whether another file of the same bytes is not opened for the one that was there.
fn is_not_opened_for_another(rt: &HostRuntime, folder: &str) -> Result<bool, Fail> {
    let mut device = new_device(rt, folder)?;
    let path = format!(in rt.alloc(); "{folder}/journal")?;
    fs::remove_file(rt, path.as_str())?;
    let is_missed = device.open_again().is_err();
    write(rt, folder, "")?;
    Ok(is_missed && device.open_again().is_err())
}

/// What a device finds when its turn begins.
fn renewed(rt: &HostRuntime, folder: &str, device: &mut Disk<'_>) -> Result<Renewed, Fail> {
    let turn = FolderLock::acquire(rt, rt.alloc(), folder, LockKind::Exclusive, 0)?;
    Ok(device.renew(turn, 0)?)
}

/// Whether a new device sees the first line of another process, once.
fn sees_a_line(rt: &HostRuntime, folder: &str, device: &mut Disk<'_>) -> Result<bool, Fail> {
    device.rest();
    let first = renewed(rt, folder, device)?;
    device.rest();
    put_in(rt, folder, Syncs::Kept, b"get web17 overlay")?;
    let second = renewed(rt, folder, device)?;
    device.rest();
    let third = renewed(rt, folder, device)?;
    let lines = found_by(rt, device)?.lines.len();
    Ok(first == Renewed::Same && second == Renewed::Longer && third == Renewed::Same && lines == 1)
}

/// Whether it sees what another process makes of the journal.
fn sees_a_rewrite(rt: &HostRuntime, folder: &str, device: &mut Disk<'_>) -> Result<bool, Fail> {
    device.rest();
    rewrite_in(rt, folder, b"get web17 snd_pcm", b"put web17 snd_pcm")?;
    let renewed = renewed(rt, folder, device)?;
    let lines = found_by(rt, device)?.lines;
    let are_right = are_these(&lines, &[b"get web17 snd_pcm", b"put web17 snd_pcm"]);
    Ok(are_right && renewed == Renewed::Longer)
}

/// Whether it fails once its folder is gone, until it is read again.
fn misses_its_folder(rt: &HostRuntime, folder: &str, device: &mut Disk<'_>) -> Result<bool, Fail> {
    fs::remove_dir_all(rt, folder)?;
    let is_missed = device.read_again().is_err() && look(rt.alloc(), device).is_err();
    fs::create_dir(rt, folder)?;
    write(rt, folder, "+other\n ")?;
    device.read_again()?;
    Ok(is_missed && found_by(rt, device)?.lines.len() == 1)
}

/// Whether nothing is written or read without the lock, nor written where others that read have it too.
fn needs_its_lock(rt: &HostRuntime, folder: &str) -> Result<bool, Fail> {
    let mut device = new_device(rt, folder)?;
    device.rest();
    let is_unread = device.read_from(rt.alloc(), 0) == Err(DeviceError::Failed);
    let why = device.fault().map(|fault| fault.cause);
    let turn = FolderLock::acquire(rt, rt.alloc(), folder, LockKind::Shared, 0)?;
    device.renew(turn, 0)?;
    let is_read = device.read_from(rt.alloc(), 0).is_ok();
    let is_unwritten = device.write_at(0, b"+") == Err(DeviceError::Failed);
    Ok(is_unread && why == Some(Cause::NotLocked) && is_read && is_unwritten)
}

/// Whether what another process wrote is read anew.
fn is_read_anew(rt: &HostRuntime, folder: &str) -> Result<bool, Fail> {
    let mut device = new_device(rt, folder)?;
    reads_anew(rt, folder, &mut device)
}

fn reads_anew(rt: &HostRuntime, folder: &str, device: &mut Disk<'_>) -> Result<bool, Fail> {
    Ok(
        sees_a_line(rt, folder, device)?
            && sees_a_rewrite(rt, folder, device)?
            && misses_its_folder(rt, folder, device)?,
    )
}

/// Why a journal is not opened. Its lock is handed back.
fn refusal(rt: &HostRuntime, folder: &str, name: &str) -> Result<Option<Cause>, Fail> {
    let taken = lock(rt, folder, LockKind::Exclusive)?;
    match FileDevice::open(rt, rt.alloc(), taken, folder, name, Syncs::Kept) {
        Err(
            Unopened {
                error: OpenError::Failed(fault),
                lock,
            },
        ) => {
            lock.release();
            Ok(Some(fault.cause))
        }
        _ => Ok(None),
    }
}

/// Whether a refused open says why.
fn says_why(rt: &HostRuntime, folder: &str) -> Result<bool, Fail> {
    let is_missed = refusal(rt, folder, "journal")? == Some(Cause::NotThere);
    new_device(rt, folder)?.rest();
    let is_opened = refusal(rt, folder, "journal")? == None;
    Ok(is_missed && is_opened && refusal(rt, folder, ".")? == Some(Cause::NoFile))
}

fn lock(rt: &HostRuntime, folder: &str, kind: LockKind) -> Result<FolderLock, LockError> {
    FolderLock::acquire(rt, rt.alloc(), folder, kind, 0)
}

/// Whether others hold a lock.
fn is_held(rt: &HostRuntime, folder: &str, kind: LockKind) -> bool {
    matches!(lock(rt, folder, kind), Err(LockError::Held))
}

/// Whether a lock is taken, and excludes the other kind meanwhile.
fn excludes(rt: &HostRuntime, folder: &str, kind: LockKind, other: LockKind) -> bool {
    let Ok(taken) = lock(rt, folder, kind) else {
        return false;
    };
    let is_held = is_held(rt, folder, other);
    taken.release();
    is_held
}

/// Whether two share a lock, and it is free when both have given it back.
fn is_shared(rt: &HostRuntime, folder: &str) -> bool {
    let Ok(one) = lock(rt, folder, LockKind::Shared) else {
        return false;
    };
    let is_held = excludes(rt, folder, LockKind::Shared, LockKind::Exclusive);
    one.release();
    is_held && excludes(rt, folder, LockKind::Exclusive, LockKind::Shared)
}

enum Course {
    Put,
    Replaced,
    Torn,
    Reported,
    ReadAnew,
    Refused,
    Locked,
    Unlocked,
    Followed,
    OpenedAgain,
    Another,
}

/// What is done in a folder, and the folder's name.
static COURSES: [(&str, Course); 5] = [
    ("put", Course::Put),
    ("replace", Course::Replaced),
    ("torn", Course::Torn),
    ("renew", Course::ReadAnew),
    ("follow", Course::Followed),
];

/// The same of what looks for a refusal, which may be one that memory ran out.
static REFUSALS: [(&str, Course); 6] = [
    ("other", Course::Reported),
    ("refused", Course::Refused),
    ("lock", Course::Locked),
    ("unlocked", Course::Unlocked),
    ("again", Course::OpenedAgain),
    ("another", Course::Another),
];

/// Whether it goes as it ought to.
fn goes_well(rt: &HostRuntime, folder: &str, course: &Course) -> Result<bool, Fail> {
    match course {
        Course::Put => is_put(rt, folder),
        Course::Replaced => is_replaced(rt, folder),
        Course::Torn => is_cut_off(rt, folder),
        Course::Reported => is_reported(rt, folder),
        Course::ReadAnew => is_read_anew(rt, folder),
        Course::Refused => says_why(rt, folder),
        Course::Unlocked => needs_its_lock(rt, folder),
        Course::Locked => Ok(is_shared(rt, folder)),
        Course::Followed => super::following::is_followed(rt, folder),
        Course::OpenedAgain => is_opened_again(rt, folder),
        Course::Another => is_not_opened_for_another(rt, folder),
    }
}

/// The same in a folder of its own.
fn goes_well_alone(rt: &HostRuntime, name: &str, course: &Course) -> Result<bool, Fail> {
    let folder = folder(rt, name)?;
    let is_right = goes_well(rt, &folder, course)?;
    fs::remove_dir_all(rt, folder.as_str())?;
    Ok(is_right)
}

#[test]
fn journals_in_files(rt: HostRuntime) -> Result<(), Fail> {
    for (name, course) in &COURSES {
        assert!(rt; goes_well_alone(&rt, name, course)?, "{name}");
    }
    Ok(())
}

#[test]
fn refusals_in_files(rt: HostRuntime) -> Result<(), Fail> {
    for (name, course) in &REFUSALS {
        assert!(rt; goes_well_alone(&rt, name, course)?, "{name}");
    }
    Ok(())
}
