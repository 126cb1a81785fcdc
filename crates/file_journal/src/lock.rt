ghost use Rattle.std.specs.Prelude.{◌≡◌, IfOk};

use crate::disk_file::path_in;
use crate::fault::{Action, FileFault, Target};
use std::alloc::{AllocError, Global};
use std::fs::{self, File, TryLockError};
use std::io::{self, ErrorKind};
use std::os::unix::fs::MetadataExt;
use std::rt::{Clock, Files};
use std::time::{Duration, Instant};
use std::{fmt, thread};

/// How often the lock is opened, if its folder is made anew again and again.
const TRIES: u32 = 16;

/// Who may have a folder's lock at the same time.
#[derive(Clone, Copy, Debug, PartialEq, Eq)]
pub enum LockKind {
    /// Others that read.
    Shared,
    /// Nobody.
    Exclusive,
}

/// Why a lock was not taken.
#[derive(Clone, Copy, Debug, PartialEq, Eq)]
pub enum LockError {
    OutOfMemory,
    /// Others held it for all the time that was to be waited.
    Held,
    Failed(FileFault),
}

impl fmt::Display for LockError {
    fn fmt<W: fmt::Write>(&self, f: &mut fmt::Formatter<W>) -> fmt::Result {
        match self {
            LockError::OutOfMemory => f.write_str("out of memory"),
            LockError::Held => f.write_str("others hold the lock"),
            LockError::Failed(fault) => fmt::Display::fmt(fault, f),
        }
    }
}

impl std::error::Error for LockError {}

impl From<AllocError> for LockError {
    ghost use Rattle.std.specs.Prelude.{◌≡◌};
    ghost use Rattle.file_journal.specs.declared.lock.LockError.TheVariants.{OutOfMemory};

    ghost from_gives = { λ _ error. error ≡ OutOfMemory };

    fn from(_: AllocError) -> Self {
        LockError::OutOfMemory
    }
}

/// The lock of a folder, which is flock(2) on the file `lock` in it. It is given back when it is dropped. It is the permit for
/// calls of the folder's journal: that `kind` is what was taken is trusted.
#[derive(Drop)]
pub struct FolderLock {
    pub(crate) kind: LockKind,
    file: File,
}

fn failed(error: io::Error) -> LockError {
    match error.kind() {
        ErrorKind::OutOfMemory => LockError::OutOfMemory,
        _ => LockError::Failed(FileFault::of(Action::Lock, Target::Lock, &error)),
    }
}

/// Opens the file of a lock, and makes it if it is not there.
fn open_lock<R: Files<File = File>>(rt: &R, path: &str) -> io::Result<File> {
    match File::open(rt, path) {
        Err(error) if error.kind() == ErrorKind::NotFound => {
            let mut options = File::options();
            options.read(true).write(true).create(true);
            options.open(rt, path)
        }
        opened => opened,
    }
}

/// Whether the lock is taken now.
fn is_taken(file: &File, kind: LockKind) -> io::Result<bool> {
    let tried = match kind {
        LockKind::Shared => file.try_lock_shared(),
        LockKind::Exclusive => file.try_lock(),
    };
    match tried {
        Ok(()) => Ok(true),
        Err(TryLockError::WouldBlock) => Ok(false),
        Err(TryLockError::Error(error)) => Err(error),
    }
}

/// Whether a file is the one that has a path now. If not, others have removed it, or have put another in its place.
fn has_path<R: Files<File = File>>(rt: &R, file: &File, path: &str) -> io::Result<bool> {
    match fs::metadata(rt, path) {
        Ok(there) => {
            let known = file.metadata()?;
            Ok(there.dev() == known.dev() && there.ino() == known.ino())
        }
        Err(error) if error.kind() == ErrorKind::NotFound => Ok(false),
        Err(error) => Err(error),
    }
}

/// How long one pauses who has waited so long. Who has waited longer tries more often, and so is likely to be the next.
fn pause(waited: Duration) -> Duration {
    if waited < Duration::from_millis(5) {
        return Duration::from_millis(1);
    }
    Duration::from_micros(match waited.as_millis() / 50 {
        0 => 10_000,
        1 => 5_000,
        2 => 2_500,
        3 => 1_250,
        _ => 625,
    })
}

/// Tries until the lock is taken, or the time since the start is over.
fn wait_for<R: Clock>(
    rt: &R,
    file: &File,
    kind: LockKind,
    start: Instant,
    limit: Duration,
) -> io::Result<bool> {
    for _ in 0..u64::MAX {
        if is_taken(file, kind)? {
            return Ok(true);
        }
        let waited = start.elapsed(rt)?;
        if waited >= limit {
            break;
        }
        thread::sleep(rt, pause(waited));
    }
    Ok(false)
}

impl FolderLock {
    /// Takes the lock of a folder. If others hold it, it is tried again, the more often the longer it is waited for, for so many
    /// seconds. The lock of a folder that was moved or removed meanwhile is given back, and that of the one that has its path now
    /// is taken.
    pub fn acquire<R: Files<File = File> + Clock>(
        rt: &R,
        alloc: Global,
        folder: &str,
        kind: LockKind,
        seconds: u32,
    ) -> Result<Self, LockError>
        ensures { IfOk result (λ lock. lock.kind ≡ kind) }
    {
        let path = path_in(alloc, folder, "lock", "")?;
        let start = Instant::now(rt).map_err(failed)?;
        let limit = Duration::from_secs(u64::from(seconds));
        for _ in 0..TRIES {
            let file = open_lock(rt, path.as_str()).map_err(failed)?;
            if !wait_for(rt, &file, kind, start, limit).map_err(failed)? {
                break;
            }
            if has_path(rt, &file, path.as_str()).map_err(failed)? {
                return Ok(FolderLock { kind, file });
            }
        }
        Err(LockError::Held)
    }

    /// Gives the lock back.
    pub fn release(self) {
        let FolderLock { kind: _, file: _ } = self;
    }
}
