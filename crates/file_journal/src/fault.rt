ghost use Rattle.std.specs.Prelude.{◌≡◌};
ghost use Rattle.std.specs.IoError.{error_kind, raw_os_error};
ghost use Rattle.file_journal.specs.Faults.{cause_of};

use std::alloc::AllocError;
use std::fmt;
use std::io::{self, ErrorKind};

/// What was asked of the system.
#[derive(Clone, Copy, Debug, PartialEq, Eq)]
pub enum Action {
    Open,
    Create,
    Read,
    Write,
    Cut,
    Sync,
    Rename,
    Lock,
}

/// Of which file.
#[derive(Clone, Copy, Debug, PartialEq, Eq)]
pub enum Target {
    Journal,
    /// The file that is to stand in the journal's place.
    NewJournal,
    /// The folder of the journal.
    Folder,
    Lock,
}

/// Why it did not do so.
#[derive(Clone, Copy, Debug, PartialEq, Eq)]
pub enum Cause {
    NotThere,
    AlreadyThere,
    NotAllowed,
    ReadOnly,
    /// The disk, or what the user may have of it.
    Full,
    NoFile,
    /// Another wrote to it, or the disk lost what was written.
    ReadsOtherwise,
    OutOfMemory,
    /// The lock of its folder is not held, or others that read have it too.
    NotLocked,
    /// Anything else, and the system's number of it (errno(3)), if it has one.
    Other(ErrorKind, Option<i32>),
}

impl fmt::Display for Action {
    fn fmt<W: fmt::Write>(&self, f: &mut fmt::Formatter<W>) -> fmt::Result {
        f.write_str(match self {
            Action::Open => "open",
            Action::Create => "create",
            Action::Read => "read",
            Action::Write => "write",
            Action::Cut => "cut",
            Action::Sync => "sync",
            Action::Rename => "rename",
            Action::Lock => "lock",
        })
    }
}

impl fmt::Display for Target {
    fn fmt<W: fmt::Write>(&self, f: &mut fmt::Formatter<W>) -> fmt::Result {
        f.write_str(match self {
            Target::Journal => "the journal",
            Target::NewJournal => "the new journal",
            Target::Folder => "the folder",
            Target::Lock => "the lock",
        })
    }
}

impl fmt::Display for Cause {
    fn fmt<W: fmt::Write>(&self, f: &mut fmt::Formatter<W>) -> fmt::Result {
        match self {
            Cause::NotThere => f.write_str("it is not there"),
            Cause::AlreadyThere => f.write_str("it is there already"),
            Cause::NotAllowed => f.write_str("not allowed"),
            Cause::ReadOnly => f.write_str("the file system is read-only"),
            Cause::Full => f.write_str("the disk is full"),
            Cause::NoFile => f.write_str("it is no file"),
            Cause::ReadsOtherwise => f.write_str("it does not read as it was written"),
            Cause::OutOfMemory => f.write_str("out of memory"),
            Cause::NotLocked => f.write_str("its folder is not locked"),
            Cause::Other(_, Some(number)) => {
                fmt::Display::fmt(&io::Error::from_raw_os_error(*number), f)
            }
            Cause::Other(kind, None) => fmt::Display::fmt(kind, f),
        }
    }
}

impl Cause {
    /// The cause that an error of the system tells.
    pub fn of(error: &io::Error) -> Cause
        ensures { result ≡ cause_of (error_kind error.now) (raw_os_error error.now) }
    {
        match error.kind() {
            ErrorKind::NotFound => Cause::NotThere,
            ErrorKind::AlreadyExists => Cause::AlreadyThere,
            ErrorKind::PermissionDenied => Cause::NotAllowed,
            ErrorKind::ReadOnlyFilesystem => Cause::ReadOnly,
            ErrorKind::StorageFull => Cause::Full,
            ErrorKind::QuotaExceeded => Cause::Full,
            ErrorKind::IsADirectory => Cause::NoFile,
            ErrorKind::OutOfMemory => Cause::OutOfMemory,
            kind => Cause::Other(kind, error.raw_os_error()),
        }
    }
}

/// What failed, of which file, and why.
#[derive(Clone, Copy, Debug, PartialEq, Eq)]
pub struct FileFault {
    pub action: Action,
    pub target: Target,
    pub cause: Cause,
}

/// The fault of a file that others wrote to, or that lost what was written.
pub(crate) const READS_OTHERWISE: FileFault = FileFault {
    action: Action::Read,
    target: Target::Journal,
    cause: Cause::ReadsOtherwise,
};

impl FileFault {
    /// What failed, by the error of the system.
    pub fn of(action: Action, target: Target, error: &io::Error) -> Self
        ensures action { result.action ≡ action }
        ensures target { result.target ≡ target }
        ensures cause { result.cause ≡ cause_of (error_kind error.now) (raw_os_error error.now) }
    {
        FileFault {
            action,
            target,
            cause: Cause::of(error),
        }
    }
}

impl From<AllocError> for FileFault {
    ghost use Rattle.file_journal.specs.declared.fault.Cause.TheVariants.{OutOfMemory};

    ghost from_gives = { λ _ fault. fault.cause ≡ OutOfMemory };

    fn from(_: AllocError) -> Self {
        FileFault {
            action: Action::Read,
            target: Target::Journal,
            cause: Cause::OutOfMemory,
        }
    }
}

impl fmt::Display for FileFault {
    fn fmt<W: fmt::Write>(&self, f: &mut fmt::Formatter<W>) -> fmt::Result {
        write!(f, "cannot {} {}: {}", self.action, self.target, self.cause)
    }
}

impl std::error::Error for FileFault {}
