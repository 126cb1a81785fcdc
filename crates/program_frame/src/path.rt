//! The files that a program is named.
ghost use Rattle.std.specs.Prelude.{◌≡◌};
ghost use Rattle.std.specs.IoError.{error_kind};
ghost use Rattle.program_frame.specs.Paths.{fault_of};
ghost use Rattle.program_frame.specs.declared.path.PathFault.TheVariants as paths;

use std::alloc::{AllocError, AllocFailed};
use std::fs;
use std::io::{self, ErrorKind};
use std::rt::Files;
use thiserror::Error;

/// Why a path is not read.
#[derive(Clone, Copy, Debug, PartialEq, Eq, Drop, Error)]
pub enum PathFault {
    #[error("no such file")]
    Missing,
    #[error("it is a folder")]
    Folder,
    #[error("permission denied")]
    Denied,
    #[error("a name is too long or no text")]
    Name,
    #[error("the system cannot read it")]
    Unreadable,
    #[error("out of memory")]
    Memory,
}

/// Why a path is not read after an error of this kind.
fn fault_of(kind: ErrorKind) -> PathFault
    ensures { result ≡ fault_of kind }
{
    match kind {
        ErrorKind::NotFound | ErrorKind::NotADirectory => PathFault::Missing,
        ErrorKind::IsADirectory => PathFault::Folder,
        ErrorKind::PermissionDenied => PathFault::Denied,
        ErrorKind::InvalidFilename => PathFault::Name,
        ErrorKind::OutOfMemory => PathFault::Memory,
        _ => PathFault::Unreadable,
    }
}

impl From<io::Error> for PathFault {
    ghost from_gives = { λ error fault. fault ≡ fault_of (error_kind error) };

    fn from(error: io::Error) -> PathFault {
        fault_of(error.kind())
    }
}

impl From<AllocError> for PathFault {
    ghost from_gives = { λ _ fault. fault ≡ paths.Memory };

    fn from(_: AllocError) -> PathFault {
        PathFault::Memory
    }
}

impl<T: Drop> From<AllocFailed<T>> for PathFault {
    ghost from_gives = { λ _ fault. fault ≡ paths.Memory };

    fn from(_: AllocFailed<T>) -> PathFault {
        PathFault::Memory
    }
}

/// All bytes of the file of a path; or why it is not read, by the kind of the system's error.
pub fn read_path<R: Files + AllocGlobal>(rt: &R, path: &str) -> Result<Vec<u8>, PathFault> {
    Ok(fs::read(rt, path)?)
}
