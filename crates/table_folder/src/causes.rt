//! Why a file or a folder was not read or not written, as people are told it.

use file_journal::Cause;
use std::fmt;
use std::io::ErrorKind;

/// Why something was not read.
#[derive(Drop)]
pub(crate) struct Unread(pub(crate) Cause);

impl fmt::Display for Unread {
    fn fmt<W: fmt::Write>(&self, f: &mut fmt::Formatter<W>) -> fmt::Result {
        match self.0 {
            Cause::NotThere | Cause::Other(ErrorKind::NotADirectory, _) => {
                f.write_str("no such file")
            }
            Cause::NoFile => f.write_str("it is a folder"),
            Cause::NotAllowed => f.write_str("permission denied"),
            Cause::Other(ErrorKind::InvalidFilename, _) => {
                f.write_str("a name is too long or no text")
            }
            cause => fmt::Display::fmt(&cause, f),
        }
    }
}

/// Why something was not written, and what may be done.
#[derive(Drop)]
pub(crate) struct Unwritten(pub(crate) Cause);

impl fmt::Display for Unwritten {
    fn fmt<W: fmt::Write>(&self, f: &mut fmt::Formatter<W>) -> fmt::Result {
        match self.0 {
            Cause::NotThere => f.write_str("a folder above it is missing; make that first"),
            Cause::AlreadyThere | Cause::Other(ErrorKind::NotADirectory, _) => {
                f.write_str("it is no folder; name another")
            }
            Cause::NotAllowed => {
                f.write_str("permission denied; run it as one who may write there")
            }
            Cause::ReadOnly => {
                f.write_str("the file system is read-only; name a folder elsewhere")
            }
            Cause::Full => f.write_str("the disk is full; free some room"),
            cause => fmt::Display::fmt(&cause, f),
        }
    }
}
