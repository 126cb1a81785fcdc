//! Which file was read.

use std::fs::Metadata;
use std::os::unix::fs::MetadataExt;

/// A file as it was when it was read. Of a file that has its path later, and is another one or was written to, something is
/// different.
#[derive(Clone, Copy, PartialEq, Eq)]
pub struct FileMark {
    device: u64,
    inode: u64,
    length: u64,
    /// When it was last written to.
    seconds: i64,
    nanoseconds: i64,
}

impl FileMark {
    pub(crate) fn of(known: &Metadata) -> FileMark {
        FileMark {
            device: known.dev(),
            inode: known.ino(),
            length: known.len(),
            seconds: known.mtime(),
            nanoseconds: known.mtime_nsec(),
        }
    }
}
