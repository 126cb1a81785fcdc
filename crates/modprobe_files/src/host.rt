//! The files of the machine that is asked.
ghost use Rattle.std.specs.Prelude.{◌≡◌, ◌≤◌, ◌++◌, length, true, IfOk, None, Ok};
ghost use Rattle.modprobe_files.specs.Places.{IsAllowed};

use crate::system::{Kind, Place, System};
use crate::walk::{Resolved, resolve};
use std::alloc::{AllocError, Global};
use std::io::{self, ErrorKind};

/// The files of a machine by their paths. With a root, a path is resolved within it.
#[derive(Drop)]
pub struct Host<'a, S> {
    pub system: &'a S,
}

impl<S: System> Host<'_, S> {
    pub fn alloc(&self) -> Global {
        self.system.alloc()
    }

    /// Whether there is a root that no path may leave.
    pub(crate) fn is_rooted(&self) -> bool
        ensures { result ≡ S.is_rooted self.now.system.now }
    {
        self.system.is_rooted()
    }

    /// Where a path of the machine leads.
    fn place(&self, path: &[u8]) -> io::Result<Place>
        ensures { IfOk result (IsAllowed (S.is_rooted self.now.system.now) (S.entries self.now.system.now)) }
    {
        if !self.system.is_rooted() {
            return Ok(Place::AsGiven(Vec::from_slice(self.alloc(), path)?));
        }
        match resolve(self.system, path)? {
            Resolved::Found(names) => Ok(Place::Below(names)),
            Resolved::Missing => Err(io::Error::from(ErrorKind::NotFound)),
            Resolved::NoFolder => Err(io::Error::from(ErrorKind::NotADirectory)),
            Resolved::TooManyLinks => Err(io::Error::from(ErrorKind::FilesystemLoop)),
        }
    }

    /// The current folder, if there is no root.
    pub fn current_folder(&self) -> io::Result<Option<Vec<u8>>>
        ensures { S.is_rooted self.now.system.now ≡ true → result ≡ Ok None }
    {
        if self.system.is_rooted() {
            return Ok(None);
        }
        Ok(Some(self.system.current_folder()?))
    }

    /// All bytes of a file.
    pub fn read(&self, path: &[u8]) -> io::Result<Vec<u8>> {
        let place = self.place(path)?;
        self.system.read(&place)
    }

    /// What a path leads to, through links, or why it leads to nothing.
    pub fn look(&self, path: &[u8]) -> io::Result<Kind> {
        let place = self.place(path)?;
        self.system.kind(&place)
    }

    /// What a path leads to, through links.
    pub fn kind(&self, path: &[u8]) -> Result<Kind, AllocError> {
        match self.look(path) {
            Ok(kind) => Ok(kind),
            Err(error) if error.kind() == ErrorKind::OutOfMemory => Err(AllocError),
            Err(_) => Ok(Kind::Nothing),
        }
    }

    /// The names of a folder, in any order, without `.` and `..`.
    pub fn names(&self, path: &[u8]) -> io::Result<Vec<Vec<u8>>> {
        let place = self.place(path)?;
        self.system.names(&place)
    }
}

/// Three parts of a path as one. It fails only out of memory.
pub fn joined(
    alloc: Global,
    first: &[u8],
    second: &[u8],
    third: &[u8],
) -> Result<Vec<u8>, AllocError>
    ensures { IfOk result (λ path. path.items ≡ first.now ++ second.now ++ third.now) }
{
    let mut path = Vec::from_slice(alloc, first)?;
    path.extend_from_slice(second)?;
    path.extend_from_slice(third)?;
    Ok(path)
}

/// What stands behind the last slash.
pub(crate) fn last_name(path: &[u8]) -> &[u8]
    ensures { length result.now ≤ length path.entry.now }
{
    let mut name = path;
    let mut rest = path;
    while let Some((byte, later)) = rest.split_first() {
        rest = later;
        if *byte == b'/' {
            name = later;
        }
    }
    name
}

/// What stands before the last slash.
pub(crate) fn folder_of(path: &[u8]) -> &[u8] {
    let length = path.len() - last_name(path).len();
    &path[..length.saturating_sub(1)]
}
