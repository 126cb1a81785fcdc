//! The files of the machine that runs.
ghost use Rattle.std.specs.Prelude.{◌≡◌, IfOk, None};
ghost use Rattle.modprobe_words.specs.Variable.{bytes_of};
ghost use Rattle.modprobe_files.specs.Places.{has_root, path_below};

use crate::system::{Entry, Kind, Place, System};
use crate::whole_files::whole;
use program_frame::folder_names;
use std::alloc::{AllocError, Global};
use std::env::{self, Env};
use std::fs::{self, Metadata, OpenFile};
use std::io::{self, ErrorKind};
use std::rt::Files;

/// The files of the machine that runs, or those below a folder that stands for `/`.
#[derive(Drop)]
pub struct Disk<'a, R> {
    pub rt: &'a R,
    /// Empty for the machine itself.
    pub root: &'a [u8],
}

/// The path of a place below a root.
fn path_below(alloc: Global, root: &[u8], names: &[Vec<u8>]) -> Result<Vec<u8>, AllocError>
    ensures { IfOk result (λ path. path.items ≡ path_below root.now (bytes_of names.now)) }
{
    let mut path = Vec::from_slice(alloc, root)?;
    for name in names {
        path.push(b'/')?;
        path.extend_from_slice(name)?;
    }
    Ok(path)
}

/// A path as the system takes it.
fn text_of(path: Vec<u8>) -> io::Result<String> {
    match String::from_utf8(path) {
        Ok(text) => Ok(text),
        Err(_) => Err(io::Error::from(ErrorKind::InvalidFilename)),
    }
}

impl<R: Files + Env + AllocGlobal> Disk<'_, R> {
    fn path(&self, place: &Place) -> io::Result<String> {
        let path = match place {
            Place::AsGiven(path) => Vec::from_slice(self.rt.alloc(), path)?,
            Place::Below(names) => path_below(self.rt.alloc(), self.root, names)?,
        };
        text_of(path)
    }

    /// What the metadata of an entry tell, and the text of a link.
    fn entry_at(&self, path: &str, found: Metadata) -> io::Result<Entry> {
        if found.is_symlink() {
            let target = fs::read_link(self.rt, path)?;
            let text = target.as_str().as_bytes();
            return Ok(Entry::Link(Vec::from_slice(self.rt.alloc(), text)?));
        }
        Ok(if found.is_dir() {
            Entry::Folder
        } else {
            Entry::File
        })
    }
}

impl<R: Files + Env + AllocGlobal> System for Disk<'_, R> {
    ghost is_rooted = { λ disk. has_root disk.root.now };

    ghost entries = { λ _. None };

    fn alloc(&self) -> Global {
        self.rt.alloc()
    }

    fn is_rooted(&self) -> bool {
        !self.root.is_empty()
    }

    fn entry(&self, place: &[Vec<u8>]) -> io::Result<Entry> {
        let path = text_of(path_below(self.rt.alloc(), self.root, place)?)?;
        match fs::symlink_metadata(self.rt, &path) {
            Ok(found) => self.entry_at(&path, found),
            Err(error) if error.kind() == ErrorKind::NotFound => Ok(Entry::Nothing),
            Err(error) => Err(error),
        }
    }

    fn read(&self, place: &Place) -> io::Result<Vec<u8>> {
        let mut file = fs::open(self.rt, self.path(place)?)?;
        let expected = usize::try_from(file.metadata()?.len()).unwrap_or(0);
        whole(self.rt.alloc(), &mut file, expected)
    }

    fn kind(&self, place: &Place) -> io::Result<Kind> {
        let found = fs::metadata(self.rt, &self.path(place)?)?;
        Ok(if found.is_dir() {
            Kind::Folder
        } else {
            Kind::File
        })
    }

    fn names(&self, place: &Place) -> io::Result<Vec<Vec<u8>>> {
        folder_names(self.rt.alloc(), self.rt, &self.path(place)?)
    }

    fn current_folder(&self) -> io::Result<Vec<u8>> {
        let current = env::current_dir(self.rt)?;
        Ok(Vec::from_slice(self.rt.alloc(), current.as_str().as_bytes())?)
    }
}
