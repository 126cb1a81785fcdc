//! The files of the machine, of which regular ones alone are read.
ghost use Rattle.std.specs.Prelude.{◌≡◌, None, IfOk};
ghost use Rattle.modprobe_words.specs.Variable.{bytes_of};
ghost use Rattle.modprobe_files.specs.Places.{has_root, path_below};

use modprobe_files::{Disk, Entry, Kind, Place, System};
use std::alloc::{AllocError, Global};
use std::env::Env;
use std::fs::{self, Metadata};
use std::io::{self, ErrorKind};
use std::os::unix::fs::{FileTypeExt, MetadataExt};
use std::rt::Files;

/// The files of a machine. To read a pipe might wait for ever, and to read a device might never end: neither is opened.
#[derive(Drop)]
pub(crate) struct Regular<'a, R> {
    pub(crate) disk: Disk<'a, R>,
}

/// What the system numbers /dev/null, which many configurations link to: it is read as an empty file.
const NULL_DEVICE: u64 = 0x103;

/// Whether what is there may be read to its end. A folder may: the system refuses that.
fn ends(found: &Metadata) -> bool {
    found.is_file()
        || found.is_dir()
        || (found.file_type().is_char_device() && found.rdev() == NULL_DEVICE)
}

/// Whether a path leads to a file that the kernel itself makes. Each of these ends, and there may be many.
fn is_of_kernel(path: &[u8]) -> bool {
    path.starts_with(b"/proc/") || path.starts_with(b"/sys/")
}

fn path_below(alloc: Global, root: &[u8], names: &[Vec<u8>]) -> Result<Vec<u8>, AllocError>
    ensures { IfOk result (λ path. path.items ≡ path_below root.now (bytes_of names.now)) }
{
    let mut path = Vec::from_slice(alloc, root)?;
    for name in names {
        path.push(b'/')?;
        path.extend_from_slice(name)?;
    }
    Ok(path)
}

impl<R: Files + Env + AllocGlobal> Regular<'_, R> {
    /// Whether what stands at a path may be read to its end. What is not there is left to who reads it.
    fn path_ends(&self, path: Vec<u8>) -> bool {
        match String::from_utf8(path) {
            Ok(text) => match fs::metadata(self.disk.rt, &text) {
                Ok(found) => ends(&found),
                Err(_) => true,
            },
            Err(_) => true,
        }
    }

    fn place_ends(&self, place: &Place) -> Result<bool, AllocError> {
        let alloc = self.disk.rt.alloc();
        match place {
            Place::AsGiven(path) if is_of_kernel(path) => Ok(true),
            Place::AsGiven(path) => Ok(self.path_ends(Vec::from_slice(alloc, path)?)),
            Place::Below(names) => Ok(self.path_ends(path_below(alloc, self.disk.root, names)?)),
        }
    }
}

impl<R: Files + Env + AllocGlobal> System for Regular<'_, R> {
    ghost is_rooted = { λ own. has_root own.disk.root.now };

    ghost entries = { λ _. None };

    fn alloc(&self) -> Global {
        self.disk.alloc()
    }

    fn is_rooted(&self) -> bool {
        self.disk.is_rooted()
    }

    fn entry(&self, place: &[Vec<u8>]) -> io::Result<Entry> {
        self.disk.entry(place)
    }

    fn read(&self, place: &Place) -> io::Result<Vec<u8>> {
        if self.place_ends(place)? {
            self.disk.read(place)
        } else {
            Err(io::Error::from(ErrorKind::Unsupported))
        }
    }

    fn kind(&self, place: &Place) -> io::Result<Kind> {
        self.disk.kind(place)
    }

    fn names(&self, place: &Place) -> io::Result<Vec<Vec<u8>>> {
        self.disk.names(place)
    }

    fn current_folder(&self) -> io::Result<Vec<u8>> {
        self.disk.current_folder()
    }
}
