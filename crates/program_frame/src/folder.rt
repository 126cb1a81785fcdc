//! The names of a folder.
ghost use Rattle.std.specs.Prelude.{◌≡◌, IsSorted, IsPermutation, filter};
ghost use Rattle.program_frame.specs.Folders.{counts, is_counted, by_bytes};

use std::alloc::{AllocError, Global};
use std::fs;
use std::io::{self, Read};
use std::rt::Files;
use text_parts::is_same;

/// The room for a folder's names. The system refuses a read whose room the next name does not fit in (getdents64(2)), so
/// it has to be enough for all: some 200,000 names.
const ROOM_FOR_NAMES: usize = 4_194_304;

/// The names in a listing, each with a NUL after it, without the folder itself and the one above it.
fn names_in(alloc: Global, listing: &[u8]) -> Result<Vec<Vec<u8>>, AllocError> {
    let mut names = Vec::new(alloc);
    for name in listing.split(|byte| *byte == 0) {
        if !matches!(name, b"" | b"." | b"..") {
            names.push(Vec::from_slice(alloc, name)?)?;
        }
    }
    Ok(names)
}

/// Whether a path leads to a folder, also through a link.
pub fn is_folder<R: Files>(rt: &R, path: &str) -> bool {
    fs::metadata(rt, path).is_ok_and(|found| found.is_dir())
}

/// The names of a folder, in any order, without `.` and `..`. The system's error says why it is not listed.
pub fn folder_names<R: Files>(alloc: Global, rt: &R, path: &str) -> io::Result<Vec<Vec<u8>>> {
    let mut place = String::from_str(alloc, path)?;
    // The slash has a link to a folder followed.
    place.push('/')?;
    let mut listing = Vec::with_capacity(alloc, ROOM_FOR_NAMES)?;
    let mut folder = rt.open_dir(&place)?;
    folder.read_to_end(&mut listing)?;
    Ok(names_in(alloc, &listing)?)
}

/// Whether a name of a folder counts as a file of a configuration (modprobe.d(5)): it ends in `.conf`, has a byte before
/// that, and is not hidden.
pub fn counts(name: &[u8]) -> bool
    ensures { result ≡ counts name.now }
{
    !name.starts_with(b".") && name.len() > 5 && is_same(&name[name.len() - 5..], b".conf")
}

/// The names that count as files of a configuration, in the order of their bytes.
pub fn counted_names(names: Vec<Vec<u8>>) -> Vec<Vec<u8>>
    ensures counted { IsPermutation (filter is_counted names.items) result.items }
    ensures order { IsSorted by_bytes result.items }
{
    let mut counted = names;
    counted.retain(|name| counts(name));
    counted.sort_unstable();
    counted
}
