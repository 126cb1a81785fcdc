//! The names of a folder, in order.
ghost use Rattle.std.specs.Prelude.{IfOk, IfSome, IsPermutation, IsSorted};
ghost use Rattle.gz_modprobe_drive.specs.Evidence.{by_bytes};

use modprobe_files::{Host, System};
use std::alloc::AllocError;
use std::io::ErrorKind;

fn in_order(names: Vec<Vec<u8>>) -> Vec<Vec<u8>>
    ensures names { IsPermutation names.items result.items }
    ensures order { IsSorted by_bytes result.items }
{
    let mut names = names;
    names.sort_unstable();
    names
}

/// The names of a folder, in the order of their bytes. None if it cannot be listed. It fails only if memory runs out.
pub(crate) fn names_of<S: System>(
    host: &Host<'_, S>,
    path: &[u8],
) -> Result<Option<Vec<Vec<u8>>>, AllocError>
    ensures { IfOk result (λ found. IfSome found (λ names. IsSorted by_bytes names.items)) }
{
    match host.names(path) {
        Ok(names) => Ok(Some(in_order(names))),
        Err(error) if error.kind() == ErrorKind::OutOfMemory => Err(AllocError),
        Err(_) => Ok(None),
    }
}
