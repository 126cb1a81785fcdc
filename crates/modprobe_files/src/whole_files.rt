//! All that a file holds.
ghost use Rattle.std.specs.Prelude.{◌≡◌, ◌<◌, length, IfOk, IfSome};

use std::alloc::Global;
use std::io::{self, ErrorKind, Read};

/// How many bytes of a short file are read at once.
const SHORT_PIECE: usize = 4096;

/// How many bytes of another file are read at once.
const LONG_PIECE: usize = 65536;

/// All bytes that a reader gives, read piece by piece.
fn all_pieces<F: Read>(
    alloc: Global,
    file: &mut F,
    expected: usize,
    piece: &mut [u8],
) -> io::Result<Vec<u8>>
    requires { 0 < length piece.old }
    ensures { IfOk result (λ bytes. IfSome (F.remaining file.old) (λ all. bytes.items ≡ all)) }
{
    let mut bytes = Vec::with_capacity(alloc, expected)?;
    'pieces: for _ in 0..u64::MAX {
        match file.read(piece) {
            Ok(0) => return Ok(bytes),
            Ok(count) => bytes.extend_from_slice(&piece[..count])?,
            Err(error) if error.kind() == ErrorKind::Interrupted => {}
            Err(error) => return Err(error),
        }
    }
    Err(io::Error::from(ErrorKind::FileTooLarge))
}

/// All bytes that a reader gives, of which about so many are expected. It is read to its end, however many there are.
pub(crate) fn whole<F: Read>(alloc: Global, file: &mut F, expected: usize) -> io::Result<Vec<u8>>
    ensures { IfOk result (λ bytes. IfSome (F.remaining file.old) (λ all. bytes.items ≡ all)) }
{
    if expected > SHORT_PIECE {
        let mut piece = [0u8; LONG_PIECE];
        return all_pieces(alloc, file, expected, &mut piece);
    }
    let mut piece = [0u8; SHORT_PIECE];
    all_pieces(alloc, file, expected, &mut piece)
}
