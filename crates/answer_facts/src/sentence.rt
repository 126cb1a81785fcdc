//! What a line says, without where that stands.
ghost use Rattle.std.specs.Prelude.{◌≡◌, ◌++◌, IfOk};
ghost use Rattle.answer_facts.specs.Pieces.{piece_of, pieces_of, sentence};

use crate::piece::Piece;
use std::alloc::{AllocError, Global};

/// The parts of what is said of somebody: its kind, of whom it is said, and the rest.
pub(crate) fn sentence<'a>(
    alloc: Global,
    kind: &'a [u8],
    whom: Piece<'a>,
    said: &[Piece<'a>],
) -> Result<Vec<Piece<'a>>, AllocError>
    ensures { IfOk result (λ pieces. pieces_of pieces.items ≡ sentence kind.entry.now (piece_of whom.entry) (pieces_of said.now)) }
{
    let mut pieces = Vec::new(alloc);
    pieces.push(Piece::Kind(kind))?;
    pieces.push(whom)?;
    pieces.push(Piece::Words(b": "))?;
    pieces.extend_from_slice(said)?;
    Ok(pieces)
}
