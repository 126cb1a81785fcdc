//! What tells the answers of two machines apart.
ghost use Rattle.std.specs.Prelude.{IfOk, ◌≡◌};
ghost use Rattle.answer_facts.specs.Facts.{change_fact_pieces, change_pieces};
ghost use Rattle.answer_facts.specs.Pieces.{pieces_of};

use crate::origin::Origin;
use crate::piece::Piece;
use crate::sentence::sentence;
use std::alloc::{AllocError, Global};

/// What tells the answers of two machines apart: a line that only one of them has, with that machine.
#[derive(Clone, Copy)]
pub enum ChangeFact<'a> {
    /// A line of the first answer.
    Taken(&'a [u8], Origin<'a>),
    /// A line of the second one.
    Added(&'a [u8], Origin<'a>),
}

fn change_pieces<'a>(
    alloc: Global,
    kind: &'a [u8],
    mark: &'a [u8],
    whom: &'a [u8],
    line: &'a [u8],
    origin: Origin<'a>,
) -> Result<Vec<Piece<'a>>, AllocError>
    ensures { IfOk result (λ pieces. pieces_of pieces.items ≡ change_pieces kind.entry.now mark.entry.now whom.entry.now line.entry.now origin.entry) }
{
    sentence(
        alloc,
        kind,
        Piece::Field(b"name", whom),
        &[
            Piece::Words(mark),
            Piece::Field(b"line", line),
            Piece::Tag(b"release", origin.release),
            Piece::Tag(b"root", origin.root),
        ],
    )
}

impl<'a> ChangeFact<'a> {
    /// What is said.
    pub(crate) fn pieces(self, alloc: Global, whom: &'a [u8]) -> Result<Vec<Piece<'a>>, AllocError>
        ensures { IfOk result (λ pieces. pieces_of pieces.items ≡ change_fact_pieces whom.entry.now self.entry) }
    {
        match self {
            ChangeFact::Taken(line, origin) => change_pieces(
                alloc, b"taken", b"- ", whom, line, origin,
            ),
            ChangeFact::Added(line, origin) => change_pieces(
                alloc, b"added", b"+ ", whom, line, origin,
            ),
        }
    }
}
