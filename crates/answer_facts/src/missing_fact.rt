//! Names that stand for nothing.
ghost use Rattle.std.specs.Prelude.{IfOk, ◌≡◌};
ghost use Rattle.answer_facts.specs.Pieces.{pieces_of};
ghost use Rattle.answer_facts.specs.Facts.{missing_fact_pieces};

use crate::piece::Piece;
use crate::sentence::sentence;
use std::alloc::{AllocError, Global};

/// That a name stands for nothing.
#[derive(Clone, Copy)]
pub enum MissingFact<'a> {
    /// Nothing has this name.
    NotFound,
    /// It is no name.
    NoName,
    /// It is a path at which no module can be read.
    BadPath(&'a [u8]),
    /// There is a module of nearly this name.
    Near(&'a [u8]),
}

impl<'a> MissingFact<'a> {
    /// What is said.
    pub(crate) fn pieces(self, alloc: Global, whom: &'a [u8]) -> Result<Vec<Piece<'a>>, AllocError>
        ensures { IfOk result (λ pieces. pieces_of pieces.items ≡ missing_fact_pieces whom.entry.now self.entry) }
    {
        let name = Piece::Field(b"name", whom);
        match self {
            MissingFact::NotFound => sentence(
                alloc,
                b"not_found",
                name,
                &[Piece::Words(b"no module, alias or built-in has this name")],
            ),
            MissingFact::NoName => sentence(
                alloc,
                b"no_name",
                name,
                &[Piece::Words(b"no name, since a bracket stands alone")],
            ),
            MissingFact::BadPath(because) => sentence(
                alloc,
                b"bad_path",
                name,
                &[Piece::Words(b"a path: "), Piece::Field(b"because", because)],
            ),
            MissingFact::Near(near) => sentence(
                alloc,
                b"near_name",
                name,
                &[Piece::Words(b"there is "), Piece::Field(b"near", near)],
            ),
        }
    }
}
