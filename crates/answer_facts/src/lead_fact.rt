//! What leads from a name to a module.
ghost use Rattle.std.specs.Prelude.{IfOk, ◌≡◌};
ghost use Rattle.answer_facts.specs.Pieces.{pieces_of};
ghost use Rattle.answer_facts.specs.Facts.{lead_fact_pieces};
ghost use Rattle.answer_facts.specs.Words.{side_word, side_words};

use crate::piece::Piece;
use crate::sentence::sentence;
use std::alloc::{AllocError, Global};

/// On which side of its module a soft item stands.
#[derive(Clone, Copy)]
pub enum Side {
    Before,
    After,
}

/// What leads from a name to a module.
#[derive(Clone, Copy)]
pub enum LeadFact<'a> {
    /// It is a soft item of this module.
    Softdep { side: Side, of: &'a [u8] },
    /// It is a weak item of this module.
    Weakdep(&'a [u8]),
    /// It is an alias of this module.
    Alias(&'a [u8]),
    /// It is an alias of this module that a device has.
    Device(&'a [u8]),
}

impl Side {
    /// What is said before the module.
    pub(crate) fn words(self) -> &'static [u8]
        ensures { result.now ≡ side_words self }
    {
        match self {
            Side::Before => b"softdep before ",
            Side::After => b"softdep after ",
        }
    }

    /// The value in JSON.
    pub(crate) fn word(self) -> &'static [u8]
        ensures { result.now ≡ side_word self }
    {
        match self {
            Side::Before => b"before",
            Side::After => b"after",
        }
    }
}

impl<'a> LeadFact<'a> {
    /// What is said.
    pub(crate) fn pieces(self, alloc: Global, whom: &'a [u8]) -> Result<Vec<Piece<'a>>, AllocError>
        ensures { IfOk result (λ pieces. pieces_of pieces.items ≡ lead_fact_pieces whom.entry.now self.entry) }
    {
        let name = Piece::Field(b"name", whom);
        match self {
            LeadFact::Softdep { side, of } => sentence(
                alloc,
                b"softdep",
                name,
                &[
                    Piece::Words(side.words()),
                    Piece::Field(b"of", of),
                    Piece::Tag(b"side", side.word()),
                ],
            ),
            LeadFact::Weakdep(of) => sentence(
                alloc,
                b"weakdep",
                name,
                &[Piece::Words(b"weakdep of "), Piece::Field(b"of", of)],
            ),
            LeadFact::Alias(of) => sentence(
                alloc,
                b"alias",
                name,
                &[Piece::Words(b"alias of "), Piece::Field(b"of", of)],
            ),
            LeadFact::Device(of) => sentence(
                alloc,
                b"device",
                name,
                &[
                    Piece::Words(b"alias of "),
                    Piece::Field(b"of", of),
                    Piece::Words(b" that a device has"),
                ],
            ),
        }
    }
}
