//! What becomes of a module in a removal.
ghost use Rattle.std.specs.Prelude.{IfOk, ◌≡◌};
ghost use Rattle.answer_facts.specs.Pieces.{pieces_of};
ghost use Rattle.answer_facts.specs.Facts.{removal_fact_pieces};
ghost use Rattle.answer_facts.specs.Words.{shows_word, shows_words};

use crate::piece::Piece;
use crate::sentence::sentence;
use std::alloc::{AllocError, Global};

/// Which dry run shows a removal.
#[derive(Clone, Copy)]
pub enum Shows {
    Each,
    /// Only one with `--whole`.
    WholeAlone,
}

/// What becomes of a module in a removal.
#[derive(Clone, Copy)]
pub enum RemovalFact<'a> {
    /// It is removed too, since nothing uses it.
    Unused,
    /// It is removed too once this module is gone, as a dry run shows or only a whole one.
    Freed { after: &'a [u8], shown: Shows },
    /// Nothing uses it once those are gone that were removed before.
    Free,
    /// It was removed before.
    Gone,
    /// It stays, and ends the removal.
    Ends,
    /// It is left out, since this module is not removed.
    LeftOut(&'a [u8]),
}

impl Shows {
    /// What is said of it.
    pub(crate) fn words(self) -> &'static [u8]
        ensures { result.now ≡ shows_words self }
    {
        match self {
            Shows::Each => b"",
            Shows::WholeAlone => b", which only --whole shows",
        }
    }

    /// The value in JSON.
    pub(crate) fn word(self) -> &'static [u8]
        ensures { result.now ≡ shows_word self }
    {
        match self {
            Shows::Each => b"",
            Shows::WholeAlone => b"whole",
        }
    }
}

impl<'a> RemovalFact<'a> {
    /// What is said.
    pub(crate) fn pieces(self, alloc: Global, whom: &'a [u8]) -> Result<Vec<Piece<'a>>, AllocError>
        ensures { IfOk result (λ pieces. pieces_of pieces.items ≡ removal_fact_pieces whom.entry.now self.entry) }
    {
        let module = Piece::Field(b"module", whom);
        match self {
            RemovalFact::Unused => sentence(
                alloc,
                b"unused",
                module,
                &[
                    Piece::Words(b"nothing uses it, so it is removed too"),
                    Piece::Tag(b"outcome", b"removed"),
                ],
            ),
            RemovalFact::Freed { after, shown } => sentence(
                alloc,
                b"unused",
                module,
                &[
                    Piece::Words(b"nothing uses it once "),
                    Piece::Field(b"after", after),
                    Piece::Words(b" is gone, so it is removed too"),
                    Piece::Words(shown.words()),
                    Piece::Tag(b"outcome", b"removed"),
                    Piece::Tag(b"shown_by", shown.word()),
                ],
            ),
            RemovalFact::Free => sentence(
                alloc,
                b"free",
                module,
                &[Piece::Words(b"nothing uses it by then")],
            ),
            RemovalFact::Gone => sentence(alloc, b"gone", module, &[Piece::Words(b"gone by then")]),
            RemovalFact::Ends => sentence(
                alloc,
                b"removal_ends",
                module,
                &[Piece::Words(b"not removed, so the removal ends")],
            ),
            RemovalFact::LeftOut(refused) => sentence(
                alloc,
                b"left_out",
                module,
                &[
                    Piece::Words(b"not asked for, since "),
                    Piece::Field(b"refused", refused),
                    Piece::Words(b" is not removed"),
                ],
            ),
        }
    }
}
