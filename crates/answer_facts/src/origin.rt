//! Of which machine something is said.
ghost use Rattle.std.specs.Prelude.{◌≡◌, ◌++◌, OnOk};
ghost use Rattle.answer_facts.specs.Pieces.{pieces_of};
ghost use Rattle.answer_facts.specs.Plan.{origin_pieces};

use crate::piece::Piece;
use std::alloc::AllocError;

/// Of which machine something is said.
#[derive(Clone, Copy)]
pub struct Origin<'a> {
    /// The folder that stands for `/`. It is empty for the machine itself.
    pub root: &'a [u8],
    /// The kernel's release.
    pub release: &'a [u8],
}

impl<'a> Origin<'a> {
    /// Adds it to what is said.
    pub(crate) fn push_to(self, pieces: &mut Vec<Piece<'a>>) -> Result<(), AllocError>
        ensures { OnOk result (pieces_of pieces.new.items ≡ pieces_of pieces.old.items ++ origin_pieces self.entry) }
    {
        pieces.extend_from_slice(&[
            Piece::Field(b"release", self.release),
            Piece::Tag(b"root", self.root),
        ])
    }
}
