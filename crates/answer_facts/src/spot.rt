//! Where something stands.
ghost use Rattle.std.specs.Prelude.{◌≡◌, ◌++◌, OnOk};
ghost use Rattle.answer_facts.specs.Pieces.{pieces_of};
ghost use Rattle.answer_facts.specs.Facts.{spot_pieces};

use crate::piece::Piece;
use std::alloc::AllocError;

/// Where something stands.
#[derive(Clone, Copy)]
pub enum Spot<'a> {
    /// A line of a file.
    Line(&'a [u8], u64),
    /// An entry of a file whose entries end with a NUL.
    Entry(&'a [u8], u64),
    /// A file or a folder.
    Whole(&'a [u8]),
    /// It stands in no file.
    Nowhere,
}

impl<'a> Spot<'a> {
    /// Adds where it is.
    pub(crate) fn push_to(self, pieces: &mut Vec<Piece<'a>>) -> Result<(), AllocError>
        ensures { OnOk result (pieces_of pieces.new.items ≡ pieces_of pieces.old.items ++ spot_pieces self.entry) }
    {
        match self {
            Spot::Line(file, line) => pieces.extend_from_slice(&[
                Piece::Words(b" ("),
                Piece::Field(b"file", file),
                Piece::Words(b" line "),
                Piece::Number(b"line", line),
                Piece::Words(b")"),
            ]),
            Spot::Entry(file, entry) => pieces.extend_from_slice(&[
                Piece::Words(b" ("),
                Piece::Field(b"file", file),
                Piece::Words(b" entry "),
                Piece::Number(b"entry", entry),
                Piece::Words(b")"),
            ]),
            Spot::Whole(file) => pieces.extend_from_slice(&[
                Piece::Words(b" ("),
                Piece::Field(b"file", file),
                Piece::Words(b")"),
            ]),
            Spot::Nowhere => Ok(()),
        }
    }
}
