//! Files of the configuration.
ghost use Rattle.std.specs.Prelude.{IfOk, ◌≡◌};
ghost use Rattle.answer_facts.specs.Pieces.{pieces_of};
ghost use Rattle.answer_facts.specs.Facts.{file_fact_pieces};
ghost use Rattle.answer_facts.specs.Words.{unread_why, unread_word};

use crate::piece::Piece;
use crate::sentence::sentence;
use std::alloc::{AllocError, Global};

/// Why a file is not read (modprobe.d(5)).
#[derive(Clone, Copy)]
pub enum Unread {
    /// Its name begins with a dot.
    Dotted,
    /// Its name ends otherwise than those that are read.
    OtherEnding,
    /// It is a folder within a folder.
    Folder,
    /// It is a link that leads to nothing, or to what cannot be seen.
    LeadsNowhere,
    /// It lies in no folder of the configuration.
    Outside,
}

/// What is so of a file of the configuration.
#[derive(Clone, Copy)]
pub enum FileFact<'a> {
    /// It is not read, since this file of its name comes first.
    Hidden(&'a [u8]),
    /// It is not read.
    Unread(Unread),
    /// Its lines end with a carriage return.
    CarriageReturn,
}

impl Unread {
    /// What is said after `not read, `.
    pub fn why(self) -> &'static [u8]
        ensures { result.now ≡ unread_why self }
    {
        match self {
            Unread::Dotted => b"since its name begins with a dot",
            Unread::OtherEnding => b"since its name does not end in .conf",
            Unread::Folder => b"since it is a folder within a folder",
            Unread::LeadsNowhere => b"since it is a link that leads to nothing",
            Unread::Outside => b"since it lies in no folder modprobe.d",
        }
    }

    /// The value in JSON.
    pub fn word(self) -> &'static [u8]
        ensures { result.now ≡ unread_word self }
    {
        match self {
            Unread::Dotted => b"dotted",
            Unread::OtherEnding => b"ending",
            Unread::Folder => b"folder",
            Unread::LeadsNowhere => b"dangling",
            Unread::Outside => b"outside",
        }
    }
}

impl<'a> FileFact<'a> {
    /// What is said.
    pub(crate) fn pieces(self, alloc: Global, whom: &'a [u8]) -> Result<Vec<Piece<'a>>, AllocError>
        ensures { IfOk result (λ pieces. pieces_of pieces.items ≡ file_fact_pieces whom.entry.now self.entry) }
    {
        let file = Piece::Field(b"file", whom);
        match self {
            FileFact::Hidden(by) => sentence(
                alloc,
                b"not_read",
                file,
                &[
                    Piece::Words(b"not read, since a file of its name comes first ("),
                    Piece::Field(b"by", by),
                    Piece::Words(b")"),
                    Piece::Tag(b"because", b"hidden"),
                ],
            ),
            FileFact::Unread(reason) => sentence(
                alloc,
                b"not_read",
                file,
                &[
                    Piece::Words(b"not read, "),
                    Piece::Words(reason.why()),
                    Piece::Tag(b"because", reason.word()),
                ],
            ),
            FileFact::CarriageReturn => sentence(
                alloc,
                b"carriage_return",
                Piece::Words(whom),
                &[Piece::Words(b"a CR ends its lines, and counts as part of their last words")],
            ),
        }
    }
}
