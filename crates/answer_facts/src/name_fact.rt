//! What a name stands for.
ghost use Rattle.std.specs.Prelude.{IfOk, ◌≡◌};
ghost use Rattle.answer_facts.specs.Pieces.{pieces_of};
ghost use Rattle.answer_facts.specs.Facts.{name_fact_pieces};

use crate::line_fact::Command;
use crate::piece::Piece;
use crate::sentence::sentence;
use std::alloc::{AllocError, Global};

/// What a name stands for.
#[derive(Clone, Copy)]
pub enum NameFact<'a> {
    /// A module, by this line of modules.dep.
    Module(&'a [u8]),
    /// An alias of this, by a line that has this pattern.
    Alias { of: &'a [u8], pattern: &'a [u8] },
    /// The same, of a module that is built in.
    BuiltInAlias { of: &'a [u8], pattern: &'a [u8] },
    /// A symbol that this module exports.
    Exported(&'a [u8]),
    /// The very name of a line with a command.
    Named(Command),
    /// A module that is built in.
    BuiltIn,
    /// The file of this module.
    File(&'a [u8]),
    /// It is not asked for, since what has this name is not removed.
    LeftOut(&'a [u8]),
}

impl<'a> NameFact<'a> {
    /// What is said.
    pub(crate) fn pieces(self, alloc: Global, whom: &'a [u8]) -> Result<Vec<Piece<'a>>, AllocError>
        ensures { IfOk result (λ pieces. pieces_of pieces.items ≡ name_fact_pieces whom.entry.now self.entry) }
    {
        let name = Piece::Field(b"name", whom);
        match self {
            NameFact::Module(path) => sentence(
                alloc,
                b"module",
                name,
                &[Piece::Words(b"module "), Piece::Field(b"path", path)],
            ),
            NameFact::Alias { of, pattern } => sentence(
                alloc,
                b"alias",
                name,
                &[
                    Piece::Words(b"alias of "),
                    Piece::Field(b"of", of),
                    Piece::Words(b", as "),
                    Piece::Field(b"pattern", pattern),
                ],
            ),
            NameFact::BuiltInAlias { of, pattern } => sentence(
                alloc,
                b"alias",
                name,
                &[
                    Piece::Words(b"alias of the built-in "),
                    Piece::Field(b"of", of),
                    Piece::Words(b", as "),
                    Piece::Field(b"pattern", pattern),
                    Piece::Flag(b"built_in", true),
                ],
            ),
            NameFact::Exported(by) => sentence(
                alloc,
                b"symbol",
                name,
                &[Piece::Words(b"exported by "), Piece::Field(b"by", by)],
            ),
            NameFact::Named(command) => sentence(
                alloc,
                b"command_name",
                name,
                &[
                    Piece::Words(command.named()),
                    Piece::Tag(b"setting", command.word()),
                ],
            ),
            NameFact::BuiltIn => sentence(alloc, b"built_in", name, &[Piece::Words(b"built in")]),
            NameFact::File(of) => sentence(
                alloc,
                b"path",
                name,
                &[Piece::Words(b"the file of "), Piece::Field(b"of", of)],
            ),
            NameFact::LeftOut(refused) => sentence(
                alloc,
                b"left_out",
                name,
                &[
                    Piece::Words(b"not asked for, since "),
                    Piece::Field(b"refused", refused),
                    Piece::Words(b" is not removed"),
                ],
            ),
        }
    }
}
