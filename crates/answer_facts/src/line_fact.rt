//! Lines of the configuration that count for a module, or are passed over.
ghost use Rattle.std.specs.Prelude.{IfOk, ◌≡◌};
ghost use Rattle.answer_facts.specs.Pieces.{pieces_of};
ghost use Rattle.answer_facts.specs.Facts.{line_fact_pieces};
ghost use Rattle.answer_facts.specs.Words.{command_named, command_word, passed_word, passed_words};

use crate::piece::Piece;
use crate::sentence::sentence;
use std::alloc::{AllocError, Global};

/// Which command a line has.
#[derive(Clone, Copy)]
pub enum Command {
    Install,
    Remove,
}

/// Whether a line is passed over, and why.
#[derive(Clone, Copy)]
pub enum Passed {
    /// It counts.
    Never,
    /// By `-i`.
    ByOption,
    /// Since its module has soft items.
    BySoftItems,
}

/// A line of the configuration that counts for a module, or is passed over.
#[derive(Clone, Copy)]
pub enum LineFact<'a> {
    /// Its options.
    Options(&'a [u8]),
    /// Options of the alias by which it came.
    AliasOptions {
        text: &'a [u8],
        alias: &'a [u8],
    },
    /// A command in its place.
    Command {
        command: Command,
        text: &'a [u8],
        passed: Passed,
    },
    /// Its soft items, which `-i` passes over.
    Softdep,
}

impl Command {
    /// The first word of its lines.
    pub(crate) fn word(self) -> &'static [u8]
        ensures { result.now ≡ command_word self }
    {
        match self {
            Command::Install => b"install",
            Command::Remove => b"remove",
        }
    }

    /// What is said of the very name of such a line.
    pub(crate) fn named(self) -> &'static [u8]
        ensures { result.now ≡ command_named self }
    {
        match self {
            Command::Install => b"name of an install line",
            Command::Remove => b"name of a remove line",
        }
    }
}

impl Passed {
    /// What is said after its command.
    pub(crate) fn words(self) -> &'static [u8]
        ensures { result.now ≡ passed_words self }
    {
        match self {
            Passed::Never => b"",
            Passed::ByOption => b", passed over by -i",
            Passed::BySoftItems => b", passed over since it has soft dependencies",
        }
    }

    /// The value in JSON.
    pub(crate) fn word(self) -> &'static [u8]
        ensures { result.now ≡ passed_word self }
    {
        match self {
            Passed::Never => b"",
            Passed::ByOption => b"option",
            Passed::BySoftItems => b"soft_items",
        }
    }
}

impl<'a> LineFact<'a> {
    /// What is said.
    pub(crate) fn pieces(self, alloc: Global, whom: &'a [u8]) -> Result<Vec<Piece<'a>>, AllocError>
        ensures { IfOk result (λ pieces. pieces_of pieces.items ≡ line_fact_pieces whom.entry.now self.entry) }
    {
        let module = Piece::Field(b"module", whom);
        match self {
            LineFact::Options(text) => sentence(
                alloc,
                b"options",
                module,
                &[Piece::Words(b"options "), Piece::Field(b"options", text)],
            ),
            LineFact::AliasOptions { text, alias } => sentence(
                alloc,
                b"options",
                module,
                &[
                    Piece::Words(b"options "),
                    Piece::Field(b"options", text),
                    Piece::Words(b", of the alias "),
                    Piece::Field(b"alias", alias),
                ],
            ),
            LineFact::Command {
                command,
                text,
                passed,
            } => sentence(
                alloc,
                b"command",
                module,
                &[
                    Piece::Words(command.word()),
                    Piece::Words(b" "),
                    Piece::Field(b"command", text),
                    Piece::Words(passed.words()),
                    Piece::Tag(b"setting", command.word()),
                    Piece::Tag(b"passed_over", passed.word()),
                ],
            ),
            LineFact::Softdep => sentence(
                alloc,
                b"softdep_line",
                module,
                &[
                    Piece::Words(b"softdep, passed over by -i"),
                    Piece::Tag(b"passed_over", b"option"),
                ],
            ),
        }
    }
}
