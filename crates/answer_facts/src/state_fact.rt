//! What the kernel has of a module.
ghost use Rattle.std.specs.Prelude.{IfOk, ◌≡◌};
ghost use Rattle.answer_facts.specs.Pieces.{pieces_of};
ghost use Rattle.answer_facts.specs.Facts.{state_fact_pieces};
ghost use Rattle.answer_facts.specs.Words.{outcome_word, outcome_words};

use crate::piece::Piece;
use crate::sentence::sentence;
use std::alloc::{AllocError, Global};

/// What follows from what the kernel has.
#[derive(Clone, Copy)]
pub enum Outcome {
    /// That is not said.
    Silent,
    NothingLoaded,
    NotRemoved,
}

/// What the kernel has of a module.
#[derive(Clone, Copy)]
pub enum StateFact<'a> {
    /// It is loaded.
    Loaded(Outcome),
    /// It is built in.
    BuiltIn(Outcome),
    /// It is not loaded.
    NotLoaded,
    /// It has so many users.
    Users(u64),
    /// How many users it has is not known.
    UsersUnknown,
    /// It has so many users that are no modules.
    OtherUsers(u64),
    /// This module uses it.
    HeldBy(&'a [u8]),
}

impl Outcome {
    /// What is said of it.
    pub(crate) fn words(self) -> &'static [u8]
        ensures { result.now ≡ outcome_words self }
    {
        match self {
            Outcome::Silent => b"",
            Outcome::NothingLoaded => b", so nothing is loaded",
            Outcome::NotRemoved => b", so it is not removed",
        }
    }

    /// The value in JSON.
    pub(crate) fn word(self) -> &'static [u8]
        ensures { result.now ≡ outcome_word self }
    {
        match self {
            Outcome::Silent => b"",
            Outcome::NothingLoaded => b"nothing_loaded",
            Outcome::NotRemoved => b"not_removed",
        }
    }
}

impl<'a> StateFact<'a> {
    /// What is said.
    pub(crate) fn pieces(self, alloc: Global, whom: &'a [u8]) -> Result<Vec<Piece<'a>>, AllocError>
        ensures { IfOk result (λ pieces. pieces_of pieces.items ≡ state_fact_pieces whom.entry.now self.entry) }
    {
        let module = Piece::Field(b"module", whom);
        match self {
            StateFact::Loaded(outcome) => sentence(
                alloc,
                b"loaded",
                module,
                &[
                    Piece::Words(b"loaded already"),
                    Piece::Words(outcome.words()),
                    Piece::Tag(b"outcome", outcome.word()),
                ],
            ),
            StateFact::BuiltIn(outcome) => sentence(
                alloc,
                b"built_in",
                module,
                &[
                    Piece::Words(b"built in"),
                    Piece::Words(outcome.words()),
                    Piece::Tag(b"outcome", outcome.word()),
                ],
            ),
            StateFact::NotLoaded => sentence(
                alloc,
                b"not_loaded",
                module,
                &[Piece::Words(b"not loaded")],
            ),
            StateFact::Users(count) => sentence(
                alloc,
                b"users",
                module,
                &[
                    Piece::Words(b"its count of users is "),
                    Piece::Number(b"count", count),
                ],
            ),
            StateFact::UsersUnknown => sentence(
                alloc,
                b"users_unknown",
                module,
                &[Piece::Words(b"its count of users is not known")],
            ),
            StateFact::OtherUsers(count) => sentence(
                alloc,
                b"other_users",
                module,
                &[
                    Piece::Words(b"its count of users that are no modules is "),
                    Piece::Number(b"count", count),
                ],
            ),
            StateFact::HeldBy(by) => sentence(
                alloc,
                b"held_by",
                module,
                &[Piece::Words(b"held by "), Piece::Field(b"by", by)],
            ),
        }
    }
}
