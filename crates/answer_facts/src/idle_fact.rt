//! Lines without effect.
ghost use Rattle.std.specs.Prelude.{IfOk, ◌≡◌};
ghost use Rattle.answer_facts.specs.Pieces.{pieces_of};
ghost use Rattle.answer_facts.specs.Facts.{idle_fact_pieces};
ghost use Rattle.answer_facts.specs.Words.{setting_unknown, setting_word};

use crate::piece::Piece;
use crate::sentence::sentence;
use std::alloc::{AllocError, Global};

/// Of which kind a line of the configuration is.
#[derive(Clone, Copy)]
pub enum Setting {
    Blacklist,
    Options,
    Install,
    Remove,
    Softdep,
}

/// That a line of a name has no effect.
#[derive(Clone, Copy)]
pub enum IdleFact<'a> {
    /// An alias of what no module is.
    Alias(&'a [u8]),
    /// A line whose name nothing has.
    Unknown(Setting),
    /// A line that does not count, since another one of its kind and name comes first.
    Later(Setting),
    /// A blacklist line of an alias.
    BlacklistedAlias,
}

impl Setting {
    /// The first word of its lines.
    pub(crate) fn word(self) -> &'static [u8]
        ensures { result.now ≡ setting_word self }
    {
        match self {
            Setting::Blacklist => b"blacklist",
            Setting::Options => b"options",
            Setting::Install => b"install",
            Setting::Remove => b"remove",
            Setting::Softdep => b"softdep",
        }
    }

    /// What is said if nothing has its name.
    pub(crate) fn unknown(self) -> &'static [u8]
        ensures { result.now ≡ setting_unknown self }
    {
        match self {
            Setting::Blacklist => b"blacklisted, but no module has this name",
            Setting::Options => b"options, but no module or alias has this name",
            Setting::Install => b"install, but no module has this name",
            Setting::Remove => b"remove, but no module has this name",
            Setting::Softdep => b"softdep, but no module has this name",
        }
    }
}

impl<'a> IdleFact<'a> {
    /// What is said.
    pub(crate) fn pieces(self, alloc: Global, whom: &'a [u8]) -> Result<Vec<Piece<'a>>, AllocError>
        ensures { IfOk result (λ pieces. pieces_of pieces.items ≡ idle_fact_pieces whom.entry.now self.entry) }
    {
        let name = Piece::Field(b"name", whom);
        match self {
            IdleFact::Alias(of) => sentence(
                alloc,
                b"no_effect",
                name,
                &[
                    Piece::Words(b"alias of "),
                    Piece::Field(b"of", of),
                    Piece::Words(b", but no module has that name"),
                    Piece::Tag(b"setting", b"alias"),
                    Piece::Tag(b"because", b"unknown"),
                ],
            ),
            IdleFact::Unknown(setting) => sentence(
                alloc,
                b"no_effect",
                name,
                &[
                    Piece::Words(setting.unknown()),
                    Piece::Tag(b"setting", setting.word()),
                    Piece::Tag(b"because", b"unknown"),
                ],
            ),
            IdleFact::Later(setting) => sentence(
                alloc,
                b"no_effect",
                name,
                &[
                    Piece::Words(setting.word()),
                    Piece::Words(b" line does not count, since another comes first"),
                    Piece::Tag(b"setting", setting.word()),
                    Piece::Tag(b"because", b"later"),
                ],
            ),
            IdleFact::BlacklistedAlias => sentence(
                alloc,
                b"blacklisted",
                name,
                &[
                    Piece::Words(b"blacklisted, which does not hold for an alias"),
                    Piece::Tag(b"passed_over", b"alias"),
                ],
            ),
        }
    }
}
