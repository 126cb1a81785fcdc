//! What leads to a module, or keeps it away.
ghost use Rattle.std.specs.Prelude.{IfOk, ◌≡◌};
ghost use Rattle.answer_facts.specs.Pieces.{pieces_of};
ghost use Rattle.answer_facts.specs.Facts.{module_fact_pieces};

use crate::blacklist::Blacklist;
use crate::piece::Piece;
use crate::sentence::sentence;
use std::alloc::{AllocError, Global};

/// What leads to a module, or keeps it away.
#[derive(Clone, Copy)]
pub enum ModuleFact<'a> {
    /// This module needs it, by itself or through these.
    NeededBy {
        by: &'a [u8],
        through: &'a [&'a [u8]],
    },
    /// It needs this module.
    Needs {
        needs: &'a [u8],
        through: &'a [&'a [u8]],
    },
    /// A blacklist line has its name.
    Blacklisted(Blacklist),
    /// A blacklist line has its name with `-` for `_`.
    Misspelt(&'a [u8]),
    /// The kernel refuses it.
    KernelRefuses,
    /// No module has this name.
    NoModule,
    /// No module has this name, by which an alias is switched off.
    SwitchedOff,
}

impl<'a> ModuleFact<'a> {
    /// What is said.
    pub(crate) fn pieces(self, alloc: Global, whom: &'a [u8]) -> Result<Vec<Piece<'a>>, AllocError>
        ensures { IfOk result (λ pieces. pieces_of pieces.items ≡ module_fact_pieces whom.entry.now self.entry) }
    {
        let module = Piece::Field(b"module", whom);
        match self {
            ModuleFact::NeededBy { by, through } => sentence(
                alloc,
                b"needed_by",
                module,
                &[
                    Piece::Words(b"needed by "),
                    Piece::Field(b"by", by),
                    Piece::Through(through),
                ],
            ),
            ModuleFact::Needs { needs, through } => sentence(
                alloc,
                b"needs",
                module,
                &[
                    Piece::Words(b"needs "),
                    Piece::Field(b"needs", needs),
                    Piece::Through(through),
                ],
            ),
            ModuleFact::Blacklisted(effect) => sentence(
                alloc,
                b"blacklisted",
                module,
                &[
                    Piece::Words(b"blacklisted"),
                    Piece::Words(effect.words()),
                    Piece::Tag(b"passed_over", effect.passed_over()),
                    Piece::Tag(b"outcome", effect.outcome()),
                ],
            ),
            ModuleFact::Misspelt(written) => sentence(
                alloc,
                b"blacklisted",
                module,
                &[
                    Piece::Words(b"blacklisted as "),
                    Piece::Field(b"as", written),
                    Piece::Words(b", which does not hold: only "),
                    Piece::Words(whom),
                    Piece::Words(b" would"),
                    Piece::Tag(b"passed_over", b"hyphen"),
                ],
            ),
            ModuleFact::KernelRefuses => sentence(
                alloc,
                b"module_blacklist",
                module,
                &[
                    Piece::Words(b"in module_blacklist=, so the kernel refuses it"),
                    Piece::Tag(b"outcome", b"refused"),
                ],
            ),
            ModuleFact::NoModule => sentence(
                alloc,
                b"no_module",
                module,
                &[Piece::Words(b"no module has this name")],
            ),
            ModuleFact::SwitchedOff => sentence(
                alloc,
                b"no_module",
                module,
                &[
                    Piece::Words(b"no module has this name, so its alias is switched off"),
                    Piece::Tag(b"outcome", b"switched_off"),
                ],
            ),
        }
    }
}
