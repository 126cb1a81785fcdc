//! Facts of which an explanation or a lint consists.
ghost use Rattle.std.specs.Prelude.{◌≡◌, IfOk};
ghost use Rattle.answer_facts.specs.Facts.{pieces_of_fact, what_pieces};
ghost use Rattle.answer_facts.specs.Pieces.{pieces_of};

use crate::change_fact::ChangeFact;
use crate::file_fact::FileFact;
use crate::idle_fact::IdleFact;
use crate::lead_fact::LeadFact;
use crate::line_fact::LineFact;
use crate::missing_fact::MissingFact;
use crate::module_fact::ModuleFact;
use crate::name_fact::NameFact;
use crate::note_fact::NoteFact;
use crate::piece::Piece;
use crate::removal_fact::RemovalFact;
use crate::spot::Spot;
use crate::state_fact::StateFact;
use std::alloc::{AllocError, Global};

/// What is said of somebody.
#[derive(Clone, Copy)]
pub enum What<'a> {
    Name(NameFact<'a>),
    Missing(MissingFact<'a>),
    Lead(LeadFact<'a>),
    Idle(IdleFact<'a>),
    Module(ModuleFact<'a>),
    Line(LineFact<'a>),
    State(StateFact<'a>),
    Removal(RemovalFact<'a>),
    File(FileFact<'a>),
    Note(NoteFact<'a>),
    Change(ChangeFact<'a>),
}

/// A fact: of whom something is said, what, and where that stands.
#[derive(Clone, Copy)]
pub struct Fact<'a> {
    /// A module, a name or a file.
    pub whom: &'a [u8],
    pub what: What<'a>,
    pub spot: Spot<'a>,
}

impl<'a> What<'a> {
    fn pieces(self, alloc: Global, whom: &'a [u8]) -> Result<Vec<Piece<'a>>, AllocError>
        ensures { IfOk result (λ pieces. pieces_of pieces.items ≡ what_pieces whom.entry.now self.entry) }
    {
        match self {
            What::Name(fact) => fact.pieces(alloc, whom),
            What::Missing(fact) => fact.pieces(alloc, whom),
            What::Lead(fact) => fact.pieces(alloc, whom),
            What::Idle(fact) => fact.pieces(alloc, whom),
            What::Module(fact) => fact.pieces(alloc, whom),
            What::Line(fact) => fact.pieces(alloc, whom),
            What::State(fact) => fact.pieces(alloc, whom),
            What::Removal(fact) => fact.pieces(alloc, whom),
            What::File(fact) => fact.pieces(alloc, whom),
            What::Note(fact) => fact.pieces(alloc, whom),
            What::Change(fact) => fact.pieces(alloc, whom),
        }
    }
}

impl<'a> Fact<'a> {
    /// The parts of its line.
    pub(crate) fn pieces(self, alloc: Global) -> Result<Vec<Piece<'a>>, AllocError>
        ensures { IfOk result (λ pieces. pieces_of pieces.items ≡ pieces_of_fact self.entry) }
    {
        let mut pieces = self.what.pieces(alloc, self.whom)?;
        self.spot.push_to(&mut pieces)?;
        Ok(pieces)
    }
}
