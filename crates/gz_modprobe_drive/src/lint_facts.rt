//! What a lint tells, as facts.
ghost use Rattle.std.specs.Prelude.{◌≡◌, ◌++◌, map, IfOk, OnOk};
ghost use Rattle.answer_facts.specs.Facts.{pieces_of_fact, pieces_of_facts};
ghost use Rattle.gz_modprobe_drive.specs.LintFacts.{counting_path, lint_pieces, pieces_of_note};

use crate::masks::add_unmasked;
use answer_facts::{Fact, NoteFact, Spot, What, counting_place};
use answer_reasons::{UnreadFile, add_unread};
use kmod_names::Place;
use lint_ignores::Ignore;
use machine_lint::Note;
use modprobe_files::ConfTexts;
use std::alloc::{AllocError, Global};

/// The file of a line that counts in place of another one; empty if none does.
fn counting_path(texts: &ConfTexts, place: Option<Place>) -> &[u8]
    ensures { result.now ≡ counting_path texts.entry.now place }
{
    match place {
        Some(place) => texts.path(place.source),
        None => b"",
    }
}

#[tactic(auto, unfolding(crate::specs::LintFacts::pieces_of_note))]
fn fact_of_note<'a>(texts: &'a ConfTexts, note: &'a Note) -> Fact<'a>
    ensures { pieces_of_fact result ≡ pieces_of_note texts.entry.now note.entry.now }
{
    Fact {
        whom: texts.path(note.place.source),
        what: What::Note(NoteFact {
            note,
            other: counting_path(texts, counting_place(&note.kind)),
        }),
        spot: Spot::Nowhere,
    }
}

fn add_notes<'a>(
    texts: &'a ConfTexts,
    notes: &'a [Note],
    facts: &mut Vec<Fact<'a>>,
) -> Result<(), AllocError>
    ensures { OnOk result (pieces_of_facts facts.new.items ≡ pieces_of_facts facts.old.items ++ map (pieces_of_note texts.entry.now) notes.entry.now) }
{
    'notes: for note in notes {
        facts.push(fact_of_note(texts, note))?;
    }
    Ok(())
}

/// What a lint of a configuration tells: a fact for each note, and then for each file that is not read, unless it is masked or
/// ignored. It fails only if memory runs out.
pub(crate) fn lint_facts<'a>(
    alloc: Global,
    texts: &'a ConfTexts,
    ignores: &[Ignore],
    notes: &'a [Note],
    unread: &'a [UnreadFile],
) -> Result<Vec<Fact<'a>>, AllocError>
    ensures { IfOk result (λ facts. pieces_of_facts facts.items ≡ lint_pieces texts.entry.now ignores.now notes.entry.now unread.entry.now) }
{
    let mut facts = Vec::new(alloc);
    add_notes(texts, notes, &mut facts)?;
    add_unmasked(texts, ignores, &mut facts)?;
    add_unread(unread, &mut facts)?;
    Ok(facts)
}
