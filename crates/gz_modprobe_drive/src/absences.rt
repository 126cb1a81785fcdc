//! What is said of a machine only since something is not there. Where a text is missing or damaged nobody can know that.
ghost use Rattle.std.specs.Prelude.{◌≡◌};
ghost use Rattle.gz_modprobe_drive.specs.Absences.{certain_notes, is_of_absence};

use answer_facts::{Fact, MissingFact, What};
use machine_lint::{Note, NoteKind};
use std::alloc::{AllocError, Global};

/// Whether a note may be there only since a text of the folder of modules lacks something.
fn is_of_absence(kind: &NoteKind) -> bool
    ensures { result ≡ is_of_absence kind.now }
{
    matches!(
        kind,
        NoteKind::Unknown
            | NoteKind::Pattern
            | NoteKind::BuiltIn
            | NoteKind::AliasName
            | NoteKind::UnknownModule(_)
            | NoteKind::UnknownItem(_)
            | NoteKind::Stopped(_)
            | NoteKind::OtherText(_)
    )
}

/// The notes that hold whatever the texts of the folder of modules lack, or all of them if these are whole.
pub(crate) fn certain_notes(is_whole: bool, notes: Vec<Note>) -> Vec<Note>
    ensures { result.items ≡ certain_notes is_whole notes.items }
{
    let mut notes = notes;
    if !is_whole {
        notes.retain(|note| !is_of_absence(&note.kind));
    }
    notes
}

fn is_not_found(fact: Fact<'_>) -> bool {
    matches!(fact.what, What::Missing(MissingFact::NotFound))
}

/// The facts that hold whatever the texts of the folder of modules lack, or all of them if these are whole. It fails only if
/// memory runs out.
pub(crate) fn certain_facts<'a>(
    alloc: Global,
    is_whole: bool,
    facts: &[Fact<'a>],
) -> Result<Vec<Fact<'a>>, AllocError> {
    let mut certain = Vec::new(alloc);
    for fact in facts {
        if is_whole || !is_not_found(*fact) {
            certain.push(*fact)?;
        }
    }
    Ok(certain)
}
