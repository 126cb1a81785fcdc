//! Which notes of a lint count for its status.
ghost use Rattle.std.specs.Prelude.{◌≡◌};
ghost use Rattle.std.specs.List.{list_any};
ghost use Rattle.gz_modprobe_drive.specs.Counted.{is_counted, is_noted};

use answer_facts::{Fact, because};
use machine_lint::Note;
use text_parts::is_same;

/// Whether a note counts. A command that keeps nothing out does no harm: it is there for other machines.
fn is_counted(strict: bool, note: &Note) -> bool
    ensures { result ≡ is_counted strict note.now }
{
    strict || !is_same(because(note.setting, &note.kind), b"keeps_nothing")
}

/// Whether one of the notes counts.
fn one_counts(strict: bool, notes: &[Note]) -> bool
    ensures { result ≡ list_any (is_counted strict) notes.now }
{
    notes.iter().any(|note| is_counted(strict, note))
}

/// Whether anything is told that counts, by the notes and all facts that are made of them and of files.
pub(crate) fn is_noted(strict: bool, notes: &[Note], facts: &[Fact<'_>]) -> bool
    ensures { result ≡ is_noted strict notes.now facts.now }
{
    one_counts(strict, notes) || notes.len() < facts.len()
}
