//! The notes that are left.
ghost use Rattle.std.specs.Prelude.{◌≡◌};
ghost use Rattle.std.specs.List.{list_any};
ghost use Rattle.text_parts.specs.Text.{texts_of};
ghost use Rattle.lint_ignores.specs.Ignores.{is_file_left, left_notes, names_file, names_note};

use crate::ignore::Ignore;
use machine_lint::Note;

fn is_named(paths: &[&[u8]], ignores: &[Ignore], note: &Note) -> bool
    ensures { result ≡ list_any (names_note (texts_of paths.now) note.now) ignores.now }
{
    ignores.iter().any(|ignore| ignore.names_note(paths, note))
}

/// The notes that no ignore names, in their order. `paths` are those of the texts of the configuration, by their numbers.
pub fn left_notes(paths: &[&[u8]], ignores: &[Ignore], notes: Vec<Note>) -> Vec<Note>
    ensures { result.items ≡ left_notes (texts_of paths.now) ignores.now notes.items }
{
    let mut notes = notes;
    notes.retain(|note| !is_named(paths, ignores, note));
    notes
}

fn is_file_named(ignores: &[Ignore], path: &[u8], reason: &[u8]) -> bool
    ensures { result ≡ list_any (names_file path.now reason.now) ignores.now }
{
    ignores.iter().any(|ignore| ignore.names_file(path, reason))
}

/// Whether no ignore names a file that is not read for this reason, which is the word that it has in JSON.
pub fn is_file_left(ignores: &[Ignore], path: &[u8], reason: &[u8]) -> bool
    ensures { result ≡ is_file_left ignores.now path.now reason.now }
{
    !is_file_named(ignores, path, reason)
}
