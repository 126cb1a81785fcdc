//! What holds of each note.
ghost use Rattle.lint_ignores.specs.Laws.{EachHasAKind};

/// The word that a note has in JSON is a kind, by which it can be ignored.
pub fn each_has_a_kind()
    ensures { EachHasAKind }
{}
