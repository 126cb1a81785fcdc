//! What holds of the notes of every configuration.
ghost use Rattle.conf_lint.specs.Laws.{NotesAreOfLines};

/// Each note of a text is one of a line, if those before it are as they are, and each note of a line is one of the text.
pub fn notes_are_of_lines()
    ensures { NotesAreOfLines }
{}
