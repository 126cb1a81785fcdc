//! What holds of the notes of every machine.
ghost use Rattle.machine_lint.specs.Laws.{NotesAreOfLines};

/// Each note has the place, the setting and the name of a line of the configuration that depmod did not write.
pub fn notes_are_of_lines()
    ensures { NotesAreOfLines }
{}
