//! What holds of writing and reading lines.
ghost use Rattle.proc_modules.specs.Laws.{ReadsBack};

/// The text of a line whose names and numbers are in range, read again, is that line and its length, whatever
/// follows its line end.
pub fn reads_back()
    ensures { ReadsBack }
{}
