//! What holds of the lines of reports, and of texts in pictures.
ghost use Rattle.timeline_drive.specs.Escapes.{EscapesMarks};
ghost use Rattle.timeline_drive.specs.Texts.{ReadsBack};

/// The text of a call whose numbers and name are in range, read again, is that call.
pub fn reads_back()
    ensures { ReadsBack }
{}

/// A text of any bytes that is written into an SVG has no `<`, no `>` and no quote there.
pub fn escapes_marks()
    ensures { EscapesMarks }
{}
