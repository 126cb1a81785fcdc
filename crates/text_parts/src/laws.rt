//! What holds of the lines of every text. The function does nothing and is there for its contract.
ghost use Rattle.text_parts.specs.TextLaws.{LinesHaveTexts};

/// The lines of a text with their ends have the texts of std's lines.
pub fn lines_have_texts()
    ensures { LinesHaveTexts }
{}
