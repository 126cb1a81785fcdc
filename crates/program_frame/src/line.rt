//! A line of an input, as an explanation looks at it.
ghost use Rattle.std.specs.Prelude.{◌≡◌, [], unwrap_or};
ghost use Rattle.std.specs.List.{find, slice_split};
ghost use Rattle.text_parts.specs.Text.{is_blank, is_filled};

use text_parts::is_blank;

/// The first word of a line, between blanks and tabs; empty if it has none.
pub fn first_word(line: &[u8]) -> &[u8]
    ensures { result.now ≡ unwrap_or (find is_filled (slice_split is_blank line.now)) [] }
{
    let mut parts = line.split(|byte| is_blank(*byte));
    parts.find(|part| !part.is_empty()).unwrap_or(b"")
}
