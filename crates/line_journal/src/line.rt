ghost use Rattle.std.specs.Prelude.{◌≡◌, ◌↔◌, true};
ghost use Rattle.line_journal.specs.Lines.{bytes_of, IsLine, AreLines};

use crate::reading::line_end;

/// Whether these bytes are a line: there is no newline among them.
pub fn is_line(bytes: &[u8]) -> bool
    ensures { result ≡ true ↔ IsLine bytes.now }
{
    line_end(bytes).is_none()
}

/// Whether each of them is a line.
pub fn are_lines(lines: &[Vec<u8>]) -> bool
    ensures { result ≡ true ↔ AreLines (bytes_of lines.now) }
{
    for line in lines {
        if !is_line(line) {
            return false;
        }
    }
    true
}
