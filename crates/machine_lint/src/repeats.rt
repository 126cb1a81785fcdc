//! Lines that stand twice in a file.
ghost use Rattle.std.specs.Prelude.{◌≡◌, option_copied};
ghost use Rattle.std.specs.List.{find};
ghost use Rattle.machine_lint.specs.Notes.{is_repeat_of};

use crate::line::Line;
use text_parts::is_same;

/// Whether another line stands before a line in its file, and says the same.
fn is_repeat_of(line: &Line, other: &Line) -> bool
    ensures { result ≡ is_repeat_of line.now other.now }
{
    let (here, there) = (line.place(), other.place());
    other.setting().number() == line.setting().number()
        && there.source == here.source
        && there.line < here.line
        && is_same(other.name(), line.name())
        && is_same(other.text(), line.text())
}

/// The first line before a line in its file that says the same.
pub(crate) fn first_same<'a>(lines: &'a [Line], line: &Line) -> Option<&'a Line>
    ensures { option_copied result ≡ find (is_repeat_of line.now) lines.entry.now }
{
    lines.iter().find(|other| is_repeat_of(line, other))
}
