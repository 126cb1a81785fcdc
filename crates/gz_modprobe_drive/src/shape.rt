//! What standard output gets of an answer.
ghost use Rattle.std.specs.Prelude.{◌≡◌};
ghost use Rattle.gz_modprobe_drive.specs.Shapes.{shape_of};

use modprobe_words::Switches;

/// What standard output gets of an answer.
#[derive(Clone, Copy)]
pub(crate) enum Shape {
    /// Its lines.
    Lines,
    /// Each line as an object, and then facts.
    Json,
    /// Its lines for a shell.
    Shell,
}

pub(crate) fn shape_of(switches: Switches) -> Shape
    ensures { result ≡ shape_of switches }
{
    if switches.json {
        Shape::Json
    } else if switches.shell {
        Shape::Shell
    } else {
        Shape::Lines
    }
}
