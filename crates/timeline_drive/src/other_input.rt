//! Texts that are no report, but what one is made of.
ghost use Rattle.std.specs.Prelude.{◌≡◌};
ghost use Rattle.timeline_drive.specs.OtherInputs.{begun_by, other_input};

use text_parts::{is_same, whole_lines};

/// An input of `workload`.
#[derive(Clone, Copy, Drop)]
pub(crate) enum OtherInput {
    Schedule,
    Script,
}

/// The input that a section line begins.
fn begun_by(line: &[u8]) -> Option<OtherInput>
    ensures { result ≡ begun_by line.now }
{
    if is_same(line, b"%schedule") {
        Some(OtherInput::Schedule)
    } else if is_same(line, b"%script") {
        Some(OtherInput::Script)
    } else {
        None
    }
}

/// The input of `workload` that a text is, by the first of its lines that begins one.
pub(crate) fn other_input(text: &[u8]) -> Option<OtherInput>
    ensures { result ≡ other_input text.now }
{
    let mut lines = whole_lines(text);
    while let Some(line) = lines.next() {
        let other = begun_by(line);
        if other.is_some() {
            return other;
        }
    }
    None
}
