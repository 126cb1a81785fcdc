//! Bytes as people are shown them.
ghost use Rattle.std.specs.Prelude.{◌≡◌, ◌++◌, OnOk};
ghost use Rattle.answer_facts.specs.Shown.{shown_byte, shown_line};

use std::alloc::AllocError;

/// A byte of a text as it is shown: one below 32, or 127, has no effect on a terminal, and ends no line.
fn shown_byte(byte: u8) -> u8
    ensures { result ≡ shown_byte byte }
{
    if byte < 32 || byte == 127 { b'?' } else { byte }
}

/// Adds a text as it is shown, and the end of its line.
pub(crate) fn push_line(lines: &mut Vec<u8>, text: &[u8]) -> Result<(), AllocError>
    ensures { OnOk result (lines.new.items ≡ lines.old.items ++ shown_line text.now) }
{
    for byte in text {
        lines.push(shown_byte(*byte))?;
    }
    lines.push(b'\n')?;
    Ok(())
}
