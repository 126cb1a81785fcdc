//! Patterns, commands and the ends of lines.
ghost use Rattle.std.specs.Prelude.{◌≡◌, IfOk};
ghost use Rattle.text_parts.specs.Text.{texts_of};
ghost use Rattle.machine_lint.specs.Names.{has_pattern, is_pattern_byte};
ghost use Rattle.machine_lint.specs.Notes.{does_nothing, ends_with_cr, is_idle, is_true_or_false};

use crate::line::Line;
use std::alloc::{AllocError, Global};
use text_parts::{is_same, words};

fn is_pattern_byte(byte: u8) -> bool
    ensures { result ≡ is_pattern_byte byte }
{
    byte == b'*' || byte == b'?' || byte == b'[' || byte == b'\\'
}

/// Whether a name holds a mark of a pattern: `*`, `?`, `[` or a backslash (glob(7)).
pub fn has_pattern(name: &[u8]) -> bool
    ensures { result ≡ has_pattern name.now }
{
    name.iter().any(|byte| is_pattern_byte(*byte))
}

fn is_true_or_false(word: &[u8]) -> bool
    ensures { result ≡ is_true_or_false word.now }
{
    is_same(word, b"true")
        || is_same(word, b"/bin/true")
        || is_same(word, b"/usr/bin/true")
        || is_same(word, b"false")
        || is_same(word, b"/bin/false")
        || is_same(word, b"/usr/bin/false")
}

/// Whether the words of a command are one, which loads nothing.
fn is_idle(words: &[&[u8]]) -> bool
    ensures { result ≡ is_idle (texts_of words.now) }
{
    match words {
        [word] => is_true_or_false(word),
        _ => false,
    }
}

/// Whether a command is `true` or `false` alone. It fails only out of memory.
pub(crate) fn does_nothing(alloc: Global, command: &[u8]) -> Result<bool, AllocError>
    ensures { IfOk result (λ does. does ≡ does_nothing command.now) }
{
    let words = words(alloc, command)?;
    Ok(is_idle(&words))
}

/// Whether a carriage return is the last byte of a line's last word.
pub(crate) fn ends_with_cr(line: &Line) -> bool
    ensures { result ≡ ends_with_cr line.now }
{
    if line.text().is_empty() || line.setting().is_options() {
        line.name().ends_with(b"\r")
    } else {
        line.text().ends_with(b"\r")
    }
}
