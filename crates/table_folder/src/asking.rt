//! Which lines ask.
ghost use Rattle.std.specs.Prelude.{◌≡◌, IfOk};
ghost use Rattle.text_parts.specs.Text.{texts_of};
ghost use Rattle.held_lines.specs.Reading.{asks, asks_by, is_reading};

use std::alloc::{AllocError, Global};
use text_parts::{is_comment, is_same, words};

/// Whether this is the first word of a command that asks.
fn asks(first: &[u8]) -> bool
    ensures { result ≡ asks first.now }
{
    is_same(first, b"query")
        || is_same(first, b"modinfo")
        || is_same(first, b"lsmod")
        || is_same(first, b"proc")
        || is_same(first, b"plan")
        || is_same(first, b"holders")
        || is_same(first, b"held")
}

/// Whether a line asks, or is no command. It fails only if memory runs out.
pub fn is_reading(alloc: Global, line: &[u8]) -> Result<bool, AllocError>
    ensures { IfOk result (λ reads. reads ≡ is_reading line.now) }
{
    if is_comment(line) {
        return Ok(true);
    }
    let words = words(alloc, line)?;
    Ok(words.first().is_none_or(|first| asks(*first)))
}
