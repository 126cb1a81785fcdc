//! Bytes as people are shown them.
ghost use Rattle.std.specs.Prelude.{◌≡◌, map, IfOk};
ghost use Rattle.answer_facts.specs.Shown.{shown_byte};

use std::alloc::{AllocError, Global};

/// A byte of a text as it is shown: one below 32, or 127, has no effect on a terminal, and ends no line.
fn shown_byte(byte: u8) -> u8
    ensures { result ≡ shown_byte byte }
{
    if byte < 32 || byte == 127 { b'?' } else { byte }
}

/// A text as it is shown. It fails only if memory runs out.
pub(crate) fn shown(alloc: Global, text: &[u8]) -> Result<Vec<u8>, AllocError>
    ensures { IfOk result (λ own. own.items ≡ map shown_byte text.now) }
{
    let mut own = Vec::new(alloc);
    for byte in text {
        own.push(shown_byte(*byte))?;
    }
    Ok(own)
}
