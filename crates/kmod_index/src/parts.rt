//! The two parts of a text at one of its bytes.
ghost use Rattle.std.specs.Prelude.{◌≡◌, ◌<◌, Some, None, length, IfSome, MatchOption};
ghost use Rattle.kmod_index.specs.Parts.{at_first, at_last};

use memchr::{memchr, memrchr};

/// The parts before and after the first byte of this value.
pub(crate) fn at_first(byte: u8, text: &[u8]) -> Option<(&[u8], &[u8])>
    ensures value { MatchOption result
        (at_first byte text.entry.now ≡ None)
        (λ parts. at_first byte text.entry.now ≡ Some (parts.0.now, parts.1.now)) }
    ensures shorter { IfSome result (λ parts. length parts.1.now < length text.entry.now) }
{
    let end = memchr(byte, text)?;
    Some((&text[..end], &text[end + 1..]))
}

/// The parts before and after the last byte of this value.
pub(crate) fn at_last(byte: u8, text: &[u8]) -> Option<(&[u8], &[u8])>
    ensures { MatchOption result
        (at_last byte text.entry.now ≡ None)
        (λ parts. at_last byte text.entry.now ≡ Some (parts.0.now, parts.1.now)) }
{
    let end = memrchr(byte, text)?;
    Some((&text[..end], &text[end + 1..]))
}
