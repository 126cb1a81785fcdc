//! The fields of a line of /proc/modules, each by itself.
ghost use Rattle.std.specs.Prelude.{◌≡◌, ◌==◌};
ghost use Rattle.std.specs.List.{list_all, list_any};
ghost use Rattle.text_parts.specs.Text.{texts_of};
ghost use Rattle.proc_modules.specs.Reading.{is_line_name, line_number, state_of, is_address, is_hex_digit, is_taint};

use crate::line::LineState;
use text_parts::{is_name, is_same, number_within};

fn has_dash(word: &[u8]) -> bool
    ensures { result ≡ list_any (λ byte. byte == 45) word.now }
{
    word.iter().any(|byte| *byte == b'-')
}

/// Whether the word is a name with `_` for each `-`.
pub(crate) fn is_line_name(word: &[u8]) -> bool
    ensures { result ≡ is_line_name word.now }
{
    is_name(word) && !has_dash(word)
}

/// The number that the word is, in decimal without leading zeros.
pub(crate) fn line_number(word: &[u8]) -> Option<u32>
    ensures { result ≡ line_number word.now }
{
    if word.len() > 1 && word[0] == b'0' {
        return None;
    }
    Some(number_within(4294967295, word)? as u32)
}

/// The state that the word is.
pub(crate) fn shown_state(word: &[u8]) -> Option<LineState>
    ensures { result ≡ state_of word.now }
{
    if is_same(word, b"Live") {
        Some(LineState::Live)
    } else if is_same(word, b"Loading") {
        Some(LineState::Loading)
    } else if is_same(word, b"Unloading") {
        Some(LineState::Unloading)
    } else {
        None
    }
}

fn is_hex_digit(byte: u8) -> bool
    ensures { result ≡ is_hex_digit byte }
{
    byte.is_ascii_digit() || (b'a' <= byte && byte <= b'f') || (b'A' <= byte && byte <= b'F')
}

fn has_hex_digits(digits: &[u8]) -> bool
    ensures { result ≡ list_all is_hex_digit digits.now }
{
    digits.iter().all(|digit| is_hex_digit(*digit))
}

/// Whether the word is `0x` and 1 to 16 hexadecimal digits.
pub(crate) fn is_address(word: &[u8]) -> bool
    ensures { result ≡ is_address word.now }
{
    match word {
        [zero, x, digits @ ..] => {
            *zero == b'0'
                && *x == b'x'
                && 1 <= digits.len()
                && digits.len() <= 16
                && has_hex_digits(digits)
        }
        _ => false,
    }
}

/// Whether nothing or one word stands after the address.
pub(crate) fn is_taint(fields: &[&[u8]]) -> bool
    ensures { result ≡ is_taint (texts_of fields.now) }
{
    match fields {
        [] => true,
        [taint] => !taint.is_empty(),
        _ => false,
    }
}
