//! Numbers as C reads them (strtol(3)).
ghost use Rattle.std.specs.Prelude.{◌≡◌};
ghost use Rattle.std.specs.List.{list_all};
ghost use Rattle.text_parts.specs.Text.{is_digit};
ghost use Rattle.modprobe_words.specs.Numbers.{behind_sign, behind_spaces, is_digits, is_hexadecimal, is_hexadecimal_text, is_number, is_octal, is_space};

/// Whether a byte is white space to isspace(3).
pub fn is_space(byte: u8) -> bool
    ensures { result ≡ is_space byte }
{
    byte == b' ' || (9 <= byte && byte <= 13)
}

fn is_octal(byte: u8) -> bool
    ensures { result ≡ is_octal byte }
{
    b'0' <= byte && byte <= b'7'
}

/// Whether a byte is a decimal digit.
pub fn is_digit(byte: u8) -> bool
    ensures { result ≡ is_digit byte }
{
    byte.is_ascii_digit()
}

fn is_hexadecimal(byte: u8) -> bool
    ensures { result ≡ is_hexadecimal byte }
{
    is_digit(byte) || (b'a' <= byte && byte <= b'f') || (b'A' <= byte && byte <= b'F')
}

/// What stands behind the white space at the beginning.
pub fn behind_spaces(text: &[u8]) -> &[u8]
    ensures { result.now ≡ behind_spaces text.entry.now }
{
    let mut rest = text;
    while let Some((byte, later)) = rest.split_first() {
        if !is_space(*byte) {
            return rest;
        }
        rest = later;
    }
    rest
}

fn behind_sign(text: &[u8]) -> &[u8]
    ensures { result.now ≡ behind_sign text.entry.now }
{
    match text.split_first() {
        Some((byte, rest)) if *byte == b'+' || *byte == b'-' => rest,
        _ => text,
    }
}

fn are_octal(text: &[u8]) -> bool
    ensures { result ≡ list_all is_octal text.now }
{
    text.iter().all(|byte| is_octal(*byte))
}

fn are_digits(text: &[u8]) -> bool
    ensures { result ≡ list_all is_digit text.now }
{
    text.iter().all(|byte| is_digit(*byte))
}

fn are_hexadecimal(text: &[u8]) -> bool
    ensures { result ≡ list_all is_hexadecimal text.now }
{
    text.iter().all(|byte| is_hexadecimal(*byte))
}

fn is_hexadecimal_text(text: &[u8]) -> bool
    ensures { result ≡ is_hexadecimal_text text.now }
{
    (text.starts_with(b"0x") || text.starts_with(b"0X"))
        && text.len() > 2
        && are_hexadecimal(&text[2..])
}

fn is_digits(text: &[u8]) -> bool
    ensures { result ≡ is_digits text.now }
{
    if text.starts_with(b"0") {
        are_octal(text)
    } else {
        !text.is_empty() && are_digits(text)
    }
}

/// Whether a text is a number as strtoul(3) reads it, with nothing behind it.
#[tactic(auto, unfolding(crate::specs::Numbers::is_number))]
pub(crate) fn is_number(text: &[u8]) -> bool
    ensures { result ≡ is_number text.now }
{
    let number = behind_sign(behind_spaces(text));
    is_hexadecimal_text(number) || is_digits(number)
}
