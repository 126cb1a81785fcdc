//! Strings of JSON (RFC 8259).
ghost use Rattle.std.specs.Prelude.{◌≡◌, ◌<◌, ◌++◌, OnOk};
ghost use Rattle.std.specs.List.{flat_map};
ghost use Rattle.answer_facts.specs.Quoted.{escaped, hex_digit, quoted};

use std::alloc::AllocError;

/// A number below 16 as a hexadecimal digit.
fn hex_digit(number: u8) -> u8
    requires { number < 16 }
    ensures { result ≡ hex_digit number }
{
    if number < 10 {
        b'0' + number
    } else {
        b'a' - 10 + number
    }
}

/// Adds a byte of UTF-8 within quotes.
fn push_escaped(text: &mut Vec<u8>, byte: u8) -> Result<(), AllocError>
    ensures { OnOk result (text.new.items ≡ text.old.items ++ escaped byte) }
{
    if byte == b'"' || byte == b'\\' {
        text.push(b'\\')?;
        text.push(byte)?;
        Ok(())
    } else if byte < 32 || byte == 127 {
        text.extend_from_slice(b"\\u00")?;
        text.push(hex_digit(byte / 16))?;
        text.push(hex_digit(byte % 16))?;
        Ok(())
    } else {
        text.push(byte)?;
        Ok(())
    }
}

/// Adds bytes of UTF-8 within quotes.
fn push_all_escaped(text: &mut Vec<u8>, bytes: &[u8]) -> Result<(), AllocError>
    ensures { OnOk result (text.new.items ≡ text.old.items ++ flat_map escaped bytes.now) }
{
    for byte in bytes {
        push_escaped(text, *byte)?;
    }
    Ok(())
}

/// Adds any bytes as a string. U+FFFD stands for bytes that are no UTF-8.
#[tactic(auto, unfolding(crate::specs::Quoted::quoted))]
pub(crate) fn push_quoted(text: &mut Vec<u8>, bytes: &[u8]) -> Result<(), AllocError>
    ensures { OnOk result (text.new.items ≡ text.old.items ++ quoted bytes.now) }
{
    let own = String::from_utf8_lossy(*text.allocator(), bytes)?;
    text.push(b'"')?;
    push_all_escaped(text, own.as_bytes())?;
    text.push(b'"')?;
    Ok(())
}
