//! Bytes of an input as people see them.

use std::fmt;

/// How many bytes of a line are shown.
const MOST_SHOWN: usize = 60;

/// Bytes as a message shows them: a byte that is no printable ASCII as `\xHH`, and dots if more than 60 stand.
#[derive(Clone, Copy, Drop)]
pub struct Shown<'a>(pub &'a [u8]);

fn show_byte<W: fmt::Write>(f: &mut fmt::Formatter<W>, byte: u8) -> fmt::Result {
    if byte == b' ' || byte.is_ascii_graphic() {
        f.write_char(byte as char)
    } else {
        write!(f, "\\x{byte:02x}")
    }
}

impl fmt::Display for Shown<'_> {
    fn fmt<W: fmt::Write>(&self, f: &mut fmt::Formatter<W>) -> fmt::Result {
        let bytes = self.0;
        let front = bytes.get(..MOST_SHOWN).unwrap_or(bytes);
        for byte in front {
            show_byte(f, *byte)?;
        }
        if front.len() < bytes.len() {
            f.write_str("...")?;
        }
        Ok(())
    }
}
