//! Bytes as text of an SVG.
ghost use Rattle.std.specs.Prelude.{◌≡◌, ◌++◌, OnOk, string_bytes};
ghost use Rattle.timeline_drive.specs.Escapes.{shown, escaped};

use std::alloc::AllocError;

/// Adds a byte as it is shown.
fn push_shown(page: &mut String, byte: u8) -> Result<(), AllocError>
    ensures { OnOk result (string_bytes page.new ≡ string_bytes page.old ++ shown byte) }
{
    match byte {
        b'&' => page.push_str("&amp;"),
        b'<' => page.push_str("&lt;"),
        b'>' => page.push_str("&gt;"),
        b'"' => page.push_str("&quot;"),
        b'\'' => page.push_str("&#39;"),
        b' '..=b'~' => page.push(byte as char),
        _ => page.push_str("\u{fffd}"),
    }
}

/// Adds a text so that it is text in XML, whatever its bytes: special characters by their entities, and U+FFFD for
/// each byte that is no printed character of ASCII.
pub(crate) fn push_escaped(page: &mut String, text: &[u8]) -> Result<(), AllocError>
    ensures { OnOk result (string_bytes page.new ≡ string_bytes page.old ++ escaped text.now) }
{
    for byte in text {
        push_shown(page, *byte)?;
    }
    Ok(())
}
