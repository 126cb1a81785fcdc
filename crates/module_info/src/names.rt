//! The names behind a mark.
ghost use Rattle.std.specs.Prelude.{◌≡◌, ◌<◌, ◌≤◌, ◌++◌, not, take, length, IfOk, OnOk};
ghost use Rattle.std.specs.List.{prefix_len};
ghost use Rattle.module_info.specs.Parameters.{ends_name, leading_name, names_behind};

use kmod_names::Text;
use memchr::memmem;
use std::alloc::{AllocError, Global};
use text_parts::Name;

/// Whether a name ends before this byte.
fn ends_name(byte: u8) -> bool
    ensures { result ≡ ends_name byte }
{
    byte == b':' || byte == 0
}

/// The length of the name that the text begins with.
fn name_len(text: &[u8]) -> usize
    ensures value { result ≡ prefix_len (λ byte. not (ends_name byte)) text.now }
    ensures within { result ≤ length text.now }
{
    text.iter().take_while(|byte| !ends_name(**byte)).count()
}

/// As much of the text as a name may have.
fn front(text: &[u8]) -> &[u8]
    ensures { result.now ≡ take 255 text.entry.now }
{
    if text.len() > 255 { &text[..255] } else { text }
}

/// The name that the text begins with, in normal form.
fn leading_name(alloc: Global, text: &[u8]) -> Result<Text, AllocError>
    ensures { IfOk result (λ name. name ≡ leading_name text.now) }
{
    let front = front(text);
    let name = Name::new(alloc, &front[..name_len(front)])?;
    Ok(Text::of(name.into_bytes()))
}

/// Adds the names behind a mark, in the order in which they stand. The search goes on one byte behind the start of a
/// mark, so that each mark counts.
pub(crate) fn add_names_behind(
    alloc: Global,
    mark: &[u8],
    text: &[u8],
    names: &mut Vec<Text>,
) -> Result<(), AllocError>
    requires { 0 < length mark.now }
    ensures { OnOk result (names.new.items ≡ names.old.items ++ names_behind mark.now text.now) }
{
    let mut rest = text;
    while let Some(place) = memmem::find(rest, mark) {
        let (_, marked) = rest.split_at(place);
        names.push(leading_name(alloc, &marked[mark.len()..])?)?;
        rest = &marked[1..];
    }
    Ok(())
}
