//! Names as they are compared, and the names of modules' files.
ghost use Rattle.std.specs.Prelude.{◌≡◌, ◌≤◌, ◌==◌, not, length, map, IfOk};
ghost use Rattle.std.specs.List.{prefix_len};
ghost use Rattle.text_parts.specs.Text.{normal_byte};
ghost use Rattle.kmod_names.specs.Names.{base_of, is_set_after, name_of_path, normal_alias, normal_within, stem};

use crate::text::Text;
use std::alloc::{AllocError, Global};

fn normal_byte(byte: u8) -> u8
    ensures { result ≡ normal_byte byte }
{
    if byte == b'-' { b'_' } else { byte }
}

/// A byte as it stands within `[..]`, and its normal form elsewhere.
fn normal_within(is_set: bool, byte: u8) -> u8
    ensures { result ≡ normal_within is_set byte }
{
    if is_set { byte } else { normal_byte(byte) }
}

/// Whether the byte after this one is within `[..]`.
fn is_set_after(is_set: bool, byte: u8) -> bool
    ensures { result ≡ is_set_after is_set byte }
{
    if is_set { byte != b']' } else { byte == b'[' }
}

/// The text of a name or an alias in normal form: `_` for each `-` that stands outside `[..]`. None if a `]` stands
/// outside or a `[` has no `]` after it. It fails only if memory runs out.
pub fn normal_alias(alloc: Global, text: &[u8]) -> Result<Option<Text>, AllocError>
    ensures { IfOk result (λ found. found ≡ normal_alias text.now) }
{
    let mut normal = Vec::with_capacity(alloc, text.len())?;
    let mut is_set = false;
    let mut rest = text;
    while let Some((byte, later)) = rest.split_first() {
        if !is_set && *byte == b']' {
            return Ok(None);
        }
        normal.push(normal_within(is_set, *byte))?;
        is_set = is_set_after(is_set, *byte);
        rest = later;
    }
    if is_set {
        return Ok(None);
    }
    Ok(Some(Text::of(normal)))
}

/// What stands after the last slash.
fn base_of(path: &[u8]) -> &[u8]
    ensures { result.now ≡ base_of path.entry.now }
{
    let mut base = path;
    let mut rest = path;
    while let Some((byte, later)) = rest.split_first() {
        rest = later;
        if *byte == b'/' {
            base = later;
        }
    }
    base
}

fn stem_len(base: &[u8]) -> usize
    ensures value { result ≡ prefix_len (λ byte. not (byte == 46)) base.now }
    ensures within { result ≤ length base.now }
{
    base.iter().take_while(|byte| **byte != b'.').count()
}

/// What stands before the first dot.
fn stem(base: &[u8]) -> &[u8]
    ensures { result.now ≡ stem base.entry.now }
{
    &base[..stem_len(base)]
}

/// The name of the module of a file: what stands after the path's last slash, up to the first dot, with `_` for each
/// `-`. It fails only if memory runs out.
pub fn name_of_path(alloc: Global, path: &[u8]) -> Result<Text, AllocError>
    ensures { IfOk result (λ name. name ≡ name_of_path path.now) }
{
    let stem = stem(base_of(path));
    let bytes: Vec<u8> = stem.iter().map(|byte| normal_byte(*byte)).collect(alloc)?;
    Ok(Text::of(bytes))
}
