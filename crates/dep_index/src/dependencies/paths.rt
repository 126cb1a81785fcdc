//! The paths of modules.dep texts and their names.
ghost use Rattle.std.specs.Prelude.{◌≡◌, ◌==◌, Some, None, not, reverse, map, take_while, position, IfOk, MatchOption};
ghost use Rattle.text_parts.specs.Text.{texts_of, normal_form};
ghost use Rattle.dep_index.specs.Dependencies.{at_colon, last_part, name_of, skip_blanks, trim};

use memchr::{memchr, memrchr};
use std::alloc::{AllocError, Global};
use text_parts::{Name, is_blank};

/// The parts before and behind the first colon.
pub(crate) fn split_at_colon(line: &[u8]) -> Option<(&[u8], &[u8])>
    ensures { MatchOption result (at_colon line.entry.now ≡ None) (λ parts. at_colon line.entry.now ≡ Some (parts.0.now, parts.1.now)) }
{
    let end = memchr(b':', line)?;
    Some((&line[..end], &line[end + 1..]))
}

fn trim_front(text: &[u8]) -> &[u8]
    ensures { result.now ≡ skip_blanks text.entry.now }
{
    let mut rest = text;
    while let Some((byte, later)) = rest.split_first() {
        if !is_blank(*byte) {
            break;
        }
        rest = later;
    }
    rest
}

fn trim_back(text: &[u8]) -> &[u8]
    ensures { result.now ≡ reverse (skip_blanks (reverse text.entry.now)) }
{
    let mut rest = text;
    while let Some((byte, earlier)) = rest.split_last() {
        if !is_blank(*byte) {
            break;
        }
        rest = earlier;
    }
    rest
}

/// The text without blanks at its ends.
pub(crate) fn trimmed(text: &[u8]) -> &[u8]
    ensures { result.now ≡ trim text.entry.now }
{
    trim_back(trim_front(text))
}

fn last_part(path: &[u8]) -> &[u8]
    ensures { result.now ≡ last_part path.entry.now }
{
    match memrchr(b'/', path) {
        Some(end) => &path[end + 1..],
        None => path,
    }
}

fn first_dot(part: &[u8]) -> Option<usize>
    ensures { result ≡ position (λ byte. byte == 46) part.now }
{
    part.iter().position(|byte| *byte == b'.')
}

/// The part up to the first dot.
fn stem(part: &[u8]) -> &[u8]
    ensures { result.now ≡ take_while (λ byte. not (byte == 46)) part.entry.now }
{
    match first_dot(part) {
        Some(end) => &part[..end],
        None => part,
    }
}

/// The name of the module in the path.
pub(crate) fn name_of(alloc: Global, path: &[u8]) -> Result<Name, AllocError>
    ensures { IfOk result (λ name. name ≡ name_of path.now) }
{
    Name::new(alloc, stem(last_part(path)))
}

/// The names of the modules in the paths.
pub(crate) fn names_of(alloc: Global, paths: &[&[u8]]) -> Result<Vec<Name>, AllocError>
    ensures { IfOk result (λ names. names.items ≡ map name_of (texts_of paths.now)) }
{
    let mut names = Vec::with_capacity(alloc, paths.len())?;
    for path in paths {
        names.push(name_of(alloc, path)?)?;
    }
    Ok(names)
}
