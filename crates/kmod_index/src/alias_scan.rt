//! Lines of a modules.alias text, found in the text itself.
ghost use Rattle.std.specs.Prelude.{◌≡◌, ◌<◌, ◌≤◌, ◌∷◌, ◌++◌, [], drop, length, position, take, IfOk, OnOk};
ghost use Rattle.std.specs.List.{before_first, enumerate_from, filter_map};
ghost use Rattle.std.specs.Option.{option_to_list};
ghost use Rattle.std.specs.Str.Lines.{lines};
ghost use Rattle.memchr.specs.Find.{IsFirst, IsFirstByte, Passes, is_byte};
ghost use Rattle.kmod_index.specs.Aliases.{alias_of_line, aliases_of};
ghost use Rattle.kmod_index.specs.ForProofs.{is_stop, parts_early};
ghost use Rattle.kmod_index.specs.Tries.{matches_key, matching_lines};

use crate::aliases::push_key;
use crate::index_line::IndexLine;
use kmod_names::PatternList;
use memchr::memchr;
use std::alloc::{AllocError, Global};
use std::simd::prelude::*;
use text_parts::whole_lines;

/// Whether a key may end at a byte, or the byte may stand for another than itself.
fn is_stop(byte: u8) -> bool
    ensures { result ≡ is_stop byte }
{
    matches!(byte, b'*' | b'-' | b'?' | b'[' | b'\\' | b' ')
}

/// The place of a name's first stop byte.
fn first_stop(name: &[u8]) -> Option<usize>
    ensures { result ≡ position is_stop name.now }
{
    name.iter().position(|byte| is_stop(*byte))
}

/// The front of a name, before its first stop byte.
fn plain_front(name: &[u8]) -> &[u8]
    ensures { result.now ≡ before_first is_stop name.now }
{
    match first_stop(name) {
        Some(end) => &name[..end],
        None => name,
    }
}

/// Whether a text has another byte than a front somewhere, and the first such byte is no stop byte.
fn parts_early(text: &[u8], front: &[u8]) -> bool
    ensures { result ≡ parts_early text.now front.now }
{
    let mut rest = text;
    let mut others = front;
    while let Some((byte, later)) = rest.split_first() {
        let Some((other, other_later)) = others.split_first() else {
            return false;
        };
        if *byte != *other {
            return !is_stop(*byte);
        }
        rest = later;
        others = other_later;
    }
    false
}

/// Whether what stands in the place of a key, behind `alias` and a blank, parts early from the front of a name.
fn key_parts_early(text: &[u8], front: &[u8]) -> bool
    ensures { result ≡ parts_early (drop 6 text.now) front.now }
{
    text.len() > 6 && parts_early(&text[6..], front)
}

/// The place of the first line feed among the first 64 bytes.
fn near_feed(text: &[u8]) -> Option<usize>
    requires { 64 ≤ length text.now }
    ensures { IsFirst (Passes (is_byte 10) text.now) 0 64 result }
{
    let feeds = u8x64::from_slice(text)
        .simd_eq(u8x64::splat(b'\n'))
        .to_bitmask();
    if feeds == 0 {
        return None;
    }
    Some(feeds.trailing_zeros() as usize)
}

/// The place of the first line feed. Most lines are short, so the first 64 bytes are looked at together.
fn first_feed(text: &[u8]) -> Option<usize>
    ensures { IsFirstByte (is_byte 10) text.now result }
{
    if text.len() >= 64 {
        if let Some(end) = near_feed(text) {
            return Some(end);
        }
    }
    memchr(b'\n', text)
}

/// What stands behind the first line of a text.
fn after_line(text: &[u8]) -> &[u8]
    ensures lines { lines result.now ≡ drop 1 (lines text.now) }
    ensures shorter { 0 < length text.now → length result.now < length text.now }
{
    match first_feed(text) {
        Some(end) => &text[end + 1..],
        None => &[],
    }
}

/// Whether a name matches a key.
fn is_key_match(alloc: Global, key: &[u8], name: &[u8]) -> Result<bool, AllocError>
    ensures { IfOk result (λ is_match. is_match ≡ matches_key key.now name.now) }
{
    let mut patterns = PatternList::new(alloc);
    push_key(&mut patterns, alloc, key)?;
    Ok(patterns.first(alloc, name)?.is_some())
}

/// Adds an alias, if a name matches its key.
fn add_match(
    alloc: Global,
    found: &mut Vec<IndexLine>,
    alias: IndexLine,
    name: &[u8],
) -> Result<(), AllocError>
    ensures { OnOk result (found.new.items ≡ found.old.items ++ matching_lines (alias ∷ []) name.now) }
{
    if is_key_match(alloc, alias.key(), name)? {
        found.push(alias)?;
    }
    Ok(())
}

/// Adds the alias that the line of this number is, if a name matches its key.
fn add_line(
    alloc: Global,
    found: &mut Vec<IndexLine>,
    number: usize,
    line: &[u8],
    name: &[u8],
) -> Result<(), AllocError>
    ensures { OnOk result (found.new.items ≡ found.old.items ++ matching_lines (option_to_list (alias_of_line (number, line.now))) name.now) }
{
    match IndexLine::read_alias(alloc, number, line)? {
        Some(alias) => add_match(alloc, found, alias, name),
        None => Ok(()),
    }
}

/// Adds the alias that the first line of a text is, if a name of this front matches its key. Most lines part early, so that
/// is tried before it is known where the line ends.
fn add_first_line(
    alloc: Global,
    found: &mut Vec<IndexLine>,
    number: usize,
    text: &[u8],
    name: &[u8],
    front: &[u8],
) -> Result<(), AllocError>
    requires { front.now ≡ before_first is_stop name.now }
    ensures { OnOk result (found.new.items ≡ found.old.items ++ matching_lines (filter_map alias_of_line (enumerate_from number (take 1 (lines text.now)))) name.now) }
{
    if key_parts_early(text, front) {
        return Ok(());
    }
    match whole_lines(text).next() {
        Some(line) => add_line(alloc, found, number, line, name),
        None => Ok(()),
    }
}

/// The aliases that a name in normal form matches, in order. It fails only if memory runs out.
pub(crate) fn matching_aliases(
    alloc: Global,
    text: &[u8],
    name: &[u8],
) -> Result<Vec<IndexLine>, AllocError>
    ensures { IfOk result (λ found. found.items ≡ matching_lines (aliases_of text.now) name.now) }
{
    let mut found = Vec::new(alloc);
    let mut rest = text;
    let mut number = 1usize;
    let front = plain_front(name);
    'lines: while !rest.is_empty() {
        add_first_line(alloc, &mut found, number, rest, name, front)?;
        rest = after_line(rest);
        number += 1;
    }
    Ok(found)
}

/// Adds the alias that the line of this number is, if it is one.
fn add_alias(
    alloc: Global,
    found: &mut Vec<IndexLine>,
    number: usize,
    line: &[u8],
) -> Result<(), AllocError>
    ensures { OnOk result (found.new.items ≡ found.old.items ++ option_to_list (alias_of_line (number, line.now))) }
{
    if let Some(alias) = IndexLine::read_alias(alloc, number, line)? {
        found.push(alias)?;
    }
    Ok(())
}

/// The aliases, in order. It fails only if memory runs out.
pub(crate) fn alias_lines(alloc: Global, text: &[u8]) -> Result<Vec<IndexLine>, AllocError>
    ensures { IfOk result (λ aliases. aliases.items ≡ aliases_of text.now) }
{
    let mut found = Vec::new(alloc);
    let mut lines = whole_lines(text);
    let mut number = 1usize;
    'lines: while let Some(line) = lines.next() {
        add_alias(alloc, &mut found, number, line)?;
        number += 1;
    }
    Ok(found)
}
