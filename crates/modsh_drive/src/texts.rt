//! Lines of the sections' texts that a refusal comes from.

use modprobe_conf::JoinedLines;
use program_frame::first_word;
use std::alloc::{AllocError, Global};
use text_parts::{Name, is_same, whole_lines, words};

/// Whether the second word of a line is this name.
fn is_of(alloc: Global, line: &[u8], name: &[u8]) -> Result<bool, AllocError> {
    let words = words(alloc, line)?;
    match words.get(1) {
        Some(word) => Ok(is_same(Name::new(alloc, word)?.as_bytes(), name)),
        None => Ok(false),
    }
}

/// The number of the first line of a configuration that begins with this word and is of this name. A line that a backslash
/// joins to others has the number of the first of them.
pub(crate) fn setting_line(
    alloc: Global,
    text: &[u8],
    word: &[u8],
    name: &[u8],
) -> Result<Option<u64>, AllocError> {
    let mut lines = JoinedLines::new(text);
    let mut buffer = Vec::new(alloc);
    'lines: while let Some((number, line)) = lines.next_line(&mut buffer)? {
        let line = line.text(&buffer);
        if is_same(first_word(line), word) && is_of(alloc, line, name)? {
            return Ok(Some(number as u64));
        }
    }
    Ok(None)
}

/// The symbols that a module needs by a catalogue, in their order.
fn needs_in<'a>(alloc: Global, text: &'a [u8], name: &[u8]) -> Result<Vec<&'a [u8]>, AllocError> {
    let (mut needed, mut is_own) = (Vec::new(alloc), false);
    for line in whole_lines(text) {
        let word = first_word(line);
        if is_same(word, b"module") {
            is_own = is_of(alloc, line, name)?;
        } else if is_own && is_same(word, b"needs") {
            needed.extend_from_slice(words(alloc, line)?.get(1..).unwrap_or(&[]))?;
        }
    }
    Ok(needed)
}

/// Takes from these symbols those that a line exports.
fn remove_exports(alloc: Global, needed: &mut Vec<&[u8]>, line: &[u8]) -> Result<(), AllocError> {
    for symbol in words(alloc, line)?.get(1..).unwrap_or(&[]) {
        needed.retain(|own| !is_same(own, symbol));
    }
    Ok(())
}

/// The first symbol of a module by a catalogue that no module there exports.
pub(crate) fn unknown_symbol<'a>(
    alloc: Global,
    text: &'a [u8],
    name: &[u8],
) -> Result<Option<&'a [u8]>, AllocError> {
    let mut needed = needs_in(alloc, text, name)?;
    for line in whole_lines(text) {
        if is_same(first_word(line), b"exports") {
            remove_exports(alloc, &mut needed, line)?;
        }
    }
    Ok(needed.first().copied())
}
