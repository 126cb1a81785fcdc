//! The parameters of a command as one text.
ghost use Rattle.std.specs.Prelude.{◌≡◌, ◌≤◌, ◌++◌, length, codes, slice_index, IfOk, OnOk};
ghost use Rattle.text_parts.specs.Text.{texts_of};
ghost use Rattle.kmod_query.specs.Lines.{is_quote, joined, name_len, needs_quotes, parameter_text, quoted};

use std::alloc::{AllocError, Global};

fn starts_with_quote(value: &[u8]) -> bool
    ensures { result ≡ is_quote (slice_index value.now 0) }
{
    match value.first() {
        Some(byte) => *byte == b'"' || *byte == b'\'',
        None => false,
    }
}

fn needs_quotes(value: &[u8]) -> bool
    ensures { result ≡ needs_quotes value.now }
{
    value.contains(&b' ') && !starts_with_quote(value)
}

/// Where the name of a parameter ends.
fn name_len(word: &[u8]) -> usize
    ensures value { result ≡ name_len word.now }
    ensures within { result ≤ length word.now }
{
    word.iter().take_while(|byte| **byte != b'=').count()
}

/// Adds a name and its value in quotes.
fn push_parts(text: &mut Vec<u8>, name: &[u8], value: &[u8]) -> Result<(), AllocError>
    ensures { OnOk result (text.new.items ≡ text.old.items ++ (name.now ++ codes "=\"" ++ value.now ++ codes "\"")) }
{
    text.extend_from_slice(name)?;
    text.extend_from_slice(b"=\"")?;
    text.extend_from_slice(value)?;
    text.extend_from_slice(b"\"")
}

/// Adds a parameter, with quotes round a value that needs them.
fn push_quoted(text: &mut Vec<u8>, word: &[u8]) -> Result<(), AllocError>
    ensures { OnOk result (text.new.items ≡ text.old.items ++ quoted word.now) }
{
    let end = name_len(word);
    if end < word.len() && needs_quotes(&word[end + 1..]) {
        return push_parts(text, &word[..end], &word[end + 1..]);
    }
    text.extend_from_slice(word)
}

/// Adds a text, after a blank if something stands before it.
pub(crate) fn push_joined(front: &mut Vec<u8>, text: &[u8]) -> Result<(), AllocError>
    ensures { OnOk result (front.new.items ≡ joined front.old.items text.now) }
{
    if front.is_empty() {
        return front.extend_from_slice(text);
    }
    front.push(b' ')?;
    front.extend_from_slice(text)
}

/// The parameters as one text.
pub(crate) fn parameter_text(alloc: Global, words: &[&[u8]]) -> Result<Vec<u8>, AllocError>
    ensures { IfOk result (λ text. text.items ≡ parameter_text (texts_of words.now)) }
{
    let mut text = Vec::new(alloc);
    'words: for word in words {
        let mut own = Vec::new(alloc);
        push_quoted(&mut own, word)?;
        push_joined(&mut text, &own)?;
    }
    Ok(text)
}
