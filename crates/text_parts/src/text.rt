//! What all readers of texts share: lines, words, names and numbers.
ghost use Rattle.std.specs.Prelude.{◌≡◌, ◌++◌, ◌∷◌, [], true, filter, IfOk, IfSome, OnOk, length, ◌≤◌};
ghost use Rattle.std.specs.List.{list_all};
ghost use Rattle.std.specs.Str.{bytes_eq};
ghost use Rattle.std.specs.Str.Lines.{lines};
ghost use Rattle.text_parts.specs.Text.{words, has_word, texts_of, is_blank, is_filled, is_comment, is_name, is_name_byte, is_digit, is_number, digits_from, number_within};

use bstr::{ByteSlice, Lines};
use memchr::memchr2;
use std::alloc::{AllocError, Global};

/// Whether the two texts are the same.
pub fn is_same(word: &[u8], text: &[u8]) -> bool
    ensures { result ≡ bytes_eq word.now text.now }
{
    word == text
}

/// Whether the byte divides words.
pub fn is_blank(byte: u8) -> bool
    ensures { result ≡ is_blank byte }
{
    byte == b' ' || byte == b'\t'
}

fn is_all_blank(line: &[u8]) -> bool
    ensures { result ≡ list_all is_blank line.now }
{
    line.iter().all(|byte| is_blank(*byte))
}

/// Whether the line has a word.
pub fn has_word(line: &[u8]) -> bool
    ensures { result ≡ has_word line.now }
{
    !is_all_blank(line)
}

/// Adds the part, if it is a word.
fn push_word<'a>(found: &mut Vec<&'a [u8]>, part: &'a [u8]) -> Result<(), AllocError>
    ensures { OnOk result (texts_of found.new.items ≡ texts_of found.old.items ++ filter is_filled (part.now ∷ [])) }
{
    if !part.is_empty() {
        found.push(part)?;
    }
    Ok(())
}

/// The words of a line, in order, in place of what `found` had: the parts of the line between spaces and tabs that are
/// not empty. One vector serves line after line, so that few lines take memory. It fails only out of memory, and what
/// `found` has then is not said.
pub fn find_words<'a>(found: &mut Vec<&'a [u8]>, line: &'a [u8]) -> Result<(), AllocError>
    ensures { OnOk result (texts_of found.new.items ≡ words line.now) }
{
    found.clear();
    let mut rest = line;
    while let Some(end) = memchr2(b' ', b'\t', rest) {
        let (part, more) = rest.split_at(end);
        push_word(found, part)?;
        rest = &more[1..];
    }
    push_word(found, rest)?;
    Ok(())
}

/// The words of a line, in order: its parts between spaces and tabs that are not empty.
pub fn words<'a>(alloc: Global, line: &'a [u8]) -> Result<Vec<&'a [u8]>, AllocError>
    ensures { IfOk result (λ found. texts_of found.items ≡ words line.now) }
{
    let mut found = Vec::new(alloc);
    find_words(&mut found, line)?;
    Ok(found)
}

/// The lines of a whole text, in order, without their ends: `\n` or `\r\n`, or nothing at the end of the text.
pub fn whole_lines<'a>(text: &'a [u8]) -> Lines<'a>
    ensures value { result ≡ lines text.now }
    ensures few { length result ≤ length text.now }
{
    text.lines()
}

/// Whether the line's first byte is `#`.
pub fn is_comment(line: &[u8]) -> bool
    ensures { result ≡ is_comment line.now }
{
    line.first() == Some(&b'#')
}

fn has_name_bytes(word: &[u8]) -> bool
    ensures { result ≡ list_all is_name_byte word.now }
{
    word.iter().all(|byte| byte.is_ascii_alphanumeric() || *byte == b'_' || *byte == b'-')
}

/// Whether the word is a name of a module or of a parameter: 1 to 55 letters, digits, `_` and `-`.
pub fn is_name(word: &[u8]) -> bool
    ensures { result ≡ is_name word.now }
{
    1 <= word.len() && word.len() <= 55 && has_name_bytes(word)
}

fn has_digits(word: &[u8]) -> bool
    ensures { result ≡ list_all is_digit word.now }
{
    word.iter().all(|byte| byte.is_ascii_digit())
}

fn is_number(word: &[u8]) -> bool
    ensures { result ≡ is_number word.now }
{
    1 <= word.len() && word.len() <= 10 && has_digits(word)
}

fn value(word: &[u8]) -> u64
    requires { is_number word.now ≡ true }
    ensures { result ≡ digits_from 0 word.now }
{
    let mut value = 0u64;
    let mut rest = word;
    while let Some((digit, later)) = rest.split_first() {
        value = value * 10 + (*digit - b'0') as u64;
        rest = later;
    }
    value
}

/// The number that the word is, if it is 1 to 10 decimal digits and at most `limit`; leading zeros are good.
pub fn number_within(limit: u64, word: &[u8]) -> Option<u64>
    ensures value { result ≡ number_within limit word.now }
    ensures within { IfSome result (λ n. n ≤ limit) }
{
    if !is_number(word) {
        return None;
    }
    let value = value(word);
    if value <= limit { Some(value) } else { None }
}
