//! The line of a command that words of a program are.
ghost use Rattle.std.specs.Prelude.{◌≡◌, true, IfOk};
ghost use Rattle.std.specs.List.{list_all, list_any};
ghost use Rattle.text_parts.specs.Text.{texts_of, words as words_of};
ghost use Rattle.table_words.specs.Lines.{divides, is_line_word, line_of};

use std::alloc::{AllocError, Global};

fn has_divider(word: &[u8]) -> bool
    ensures { result ≡ list_any divides word.now }
{
    word.iter()
        .any(|byte| matches!(*byte, b' ' | b'\t' | b'\n' | b'\r'))
}

/// Whether a word stays one word of one line: it is not empty, and has no space, tab, line feed or carriage return.
pub fn is_line_word(word: &[u8]) -> bool
    ensures { result ≡ is_line_word word.now }
{
    !word.is_empty() && !has_divider(word)
}

fn joined(alloc: Global, words: &[&[u8]]) -> Result<Vec<u8>, AllocError>
    ensures { IfOk result (λ line. line.items ≡ line_of (texts_of words.now)) }
{
    let Some((first, later)) = words.split_first() else {
        return Ok(Vec::new(alloc));
    };
    let mut line = Vec::from_slice(alloc, *first)?;
    for word in later {
        line.push(b' ')?;
        line.extend_from_slice(*word)?;
    }
    Ok(line)
}

/// The words with a space between each two. It fails only out of memory.
pub fn line_of(alloc: Global, words: &[&[u8]]) -> Result<Vec<u8>, AllocError>
    ensures line { IfOk result (λ line. line.items ≡ line_of (texts_of words.now)) }
    ensures same { list_all is_line_word (texts_of words.now) ≡ true → IfOk result (λ line. words_of line.items ≡ texts_of words.now) }
{
    let line = joined(alloc, words)?;
    Ok(line)
}
