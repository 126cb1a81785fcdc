//! The words of softdep and weakdep lines.
ghost use Rattle.std.specs.Prelude.{◌≡◌, if◌then◌else◌, IfOk, map, true, false, Some, None};
ghost use Rattle.std.specs.Str.{bytes_eq};
ghost use Rattle.text_parts.specs.Text.{texts_of};
ghost use Rattle.kmod_conf.specs.Lines.{as_blank, soft_words, weak_words, words_behind};

use crate::bytes::is_space;
use kmod_names::Text;
use std::alloc::{AllocError, Global};
use std::marker::Model;
use text_parts::words;

/// What a softdep line names, as it stands: what is loaded before, and what after.
#[derive(Drop)]
pub struct SoftItems {
    pre: Vec<Text>,
    post: Vec<Text>,
}

impl Model for SoftItems {
    ghost use Rattle.kmod_conf.specs.Lines.{SoftWords};

    ghost Value = { SoftWords };

    ghost view = { λ s. record { pre = s.pre.items; post = s.post.items } };
}

/// What a weakdep line names, as it stands: the words between white space.
#[derive(Drop)]
pub struct WeakItems {
    words: Vec<Text>,
}

impl Model for WeakItems {
    ghost use Rattle.std.specs.Prelude.{ℕ, List};

    ghost Value = { List (List ℕ) };

    ghost view = { λ w. w.words.items };
}

/// Whether the word is one of the two marks, and then whether words after it count.
fn mark_at(word: &[u8], mark: &[u8], other: &[u8]) -> Option<bool>
    ensures { result
        ≡ (if bytes_eq word.now mark.now then Some true else (if bytes_eq word.now other.now then Some false else None)) }
{
    if word == mark {
        return Some(true);
    }
    if word == other { Some(false) } else { None }
}

/// The words after one mark, up to the other.
fn words_behind(
    alloc: Global,
    mark: &[u8],
    other: &[u8],
    words: &[&[u8]],
) -> Result<Vec<Text>, AllocError>
    ensures { IfOk result (λ found. found.items ≡ words_behind mark.now other.now false (texts_of words.now)) }
{
    let mut found = Vec::new(alloc);
    let mut within = false;
    for word in words {
        if let Some(counts) = mark_at(word, mark, other) {
            within = counts;
        } else if within {
            found.push(Text::new(alloc, word)?)?;
        }
    }
    Ok(found)
}

/// A blank for white space of any kind, and every other byte as it is.
fn as_blank(byte: u8) -> u8
    ensures { result ≡ as_blank byte }
{
    if is_space(byte) { b' ' } else { byte }
}

/// The text with blanks for white space.
fn with_blanks(alloc: Global, text: &[u8]) -> Result<Vec<u8>, AllocError>
    ensures { IfOk result (λ spaced. spaced.items ≡ map as_blank text.now) }
{
    text.iter().map(|byte| as_blank(*byte)).collect(alloc)
}

/// Texts of these bytes.
fn own_texts(alloc: Global, words: &[&[u8]]) -> Result<Vec<Text>, AllocError>
    ensures { IfOk result (λ texts. texts.items ≡ texts_of words.now) }
{
    let mut texts = Vec::new(alloc);
    for word in words {
        texts.push(Text::new(alloc, word)?)?;
    }
    Ok(texts)
}

impl WeakItems {
    pub(crate) fn read(alloc: Global, text: &[u8]) -> Result<WeakItems, AllocError>
        ensures { IfOk result (λ items. items ≡ weak_words text.now) }
    {
        let spaced = with_blanks(alloc, text)?;
        let words = own_texts(alloc, &words(alloc, &spaced)?)?;
        Ok(WeakItems { words })
    }

    /// The words, in the order of the line.
    pub fn words(&self) -> &[Text]
        ensures { result.now ≡ self.now }
    {
        &self.words
    }
}

impl SoftItems {
    pub(crate) fn read(alloc: Global, text: &[u8]) -> Result<SoftItems, AllocError>
        ensures { IfOk result (λ items. items ≡ soft_words text.now) }
    {
        let spaced = with_blanks(alloc, text)?;
        let words = words(alloc, &spaced)?;
        let pre = words_behind(alloc, b"pre:", b"post:", &words)?;
        let post = words_behind(alloc, b"post:", b"pre:", &words)?;
        Ok(SoftItems { pre, post })
    }

    /// What is loaded before, in the order of the line.
    pub fn pre(&self) -> &[Text]
        ensures { result.now ≡ self.now.pre }
    {
        &self.pre
    }

    /// What is loaded after, in the order of the line.
    pub fn post(&self) -> &[Text]
        ensures { result.now ≡ self.now.post }
    {
        &self.post
    }
}
