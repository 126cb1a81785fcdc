//! Whether words are good for a module's parameters.
ghost use Rattle.std.specs.Prelude.{◌≡◌, ◌<◌, length, position};
ghost use Rattle.std.specs.List.{list_all};
ghost use Rattle.std.specs.Option.{option_map};
ghost use Rattle.std.specs.Str.{bytes_eq};
ghost use Rattle.text_parts.specs.Text.{normal_form, texts_of};
ghost use Rattle.dep_index.specs.Catalogue.{description_at};
ghost use Rattle.load_plan.specs.Parameters.{are_valid, is_equals, is_valid_word, name_of, takes_named, value_of};

use crate::values::{as_taken, takes};
use dep_index::{Catalogue, Param};

fn equals_at(word: &[u8]) -> Option<usize>
    ensures { result ≡ position is_equals word.now }
{
    word.iter().position(|byte| *byte == b'=')
}

/// The part of a word before its first `=`, and the part after it.
fn split_word(word: &[u8]) -> (&[u8], Option<&[u8]>)
    ensures name { result.0.now ≡ name_of word.entry.now }
    ensures value { option_map (λ bytes. bytes.now) result.1 ≡ value_of word.entry.now }
{
    match equals_at(word) {
        Some(end) => (&word[..end], Some(&word[end + 1..])),
        None => (word, None),
    }
}

/// Whether a word's normal form is the name.
fn is_named(word: &[u8], name: &[u8]) -> bool
    ensures { result ≡ bytes_eq (normal_form word.now) name.now }
{
    let mut left = word;
    let mut rest = name;
    'bytes: while let Some((byte, later)) = left.split_first() {
        let byte = if *byte == b'-' { b'_' } else { *byte };
        match rest.split_first() {
            Some((own, after)) if *own == byte => rest = after,
            _ => return false,
        }
        left = later;
    }
    rest.is_empty()
}

/// Whether the module takes the word: it defines no parameter of the word's name, or one that takes its value.
fn takes_word(params: &[Param], word: &[u8]) -> bool
    ensures { result ≡ is_valid_word params.now word.now }
{
    let (name, value) = split_word(word);
    for param in params {
        if is_named(name, param.name.as_bytes()) {
            return takes(param.kind, as_taken(param, value));
        }
    }
    true
}

fn takes_words(params: &[Param], words: &[&[u8]]) -> bool
    ensures { result ≡ list_all (is_valid_word params.now) (texts_of words.now) }
{
    for word in words {
        if !takes_word(params, word) {
            return false;
        }
    }
    true
}

/// Whether all words, `name` or `name=value`, are good for the module in the slot: each is of a parameter that the
/// module does not define, or a value that the parameter takes (init_module(2) answers EINVAL if one is not).
pub fn params_valid(catalogue: &Catalogue, slot: usize, words: &[&[u8]]) -> bool
    requires { slot < length catalogue.now }
    ensures { result ≡ are_valid (description_at catalogue.now slot) (texts_of words.now) }
{
    takes_words(catalogue.params(slot), words)
}
