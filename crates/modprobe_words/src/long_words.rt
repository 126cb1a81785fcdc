//! Words behind `--`.
ghost use Rattle.std.specs.Prelude.{◌≡◌, option_map};
ghost use Rattle.modprobe_words.specs.Options.{meaning_of, valued_form};
ghost use Rattle.modprobe_words.specs.Words.{long_read, name_part, option_read, step_of, value_part, with_form};

use crate::found::{Found, found_long};
use crate::items::{Asker, Fault, Item, Waiting};
use crate::options::{LongOption, Meaning, Valued};

/// What a long word says, or the option whose value is the next word.
#[derive(Clone, Copy)]
pub(crate) enum Step<'a> {
    Ready(Item<'a>),
    Waits(Waiting),
}

/// What stands before the first `=`.
pub(crate) fn name_part(text: &[u8]) -> &[u8]
    ensures { result.now ≡ name_part text.entry.now }
{
    for (at, byte) in text.iter().enumerate() {
        if *byte == b'=' {
            return &text[..at];
        }
    }
    text
}

/// What stands behind the first `=`.
fn value_part(text: &[u8]) -> Option<&[u8]>
    ensures { option_map (λ value. value.now) result ≡ value_part text.entry.now }
{
    let mut rest = text;
    while let Some((byte, later)) = rest.split_first() {
        if *byte == b'=' {
            return Some(later);
        }
        rest = later;
    }
    None
}

/// A value of an option that needs none.
fn with_form<'a>(option: LongOption, form: Option<Valued>, value: &'a [u8]) -> Step<'a>
    ensures { step_of result ≡ with_form option form value.entry.now }
{
    match form {
        Some(valued) => Step::Ready(Item::WithValue(valued, value)),
        None => Step::Ready(Item::Refused(Fault::WordTakesNone(option))),
    }
}

/// An option, and the value that was given with it.
fn option_read<'a>(option: LongOption, value: Option<&'a [u8]>) -> Step<'a>
    ensures { step_of result ≡ option_read option (meaning_of option) (option_map (λ value. value.now) value.entry) }
{
    match (option.meaning(), value) {
        (Meaning::Plain(switch), None) => Step::Ready(Item::Plain(switch)),
        (Meaning::Plain(_), Some(value)) => with_form(option, option.valued_form(), value),
        (Meaning::WithValue(valued), None) => Step::Waits(Waiting {
            valued,
            asker: Asker::ByWord(option),
        }),
        (Meaning::WithValue(valued), Some(value)) => Step::Ready(Item::WithValue(valued, value)),
    }
}

/// What stands behind `--` says.
#[tactic(auto, unfolding(crate::specs::Words::long_read))]
pub(crate) fn long_read(text: &[u8]) -> Step<'_>
    ensures { step_of result ≡ long_read text.entry.now }
{
    match found_long(name_part(text)) {
        Found::Unknown => Step::Ready(Item::Refused(Fault::UnknownWord(text))),
        Found::Ambiguous => Step::Ready(Item::Refused(Fault::AmbiguousWord(text))),
        Found::One(option) => option_read(option, value_part(text)),
    }
}
