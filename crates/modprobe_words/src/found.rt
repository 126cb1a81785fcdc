//! Which option a long word stands for.
ghost use Rattle.std.specs.Prelude.{◌≡◌, find};
ghost use Rattle.std.specs.List.{list_all};
ghost use Rattle.modprobe_words.specs.Options.{long_options};
ghost use Rattle.modprobe_words.specs.Found.{found_long, is_alike, is_exact, is_near};

use crate::options::{LONG_OPTIONS, LongOption};
use text_parts::is_same;

/// What a long word stands for.
#[derive(Clone, Copy)]
pub(crate) enum Found {
    One(LongOption),
    /// It is the beginning of options that mean different things.
    Ambiguous,
    Unknown,
}

#[tactic(auto, unfolding(crate::specs::Options::long_options))]
fn exact(word: &[u8]) -> Option<LongOption>
    ensures { result ≡ find (is_exact word.now) long_options }
{
    LONG_OPTIONS
        .iter()
        .copied()
        .find(|option| is_same(option.word(), word))
}

/// Whether the word is a beginning of the option's that may stand for it.
pub(crate) fn is_near(word: &[u8], option: LongOption) -> bool
    ensures { result ≡ is_near word.now option }
{
    option.may_be_cut() && option.word().starts_with(word)
}

#[tactic(auto, unfolding(crate::specs::Options::long_options))]
fn first_near(word: &[u8]) -> Option<LongOption>
    ensures { result ≡ find (is_near word.now) long_options }
{
    LONG_OPTIONS
        .iter()
        .copied()
        .find(|option| is_near(word, *option))
}

/// Whether the option means the same as another, or the word cannot stand for it.
pub(crate) fn is_alike(word: &[u8], other: LongOption, option: LongOption) -> bool
    ensures { result ≡ is_alike word.now other option }
{
    !is_near(word, option) || option.meaning().kind() == other.meaning().kind()
}

#[tactic(auto, unfolding(crate::specs::Options::long_options))]
fn are_alike(word: &[u8], other: LongOption) -> bool
    ensures { result ≡ list_all (is_alike word.now other) long_options }
{
    LONG_OPTIONS
        .iter()
        .copied()
        .all(|option| is_alike(word, other, option))
}

/// The option of a whole word, or of a beginning of words that all mean the same.
#[tactic(auto, unfolding(crate::specs::Found::found_long))]
pub(crate) fn found_long(word: &[u8]) -> Found
    ensures { result ≡ found_long word.now }
{
    if let Some(option) = exact(word) {
        return Found::One(option);
    }
    match first_near(word) {
        None => Found::Unknown,
        Some(option) if are_alike(word, option) => Found::One(option),
        Some(_) => Found::Ambiguous,
    }
}
