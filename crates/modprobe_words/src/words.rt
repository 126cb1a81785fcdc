//! The words of a command line.
ghost use Rattle.std.specs.Prelude.{◌≡◌, ◌++◌, [], IfOk, OnOk, map};
ghost use Rattle.text_parts.specs.Text.{texts_of};
ghost use Rattle.modprobe_words.specs.Words.{is_end, items, items_from, items_of, letters_read, next_read, operand, step_of, word_read};

use crate::items::{Asker, Fault, Item, Waiting};
use crate::long_words::{Step, long_read};
use crate::options::{Meaning, meaning_of_letter};
use std::alloc::{AllocError, Global};
use text_parts::is_same;

/// Adds what was read. Returns an option whose value is the next word.
fn push_step<'a>(items: &mut Vec<Item<'a>>, step: Step<'a>) -> Result<Option<Waiting>, AllocError>
    ensures items { OnOk result (items_of items.new.items ≡ items_of items.old.items ++ (step_of step.entry).items) }
    ensures waiting { IfOk result (λ waiting. waiting ≡ (step_of step.entry).waiting) }
{
    match step {
        Step::Ready(item) => {
            items.push(item)?;
            Ok(None)
        }
        Step::Waits(waiting) => Ok(Some(waiting)),
    }
}

/// Adds what joined letters say.
fn push_letters<'a>(
    items: &mut Vec<Item<'a>>,
    letters: &'a [u8],
) -> Result<Option<Waiting>, AllocError>
    ensures items { OnOk result (items_of items.new.items ≡ items_of items.old.items ++ (letters_read letters.entry.now).items) }
    ensures waiting { IfOk result (λ waiting. waiting ≡ (letters_read letters.entry.now).waiting) }
{
    let mut rest = letters;
    while let Some((letter, later)) = rest.split_first() {
        let last = match meaning_of_letter(*letter) {
            Some(Meaning::Plain(switch)) => {
                items.push(Item::Plain(switch))?;
                rest = later;
                continue;
            }
            None => Step::Ready(Item::Refused(Fault::BadLetter(*letter))),
            Some(Meaning::WithValue(valued)) if later.is_empty() => Step::Waits(Waiting {
                valued,
                asker: Asker::ByLetter(*letter),
            }),
            Some(Meaning::WithValue(valued)) => Step::Ready(Item::WithValue(valued, later)),
        };
        return push_step(items, last);
    }
    Ok(None)
}

/// Adds what a word says that is not `--`.
#[tactic(auto, unfolding(crate::specs::Words::word_read))]
fn push_word<'a>(items: &mut Vec<Item<'a>>, word: &'a [u8]) -> Result<Option<Waiting>, AllocError>
    ensures items { OnOk result (items_of items.new.items ≡ items_of items.old.items ++ (word_read word.entry.now).items) }
    ensures waiting { IfOk result (λ waiting. waiting ≡ (word_read word.entry.now).waiting) }
{
    if word.starts_with(b"--") {
        push_step(items, long_read(&word[2..]))
    } else if word.starts_with(b"-") && word.len() > 1 {
        push_letters(items, &word[1..])
    } else {
        push_step(items, Step::Ready(Item::Operand(word)))
    }
}

/// Adds words that are no options.
fn push_operands<'a>(items: &mut Vec<Item<'a>>, words: &[&'a [u8]]) -> Result<(), AllocError>
    ensures { OnOk result (items_of items.new.items ≡ items_of items.old.items ++ map operand (texts_of words.entry.now)) }
{
    for word in words {
        items.push(Item::Operand(*word))?;
    }
    Ok(())
}

/// Adds what a word says that is not `--`, or is the value of the option before it.
fn push_next<'a>(
    items: &mut Vec<Item<'a>>,
    waiting: Option<Waiting>,
    word: &'a [u8],
) -> Result<Option<Waiting>, AllocError>
    ensures items { OnOk result (items_of items.new.items ≡ items_of items.old.items ++ (next_read waiting word.entry.now).items) }
    ensures waiting { IfOk result (λ later. later ≡ (next_read waiting word.entry.now).waiting) }
{
    match waiting {
        Some(asked) => push_step(items, Step::Ready(Item::WithValue(asked.valued, word))),
        None => push_word(items, word),
    }
}

/// Whether the word stands before words that are no options.
fn is_end(waiting: Option<Waiting>, word: &[u8]) -> bool
    ensures { result ≡ is_end waiting word.now }
{
    waiting.is_none() && is_same(word, b"--")
}

/// Adds that an option had no word behind it, if that is so.
fn push_wanting(items: &mut Vec<Item<'_>>, waiting: Option<Waiting>) -> Result<(), AllocError>
    ensures { OnOk result (items_of items.new.items ≡ items_of items.old.items ++ items_from waiting []) }
{
    if let Some(asked) = waiting {
        items.push(Item::Refused(asked.fault()))?;
    }
    Ok(())
}

/// What words say, in order.
pub fn read_words<'a>(alloc: Global, words: &[&'a [u8]]) -> Result<Vec<Item<'a>>, AllocError>
    ensures { IfOk result (λ list. items_of list.items ≡ items (texts_of words.entry.now)) }
{
    let mut items = Vec::new(alloc);
    let mut waiting: Option<Waiting> = None;
    for (at, word) in words.iter().enumerate() {
        if is_end(waiting, *word) {
            push_operands(&mut items, &words[at + 1..])?;
            return Ok(items);
        }
        waiting = push_next(&mut items, waiting, *word)?;
    }
    push_wanting(&mut items, waiting)?;
    Ok(items)
}
