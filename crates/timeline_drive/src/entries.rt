//! A line of a report.
ghost use Rattle.std.specs.Prelude.{◌≡◌, ◌==◌, not};
ghost use Rattle.std.specs.List.{list_all};
ghost use Rattle.std.specs.Option.{option_map};
ghost use Rattle.text_parts.specs.Text.{texts_of};
ghost use Rattle.call_words.specs.Calls.{said_in};
ghost use Rattle.timeline_drive.specs.Entries.{entry_in, found_in, marked_in, times_in, is_shown_name, call_of, last_of, effect_of, is_ordered, after, marked_of, times_of, entry_of};

use crate::numbers::{LAST_THREAD, decimal_within, index_of, thread_of};
use call_words::{ReplyWord, Said, Verb};
use text_parts::{is_name, is_same};

/// Where a call takes effect, and what it answers there.
#[derive(Clone, Copy, Debug, PartialEq, Eq, Drop)]
pub struct Effect {
    /// The index of the call's point.
    pub point: u32,
    pub reply: ReplyWord,
}

/// A call of a report.
#[derive(Clone, Copy, Debug, Drop)]
pub struct Entry<'a> {
    /// The call's number, from 0.
    pub number: u32,
    pub thread: u8,
    pub verb: Verb,
    /// The name of the module.
    pub name: &'a [u8],
    /// The index of the call's first step.
    pub first: u32,
    /// The index of its last step; None while the call has not returned.
    pub last: Option<u32>,
    /// None while it has not taken effect.
    pub effect: Option<Effect>,
}

/// A word, and the words after it.
#[derive(Clone, Copy, Drop)]
pub(crate) struct Found<'w, 'a> {
    pub(crate) value: &'a [u8],
    pub(crate) later: &'w [&'a [u8]],
}

/// The words that say when a call was made.
#[derive(Clone, Copy, Drop)]
pub(crate) struct Marked<'a> {
    pub(crate) first: &'a [u8],
    pub(crate) last: &'a [u8],
    pub(crate) point: &'a [u8],
    pub(crate) reply: &'a [u8],
}

/// When a call was made.
#[derive(Clone, Copy, Drop)]
struct Times {
    first: u32,
    last: Option<u32>,
    effect: Option<Effect>,
}

fn has_no_dash(word: &[u8]) -> bool
    ensures { result ≡ list_all (λ byte. not (byte == 45)) word.now }
{
    word.iter().all(|byte| *byte != b'-')
}

/// Whether the word is a module's name in normal form.
fn is_shown_name(word: &[u8]) -> bool
    ensures { result ≡ is_shown_name word.now }
{
    is_name(word) && has_no_dash(word)
}

/// The call that words begin with.
pub(crate) fn call_of<'w, 'a>(words: &'w [&'a [u8]]) -> Option<Said<'w, 'a>>
    ensures { option_map said_in result ≡ call_of (texts_of words.now) }
{
    let [_, worker, ..] = words else {
        return None;
    };
    let said = call_words::call_of(words, decimal_within(LAST_THREAD, worker))?;
    is_shown_name(said.name).then_some(said)
}

pub(crate) fn last_of(word: &[u8]) -> Option<Option<u32>>
    ensures { result ≡ last_of word.now }
{
    if is_same(word, b"-") {
        return Some(None);
    }
    Some(Some(index_of(word)?))
}

pub(crate) fn effect_of(point: &[u8], reply: &[u8]) -> Option<Option<Effect>>
    ensures { result ≡ effect_of point.now reply.now }
{
    if is_same(point, b"-") && is_same(reply, b"-") {
        return Some(None);
    }
    let point = index_of(point)?;
    let reply = ReplyWord::of_word(reply)?;
    Some(Some(Effect { point, reply }))
}

/// Whether the point lies within the call; one that has returned has a point.
fn is_ordered(times: Times) -> bool
    ensures { result ≡ is_ordered (times_in times) }
{
    match (times.effect, times.last) {
        (Some(effect), Some(last)) => times.first <= effect.point && effect.point <= last,
        (Some(effect), None) => times.first <= effect.point,
        (None, last) => last.is_none(),
    }
}

/// The word after a mark with which words begin, and the words after it.
pub(crate) fn after<'w, 'a>(mark: &[u8], words: &'w [&'a [u8]]) -> Option<Found<'w, 'a>>
    ensures { option_map found_in result ≡ after mark.now (texts_of words.now) }
{
    match words {
        [word, value, later @ ..] if is_same(word, mark) => Some(Found { value, later }),
        _ => None,
    }
}

/// The words after a call, each behind its mark.
pub(crate) fn marked_of<'a>(words: &[&'a [u8]]) -> Option<Marked<'a>>
    ensures { option_map marked_in result ≡ marked_of (texts_of words.now) }
{
    let first = after(b"first", words)?;
    let last = after(b"last", first.later)?;
    let point = after(b"point", last.later)?;
    let reply = after(b"reply", point.later)?;
    if !reply.later.is_empty() {
        return None;
    }
    Some(Marked {
        first: first.value,
        last: last.value,
        point: point.value,
        reply: reply.value,
    })
}

/// The times in the words after a call.
fn times_of(words: &[&[u8]]) -> Option<Times>
    ensures { option_map times_in result ≡ times_of (texts_of words.now) }
{
    let marked = marked_of(words)?;
    let times = Times {
        first: index_of(marked.first)?,
        last: last_of(marked.last)?,
        effect: effect_of(marked.point, marked.reply)?,
    };
    if is_ordered(times) { Some(times) } else { None }
}

/// The entry that the words of a line are; None if they are none.
pub(crate) fn entry_of<'a>(words: &[&'a [u8]]) -> Option<Entry<'a>>
    ensures { option_map entry_in result ≡ entry_of (texts_of words.now) }
{
    let found = after(b"call", words)?;
    let [thread, call @ ..] = found.later else {
        return None;
    };
    let number = index_of(found.value)?;
    let thread = thread_of(thread)?;
    let said = call_of(call)?;
    let times = times_of(said.later)?;
    Some(Entry {
        number,
        thread,
        verb: said.verb,
        name: said.name,
        first: times.first,
        last: times.last,
        effect: times.effect,
    })
}
