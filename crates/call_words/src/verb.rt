//! What a call does to its module, in words.
ghost use Rattle.std.specs.Prelude.{◌≡◌, ◌++◌, OnOk, Some, decimal};
ghost use Rattle.std.specs.Option.{option_map};
ghost use Rattle.text_parts.specs.Text.{texts_of};
ghost use Rattle.call_words.specs.Calls.{verb_in, call_on, word_of, end_word, call_text, verb_alone, load_end, on_name, said_in, call_of};

use dep_index::Call;
use itoa::Buffer;
use std::alloc::AllocError;
use text_parts::is_same;

/// A call, but for its module.
#[derive(Clone, Copy, Debug, PartialEq, Eq, Drop)]
pub enum Verb {
    /// A worker takes a reference.
    Get(usize),
    /// A worker gives a reference back.
    Put(usize),
    Query,
    BeginLoad,
    /// A load ends, and whether with success.
    EndLoad(bool),
    BeginDrain,
    BeginRemove,
    EndRemove,
    CancelRemove,
}

/// A call on the module of a name, and the words after it.
#[derive(Clone, Copy, Drop)]
pub struct Said<'w, 'a> {
    pub verb: Verb,
    pub name: &'a [u8],
    pub later: &'w [&'a [u8]],
}

/// The verbs that a name alone follows.
const ALONE: [Verb; 6] = [
    Verb::Query,
    Verb::BeginLoad,
    Verb::BeginDrain,
    Verb::BeginRemove,
    Verb::EndRemove,
    Verb::CancelRemove,
];

fn push_number(text: &mut Vec<u8>, number: usize) -> Result<(), AllocError>
    ensures { OnOk result (text.new.items ≡ text.old.items ++ decimal number) }
{
    let mut buffer = Buffer::new();
    text.extend_from_slice(buffer.format(number).as_bytes())
}

fn end_word(ok: bool) -> &'static [u8]
    ensures { result.now ≡ end_word ok }
{
    if ok { b"ok" } else { b"fail" }
}

impl Verb {
    /// The verb of a call.
    pub fn of(call: Call) -> Verb
        ensures { result ≡ verb_in call }
    {
        match call {
            Call::Get(worker, _) => Verb::Get(worker),
            Call::Put(worker, _) => Verb::Put(worker),
            Call::InUse(_) => Verb::Query,
            Call::BeginLoad(_) => Verb::BeginLoad,
            Call::EndLoad(_, ok) => Verb::EndLoad(ok),
            Call::BeginDrain(_) => Verb::BeginDrain,
            Call::BeginRemove(_) => Verb::BeginRemove,
            Call::EndRemove(_) => Verb::EndRemove,
            Call::CancelRemove(_) => Verb::CancelRemove,
        }
    }

    /// The call on the module of a slot.
    pub fn on(self, slot: usize) -> Call
        ensures { result ≡ call_on self slot }
    {
        match self {
            Verb::Get(worker) => Call::Get(worker, slot),
            Verb::Put(worker) => Call::Put(worker, slot),
            Verb::Query => Call::InUse(slot),
            Verb::BeginLoad => Call::BeginLoad(slot),
            Verb::EndLoad(ok) => Call::EndLoad(slot, ok),
            Verb::BeginDrain => Call::BeginDrain(slot),
            Verb::BeginRemove => Call::BeginRemove(slot),
            Verb::EndRemove => Call::EndRemove(slot),
            Verb::CancelRemove => Call::CancelRemove(slot),
        }
    }

    /// The first word of the call.
    fn word(self) -> &'static [u8]
        ensures { result.now ≡ word_of self }
    {
        match self {
            Verb::Get(_) => b"get",
            Verb::Put(_) => b"put",
            Verb::Query => b"query",
            Verb::BeginLoad => b"begin_load",
            Verb::EndLoad(_) => b"end_load",
            Verb::BeginDrain => b"begin_drain",
            Verb::BeginRemove => b"begin_remove",
            Verb::EndRemove => b"end_remove",
            Verb::CancelRemove => b"cancel_remove",
        }
    }

    /// Adds the call on the module of a name.
    pub fn push(self, text: &mut Vec<u8>, name: &[u8]) -> Result<(), AllocError>
        ensures { OnOk result (text.new.items ≡ text.old.items ++ call_text self name.now) }
    {
        text.extend_from_slice(self.word())?;
        text.push(b' ')?;
        match self {
            Verb::Get(worker) | Verb::Put(worker) => {
                push_number(text, worker)?;
                text.push(b' ')?;
                text.extend_from_slice(name)
            }
            Verb::EndLoad(ok) => {
                text.extend_from_slice(name)?;
                text.push(b' ')?;
                text.extend_from_slice(end_word(ok))
            }
            _ => text.extend_from_slice(name),
        }
    }
}

fn verb_alone(word: &[u8]) -> Option<Verb>
    ensures { result ≡ verb_alone word.now }
{
    ALONE
        .iter()
        .copied()
        .find(|verb| is_same(word, verb.word()))
}

fn load_end(word: &[u8]) -> Option<bool>
    ensures { result ≡ load_end word.now }
{
    if is_same(word, b"ok") {
        Some(true)
    } else if is_same(word, b"fail") {
        Some(false)
    } else {
        None
    }
}

fn on_name<'w, 'a>(verb: Verb, name: &'a [u8], later: &'w [&'a [u8]]) -> Option<Said<'w, 'a>>
    ensures { option_map said_in result ≡ on_name (Some verb) name.now (texts_of later.now) }
{
    Some(Said { verb, name, later })
}

/// The call that words begin with. A get or a put is of this worker, whose word stands before the name.
pub fn call_of<'w, 'a>(words: &'w [&'a [u8]], worker: Option<u64>) -> Option<Said<'w, 'a>>
    ensures { option_map said_in result ≡ call_of (texts_of words.now) worker }
{
    match words {
        [word, name] => on_name(verb_alone(word)?, name, &words[2..]),
        [word, _, name, later @ ..] if is_same(word, b"get") => {
            on_name(Verb::Get(worker? as usize), name, later)
        }
        [word, _, name, later @ ..] if is_same(word, b"put") => {
            on_name(Verb::Put(worker? as usize), name, later)
        }
        [word, name, end, later @ ..] if is_same(word, b"end_load") => {
            on_name(Verb::EndLoad(load_end(end)?), name, later)
        }
        [word, name, later @ ..] => on_name(verb_alone(word)?, name, later),
        _ => None,
    }
}
