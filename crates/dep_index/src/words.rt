//! What one step on a root word does. A Live module's word is the number of workers that hold it, a Draining one's
//! `DRAINED` and that number, every other `CLOSED`.
ghost use Rattle.std.specs.Prelude.{◌≡◌, ◌<◌, ◌+◌, ◌≤◌, ◌^◌};
ghost use Rattle.dep_index.specs.Words.{get_look, put_step, query_look, shows_holders, close_step, takes_effect};

use crate::table::calls::Reply;

/// What a step on a word comes to.
#[derive(Clone, Copy, Debug, PartialEq, Eq, Drop)]
pub enum Outcome {
    /// The call takes effect, with this reply.
    Effect(Reply),
    /// The call goes on to exchange this word.
    GoesOn(u64),
}

/// The word after a step, and what the step comes to.
#[derive(Clone, Copy, Debug, PartialEq, Eq, Drop)]
pub struct WordStep {
    /// The word after the step.
    pub word: u64,
    /// What the step comes to.
    pub outcome: Outcome,
}

/// The word of a module that is neither live nor draining.
pub const CLOSED: u64 = 1 << 32;

/// What is added to the word of a module that drains.
pub const DRAINED: u64 = 1 << 33;

/// A get's load of the word, by a leaf that holds the slot `count` times: it goes on to an exchange if the leaf
/// holds no reference yet.
pub fn get_look(count: u16, word: u64) -> WordStep
    ensures { result ≡ get_look count word }
{
    let outcome = if word >= CLOSED {
        Outcome::Effect(Reply::NotLive)
    } else if count == 0 {
        Outcome::GoesOn(word)
    } else if count < u16::MAX {
        Outcome::Effect(Reply::Done)
    } else {
        Outcome::Effect(Reply::TooMany)
    };
    WordStep { word, outcome }
}

/// The step of a put, by a leaf that holds the slot `count` times: the last reference departs from the word.
pub fn put_step(count: u16, word: u64) -> WordStep
    requires { count ≡ 1 → 0 < word }
    ensures { result ≡ put_step count word }
{
    match count {
        0 => takes_effect(word, Reply::NotHeld),
        1 => takes_effect(word - 1, Reply::Done),
        _ => takes_effect(word, Reply::Done),
    }
}

/// A query's load of the word.
pub fn query_look(word: u64) -> WordStep
    ensures { result ≡ query_look word }
{
    let reply = Reply::of_query(shows_holders(word));
    takes_effect(word, reply)
}

/// Whether a word says that some worker holds its module, Live or Draining.
pub fn shows_holders(word: u64) -> bool
    ensures { result ≡ shows_holders word }
{
    if word < CLOSED {
        word > 0
    } else {
        word > DRAINED
    }
}

/// The call takes effect, and leaves this word.
pub fn takes_effect(word: u64, reply: Reply) -> WordStep
    ensures { result ≡ takes_effect word reply }
{
    let outcome = Outcome::Effect(reply);
    WordStep { word, outcome }
}

/// Exchanges the expected word for the closed one; if another word is found, there are references.
pub fn close_step(expected: u64, word: u64) -> WordStep
    ensures { result ≡ close_step expected word }
{
    if word == expected {
        takes_effect(CLOSED, Reply::Done)
    } else {
        takes_effect(word, Reply::InUse)
    }
}
