//! The first step of a call on its slot's word.
ghost use Rattle.std.specs.Prelude.{ℕ, ◌≡◌, ◌<◌, ◌^◌, ◌==◌, if◌then◌else◌, length, slice_index};
ghost use Rattle.dep_index.specs.declared.table.calls.Call.TheVariants.{Put};
ghost use Rattle.dep_index.specs.Table.{count_of};
ghost use Rattle.dep_index.specs.Calls.{slot_of, IsInRange};
ghost use Rattle.dep_index.specs.Words.{word_step, book_step, closed};

use crate::state::State;
use dep_index::{Book, Call, Reply, Slots, WordStep, reads, words};

// Closed becomes Open 0.
fn opened(word: u64) -> u64
    ensures { result ≡ (if word == closed then 0 else word) }
{
    if word == words::CLOSED { 0 } else { word }
}

/// The step of a call that the book does not refuse.
fn book_step(book: &Book, call: Call, word: u64) -> WordStep
    requires { word < 2 ^ 34 }
    ensures { result ≡ book_step book.now call word }
{
    match call {
        Call::EndLoad(_, true) => words::takes_effect(opened(word), Reply::Done),
        Call::BeginDrain(_) => words::takes_effect(word + words::DRAINED, Reply::Done),
        Call::BeginRemove(_) => words::close_step(0, word),
        Call::EndRemove(slot) if reads::is_draining(book.state(slot)) => {
            words::close_step(words::DRAINED, word)
        }
        Call::CancelRemove(slot) if reads::is_draining(book.state(slot)) => {
            words::takes_effect(word.saturating_sub(words::DRAINED), Reply::Done)
        }
        Call::CancelRemove(_) => words::takes_effect(opened(word), Reply::Done),
        _ => words::takes_effect(word, Reply::Done),
    }
}

impl State {
    /// The first step of a call on its slot's word.
    pub(crate) fn word_step(&self, slots: &Slots, call: Call) -> WordStep
        requires range { IsInRange (length slots.now) (length self.now.written.rows) call }
        requires small { slice_index self.now.words (slot_of call) < 2 ^ 34 }
        requires held { (w m : ℕ) → call ≡ Put w m → count_of self.now.written w m ≡ 1 → 0 < slice_index self.now.words m }
        ensures { result ≡ word_step slots.now self.now.written call (slice_index self.now.words (slot_of call)) }
    {
        let word = self.word(call.slot());
        match call {
            Call::Get(worker, slot) => words::get_look(self.counts.count(worker, slot), word),
            Call::Put(worker, slot) => words::put_step(self.counts.count(worker, slot), word),
            Call::InUse(_) => words::query_look(word),
            _ => match self.book.refusal(slots, call) {
                Some(reply) => words::takes_effect(word, reply),
                None => book_step(&self.book, call, word),
            },
        }
    }
}
