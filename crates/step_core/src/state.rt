//! The state of a machine: why a step is refused, and how a call begins.
ghost use Rattle.std.specs.Prelude.{◌≡◌, ◌<◌, length, slice_index, IfNone, IfOk};
ghost use Rattle.dep_index.specs.Calls.{worker_of};

use crate::holders::Holders;
use crate::steps::{Activity, Event, Line, Step, StepError};
use dep_index::{Book, Call, Slots, words};
use seq_table::Counts;
use std::alloc::{AllocError, Global};
use std::marker::Model;

/// Book, counts, words, locks and threads. Contracts see them as a state of the machine.
pub struct State {
    pub(crate) book: Book,
    pub(crate) counts: Counts,
    words: Vec<u64>,
    pub(crate) locks: Holders,
    pub(crate) threads: Vec<Option<Activity>>,
    invoked: usize,
    calls: usize,
}

// By hand, since a derived drop is written out, and proved, at each place where a value is let go.
impl Drop for State {
    fn drop(self) {
        let State {
            book: _,
            counts: _,
            words: _,
            locks: _,
            threads: _,
            invoked: _,
            calls: _,
        } = self;
    }
}

impl Model for State {
    ghost use Rattle.step_core.specs.Machine.{State};

    ghost Value = { State };

    ghost view = { λ s. record {
      written = record { book = s.book; rows = s.counts };
      words = s.words.items;
      locks = s.locks;
      threads = s.threads.items;
      invoked = s.invoked;
      calls = s.calls;
    } };
}

impl State {
    ghost use Rattle.step_core.specs.Machine.{start, activity, at_line, with_word, step_refusal, invoke, worker_exists};

    /// The opening state.
    pub fn new(
        alloc: Global,
        slots: &Slots,
        workers: usize,
        threads: usize,
        calls: usize,
    ) -> Result<State, AllocError>
        ensures { IfOk result (λ state. state ≡ start slots.now workers threads calls) }
    {
        let count = slots.len();
        Ok(State {
            book: Book::new(alloc, slots)?,
            counts: Counts::new(alloc, workers, count)?,
            words: vec![in alloc; words::CLOSED; count]?,
            locks: Holders::new(alloc, workers)?,
            threads: vec![in alloc; None; threads]?,
            invoked: 0,
            calls,
        })
    }

    pub(crate) fn activity(&self, thread: usize) -> Option<Activity>
        ensures { result ≡ activity self.now thread }
    {
        self.threads.get(thread).copied().flatten()
    }

    pub(crate) fn word(&self, slot: usize) -> u64
        ensures { result ≡ slice_index self.now.words slot }
    {
        self.words.get(slot).copied().unwrap_or(0)
    }

    pub(crate) fn set_line(&mut self, thread: usize, activity: Activity, line: Line)
        requires { thread < length self.old.threads }
        ensures { self.new ≡ at_line self.old thread activity line }
    {
        self.threads[thread] = Some(Activity { line, ..activity });
    }

    pub(crate) fn set_word(&mut self, slot: usize, word: u64)
        requires { slot < length self.old.words }
        ensures { self.new ≡ with_word self.old slot word }
    {
        self.words[slot] = word;
    }

    /// Why a step is refused.
    pub fn refusal(&self, slots: &Slots, step: Step) -> Option<StepError>
        ensures { result ≡ step_refusal slots.now self.now step }
    {
        let (Step::Invoke(thread, _) | Step::Go(thread)) = step;
        if thread >= self.threads.len() {
            return Some(StepError::Thread);
        }
        let Step::Invoke(_, call) = step else {
            return None;
        };
        if !self.has_worker(call) {
            return Some(StepError::Worker);
        }
        if call.slot() >= slots.len() {
            return Some(StepError::Slot);
        }
        if self.activity(thread).is_some() || self.invoked < self.calls {
            None
        } else {
            Some(StepError::Calls)
        }
    }

    fn has_worker(&self, call: Call) -> bool
        ensures { result ≡ worker_exists self.now (worker_of call) }
    {
        match call {
            Call::Get(worker, _) | Call::Put(worker, _) => worker < self.counts.workers(),
            _ => true,
        }
    }

    /// A thread begins a call, if it is in none.
    pub fn invoke(&mut self, thread: usize, call: Call) -> Event
        requires thread { thread < length self.old.threads }
        requires room { IfNone (activity self.old thread) (self.old.invoked < self.old.calls) }
        ensures event { result ≡ (invoke self.old thread call (activity self.old thread)).0 }
        ensures state { self.new ≡ (invoke self.old thread call (activity self.old thread)).1 }
    {
        match self.activity(thread) {
            Some(_) => Event::Nothing,
            None => {
                let number = self.invoked;
                prove!(number < self.calls);
                let line = Line::first(call);
                self.threads[thread] = Some(Activity { number, call, line });
                self.invoked = number + 1;
                Event::Invoked(number)
            }
        }
    }
}
