//! What one line of a call does to a state.
ghost use Rattle.std.specs.Prelude.{◌≡◌, ◌<◌, ◌^◌, [], length};
ghost use Rattle.dep_index.specs.Calls.{slot_of, IsInRange};
ghost use Rattle.step_core.specs.declared.steps.Step.TheVariants.{Go};

use crate::state::State;
use crate::steps::{Activity, Event, Line};
use dep_index::{Outcome, Reply, Slots, WordStep};

impl State {
    ghost use Rattle.step_core.specs.Machine.{step, line, looked};
    ghost use Rattle.step_core.specs.Kept.{CanWrite};
    ghost use Rattle.step_core.specs.Sound.{IsSound};

    /// Makes the next line of a thread's call.
    pub fn go(&mut self, slots: &Slots, thread: usize) -> Event
        requires thread { thread < length self.old.threads }
        requires sound { IsSound slots.now (length self.old.written.rows) self.old }
        ensures event { result ≡ (step slots.now self.old (Go thread)).0 }
        ensures state { self.new ≡ (step slots.now self.old (Go thread)).1 }
    {
        let Some(activity) = self.activity(thread) else {
            return Event::Nothing;
        };
        match activity.line {
            Line::Lock => self.lock(thread, activity),
            Line::Word => {
                let found = self.word_step(slots, activity.call);
                self.look(thread, activity, found)
            }
            Line::Exchange(expected) => self.exchange(thread, activity, expected),
            Line::Write => self.write(thread, activity),
            Line::Return(reply) => self.finish(thread, activity, reply),
        }
    }

    // Takes the lock of a call, if no thread holds it.
    fn lock(&mut self, thread: usize, activity: Activity) -> Event
        requires thread { thread < length self.old.threads }
        requires range { IsInRange (length self.old.words) (length self.old.locks.leaves) activity.call }
        ensures event { result ≡ (line [] self.old thread activity Line.Lock).0 }
        ensures state { self.new ≡ (line [] self.old thread activity Line.Lock).1 }
    {
        if self.locks.holder(activity.call).is_some() {
            return Event::Nothing;
        }
        self.locks.set_holder(activity.call, Some(thread));
        self.set_line(thread, activity, Line::Word);
        Event::Moved
    }

    // Makes the step on the word.
    fn look(&mut self, thread: usize, activity: Activity, found: WordStep) -> Event
        requires thread { thread < length self.old.threads }
        requires slot { slot_of activity.call < length self.old.words }
        ensures event { result ≡ (looked self.old thread activity found).0 }
        ensures state { self.new ≡ (looked self.old thread activity found).1 }
    {
        self.set_word(activity.call.slot(), found.word);
        match found.outcome {
            Outcome::Effect(reply) => {
                self.set_line(thread, activity, Line::after(reply));
                Event::Point(activity.number, reply)
            }
            Outcome::GoesOn(expected) => {
                self.set_line(thread, activity, Line::Exchange(expected));
                Event::Moved
            }
        }
    }

    // Exchanges the word, if it is still the expected one, by the next.
    fn exchange(&mut self, thread: usize, activity: Activity, expected: u64) -> Event
        requires thread { thread < length self.old.threads }
        requires slot { slot_of activity.call < length self.old.words }
        requires below { expected < 2 ^ 32 }
        ensures event { result ≡ (line [] self.old thread activity (Line.Exchange expected)).0 }
        ensures state { self.new ≡ (line [] self.old thread activity (Line.Exchange expected)).1 }
    {
        let slot = activity.call.slot();
        if self.word(slot) != expected {
            self.set_line(thread, activity, Line::Word);
            return Event::Moved;
        }
        self.set_word(slot, expected + 1);
        self.set_line(thread, activity, Line::Write);
        Event::Point(activity.number, Reply::Done)
    }

    // Writes the count of a get or a put, or the book of every other call.
    fn write(&mut self, thread: usize, activity: Activity) -> Event
        requires thread { thread < length self.old.threads }
        requires write { CanWrite self.old.written activity.call }
        ensures event { result ≡ (line [] self.old thread activity Line.Write).0 }
        ensures state { self.new ≡ (line [] self.old thread activity Line.Write).1 }
    {
        self.counts.write(activity.call);
        self.book.write(activity.call);
        self.set_line(thread, activity, Line::Return(Reply::Done));
        Event::Moved
    }

    // Lets go of the lock, and returns.
    fn finish(&mut self, thread: usize, activity: Activity, reply: Reply) -> Event
        requires thread { thread < length self.old.threads }
        requires range { IsInRange (length self.old.words) (length self.old.locks.leaves) activity.call }
        ensures event { result ≡ (line [] self.old thread activity (Line.Return reply)).0 }
        ensures state { self.new ≡ (line [] self.old thread activity (Line.Return reply)).1 }
    {
        self.locks.set_holder(activity.call, None);
        self.threads[thread] = None;
        Event::Returned(activity.number, reply)
    }
}
