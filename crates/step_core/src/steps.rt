//! The steps of the machine, and what they come to.

use dep_index::{Call, Reply};
use thiserror::Error;

/// One step of a thread, by its number.
#[derive(Clone, Copy, Debug, PartialEq, Eq, Drop)]
pub enum Step {
    /// The thread begins a call.
    Invoke(usize, Call),
    /// The thread makes the next line of its call.
    Go(usize),
}

/// What a step comes to. Calls are numbered from 0, in the order in which they were invoked.
#[derive(Clone, Copy, Debug, PartialEq, Eq, Drop)]
pub enum Event {
    /// No change: the lock is held by another thread, the thread is in no call, or it is in one already.
    Nothing,
    /// The call begins.
    Invoked(usize),
    /// A line was made at which no call takes effect.
    Moved,
    /// The call takes effect, with this reply.
    Point(usize, Reply),
    /// The call returns the reply of its point.
    Returned(usize, Reply),
}

/// Why a step is refused.
#[derive(Clone, Copy, Debug, PartialEq, Eq, Drop, Error)]
pub enum StepError {
    /// The thread is out of range.
    #[error("the thread is out of range")]
    Thread,
    /// The worker of a get or a put is out of range.
    #[error("the worker is out of range")]
    Worker,
    /// The slot is out of range.
    #[error("the slot is out of range")]
    Slot,
    /// As many calls as there may be were invoked already.
    #[error("as many calls as there may be were invoked already")]
    Calls,
}

/// The next line of a call.
#[derive(Clone, Copy, Debug, PartialEq, Eq, Drop)]
pub enum Line {
    /// Take the lock of the call.
    Lock,
    /// Make the step on the slot's word.
    Word,
    /// Exchange the word, if it is still this one, by the next.
    Exchange(u64),
    /// Write the count or the book.
    Write,
    /// Let go of the lock, and return.
    Return(Reply),
}

impl Line {
    ghost use Rattle.std.specs.Prelude.{◌≡◌};
    ghost use Rattle.step_core.specs.Machine.{first_line, line_after};

    /// The line that a call begins with.
    pub(crate) fn first(call: Call) -> Line
        ensures { result ≡ first_line call }
    {
        match call {
            Call::InUse(_) => Line::Word,
            _ => Line::Lock,
        }
    }

    /// The line after the point of a call that has this reply.
    pub(crate) fn after(reply: Reply) -> Line
        ensures { result ≡ line_after reply }
    {
        match reply {
            Reply::Done => Line::Write,
            _ => Line::Return(reply),
        }
    }
}

/// A thread's call, and the line that it makes next.
#[derive(Clone, Copy, Debug, PartialEq, Eq, Drop)]
pub struct Activity {
    /// The number of the call, from 0, in the order in which calls were invoked.
    pub number: usize,
    /// The call.
    pub call: Call,
    /// The line that the thread makes next.
    pub line: Line,
}
