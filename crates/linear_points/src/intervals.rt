//! The intervals of a run's calls.
ghost use Rattle.std.specs.Prelude.{◌≡◌, ◌≤◌, ◌↔◌, IsTrue, IfSome, length, map, IfOk, OnOk, MatchOption};
ghost use Rattle.linear_points.specs.Interval.{AreIntervals};
ghost use Rattle.linear_points.specs.Noted.{AreNumberedFrom, calls_made, noted, with_end, ReturnsBelow};

use dep_index::{Call, Reply};
use std::alloc::{AllocError, Global};
use step_core::{Event, Step};

/// The last step of a call, at which it returned, and its reply.
#[derive(Clone, Copy, Debug, PartialEq, Eq, Drop)]
pub struct End {
    pub index: usize,
    pub reply: Reply,
}

/// A call of a run, with the index of its first step, at which it was invoked, and where it returned, its end.
#[derive(Clone, Copy, Debug, PartialEq, Eq, Drop)]
pub struct Interval {
    pub call: Call,
    pub first: usize,
    pub end: Option<End>,
}

impl Interval {
    /// Whether the index lies in the interval; an open call goes on.
    pub(crate) fn contains(&self, index: usize) -> bool
        ensures { IsTrue result ↔ ((self.now.first ≤ index) × IfSome self.now.end (λ end. index ≤ end.index)) }
    {
        match self.end {
            None => self.first <= index,
            Some(end) => self.first <= index && index <= end.index,
        }
    }

    /// Whether a call that has this reply at its point may be the one that returned.
    pub(crate) fn returns(&self, reply: Reply) -> bool
        ensures { IsTrue result ↔ IfSome self.now.end (λ end. reply ≡ end.reply) }
    {
        match self.end {
            None => true,
            Some(end) => reply == end.reply,
        }
    }

    /// Whether the call may have so many points: one if it returned, at most one if it is open.
    pub(crate) fn may_have(&self, points: usize) -> bool
        ensures { IsTrue result ↔ MatchOption self.now.end (points ≤ 1) (λ end. points ≡ 1) }
    {
        match self.end {
            None => points <= 1,
            Some(_) => points == 1,
        }
    }

    /// Notes that the call returns; only the first time counts.
    fn note_end(&mut self, index: usize, reply: Reply)
        ensures { self.new ≡ with_end self.old index reply }
    {
        if self.end.is_none() {
            self.end = Some(End { index, reply });
        }
    }
}

/// The intervals of the calls that steps with these events make, by the calls' numbers.
pub fn intervals(
    alloc: Global,
    steps: &[Step],
    events: &[Event],
) -> Result<Vec<Interval>, AllocError>
    requires numbered { AreNumberedFrom 0 steps.now events.now }
    requires same { length steps.now ≡ length events.now }
    ensures calls { IfOk result (λ found. map (λ i. i.call) found.items ≡ calls_made steps.now events.now) }
    ensures intervals { IfOk result (λ found. AreIntervals events.now found.items) }
{
    let mut found: Vec<Interval> = Vec::new(alloc);
    for (index, event) in events.iter().enumerate() {
        note(&mut found, index, steps[index], *event)?;
    }
    Ok(found)
}

/// A call that is invoked gets its interval, and a call that returns ends its own.
fn note(found: &mut Vec<Interval>, index: usize, step: Step, event: Event) -> Result<(), AllocError>
    requires { ReturnsBelow (length found.old.items) event }
    ensures { OnOk result (found.new.items ≡ noted found.old.items index step event) }
{
    match event {
        Event::Invoked(_) => {
            if let Step::Invoke(_, call) = step {
                found.push(Interval {
                    call,
                    first: index,
                    end: None,
                })?;
            }
        }
        Event::Returned(number, reply) => found[number].note_end(index, reply),
        _ => {}
    }
    Ok(())
}
