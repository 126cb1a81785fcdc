//! A schedule that begins with the load of snd: what its threads are told, and the calls that come of it.

use crate::sound::SND;
use Play::{Go, Invoke};
use dep_index::{Call, Reply};
use std::alloc::{AllocError, Global};
use step_core::{Event, Step};

/// What a thread is told: to begin a call, or to make so many lines of it.
pub(crate) enum Play {
    Invoke(usize, Call),
    Go(usize, usize),
}

/// A call: the step that invokes it, the step of its point with its reply, and the step that returns it.
type Course = (usize, Option<(usize, Reply)>, Option<usize>);

/// What the threads are told behind the load of snd, and the calls from number 2 on.
pub(crate) struct Schedule {
    pub(crate) name: &'static str,
    pub(crate) threads: usize,
    pub(crate) plays: &'static [Play],
    pub(crate) calls: &'static [Course],
}

/// The first steps of a schedule, 0 to 9: snd is loaded by calls 0 and 1.
static LOADED: [Play; 4] = [
    Invoke(0, Call::BeginLoad(SND)),
    Go(0, 4),
    Invoke(0, Call::EndLoad(SND, true)),
    Go(0, 4),
];

static LOADED_CALLS: [Course; 2] = [
    (0, Some((2, Reply::Done)), Some(4)),
    (5, Some((7, Reply::Done)), Some(9)),
];

/// What the step of this index is to the call of this number.
fn event_of(call: usize, course: Course, index: usize) -> Option<Event> {
    match course {
        (first, _, _) if first == index => Some(Event::Invoked(call)),
        (_, Some((point, reply)), _) if point == index => Some(Event::Point(call, reply)),
        (_, Some((_, reply)), Some(last)) if last == index => Some(Event::Returned(call, reply)),
        _ => None,
    }
}

/// What the step of this index is to these calls, the first of which has this number.
fn event_in(first: usize, courses: &[Course], index: usize) -> Option<Event> {
    let mut call = first;
    for course in courses {
        let event = event_of(call, *course, index);
        if event.is_some() {
            return event;
        }
        call = call.saturating_add(1);
    }
    None
}

impl Schedule {
    /// What a step comes to, if a call begins, takes effect or returns there.
    pub(crate) fn event(&self, index: usize) -> Option<Event> {
        let event = event_in(0, &LOADED_CALLS, index);
        if event.is_some() {
            return event;
        }
        event_in(LOADED_CALLS.len(), self.calls, index)
    }
}

fn add_steps(steps: &mut Vec<Step>, plays: &[Play]) -> Result<(), AllocError> {
    for play in plays {
        match *play {
            Invoke(thread, call) => steps.push(Step::Invoke(thread, call))?,
            Go(thread, lines) => {
                steps.resize(steps.len().saturating_add(lines), Step::Go(thread))?;
            }
        }
    }
    Ok(())
}

/// The steps of a schedule that begins with the load of snd.
pub(crate) fn steps_of(alloc: Global, plays: &[Play]) -> Result<Vec<Step>, AllocError> {
    let mut steps = Vec::new(alloc);
    add_steps(&mut steps, &LOADED)?;
    add_steps(&mut steps, plays)?;
    Ok(steps)
}
