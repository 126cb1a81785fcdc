//! Each step of a schedule at which a call begins, takes effect or returns, and steps that are refused.

use crate::plays::schedules;
use crate::rows::none_is_wrong;
use crate::schedule::{Schedule, steps_of};
use crate::sound::sound;
use std::alloc::Global;
use std::test::Fail;
use step_core::{Call, Event, Machine, Reply, Step, StepError};

/// The machine with 2 workers over snd, and snd_pcm, which needs it.
fn machine(alloc: Global, threads: usize, calls: usize) -> Result<Machine, Fail> {
    Ok(Machine::new(alloc, &sound(alloc)?, 2, threads, calls)?)
}

/// Whether the calls of a schedule begin, take effect and return at these steps of it.
fn makes(machine: &mut Machine, steps: &[Step], schedule: &Schedule) -> bool {
    for (index, step) in steps.iter().enumerate() {
        let event = match machine.step(*step) {
            Ok(Event::Nothing | Event::Moved) => None,
            Ok(event) => Some(event),
            Err(_) => return false,
        };
        if event != schedule.event(index) {
            return false;
        }
    }
    true
}

/// Whether the calls of a schedule begin, take effect and return at their steps.
fn has_calls(alloc: Global, schedule: &Schedule) -> Result<bool, Fail> {
    let steps = steps_of(alloc, schedule.plays)?;
    let mut machine = machine(alloc, schedule.threads, steps.len())?;
    Ok(makes(&mut machine, &steps, schedule))
}

/// The first schedule with other calls.
fn wrong_schedule(alloc: Global) -> Result<Option<&'static str>, Fail> {
    for schedule in &schedules() {
        if !has_calls(alloc, schedule)? {
            return Ok(Some(schedule.name));
        }
    }
    Ok(None)
}

#[test]
fn schedules_have_their_calls(rt: HostRuntime) -> Result<(), Fail> {
    none_is_wrong(&rt, wrong_schedule(rt.alloc())?);
    Ok(())
}

/// Steps of a machine of one thread and one call, with what each comes to.
static STEPS: [(Step, Result<Event, StepError>); 11] = [
    (Step::Go(1), Err(StepError::Thread)),
    (Step::Invoke(1, Call::Get(2, 2)), Err(StepError::Thread)),
    (Step::Invoke(0, Call::Get(2, 2)), Err(StepError::Worker)),
    (Step::Invoke(0, Call::Get(0, 2)), Err(StepError::Slot)),
    (Step::Go(0), Ok(Event::Nothing)),
    (Step::Invoke(0, Call::Get(0, 0)), Ok(Event::Invoked(0))),
    (Step::Invoke(0, Call::Get(0, 0)), Ok(Event::Nothing)),
    (Step::Go(0), Ok(Event::Moved)),
    (Step::Go(0), Ok(Event::Point(0, Reply::NotLive))),
    (Step::Go(0), Ok(Event::Returned(0, Reply::NotLive))),
    (Step::Invoke(0, Call::InUse(0)), Err(StepError::Calls)),
];

/// The first step that comes to something else.
fn wrong_step(machine: &mut Machine) -> Option<usize> {
    for (index, (step, want)) in STEPS.iter().enumerate() {
        if machine.step(*step) != *want {
            return Some(index);
        }
    }
    None
}

#[test]
fn refuses_what_is_out_of_range(rt: HostRuntime) -> Result<(), Fail> {
    let mut machine = machine(rt.alloc(), 1, 1)?;
    none_is_wrong(&rt, wrong_step(&mut machine));
    Ok(())
}
