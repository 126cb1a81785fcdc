//! Steps of the machine: 8 threads that get, put, query, remove and load over 64 modules.

use crate::figure::{print_figure, print_rate_since};
use crate::points::{MODULES, THREADS, loads};
use crate::texts::plain_catalogue;
use anyhow::Result;
use std::rt::Clock;
use std::time::Instant;
use step_core::{Call, Event, Machine, Step};

const STEPS: usize = 10_000_000;

pub fn measure<R: Print + Clock + AllocGlobal>(rt: &R) -> Result<()> {
    let catalogue = plain_catalogue(rt.alloc(), MODULES)?;
    let mut machine = Machine::new(rt.alloc(), &catalogue, THREADS, THREADS, STEPS)?;
    measure_steps(rt, &mut machine)
}

/// Loads all modules, and measures the steps behind that.
fn measure_steps<R: Print + Clock + AllocGlobal>(rt: &R, machine: &mut Machine) -> Result<()> {
    for loading in &loads(rt.alloc(), 0)? {
        machine.step(*loading)?;
    }
    let start = Instant::now(rt)?;
    let points = run(machine)?;
    print_rate_since(rt, "machine_steps", STEPS, "steps/s", start)?;
    print_figure(rt, "machine_points", points as u128, "points")
}

/// Each thread in turn makes its next line, or begins its next call. How many calls took effect.
fn run(machine: &mut Machine) -> Result<usize> {
    let mut idle = [true; THREADS];
    let mut points: usize = 0;
    for i in 0..STEPS {
        let thread = i % THREADS;
        let next = if idle[thread] {
            Step::Invoke(thread, call(thread, i / THREADS))
        } else {
            Step::Go(thread)
        };
        match machine.step(next)? {
            Event::Invoked(_) => idle[thread] = false,
            Event::Returned(_, _) => idle[thread] = true,
            Event::Point(_, _) => points = points.wrapping_add(1),
            Event::Nothing | Event::Moved => {}
        }
    }
    Ok(points)
}

/// The call that a thread begins in a round: mostly of its leaf, at times of the table.
fn call(worker: usize, round: usize) -> Call {
    let module = round / 16 * 7 % MODULES;
    match round.wrapping_add(worker) % 16 {
        0..=5 => Call::Get(worker, module),
        6..=8 => Call::InUse(module),
        9..=13 => Call::Put(worker, module),
        _ => table_call(round),
    }
}

fn table_call(round: usize) -> Call {
    let module = round / 64 % MODULES;
    match round % 4 {
        0 => Call::BeginRemove(module),
        1 => Call::EndRemove(module),
        2 => Call::BeginLoad(module),
        _ => Call::EndLoad(module, true),
    }
}
