//! Schedules of 8 threads that get, query and put over 64 modules: their points, and the judging of these.

use crate::figure::print_rate_since;
use crate::texts::plain_catalogue;
use anyhow::{Result, ensure};
use dep_index::Catalogue;
use linear_points::{check_points, points};
use std::alloc::{AllocError, Global};
use std::rt::Clock;
use std::time::Instant;
use step_core::{Call, Step};

pub const THREADS: usize = 8;

pub const MODULES: usize = 64;

/// Lines of a get, a query and a put, with the steps that begin them.
const LINES: usize = 14;

/// How many steps the schedules have.
static SIZES: [usize; 2] = [250_000, 1_000_000];

pub fn measure<R: Print + Clock + AllocGlobal>(rt: &R) -> Result<()> {
    let catalogue = plain_catalogue(rt.alloc(), MODULES)?;
    for len in &SIZES {
        let steps = schedule(rt.alloc(), *len)?;
        measure_points(rt, &catalogue, &steps)?;
    }
    Ok(())
}

/// Prints how fast the points are found, and how fast they are judged.
fn measure_points<R: Print + Clock + AllocGlobal>(
    rt: &R,
    catalogue: &Catalogue,
    steps: &[Step],
) -> Result<()> {
    let len = steps.len();
    let start = Instant::now(rt)?;
    let found = points(rt.alloc(), catalogue, THREADS, THREADS, steps)?;
    print_rate_since(rt, format_args!("points_of_{len}"), len, "steps/s", start)?;
    let start = Instant::now(rt)?;
    let is_linear = check_points(rt.alloc(), catalogue, THREADS, THREADS, steps, &found)?;
    print_rate_since(
        rt,
        format_args!("check_points_of_{len}"),
        len,
        "steps/s",
        start,
    )?;
    ensure!(is_linear, "the points are no linearization");
    Ok(())
}

/// Adds the steps of a whole call of thread 0.
fn push_call(steps: &mut Vec<Step>, call: Call) -> Result<(), AllocError> {
    let go = Step::Go(0);
    steps.extend_from_slice(&[Step::Invoke(0, call), go, go, go, go])
}

/// The steps that load all modules, in a list with room for so many.
pub fn loads(alloc: Global, len: usize) -> Result<Vec<Step>, AllocError> {
    let mut steps = Vec::with_capacity(alloc, len)?;
    for slot in 0..MODULES {
        push_call(&mut steps, Call::BeginLoad(slot))?;
        push_call(&mut steps, Call::EndLoad(slot, true))?;
    }
    Ok(steps)
}

/// All modules are loaded; then each thread in turn makes the next line of its calls.
fn schedule(alloc: Global, len: usize) -> Result<Vec<Step>, AllocError> {
    let mut steps = loads(alloc, len)?;
    for i in 0..len.saturating_sub(steps.len()) {
        steps.push(step(i % THREADS, i / THREADS))?;
    }
    Ok(steps)
}

/// What a thread does in its turn; no other thread is at its module then.
fn step(thread: usize, turn: usize) -> Step {
    let slot = thread % THREADS * 8 + turn / LINES % 8;
    match turn % LINES {
        0 => Step::Invoke(thread, Call::Get(thread, slot)),
        6 => Step::Invoke(thread, Call::InUse(slot)),
        9 => Step::Invoke(thread, Call::Put(thread, slot)),
        _ => Step::Go(thread),
    }
}
