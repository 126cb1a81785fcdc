//! The steps of threads over a catalogue, as an input gives them.
ghost use Rattle.std.specs.Prelude.{◌≡◌, ◌≤◌, ◌++◌, [], Ok, length, replicate, IfOk, OnOk, MatchResult, Option};
ghost use Rattle.text_parts.specs.Text.{texts_of};
ghost use Rattle.step_core.specs.declared.steps.Step.TheVariants as step;
ghost use Rattle.workload_drive.specs.Schedule.Steps.{ordered, behind_steps, by_words, steps_of, made_schedule, schedule_by, schedule_of};
ghost use Rattle.workload_drive.specs.ForProofs.{Reads, statements_in, parts_in};
ghost use Rattle.workload_drive.specs.Schedule.ForProofs.{order_in, schedule_in};

use super::order::{MOST_STEPS, Order, order_of};
use crate::fault::{LineCode, ScheduleFault};
use crate::statement::{Parts, Statement, marked, read_parts, setting};
use dep_index::Catalogue;
use std::alloc::{AllocError, Global};
use step_core::Step;
use text_parts::Name;

/// The steps of threads over a catalogue, and how many workers and threads there are.
#[derive(Drop)]
pub(crate) struct Schedule {
    pub(crate) catalogue: Catalogue,
    pub(crate) workers: usize,
    pub(crate) threads: usize,
    pub(crate) steps: Vec<Step>,
}

/// Adds so many steps of a thread.
fn push_go(steps: &mut Vec<Step>, thread: usize, count: usize) -> Result<(), AllocError>
    ensures { OnOk result (steps.new.items ≡ steps.old.items ++ replicate count (step.Go thread)) }
{
    for _ in 0..count {
        steps.push(Step::Go(thread))?;
    }
    Ok(())
}

/// Adds the steps of an order to a thread, which stands at this line.
fn push_order(
    alloc: Global,
    catalogue: &Catalogue,
    steps: &mut Vec<Step>,
    line: usize,
    thread: usize,
    order: Order<'_>,
) -> Result<(), ScheduleFault>
    requires { length steps.old.items ≤ 1000000 }
    ensures { Reads (behind_steps steps.old.items line (ordered catalogue.now line thread (order_in order.entry))) (λ _. steps.new.items) result }
{
    let left = MOST_STEPS as usize - steps.len();
    match order {
        Order::Go(count) => {
            if count > left {
                return Err(ScheduleFault::at(LineCode::H3, line));
            }
            push_go(steps, thread, count)?;
        }
        Order::Make(verb, name) => {
            let name = Name::new(alloc, name)?;
            let Some(slot) = catalogue.slot(name.as_bytes()) else {
                return Err(ScheduleFault::at(LineCode::H2, line));
            };
            if left == 0 {
                return Err(ScheduleFault::at(LineCode::H3, line));
            }
            steps.push(Step::Invoke(thread, verb.on(slot)))?;
        }
    }
    Ok(())
}

/// Adds the steps of a statement.
fn push_words(
    alloc: Global,
    catalogue: &Catalogue,
    steps: &mut Vec<Step>,
    line: usize,
    words: &[&[u8]],
) -> Result<(), ScheduleFault>
    requires { length steps.old.items ≤ 1000000 }
    ensures { Reads (by_words catalogue.now steps.old.items line (texts_of words.now)) (λ _. steps.new.items) result }
{
    let Some((thread, rest)) = words.split_first() else {
        return Err(ScheduleFault::at(LineCode::H1, line));
    };
    let Some(thread) = marked(b't', thread) else {
        return Err(ScheduleFault::at(LineCode::H1, line));
    };
    let Some(order) = order_of(rest) else {
        return Err(ScheduleFault::at(LineCode::H1, line));
    };
    push_order(alloc, catalogue, steps, line, thread as usize, order)
}

/// The steps of statements.
fn steps_of(
    alloc: Global,
    catalogue: &Catalogue,
    statements: &[Statement<'_>],
) -> Result<Vec<Step>, ScheduleFault>
    ensures { Reads (steps_of catalogue.now [] (statements_in statements.now)) (λ steps. steps.items) result }
{
    let mut steps = Vec::new(alloc);
    for said in statements {
        push_words(alloc, catalogue, &mut steps, said.number, &said.words)?;
    }
    Ok(steps)
}

/// What the statements of an input say: how many workers and threads there are, and the steps.
fn said_by(alloc: Global, parts: &Parts<'_>) -> Result<(usize, usize, Vec<Step>), ScheduleFault>
    ensures few { IfOk result (λ said. said.0 ≤ 64) }
    ensures value { Reads (schedule_by (parts_in parts.now)) (λ said. made_schedule parts.now.catalogue said.0 said.1 said.2.items) result }
{
    let (workers, rest) = setting(b"workers", parts.end, &parts.statements)?;
    let (threads, rest) = setting(b"threads", parts.end, rest)?;
    let steps = steps_of(alloc, &parts.catalogue, rest)?;
    Ok((workers, threads, steps))
}

/// The schedule of an input, or its first faulty line.
pub(crate) fn read_schedule(alloc: Global, input: &[u8]) -> Result<Schedule, ScheduleFault>
    ensures few { IfOk result (λ s. s.workers ≤ 64) }
    ensures value { Reads (schedule_of input.now) schedule_in result }
{
    let parts = read_parts(alloc, b"%schedule", input)?;
    let (workers, threads, steps) = said_by(alloc, &parts)?;
    let Parts { catalogue, .. } = parts;
    Ok(Schedule {
        catalogue,
        workers,
        threads,
        steps,
    })
}
