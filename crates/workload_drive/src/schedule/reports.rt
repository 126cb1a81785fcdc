//! The report of a schedule.
ghost use Rattle.std.specs.Prelude.{◌≡◌, ◌<◌, ◌≤◌, ◌++◌, ℕ, None, OnOk, IfOk, IfErr, length, slice_index_or};
ghost use Rattle.std.specs.Option.{option_map};
ghost use Rattle.step_core.specs.declared.steps.Step.TheVariants as step;
ghost use Rattle.workload_drive.specs.Schedule.Report.{name_at, call_head, steps_text, thread_of, point_of, point_text, IsReport, Reports, Refuses};
ghost use Rattle.workload_drive.specs.Schedule.ForProofs.{with_point, interval_line, interval_lines, schedule_in, Stops};

use super::steps::{Schedule, read_schedule};
use crate::fault::ScheduleFault;
use call_words::{ReplyWord, Verb};
use dep_index::{Call, Catalogue};
use linear_points::{Interval, Point, run_trace};
use proc_modules::push_number;
use std::alloc::{AllocError, Global};
use step_core::Step;

/// The thread of the step of this index; past the end it is 0.
fn thread_at(steps: &[Step], index: usize) -> usize
    ensures { result ≡ thread_of (slice_index_or steps.now index (step.Go 0)) }
{
    match steps.get(index) {
        Some(Step::Invoke(thread, _)) => *thread,
        Some(Step::Go(thread)) => *thread,
        None => 0,
    }
}

/// Notes a point, if its call has none yet.
fn note_point(taken: &mut Vec<Option<Point>>, point: Point)
    ensures { taken.new.items ≡ with_point taken.old.items point }
{
    if point.call < taken.len() && taken[point.call].is_none() {
        taken[point.call] = Some(point);
    }
}

/// The points of the calls by their numbers, below so many.
fn points_by_call(
    alloc: Global,
    calls: usize,
    points: &[Point],
) -> Result<Vec<Option<Point>>, AllocError>
    ensures len { IfOk result (λ taken. length taken.items ≡ calls) }
    ensures points { IfOk result (λ taken. (n : ℕ) → n < calls → slice_index_or taken.items n None ≡ point_of points.now n) }
{
    let mut taken: Vec<Option<Point>> = vec![in alloc; None; calls]?;
    for point in points {
        note_point(&mut taken, *point);
    }
    Ok(taken)
}

/// The name of the module in a slot; of a slot past the end it is empty.
pub(crate) fn name_at(catalogue: &Catalogue, slot: usize) -> &[u8]
    ensures { result.now ≡ name_at catalogue.now slot }
{
    if slot < catalogue.len() {
        catalogue.name(slot)
    } else {
        b""
    }
}

/// Adds a call with its number and its thread.
fn push_head(
    text: &mut Vec<u8>,
    catalogue: &Catalogue,
    number: usize,
    thread: usize,
    call: Call,
) -> Result<(), AllocError>
    ensures { OnOk result (text.new.items ≡ text.old.items ++ call_head catalogue.now number thread call) }
{
    text.extend_from_slice(b"call ")?;
    push_number(text, number)?;
    text.extend_from_slice(b" t")?;
    push_number(text, thread)?;
    text.extend_from_slice(b" ")?;
    Verb::of(call).push(text, name_at(catalogue, call.slot()))
}

/// Adds the indices of a call's first and last step.
fn push_steps(text: &mut Vec<u8>, interval: &Interval) -> Result<(), AllocError>
    ensures { OnOk result (text.new.items ≡ text.old.items ++ steps_text interval.now.first (option_map (λ end. end.index) interval.now.end)) }
{
    text.extend_from_slice(b" first ")?;
    push_number(text, interval.first)?;
    text.extend_from_slice(b" last ")?;
    match interval.end {
        Some(end) => push_number(text, end.index),
        None => text.extend_from_slice(b"-"),
    }
}

/// Adds where a call takes effect and what it answers there.
pub(crate) fn push_point(text: &mut Vec<u8>, point: Option<Point>) -> Result<(), AllocError>
    ensures { OnOk result (text.new.items ≡ text.old.items ++ point_text point) }
{
    match point {
        Some(point) => {
            push_number(text, point.index)?;
            text.extend_from_slice(b" reply ")?;
            text.extend_from_slice(ReplyWord::of(point.reply).text().as_bytes())
        }
        None => text.extend_from_slice(b"- reply -"),
    }
}

/// Adds the line of a call, with its number, its interval and its point.
fn push_line(
    text: &mut Vec<u8>,
    schedule: &Schedule,
    number: usize,
    interval: &Interval,
    point: Option<Point>,
) -> Result<(), AllocError>
    ensures { OnOk result (text.new.items ≡ text.old.items ++ interval_line (schedule_in schedule.now) number interval.now point) }
{
    let thread = thread_at(&schedule.steps, interval.first);
    push_head(text, &schedule.catalogue, number, thread, interval.call)?;
    push_steps(text, interval)?;
    text.extend_from_slice(b" point ")?;
    push_point(text, point)?;
    text.extend_from_slice(b"\n")
}

/// The lines of the calls of these intervals, which have taken these points.
fn lines_of(
    alloc: Global,
    schedule: &Schedule,
    intervals: &[Interval],
    taken: &[Option<Point>],
) -> Result<Vec<u8>, AllocError>
    requires { length taken.now ≡ length intervals.now }
    ensures { IfOk result (λ text. text.items ≡ interval_lines (schedule_in schedule.now) taken.now 0 intervals.now) }
{
    let mut text = Vec::new(alloc);
    for (number, interval) in intervals.iter().enumerate() {
        push_line(&mut text, schedule, number, interval, taken[number])?;
    }
    Ok(text)
}

/// The report of a schedule.
fn report_of(alloc: Global, schedule: &Schedule) -> Result<Vec<u8>, ScheduleFault>
    requires { schedule.now.workers ≤ 64 }
    ensures report { IfOk result (λ text. IsReport text.items (schedule_in schedule.now)) }
    ensures refused { IfErr result (Stops (schedule_in schedule.now)) }
{
    let trace = run_trace(
        alloc,
        &schedule.catalogue,
        schedule.workers,
        schedule.threads,
        &schedule.steps,
    )?;
    let taken = points_by_call(alloc, trace.intervals.len(), &trace.points)?;
    Ok(lines_of(alloc, schedule, &trace.intervals, &taken)?)
}

/// The report of an input that is a schedule: a line for each call of its run, by the calls' numbers, with its first
/// step, its last step, its point and its reply. `Line` is the first faulty line; `Step`, if no line is faulty, the
/// first step that the machine refuses, whose cause is never `Calls`; `Memory` says that there was none.
pub fn report(alloc: Global, input: &[u8]) -> Result<Vec<u8>, ScheduleFault>
    ensures report { IfOk result (λ text. Reports input.now text.items) }
    ensures refused { IfErr result (Refuses input.now) }
{
    let schedule = read_schedule(alloc, input)?;
    report_of(alloc, &schedule)
}
