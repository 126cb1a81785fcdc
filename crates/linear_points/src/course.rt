//! What the checker knows of a run, and its questions about points.
ghost use Rattle.std.specs.Prelude.{◌≡◌, ◌<◌, ◌^◌, ◌↔◌, ℕ, All, IsTrue, IfErr, IfOk, OnOk, length, map, slice_index};
ghost use Rattle.std.specs.List.Sorted.{IsStrictlyIncreasing};
ghost use Rattle.dep_index.specs.Catalogue.{modules_of};
ghost use Rattle.dep_index.specs.Calls.{reply, next, replies};
ghost use Rattle.dep_index.specs.Laws.{AllInRange};
ghost use Rattle.step_core.specs.Run.{call_numbered};
ghost use Rattle.linear_points.specs.Run.{IsRun, run_events, run_calls, run_points};
ghost use Rattle.linear_points.specs.Linearization.{IsWithin, IsAsReturned, HasItsPoint, point_count};
ghost use Rattle.linear_points.specs.Refused.{IsRefusal};
ghost use Rattle.linear_points.specs.Interval.{AreIntervals};
ghost use Rattle.linear_points.specs.Noted.{calls_at};

use crate::intervals::{self, Interval};
use crate::linear::points_among;
use crate::point::{Point, PointsError};
use crate::runs;
use dep_index::Catalogue;
use seq_table::{Table, perform};
use std::alloc::{AllocError, Global};
use step_core::{Event, Step};

/// The events of a run and the intervals of its calls.
#[derive(Drop)]
pub struct Course {
    events: Vec<Event>,
    intervals: Vec<Interval>,
}

impl Course {
    /// The course of the steps on a machine in its opening state, or the first step that it refuses.
    pub fn of(
        alloc: Global,
        catalogue: &Catalogue,
        workers: usize,
        threads: usize,
        steps: &[Step],
    ) -> Result<Course, PointsError>
        requires { workers < 2 ^ 32 }
        ensures run { OnOk result (IsRun (modules_of catalogue.now) workers threads steps.now) }
        ensures told { IfOk result (λ c. c.events.items ≡ run_events (modules_of catalogue.now) workers threads steps.now) }
        ensures calls { IfOk result (λ c. map (λ i. i.call) c.intervals.items ≡ run_calls (modules_of catalogue.now) workers threads steps.now) }
        ensures intervals { IfOk result (λ c. AreIntervals c.events.items c.intervals.items) }
        ensures refused { IfErr result (IsRefusal (modules_of catalogue.now) workers threads steps.now) }
    {
        let events = runs::run(alloc, catalogue, workers, threads, steps)?;
        let intervals = intervals::intervals(alloc, steps, &events)?;
        Ok(Course { events, intervals })
    }

    fn into_intervals(self) -> Vec<Interval>
        ensures { result ≡ self.intervals }
    {
        let Course {
            events: _,
            intervals,
        } = self;
        intervals
    }

    /// Whether the point lies between its call's first step and its last.
    fn is_within(&self, point: &Point) -> bool
        requires { AreIntervals self.now.events.items self.now.intervals.items }
        ensures { IsTrue result ↔ IsWithin self.now.events.items point.now }
    {
        match self.intervals.get(point.call) {
            None => false,
            Some(interval) => { point.index < self.events.len() && interval.contains(point.index) }
        }
    }

    /// Whether each point lies between its call's first step and its last.
    pub fn within(&self, points: &[Point]) -> bool
        requires { AreIntervals self.now.events.items self.now.intervals.items }
        ensures { IsTrue result ↔ All (IsWithin self.now.events.items) points.now }
    {
        for point in points {
            if !self.is_within(point) {
                return false;
            }
        }
        true
    }

    /// Whether the point has the reply that its call returned, if it returned.
    fn is_as_returned(&self, point: &Point) -> bool
        requires { AreIntervals self.now.events.items self.now.intervals.items }
        ensures { IsTrue result ↔ IsAsReturned self.now.events.items point.now }
    {
        match self.intervals.get(point.call) {
            None => true,
            Some(interval) => interval.returns(point.reply),
        }
    }

    /// Whether each point has the reply that its call returned, if it returned.
    pub fn answers(&self, points: &[Point]) -> bool
        requires { AreIntervals self.now.events.items self.now.intervals.items }
        ensures { IsTrue result ↔ All (IsAsReturned self.now.events.items) points.now }
    {
        points.iter().all(|point| self.is_as_returned(point))
    }

    /// Whether each returned call has one point, and each open call at most one.
    pub fn once(&self, alloc: Global, points: &[Point]) -> Result<bool, AllocError>
        requires intervals { AreIntervals self.now.events.items self.now.intervals.items }
        requires within { All (IsWithin self.now.events.items) points.now }
        ensures { IfOk result (λ b. IsTrue b ↔ ((n : ℕ) → HasItsPoint self.now.events.items points.now n)) }
    {
        let counts = point_counts(alloc, self.intervals.len(), points)?;
        for (n, interval) in self.intervals.iter().enumerate() {
            if !interval.may_have(counts[n]) {
                return Ok(false);
            }
        }
        Ok(true)
    }

    /// Whether the calls of the points, made on the table one after another, answer what the points say.
    pub fn replays(&self, mut table: Table, points: &[Point]) -> bool
        requires calls { All (λ p. p.call < length self.now.intervals.items) points.now }
        requires range { AllInRange table.catalogue (length table.table.rows) (map (λ i. i.call) self.now.intervals.items) }
        ensures { let calls = calls_at (map (λ i. i.call) self.now.intervals.items) points.now in
            IsTrue result ↔ (replies table.catalogue table.table calls ≡ map (λ p. p.reply) points.now) }
    {
        for point in points {
            if !self.answers_as(&mut table, point) {
                return false;
            }
        }
        true
    }

    /// Makes the point's call on the table: whether it answers what the point says.
    fn answers_as(&self, table: &mut Table, point: &Point) -> bool
        requires call { point.now.call < length self.now.intervals.items }
        requires range { AllInRange table.old.catalogue (length table.old.table.rows) (map (λ i. i.call) self.now.intervals.items) }
        ensures answer { let call = call_numbered (map (λ i. i.call) self.now.intervals.items) point.now.call in
            IsTrue result ↔ (reply table.old.catalogue table.old.table call ≡ point.now.reply) }
        ensures becomes { let call = call_numbered (map (λ i. i.call) self.now.intervals.items) point.now.call in
            table.new.table ≡ next table.old.catalogue table.old.table call }
        ensures over { table.new.catalogue ≡ table.old.catalogue }
    {
        let interval = &self.intervals[point.call];
        let answered = perform(table, interval.call);
        answered == point.reply
    }
}

/// The intervals of a run's calls, by the calls' numbers. `Step` names the first step that the machine refuses,
/// `Memory` says that there was none to keep the intervals.
pub fn call_intervals(
    alloc: Global,
    catalogue: &Catalogue,
    workers: usize,
    threads: usize,
    steps: &[Step],
) -> Result<Vec<Interval>, PointsError>
    requires { workers < 2 ^ 32 }
    ensures run { OnOk result (IsRun (modules_of catalogue.now) workers threads steps.now) }
    ensures calls { IfOk result (λ found. map (λ i. i.call) found.items ≡ run_calls (modules_of catalogue.now) workers threads steps.now) }
    ensures intervals { IfOk result (λ found. AreIntervals (run_events (modules_of catalogue.now) workers threads steps.now) found.items) }
    ensures refused { IfErr result (IsRefusal (modules_of catalogue.now) workers threads steps.now) }
{
    let course = Course::of(alloc, catalogue, workers, threads, steps)?;
    Ok(course.into_intervals())
}

/// The calls of a run: their intervals, by their numbers, and the points of those that took effect, in rising order of
/// index.
#[derive(Drop)]
pub struct Trace {
    pub intervals: Vec<Interval>,
    pub points: Vec<Point>,
}

/// The intervals and the points of a run's calls, of which the steps are made once. `Step` names the first step that the
/// machine refuses, `Memory` says that there was none.
pub fn run_trace(
    alloc: Global,
    catalogue: &Catalogue,
    workers: usize,
    threads: usize,
    steps: &[Step],
) -> Result<Trace, PointsError>
    requires { workers < 2 ^ 32 }
    ensures run { OnOk result (IsRun (modules_of catalogue.now) workers threads steps.now) }
    ensures calls { IfOk result (λ found. map (λ i. i.call) found.intervals.items ≡ run_calls (modules_of catalogue.now) workers threads steps.now) }
    ensures intervals { IfOk result (λ found. AreIntervals (run_events (modules_of catalogue.now) workers threads steps.now) found.intervals.items) }
    ensures points { IfOk result (λ found. found.points.items ≡ run_points (modules_of catalogue.now) workers threads steps.now) }
    ensures refused { IfErr result (IsRefusal (modules_of catalogue.now) workers threads steps.now) }
{
    let course = Course::of(alloc, catalogue, workers, threads, steps)?;
    let points = points_among(alloc, &course.events)?;
    Ok(Trace {
        intervals: course.into_intervals(),
        points,
    })
}

/// How many points each call has, by its number.
fn point_counts(alloc: Global, calls: usize, points: &[Point]) -> Result<Vec<usize>, AllocError>
    requires { All (λ p. p.call < calls) points.now }
    ensures len { IfOk result (λ counts. length counts.items ≡ calls) }
    ensures counts { IfOk result (λ counts. (n : ℕ) → n < calls → slice_index counts.items n ≡ point_count n points.now) }
{
    let mut counts = vec![in alloc; 0usize; calls]?;
    for point in points {
        counts[point.call] += 1;
    }
    Ok(counts)
}

/// Whether the indices of the points rise.
pub fn rising(points: &[Point]) -> bool
    ensures { IsTrue result ↔ IsStrictlyIncreasing (map (λ p. p.index) points.now) }
{
    for i in 1..points.len() {
        if points[i - 1].index >= points[i].index {
            return false;
        }
    }
    true
}
