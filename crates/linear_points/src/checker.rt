//! The checker of points.
ghost use Rattle.std.specs.Prelude.{◌≤◌, ◌↔◌, IsTrue, IfErr, IfOk, OnOk};
ghost use Rattle.dep_index.specs.Catalogue.{modules_of};
ghost use Rattle.linear_points.specs.Run.{IsRun};
ghost use Rattle.linear_points.specs.Linearization.{IsLinearization};
ghost use Rattle.linear_points.specs.Refused.{IsRefusal};

use crate::course::{self, Course};
use crate::point::{Point, PointsError};
use dep_index::Catalogue;
use seq_table::Table;
use std::alloc::Global;
use step_core::Step;

/// Whether the points, which may come from anywhere, are a linearization of the run of these steps: their indices rise,
/// each lies within its call, each returned call has one and each open call at most one, and the calls in their order
/// answer what the one-thread table answers, and what they returned. Errors are those of `points`.
pub fn check_points(
    alloc: Global,
    catalogue: &Catalogue,
    workers: usize,
    threads: usize,
    steps: &[Step],
    points: &[Point],
) -> Result<bool, PointsError>
    requires { workers ≤ 64 }

    ensures run { OnOk result (IsRun (modules_of catalogue.now) workers threads steps.now) }
    ensures linear { IfOk result (λ b. IsTrue b ↔ IsLinearization (modules_of catalogue.now) workers threads steps.now points.now) }

    ensures refused { IfErr result (IsRefusal (modules_of catalogue.now) workers threads steps.now) }
{
    let course = Course::of(alloc, catalogue, workers, threads, steps)?;
    if !course::rising(points) {
        return Ok(false);
    }
    if !course.within(points) {
        return Ok(false);
    }
    if !course.answers(points) {
        return Ok(false);
    }
    if !course.once(alloc, points)? {
        return Ok(false);
    }
    let table = Table::new(alloc, catalogue, workers)?;
    Ok(course.replays(table, points))
}
