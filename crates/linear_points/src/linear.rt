//! The points of a run.
ghost use Rattle.std.specs.Prelude.{◌≡◌, ◌<◌, ◌^◌, OnOk, IfOk, IfErr};
ghost use Rattle.dep_index.specs.Catalogue.{modules_of};
ghost use Rattle.dep_index.specs.History.{RemovalsAreSafe};
ghost use Rattle.linear_points.specs.Run.{IsRun, run_calls, run_points, points_from};
ghost use Rattle.linear_points.specs.Linearization.{IsLinearization, answers};
ghost use Rattle.linear_points.specs.Refused.{IsRefusal};

use crate::point::{Point, PointsError};
use crate::runs;
use dep_index::Catalogue;
use dep_index::laws::legal_is_safe;
use std::alloc::{AllocError, Global};
use step_core::{Event, Step};

/// For every list of the workers' atomic steps, each returned get, put, query, load and removal takes effect at one
/// step between its first and its last and answers as the one-thread table does there; so a removal succeeds only
/// if no reference is held and no loaded module needs it, and no get succeeds afterwards until the module is live
/// again.
///
/// The points are those of the run of these steps on a machine in its opening state, in rising order of index; an open
/// call that has taken effect has its point too. `Step` names the first step that the machine refuses, `Memory` that
/// there was none for the list. (Herlihy and Wing, Linearizability: a correctness condition for concurrent objects, 1990.)
pub fn points(
    alloc: Global,
    catalogue: &Catalogue,
    workers: usize,
    threads: usize,
    steps: &[Step],
) -> Result<Vec<Point>, PointsError>
    requires { workers < 2 ^ 32 }

    ensures run { OnOk result (IsRun (modules_of catalogue.now) workers threads steps.now) }
    ensures points { IfOk result (λ p. p.items ≡ run_points (modules_of catalogue.now) workers threads steps.now) }
    ensures linearization { IfOk result (λ p. IsLinearization (modules_of catalogue.now) workers threads steps.now p.items) }
    ensures safe { let calls = run_calls (modules_of catalogue.now) workers threads steps.now in
        IfOk result (λ p. RemovalsAreSafe (modules_of catalogue.now) workers (answers calls p.items)) }

    ensures refused { IfErr result (IsRefusal (modules_of catalogue.now) workers threads steps.now) }
{
    legal_is_safe();
    let events = runs::run(alloc, catalogue, workers, threads, steps)?;
    Ok(points_among(alloc, &events)?)
}

/// The Point events, with their indices.
pub(crate) fn points_among(alloc: Global, events: &[Event]) -> Result<Vec<Point>, AllocError>
    ensures { IfOk result (λ p. p.items ≡ points_from 0 events.now) }
{
    let mut found = Vec::new(alloc);
    for (index, event) in events.iter().enumerate() {
        if let Event::Point(call, reply) = *event {
            found.push(Point { call, index, reply })?;
        }
    }
    Ok(found)
}
