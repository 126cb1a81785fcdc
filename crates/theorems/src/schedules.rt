//! Every schedule of the workers' atomic steps.
ghost use Rattle.std.specs.Prelude.{◌<◌, ◌^◌, OnOk, IfOk, IfErr};
ghost use Rattle.dep_index.specs.Catalogue.{modules_of};
ghost use Rattle.linear_points.specs.Run.{IsRun, run_calls};
ghost use Rattle.linear_points.specs.Linearization.{answers};
ghost use Rattle.linear_points.specs.Refused.{IsRefusal};
ghost use Rattle.theorems.specs.Linear.{TakesEffectOnce};
ghost use Rattle.theorems.specs.Safety.{RemovesUnheld, GetsNoneAfter, CancelsKeepReferences};

use dep_index::Catalogue;
use linear_points::{Point, PointsError, points};
use std::alloc::Global;
use step_core::Step;

/// For every list of the workers' atomic steps, each returned get, put, query, load and removal takes effect at one
/// step between its first and its last and answers as the one-thread table does there; so a removal succeeds only
/// if no reference is held and no loaded module needs it, and no get succeeds afterwards until the module is live
/// again.
///
/// A removal or a drain that is called off leaves the module live, and all references as they were.
///
/// Premises: the catalogue was accepted; there are fewer than 2^32 workers; the machine accepts the steps, else the
/// first that it refuses is answered; there is memory for the list; the steps are in one order (sequentially
/// consistent atomics).
pub fn every_schedule_is_linearizable(
    alloc: Global,
    catalogue: &Catalogue,
    workers: usize,
    threads: usize,
    steps: &[Step],
) -> Result<Vec<Point>, PointsError>
    requires { workers < 2 ^ 32 }
    ensures run { OnOk result (IsRun (modules_of catalogue.now) workers threads steps.now) }
    ensures once { IfOk result (λ p. TakesEffectOnce (modules_of catalogue.now) workers threads steps.now p.items) }
    ensures unheld { let calls = run_calls (modules_of catalogue.now) workers threads steps.now in
        IfOk result (λ p. RemovesUnheld (modules_of catalogue.now) workers (answers calls p.items)) }
    ensures none_after { let calls = run_calls (modules_of catalogue.now) workers threads steps.now in
        IfOk result (λ p. GetsNoneAfter (answers calls p.items)) }
    ensures called_off { let calls = run_calls (modules_of catalogue.now) workers threads steps.now in
        IfOk result (λ p. CancelsKeepReferences (modules_of catalogue.now) workers (answers calls p.items)) }
    ensures refused { IfErr result (IsRefusal (modules_of catalogue.now) workers threads steps.now) }
{
    points(alloc, catalogue, workers, threads, steps)
}
