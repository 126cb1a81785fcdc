//! The events of a run.
ghost use Rattle.std.specs.Prelude.{◌≡◌, ◌<◌, ◌^◌, IfErr, IfOk, OnOk};
ghost use Rattle.dep_index.specs.Catalogue.{modules_of};
ghost use Rattle.step_core.specs.Run.{IsAccepted, events};
ghost use Rattle.linear_points.specs.Run.{IsRun, run_events};
ghost use Rattle.linear_points.specs.Refused.{IsStepRefused, IsRefusal};

use crate::point::PointsError;
use dep_index::Catalogue;
use std::alloc::Global;
use step_core::{Event, Machine, Step};

/// What the steps come to on a machine in its opening state, one event a step, or the first step that it refuses.
pub fn run(
    alloc: Global,
    catalogue: &Catalogue,
    workers: usize,
    threads: usize,
    steps: &[Step],
) -> Result<Vec<Event>, PointsError>
    requires { workers < 2 ^ 32 }
    ensures run { OnOk result (IsRun (modules_of catalogue.now) workers threads steps.now) }
    ensures told { IfOk result (λ es. es.items ≡ run_events (modules_of catalogue.now) workers threads steps.now) }
    ensures refused { IfErr result (IsRefusal (modules_of catalogue.now) workers threads steps.now) }
{
    let machine = Machine::new(alloc, catalogue, workers, threads, steps.len())?;
    events(alloc, machine, steps)
}

/// What the steps come to on this machine.
fn events(alloc: Global, mut machine: Machine, steps: &[Step]) -> Result<Vec<Event>, PointsError>
    ensures accepted { OnOk result (IsAccepted machine.catalogue machine.state steps.now) }
    ensures told { IfOk result (λ es. es.items ≡ events machine.catalogue machine.state steps.now) }
    ensures refused { IfErr result (IsStepRefused machine.catalogue machine.state steps.now) }
{
    let mut found = Vec::with_capacity(alloc, steps.len())?;
    for (index, step) in steps.iter().enumerate() {
        match machine.step(*step) {
            Ok(event) => found.push(event)?,
            Err(cause) => return Err(PointsError::Step { index, cause }),
        }
    }
    Ok(found)
}
