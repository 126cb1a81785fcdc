//! Processes one after another.
ghost use Rattle.std.specs.Prelude.{◌≡◌, [], ◌++◌, map, All, List};
ghost use Rattle.tenures.specs.Tenures.{Tenure, asked_of};
ghost use Rattle.tenures.specs.Endings.{HaveEnded};
ghost use Rattle.tenures.specs.Steps.{AreSteps, groups_of};
ghost use Rattle.tenures.specs.Kept.{IsKept};

use crate::outside::World;
use crate::process::tenure;
use crate::step::Step;
use line_journal::{Device, Repair};
use modprobe::Setup;
use std::alloc::Global;

/// Processes one after another over the table of a journal, each of which is asked steps, as `tenure` says. `HaveEnded` says
/// which of them have answered all their lines.
pub fn run<D: Device, W: World<D>>(
    alloc: Global,
    setup: &Setup,
    mut device: D,
    repair: Repair,
    processes: &[Vec<Step>],
    world: &mut W,
) -> D
    requires lines { All (λ steps. AreSteps steps.items) processes.now }
    requires none { W.replies world.old ≡ [] }
    requires since { W.since world.old ≡ (D.history device).now }
    requires file { W.found world.old ≡ D.content device }
    requires kept { IsKept setup.now (W.past world.old) (D.history device) }
    ensures asked { asked_of (W.past world.new) ≡ asked_of (W.past world.old) ++ map (λ steps. groups_of steps.items) processes.now }
    ensures ended { (tenures : List Tenure) × (W.past world.new ≡ W.past world.old ++ tenures)
        × HaveEnded repair (W.cut_offs world.old) (W.cut_offs world.new) (D.faults device) (D.faults result) tenures }
    ensures kept { IsKept setup.now (W.past world.new) (D.history result) }
    ensures none { W.replies world.new ≡ [] }
    ensures since { W.since world.new ≡ (D.history result).now }
    ensures file { W.found world.new ≡ D.content result }
{
    for steps in processes {
        device = tenure(alloc, setup, device, repair, steps, world).0;
    }
    device
}
