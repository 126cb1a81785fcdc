//! Processes that use a table, while the power is cut.
ghost use Rattle.std.specs.Prelude.{◌≡◌, List, ℕ, All, IfOk, map};
ghost use Rattle.tenures.specs.Tenures.{asked_of};
ghost use Rattle.tenures.specs.Endings.{HaveEnded};
ghost use Rattle.tenures.specs.Steps.{AreSteps, groups_of};
ghost use Rattle.theorems.specs.Durability.{IsDurablyLinearized};
ghost use Rattle.power_cuts.specs.Disk.{history_of, faults_of};
ghost use Rattle.power_cuts.specs.Cuts.{past_of, cut_offs_of};

use crate::cuts::PowerCuts;
use crate::disk::MemoryDisk;
use crate::life::Life;
use durable_table::{NO_NAME, create};
use line_journal::{DeviceError, Repair};
use modprobe::Setup;
use std::alloc::Global;
use tenures::Step;
use theorems::durability::tenures_are_durably_linearizable;

/// Makes the journal of a new table in memory, and has processes use it, one after another. Each comes as far, and is ended, as
/// the plan says. Returned are the file that they leave, and the world that has their replies. An error: the journal was not made.
///
/// Whatever the plan is, each file that a crash may leave then is that of one list of the processes' commands, as
/// `tenures_are_durably_linearizable` says. Premise: the commands are lines.
pub fn run_with_power_cuts<'a>(
    alloc: Global,
    setup: &Setup,
    repair: Repair,
    processes: &[Vec<Step>],
    plan: &'a [Life],
) -> Result<(MemoryDisk, PowerCuts<'a>), DeviceError>
    requires lines { All (λ steps. AreSteps steps.items) processes.now }
    ensures asked { IfOk result (λ left. asked_of (past_of left.1) ≡ map (λ steps. groups_of steps.items) processes.now) }
    ensures ended { IfOk result (λ left. HaveEnded repair 0 (cut_offs_of left.1) 0 (faults_of left.0) (past_of left.1)) }
    ensures durable { IfOk result (λ left. (file : List ℕ) → (history_of left.0).leaves file → IsDurablyLinearized setup.now (past_of left.1) file) }
{
    let mut disk = MemoryDisk::new(alloc);
    create(alloc, &mut disk, NO_NAME)?;
    let mut world = PowerCuts::new(alloc, &mut disk, plan);
    let disk = tenures_are_durably_linearizable(alloc, setup, disk, repair, processes, &mut world);
    Ok((disk, world))
}
