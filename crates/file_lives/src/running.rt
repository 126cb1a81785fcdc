//! Processes that use a table in a folder.
ghost use Rattle.std.specs.Prelude.{◌≡◌, ◌+◌, List, ℕ, All, IfOk, length, map};
ghost use Rattle.file_journal.specs.Belief.{history_of};
ghost use Rattle.tenures.specs.Tenures.{asked_of};
ghost use Rattle.tenures.specs.Endings.{HaveEnded};
ghost use Rattle.tenures.specs.Steps.{AreSteps, groups_of};
ghost use Rattle.theorems.specs.Durability.{IsDurablyLinearized};
ghost use Rattle.power_cuts.specs.Log.{noted};
ghost use Rattle.file_lives.specs.Lives.{past_of, cut_offs_of};

use crate::counted::CountedFile;
use crate::life::Life;
use crate::lives::FileLives;
use crate::making::make_journal;
use file_journal::{FolderLock, OpenError};
use line_journal::Repair;
use modprobe::Setup;
use std::alloc::Global;
use std::rt::Files;
use tenures::Step;
use theorems::durability::tenures_are_durably_linearizable;

/// Makes the journal of a new table as the file `journal` of a folder, which must not be there, and has processes use it, one
/// after another. Each opens the file anew, reads all of it, and comes as far as the plan says. All of it is done under the
/// folder's lock. Returned are the file that they leave, and the world that has their replies. An error: the journal was not
/// made.
///
/// Whatever the plan is, and whatever the calls of the system return, each file that a crash may leave then is that of one list
/// of the processes' commands, as `tenures_are_durably_linearizable` says. Premise: the commands are lines.
pub fn run_over_files<'a, R: Files + Drop>(
    rt: R,
    alloc: Global,
    setup: &Setup,
    lock: FolderLock,
    folder: &str,
    repair: Repair,
    processes: &[Vec<Step>],
    plan: &'a [Life],
) -> Result<(CountedFile<R>, FileLives<'a>), OpenError>
    requires lines { All (λ steps. AreSteps steps.items) processes.now }
    ensures asked { IfOk result (λ left. asked_of (past_of left.1) ≡ map (λ steps. groups_of steps.items) processes.now) }
    ensures ended { IfOk result (λ left. HaveEnded repair 0 (cut_offs_of left.1) 0 (left.0.file.faults + length (noted left.0.unanswered)) (past_of left.1)) }
    ensures durable { IfOk result (λ left. (file : List ℕ) → (history_of left.0.file.belief).leaves file → IsDurablyLinearized setup.now (past_of left.1) file) }
{
    let mut device = CountedFile::new(make_journal(rt, alloc, lock, folder)?);
    let mut world = FileLives::new(alloc, &mut device, plan);
    let device = tenures_are_durably_linearizable(
        alloc, setup, device, repair, processes, &mut world,
    );
    Ok((device, world))
}
