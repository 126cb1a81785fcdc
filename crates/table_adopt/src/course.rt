//! What becomes of a module of the table, by its state there and in the kernel.
ghost use Rattle.std.specs.Prelude.{◌≡◌, ◌++◌, OnOk};
ghost use Rattle.table_adopt.specs.Courses.{course_of, steps_of, leaves, is_lost};

use crate::step::Step;
use dep_index::ModuleState;
use proc_modules::LineState;
use std::alloc::AllocError;

/// What becomes of a module of the table.
#[derive(Clone, Copy, Debug, PartialEq, Eq, Drop)]
pub(crate) enum Course {
    /// It stays as it is.
    Stays,
    /// Its load has ended well.
    Loaded,
    /// Its load has failed.
    NotLoaded,
    /// Its removal was done.
    Removed,
    /// Its removal was not done: it is live again.
    LoadedAgain,
    /// It is removed, since the kernel has it no more.
    Goes,
    /// The kernel has it no more, and it is held or needed: it stays.
    Lost,
}

/// What becomes of a module in this state, of which the kernel says this. `free`: nothing keeps it.
pub(crate) fn course_of(free: bool, state: ModuleState, kernel: Option<LineState>) -> Course
    ensures { result ≡ course_of free state kernel }
{
    match (state, kernel) {
        (ModuleState::Loading, Some(LineState::Live)) => Course::Loaded,
        (ModuleState::Loading, None) => Course::NotLoaded,
        (ModuleState::Unloading, Some(LineState::Live)) => Course::LoadedAgain,
        (ModuleState::Unloading, None) => Course::Removed,
        (ModuleState::Live, None) if free => Course::Goes,
        (ModuleState::Draining, None) if free => Course::Removed,
        (ModuleState::Live | ModuleState::Draining, None) => Course::Lost,
        _ => Course::Stays,
    }
}

impl Course {
    /// The module leaves the table.
    pub(crate) fn leaves(self) -> bool
        ensures { result ≡ leaves self }
    {
        matches!(self, Course::NotLoaded | Course::Removed | Course::Goes)
    }

    pub(crate) fn is_lost(self) -> bool
        ensures { result ≡ is_lost self }
    {
        matches!(self, Course::Lost)
    }

    /// Adds the steps by which this becomes of a module.
    pub(crate) fn push_steps(self, steps: &mut Vec<Step>, slot: usize) -> Result<(), AllocError>
        ensures { OnOk result (steps.new.items ≡ steps.old.items ++ steps_of self slot) }
    {
        match self {
            Course::Stays | Course::Lost => {}
            Course::Loaded => steps.push(Step::EndLoad(slot, true))?,
            Course::NotLoaded => steps.push(Step::EndLoad(slot, false))?,
            Course::Removed => steps.push(Step::EndRemove(slot))?,
            Course::LoadedAgain => {
                let again = [
                    Step::EndRemove(slot),
                    Step::BeginLoad(slot),
                    Step::EndLoad(slot, true),
                ];
                steps.extend_from_slice(&again)?;
            }
            Course::Goes => {
                steps.extend_from_slice(&[Step::BeginRemove(slot), Step::EndRemove(slot)])?;
            }
        }
        Ok(())
    }
}
