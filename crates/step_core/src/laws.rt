//! What holds of every run of the machine.

ghost use Rattle.step_core.specs.StepLaw.{RunsObeyStepLaw, PendingWritesAreShown};

/// In every run each word belongs to its slot of the shown table, and each step that is not refused
/// obeys the step law: a point answers what the one-thread table answers there, and makes the shown table
/// its next; every other step leaves the shown table.
pub fn runs_obey_step_law()
    ensures { RunsObeyStepLaw }
{}

/// In every run the shown table is the written one with every pending write done.
pub fn pending_writes_are_shown()
    ensures { PendingWritesAreShown }
{}
