//! The end of what was left half done, and what a plan lacks.
ghost use Rattle.std.specs.Prelude.{◌≡◌, Some};
ghost use Rattle.hold_turns.specs.Lines.{ending_of};
ghost use Rattle.hold_turns.specs.Views.{Idle};
ghost use Rattle.hold_turns.specs.Acts.{IsQuiet};
ghost use Rattle.hold_turns.specs.Rule.{AreOne, IsTurn, IsReady};

use crate::call::{Job, Stopped};
use crate::hands::Hands;
use crate::table::{Half, Table};
use dep_index::ModuleState;
use std::alloc::Global;

/// What ends the half that a module is in, by whether the kernel has it.
fn ending_of(state: ModuleState, there: bool) -> Option<Half>
    ensures { result ≡ ending_of state there }
{
    match (state, there) {
        (ModuleState::Loading, true) => Some(Half::LoadDone),
        (ModuleState::Loading, false) => Some(Half::LoadFailed),
        (ModuleState::Unloading, true) => Some(Half::CancelRemove),
        (ModuleState::Unloading, false) => Some(Half::EndRemove),
        (ModuleState::Draining, true) => Some(Half::CancelRemove),
        _ => None,
    }
}

/// Ends what is half done with a module whose lock the call has, by the kernel's list.
fn bring_one<T: Table, H: Hands>(
    number: usize,
    slot: usize,
    table: &mut T,
    hands: &mut H,
) -> Result<(), Stopped>
    requires one { AreOne (T.view table.old) (H.view hands.old) }
    requires locked { (H.view hands.old).owner slot ≡ Some number }
    requires idle { (H.view hands.old).acts number ≡ Idle }
    ensures turn { IsTurn number (T.view table.old) (H.view hands.old) (T.view table.new) (H.view hands.new) }
    ensures quiet { IsQuiet (H.view hands.old) (H.view hands.new) }
{
    let there = hands.listed(number, slot)?;
    let state = table.state(slot)?;
    if let Some(half) = ending_of(state, there) {
        table.make(slot, half)?;
    }
    Ok(())
}

/// Ends what is half done with modules whose locks the call has, one after another.
pub(crate) fn bring_all<T: Table, H: Hands>(
    number: usize,
    slots: &[usize],
    table: &mut T,
    hands: &mut H,
) -> Result<(), Stopped>
    requires one { AreOne (T.view table.old) (H.view hands.old) }
    requires ready { IsReady number slots.now (H.view hands.old) }
    ensures turn { IsTurn number (T.view table.old) (H.view hands.old) (T.view table.new) (H.view hands.new) }
    ensures quiet { IsQuiet (H.view hands.old) (H.view hands.new) }
{
    for slot in slots {
        bring_one(number, *slot, table, hands)?;
    }
    Ok(())
}

/// Whether a module is as the call wants it.
fn is_as_asked(job: Job, state: ModuleState) -> bool {
    match job {
        Job::Remove => state == ModuleState::Absent,
        Job::Get | Job::Put => state == ModuleState::Live,
    }
}

/// The first module of a plan that is not as the call wants it.
pub(crate) fn first_of<T: Table>(
    job: Job,
    plan: &[usize],
    table: &mut T,
) -> Result<Option<usize>, Stopped>
    ensures { T.view table.new ≡ T.view table.old }
{
    for slot in plan {
        let state = table.state(*slot)?;
        if !is_as_asked(job, state) {
            return Ok(Some(*slot));
        }
    }
    Ok(None)
}

/// The modules of a plan that are not as the call wants them.
pub(crate) fn missing_of<T: Table>(
    alloc: Global,
    job: Job,
    plan: &[usize],
    table: &mut T,
) -> Result<Vec<usize>, Stopped>
    ensures { T.view table.new ≡ T.view table.old }
{
    let mut missing = Vec::new(alloc);
    for slot in plan {
        let state = table.state(*slot)?;
        if !is_as_asked(job, state) {
            missing.push(*slot)?;
        }
    }
    Ok(missing)
}
