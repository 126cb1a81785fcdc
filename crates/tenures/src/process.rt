//! One process from lock to unlock.
ghost use Rattle.std.specs.Prelude.{◌≡◌, ◌⊎◌, ◌≤◌, ◌+◌, [], ◌∷◌, ◌++◌, List, ℕ, length, Some, IfOk, IfErr, OnOk, IsErrOf};
ghost use Rattle.modprobe.specs.Outcomes.{Outcome};
ghost use Rattle.line_journal.specs.Device.{AlwaysLeaves};
ghost use Rattle.line_journal.specs.Lines.{lines_of, behind, StandsFor};
ghost use Rattle.line_journal.specs.Journal.{MayCut};
ghost use Rattle.durable_table.specs.Durable.{Stands};
ghost use Rattle.durable_table.specs.Tables.{table_of};
ghost use Rattle.tenures.specs.Tenures.{one_by_one};
ghost use Rattle.tenures.specs.declared.ending.Stopped.TheVariants.{NoTable};
ghost use Rattle.tenures.specs.Endings.{cut_offs_of, cut_offs_in, failures_of, failures_in, HasNoTable};
ghost use Rattle.tenures.specs.Steps.{AreSteps, groups_of};
ghost use Rattle.tenures.specs.Kept.{IsKept, IsKeptSince, LeadsTo};

use crate::ending::Stopped;
use crate::making::{empty_table, make};
use crate::outside::World;
use crate::step::Step;
use durable_table::{DurableTable, NO_NAME, OpenedTable, open};
use line_journal::{Device, DeviceError, Repair};
use modprobe::Setup;
use std::alloc::Global;

/// The table that a journal stands for, whichever setup it names. If the process has to stop, the device is handed back.
#[tactic(auto, using(durable_table::proofs::CommandLemmas::any_is_of), unfolding(durable_table::specs::Commands::no_name))]
fn open_table<'s, D: Device>(
    alloc: Global,
    setup: &'s Setup,
    device: D,
    repair: Repair,
) -> Result<DurableTable<'s, D>, (Stopped, D)>
    ensures stands { IfOk result (λ t. Stands D.content D.history setup.now t.session.holders.held t.journal) }
    ensures found { IfOk result (λ t. table_of setup.now (D.content device) ≡ Some t.session.holders.held) }
    ensures setup { IfOk result (λ t. t.session.setup.now ≡ setup.now) }
    ensures any_moment { IfOk result (λ t. AlwaysLeaves (D.history device) (D.history t.journal.lines.device)
        (λ file. StandsFor (lines_of (D.content device)) file ⊎ (D.history device).leaves file)) }
    ensures refused { IfErr result (λ e. AlwaysLeaves (D.history device) (D.history e.1)
        (λ file. StandsFor (lines_of (D.content device)) file ⊎ (D.history device).leaves file)) }
    ensures no_fewer { IfOk result (λ t. D.faults device ≤ D.faults t.journal.lines.device) }
    ensures failed { IfErr result (λ e. failures_of e.0 + D.faults device ≤ D.faults e.1) }
    ensures alive { IfErr result (λ e. cut_offs_of e.0 ≡ 0) }
    ensures no_table { IfErr result (λ e. e.0 ≡ NoTable → HasNoTable setup.now repair (D.content device)) }
    ensures may_cut { IfOk result (λ _. MayCut repair (behind (D.content device))) }
{
    let Ok(holders) = empty_table(alloc, setup) else {
        return Err((Stopped::OutOfMemory, device));
    };
    match open(alloc, setup, NO_NAME, holders, device, repair) {
        Ok(OpenedTable::Ready(table, _found)) => Ok(table),
        Ok(OpenedTable::Foreign(device)) => Err((Stopped::NoTable, device)),
        Ok(OpenedTable::Other(device)) => Err((Stopped::NoTable, device)),
        Ok(OpenedTable::Changed(device, _number)) => Err((Stopped::NoTable, device)),
        Ok(OpenedTable::Damaged(device, _found)) => Err((Stopped::NoTable, device)),
        Err((DeviceError::OutOfMemory, device)) => Err((Stopped::OutOfMemory, device)),
        Err((DeviceError::Failed, device)) => Err((Stopped::Failed, device)),
    }
}

/// Makes steps, one after another.
fn answer<D: Device, W: World<D>>(
    alloc: Global,
    setup: &Setup,
    table: &mut DurableTable<'_, D>,
    steps: &[Step],
    world: &mut W,
) -> Result<(), Stopped>
    requires setup { table.old.session.setup.now ≡ setup.now }
    requires stands { Stands D.content D.history table.old.session.setup.now table.old.session.holders.held table.old.journal }
    requires leads { (commands : List (List ℕ)) × LeadsTo table.old.session.setup.now (W.past world.old) commands table.old.session.holders.held }
    requires lines { AreSteps steps.now }
    requires none { W.replies world.old ≡ [] }
    requires since { W.since world.old ≤ (D.history table.old.journal.lines.device).now }
    requires kept { IsKeptSince table.old.session.setup.now (W.past world.old) (D.history table.old.journal.lines.device) (W.since world.old) }
    ensures past { W.past world.new ≡ W.past world.old }
    ensures file { W.found world.new ≡ W.found world.old }
    ensures since { W.since world.new ≤ (D.history table.new.journal.lines.device).now }
    ensures kept { IsKeptSince table.old.session.setup.now (W.past world.old ++ record { found = W.found world.old; asked = groups_of steps.now; replies = W.replies world.new; ended = result } ∷ [])
        (D.history table.new.journal.lines.device) (W.since world.new) }
    ensures answered { OnOk result (length (W.replies world.new) ≡ length (one_by_one (groups_of steps.now))) }
    ensures cut_off { cut_offs_in result + W.cut_offs world.old ≡ W.cut_offs world.new }
    ensures failed { failures_in result + D.faults table.old.journal.lines.device ≤ D.faults table.new.journal.lines.device }
    ensures found { IsErrOf result NoTable → ⊥ }
{
    for step in steps {
        make(alloc, setup, table, step, world)?;
    }
    Ok(())
}

/// One process over the table of a journal: it opens the file that stands there, and makes steps. What cuts it off is `world`'s.
///
/// If each file that a crash may leave keeps what the tenures before it did, each file that a crash may leave to the next
/// process keeps also what this one did: `IsKept` says that the table is the one after one list of commands. In it each command
/// whose reply was begun stands once. The others that stand in it are commands of one group: of the group that was under way.
pub fn tenure<D: Device, W: World<D>>(
    alloc: Global,
    setup: &Setup,
    device: D,
    repair: Repair,
    steps: &[Step],
    world: &mut W,
) -> (D, Result<(), Stopped>)
    requires lines { AreSteps steps.now }
    requires none { W.replies world.old ≡ [] }
    requires since { W.since world.old ≡ (D.history device).now }
    requires file { W.found world.old ≡ D.content device }
    requires kept { IsKept setup.now (W.past world.old) (D.history device) }
    ensures past { (replies : List Outcome) × (W.past world.new ≡ W.past world.old ++ record { found = D.content device; asked = groups_of steps.now; replies = replies; ended = result.1 } ∷ [])
        × (OnOk result.1 (length replies ≡ length (one_by_one (groups_of steps.now)))) }
    ensures cut_off { cut_offs_in result.1 + W.cut_offs world.old ≡ W.cut_offs world.new }
    ensures failed { failures_in result.1 + D.faults device ≤ D.faults result.0 }
    ensures found { IsErrOf result.1 NoTable → MayCut repair (behind (D.content device)) → ⊥ }
    ensures may_cut { OnOk result.1 (MayCut repair (behind (D.content device))) }
    ensures kept { IsKept setup.now (W.past world.new) (D.history result.0) }
    ensures none { W.replies world.new ≡ [] }
    ensures since { W.since world.new ≡ (D.history result.0).now }
    ensures file { W.found world.new ≡ D.content result.0 }
{
    match open_table(alloc, setup, device, repair) {
        Ok(mut table) => {
            let answered = answer(alloc, setup, &mut table, steps, world);
            (world.next(table.into_device(), steps, answered), answered)
        }
        Err((stopped, device)) => (world.next(device, steps, Err(stopped)), Err(stopped)),
    }
}
