//! How a process makes its steps.
ghost use Rattle.std.specs.Prelude.{◌≡◌, ◌+◌, ◌≤◌, ◌++◌, IfOk, IfErr, OnOk, IsErrOf};
ghost use Rattle.dep_index.specs.Catalogue.{modules_of};
ghost use Rattle.line_journal.specs.Device.{AlwaysLeaves};
ghost use Rattle.line_journal.specs.Lines.{bytes_of, AreLines};
ghost use Rattle.durable_table.specs.Tables.{opening_of};
ghost use Rattle.durable_table.specs.Durable.{Stands, FileStands};
ghost use Rattle.tenures.specs.declared.ending.Stopped.TheVariants.{CutOff, NoTable};
ghost use Rattle.tenures.specs.Endings.{cut_offs_in, failures_in};
ghost use Rattle.tenures.specs.Steps.{commands_of, outcomes_of, HasBegun, IsMade, IsMadeWhole};

use crate::ending::{Stopped, stopped_by};
use crate::outside::World;
use crate::step::Step;
use durable_table::{DurableTable, NO_NAME};
use held_lines::HeldReply;
use held_table::HeldTable;
use line_journal::Device;
use modprobe::Setup;
use std::alloc::{AllocError, Global};

/// The table of a process that has opened nothing yet.
pub(crate) fn empty_table(alloc: Global, setup: &Setup) -> Result<HeldTable, AllocError>
    ensures over { IfOk result (λ t. t.catalogue ≡ modules_of setup.now.catalogue) }
    ensures opening { IfOk result (λ t. t.held ≡ opening_of setup.now) }
{
    HeldTable::new(alloc, setup.catalogue().slots(alloc)?)
}

/// Begins replies, one after another, as long as the process is alive.
fn begin_replies<D: Device, W: World<D>>(
    device: &D,
    replies: &[HeldReply],
    world: &mut W,
) -> Result<(), Stopped>
    ensures past { W.past world.new ≡ W.past world.old }
    ensures file { W.found world.new ≡ W.found world.old }
    ensures begun { HasBegun (outcomes_of replies.now) (D.history device.now).now (W.replies world.old) (W.replies world.new) (W.since world.old) (W.since world.new) }
    ensures answered { OnOk result (W.replies world.new ≡ W.replies world.old ++ outcomes_of replies.now) }
    ensures cut_off { cut_offs_in result + W.cut_offs world.old ≡ W.cut_offs world.new }
    ensures only_cut_off { IfErr result (λ stopped. stopped ≡ CutOff) }
{
    for reply in replies {
        if !world.is_alive() {
            return Err(Stopped::CutOff);
        }
        world.begin_reply(device, reply);
    }
    Ok(())
}

/// Makes lines as one group. The reply to each is begun once `perform_all` has returned all of them.
fn make_group<D: Device, W: World<D>>(
    alloc: Global,
    table: &mut DurableTable<'_, D>,
    lines: &[Vec<u8>],
    world: &mut W,
) -> Result<(), Stopped>
    requires stands { Stands D.content D.history table.old.session.setup.now table.old.session.holders.held table.old.journal }
    requires lines { AreLines (bytes_of lines.now) }
    ensures past { W.past world.new ≡ W.past world.old }
    ensures file { W.found world.new ≡ W.found world.old }
    ensures made { IsMade table.old.session.setup.now table.old.session.holders.held (bytes_of lines.now) (D.history table.old.journal.lines.device) (D.history table.new.journal.lines.device)
        (W.replies world.old) (W.replies world.new) (W.since world.old) (W.since world.new) }
    ensures whole { OnOk result (IsMadeWhole table.old.session.setup.now table.old.session.holders.held table.new.session.holders.held (bytes_of lines.now)
        (W.replies world.old) (W.replies world.new)) }
    ensures stands { OnOk result (Stands D.content D.history table.old.session.setup.now table.new.session.holders.held table.new.journal) }
    ensures setup { table.new.session.setup ≡ table.old.session.setup }
    ensures cut_off { cut_offs_in result + W.cut_offs world.old ≡ W.cut_offs world.new }
    ensures failed { failures_in result + D.faults table.old.journal.lines.device ≤ D.faults table.new.journal.lines.device }
    ensures found { IsErrOf result NoTable → ⊥ }
{
    match table.perform_all(alloc, lines) {
        Ok(replies) => begin_replies(table.device(), &replies, world),
        Err(error) => Err(stopped_by(error)),
    }
}

/// Rewrites the journal as the lines that make its table.
fn compact<D: Device>(
    alloc: Global,
    setup: &Setup,
    table: &mut DurableTable<'_, D>,
) -> Result<(), Stopped>
    requires setup { table.old.session.setup.now ≡ setup.now }
    requires stands { Stands D.content D.history table.old.session.setup.now table.old.session.holders.held table.old.journal }
    ensures stands { OnOk result (Stands D.content D.history table.old.session.setup.now table.old.session.holders.held table.new.journal) }
    ensures any_moment { AlwaysLeaves (D.history table.old.journal.lines.device) (D.history table.new.journal.lines.device)
        (FileStands table.old.session.setup.now table.old.session.holders.held) }
    ensures session { table.new.session ≡ table.old.session }
    ensures alive { cut_offs_in result ≡ 0 }
    ensures failed { failures_in result + D.faults table.old.journal.lines.device ≤ D.faults table.new.journal.lines.device }
    ensures found { IsErrOf result NoTable → ⊥ }
{
    let Ok(fresh) = empty_table(alloc, setup) else {
        return Err(Stopped::OutOfMemory);
    };
    match table.compact(alloc, NO_NAME, fresh) {
        Ok(_) => Ok(()),
        Err(error) => Err(stopped_by(error)),
    }
}

/// Makes a step, and begins the replies to its lines.
pub(crate) fn make<D: Device, W: World<D>>(
    alloc: Global,
    setup: &Setup,
    table: &mut DurableTable<'_, D>,
    step: &Step,
    world: &mut W,
) -> Result<(), Stopped>
    requires setup { table.old.session.setup.now ≡ setup.now }
    requires stands { Stands D.content D.history table.old.session.setup.now table.old.session.holders.held table.old.journal }
    requires lines { AreLines (commands_of step.now) }
    ensures past { W.past world.new ≡ W.past world.old }
    ensures file { W.found world.new ≡ W.found world.old }
    ensures made { IsMade table.old.session.setup.now table.old.session.holders.held (commands_of step.now) (D.history table.old.journal.lines.device) (D.history table.new.journal.lines.device)
        (W.replies world.old) (W.replies world.new) (W.since world.old) (W.since world.new) }
    ensures whole { OnOk result (IsMadeWhole table.old.session.setup.now table.old.session.holders.held table.new.session.holders.held (commands_of step.now)
        (W.replies world.old) (W.replies world.new)) }
    ensures stands { OnOk result (Stands D.content D.history table.old.session.setup.now table.new.session.holders.held table.new.journal) }
    ensures setup { table.new.session.setup ≡ table.old.session.setup }
    ensures cut_off { cut_offs_in result + W.cut_offs world.old ≡ W.cut_offs world.new }
    ensures failed { failures_in result + D.faults table.old.journal.lines.device ≤ D.faults table.new.journal.lines.device }
    ensures found { IsErrOf result NoTable → ⊥ }
{
    match step {
        Step::Group(lines) => make_group(alloc, table, lines, world),
        Step::Compaction => compact(alloc, setup, table),
    }
}
