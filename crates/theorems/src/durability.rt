//! A table that processes use one after another.
ghost use Rattle.std.specs.Prelude.{◌≡◌, [], All, List, ℕ, map};
ghost use Rattle.durable_table.specs.Tables.{opening_of};
ghost use Rattle.durable_table.specs.Durable.{FileStands};
ghost use Rattle.tenures.specs.Tenures.{asked_of};
ghost use Rattle.tenures.specs.Endings.{HaveEnded};
ghost use Rattle.tenures.specs.Steps.{AreSteps, groups_of};
ghost use Rattle.theorems.specs.Durability.{IsDurablyLinearized};

use line_journal::{Device, Repair};
use modprobe::Setup;
use std::alloc::Global;
use tenures::laws::removals_find_no_holder;
use tenures::{Step, World};

/// Processes use one table, one after another. Each is asked groups of lines, and begins replies to the first of these lines. It
/// may also rewrite the journal between two groups. Each is ended, or cut off at whatever moment: it is killed, or its machine
/// crashes. Then the table is that of one list of commands. In it each command whose reply was begun stands once, in the order of
/// the replies. Of the others only commands of one group of a process stand there, each once: all of a group to which a reply was
/// begun, or the first ones of the group that came next. Each reply is the one of the table at the place where its command stands.
/// So no removal succeeds while any holder of any process, alive or dead, holds the module, whatever was killed when. This is
/// durable linearizability (Izraelevitz, Mendes, Scott, DISC 2016).
///
/// Nor does it hold because nothing is done: each process has begun a reply to each line, but for those that were cut off, those
/// whose device failed, those that found no table, and those for which memory was short (`HaveEnded`). No more are told as cut
/// off than `world` cut off, and no more as failed than calls of the device failed. One finds no table only if more stands behind
/// the lines of its file than `repair` lets be cut off.
///
/// Premises: one process at a time has the table open (flock(2)). What was synced is on the disk (fsync(2)), and a rename is done
/// whole or not at all (rename(2)): that is the contract of `Device`. A reply is begun after `perform_all` returned it. The
/// journal was new before the first process, as `durable_table::create` leaves it.
pub fn tenures_are_durably_linearizable<D: Device, W: World<D>>(
    alloc: Global,
    setup: &Setup,
    device: D,
    repair: Repair,
    processes: &[Vec<Step>],
    world: &mut W,
) -> D
    requires lines { All (λ steps. AreSteps steps.items) processes.now }
    requires first { W.past world.old ≡ [] }
    requires none { W.replies world.old ≡ [] }
    requires since { W.since world.old ≡ (D.history device).now }
    requires file { W.found world.old ≡ D.content device }
    requires new { (file : List ℕ) → (D.history device).leaves file → FileStands setup.now (opening_of setup.now) file }
    ensures asked { asked_of (W.past world.new) ≡ map (λ steps. groups_of steps.items) processes.now }
    ensures ended { HaveEnded repair (W.cut_offs world.old) (W.cut_offs world.new) (D.faults device) (D.faults result) (W.past world.new) }
    ensures durable { (file : List ℕ) → (D.history result).leaves file → IsDurablyLinearized setup.now (W.past world.new) file }
{
    removals_find_no_holder();
    tenures::run(alloc, setup, device, repair, processes, world)
}
