//! Calls that make turns over a machine in memory.
ghost use Rattle.std.specs.Prelude.{◌≡◌, List, IfOk};
ghost use Rattle.hold_turns.specs.Events.{StaysWhileHeld};
ghost use Rattle.hold_turns.specs.Rule.{AreOne};
ghost use Rattle.hold_turns.specs.Course.{AreMade};
ghost use Rattle.hold_turns.specs.declared.call.Call.{Call};
ghost use Rattle.hold_machine.specs.Runs.{AreBegun};
ghost use Rattle.hold_machine.specs.Hands.{view_of as hands_view};
ghost use Rattle.hold_machine.specs.Table.{view_of as table_view};

use crate::asked::{Asked, begin_all};
use crate::hands::MemoryHands;
use crate::plan::Plan;
use crate::table::MemoryTable;
use dep_index::Catalogue;
use hold_turns::{Call, Choice, holds_keep_modules};
use std::alloc::{AllocError, Global};

/// What a run leaves.
#[derive(Drop)]
pub struct Run<'a> {
    pub calls: Vec<Call<'a>>,
    pub table: MemoryTable,
    pub hands: MemoryHands<'a>,
}

/// Has calls make turns over a kernel without modules and a table of a catalogue's modules, by choices, while that goes wrong
/// which a plan says. It fails only if memory is out before the first turn.
///
/// Whatever is asked, chosen and planned, the kernel has what is promised, as `holds_keep_modules` says.
pub fn run_in_memory<'a>(
    alloc: Global,
    catalogue: &Catalogue,
    asked: &[Asked<'a>],
    choices: &[Choice],
    plan: &Plan<'a>,
) -> Result<Run<'a>, AllocError>
    ensures kept { IfOk result (λ run. StaysWhileHeld (hands_view run.hands).events) }
    ensures made { IfOk result (λ run. (begun : List Call) × AreBegun asked.now begun × AreMade begun choices.now run.calls.items) }
    ensures one { IfOk result (λ run. AreOne (table_view run.table) (hands_view run.hands)) }
{
    let slots = catalogue.slots(alloc)?;
    let mut hands = MemoryHands::new(alloc, slots.len(), asked.len(), plan)?;
    let mut table = MemoryTable::new(alloc, slots, plan)?;
    let mut calls = begin_all(alloc, asked)?;
    holds_keep_modules(alloc, &mut calls, choices, &mut table, &mut hands);
    Ok(Run {
        calls,
        table,
        hands,
    })
}
