//! A table in memory.
ghost use Rattle.std.specs.Prelude.{◌≡◌, true, false, All, IfOk, OnOk, ℕ};
ghost use Rattle.hold_turns.specs.Lines.{state_after, MayMake, MayHold, MayRelease};

use crate::countdown::Countdown;
use crate::held::{are_live, enter, give_all, parse, perform, take_all};
use crate::plan::Plan;
use dep_index::{ModuleState, Slots};
use held_table::HeldTable;
use hold_turns::{Broken, Half, Table};
use seq_table::Modules;
use std::alloc::{AllocError, Global};

/// The table of held_table, with the needs of a catalogue. Once it is broken: then the line is not made.
#[derive(Drop)]
pub struct MemoryTable {
    alloc: Global,
    pub(crate) table: HeldTable,
    lines: Countdown,
}

impl MemoryTable {
    ghost use Rattle.hold_machine.specs.Table.{view_of, IsEmpty};

    /// The table over the slots of a catalogue: nothing is loaded, and nobody holds anything. It fails only out of memory.
    pub fn new(alloc: Global, slots: Slots, plan: &Plan<'_>) -> Result<MemoryTable, AllocError>
        ensures { IfOk result (λ table. IsEmpty (view_of table)) }
    {
        Ok(MemoryTable {
            alloc,
            table: HeldTable::new(alloc, slots)?,
            lines: Countdown::of(plan.lines),
        })
    }

    /// The table is there for one line more, or it is broken.
    fn line(&mut self) -> Result<(), Broken>
        ensures { self.new.table ≡ self.old.table }
    {
        if self.lines.fails() {
            return Err(Broken);
        }
        Ok(())
    }
}

impl Table for MemoryTable {
    ghost use Rattle.hold_machine.specs.Table.{view_of};

    ghost view = { view_of };

    fn state(&mut self, slot: usize) -> Result<ModuleState, Broken> {
        self.line()?;
        if slot >= self.table.slots() {
            self.table.laws();
            return Ok(ModuleState::Absent);
        }
        Ok(self.table.state(slot))
    }

    fn make(&mut self, slot: usize, half: Half) -> Result<bool, Broken> {
        self.line()?;
        if slot >= self.table.slots() {
            return Ok(false);
        }
        self.table.laws();
        Ok(perform(&mut self.table, slot, half))
    }

    /// `Broken` also if the holder's name is none. Out of memory the holder may have got some of the modules.
    fn hold(&mut self, holder: &[u8], modules: &[usize]) -> Result<bool, Broken> {
        self.line()?;
        if !are_live(&self.table, modules) {
            return Ok(false);
        }
        let name = parse(self.alloc, holder)?;
        self.table.holder_laws();
        let number = enter(&mut self.table, name)?;
        self.table.holder_laws();
        take_all(&mut self.table, number, modules)?;
        Ok(true)
    }

    /// `Broken` also if the holder's name is none.
    fn release(&mut self, holder: &[u8], modules: &[usize]) -> Result<(), Broken> {
        self.line()?;
        let name = parse(self.alloc, holder)?;
        self.table.holder_laws();
        if let Some(number) = self.table.number(&name) {
            give_all(&mut self.table, number, modules);
        }
        Ok(())
    }
}
