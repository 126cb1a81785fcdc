//! What lines do to the table of held_table.
ghost use Rattle.std.specs.Prelude.{◌≡◌, ◌<◌, ℕ, true, false, length, All, Contains, IfOk, OnOk, OnErr};
ghost use Rattle.dep_index.specs.Calls.{reply, next};
ghost use Rattle.dep_index.specs.declared.table.calls.Reply.TheVariants.{Done};
ghost use Rattle.held_table.specs.Names.{name_bytes};
ghost use Rattle.held_table.specs.Held.{number_of, entered};
ghost use Rattle.hold_machine.specs.Table.{call_of, holds_at, Takes, Gives, IsLiveIn};

use dep_index::ModuleState;
use held_table::{HeldTable, HolderName};
use hold_turns::{Broken, Half};
use seq_table::Modules;
use std::alloc::Global;

/// The name of a holder. `Broken`: it is none, or memory is out.
pub(crate) fn parse(alloc: Global, holder: &[u8]) -> Result<HolderName, Broken>
    ensures { IfOk result (λ name. name_bytes name ≡ holder.now) }
{
    match HolderName::parse(alloc, holder) {
        Ok(name) => Ok(name),
        Err(_) => Err(Broken),
    }
}

/// Makes a half, and says whether it was made.
pub(crate) fn perform(table: &mut HeldTable, slot: usize, half: Half) -> bool
    requires { slot < length table.old.catalogue }
    ensures made { result ≡ true → reply table.old.catalogue table.old.held.table (call_of half slot) ≡ Done }
    ensures becomes { table.new.held.table ≡ next table.old.catalogue table.old.held.table (call_of half slot) }
    ensures names { table.new.held.names ≡ table.old.held.names }
{
    match half {
        Half::BeginLoad => table.begin_load(slot).is_ok(),
        Half::LoadDone => table.end_load(slot, true).is_ok(),
        Half::LoadFailed => table.end_load(slot, false).is_ok(),
        Half::BeginRemove => table.begin_remove(slot).is_ok(),
        Half::EndRemove => table.end_remove(slot).is_ok(),
        Half::CancelRemove => table.cancel_remove(slot).is_ok(),
    }
}

/// Whether there is a module of this slot, and it is live.
fn is_live(table: &HeldTable, slot: usize) -> bool
    ensures { result ≡ true → IsLiveIn table.now slot }
{
    slot < table.slots() && table.state(slot) == ModuleState::Live
}

/// Whether all these modules are live.
pub(crate) fn are_live(table: &HeldTable, slots: &[usize]) -> bool
    ensures { result ≡ true → All (λ (m : ℕ). IsLiveIn table.now m) slots.now }
{
    for slot in slots {
        if !is_live(table, *slot) {
            return false;
        }
    }
    true
}

/// A holder comes in, if it is not there. `Broken`: out of memory, or 65,536 others are there.
pub(crate) fn enter(table: &mut HeldTable, name: HolderName) -> Result<usize, Broken>
    ensures number { IfOk result (λ number. number ≡ number_of table.old.held.names (name_bytes name)) }
    ensures below { IfOk result (λ number. number < length table.new.held.names) }
    ensures enters { OnOk result (table.new.held ≡ entered table.old.held (name_bytes name)) }
    ensures stays { OnErr result (table.new.held ≡ table.old.held) }
    ensures over { table.new.catalogue ≡ table.old.catalogue }
{
    match table.enter(name) {
        Ok(number) => Ok(number),
        Err(_) => Err(Broken),
    }
}

/// A holder holds a module, if it did not. `Broken`: out of memory, or the module is not live.
fn take(table: &mut HeldTable, number: usize, slot: usize) -> Result<(), Broken>
    requires number { number < length table.old.held.table.rows }
    requires slot { slot < length table.old.catalogue }
    ensures takes { Takes number (λ m. m ≡ slot) table.old table.new }
    ensures taken { OnOk result (holds_at table.new.held.table number slot ≡ true) }
{
    table.laws();
    if table.held(number, slot) > 0 {
        return Ok(());
    }
    if table.make_room(number).is_err() {
        return Err(Broken);
    }
    match table.get(number, slot) {
        Ok(()) => Ok(()),
        Err(_) => Err(Broken),
    }
}

/// A holder holds each of these modules. Out of memory it may have got some of them.
pub(crate) fn take_all(table: &mut HeldTable, number: usize, slots: &[usize]) -> Result<(), Broken>
    requires number { number < length table.old.held.table.rows }
    requires slots { All (λ (m : ℕ). m < length table.old.catalogue) slots.now }
    ensures takes { Takes number (Contains slots.now) table.old table.new }
    ensures taken { OnOk result (All (λ (m : ℕ). holds_at table.new.held.table number m ≡ true) slots.now) }
{
    for slot in slots {
        take(table, number, *slot)?;
    }
    Ok(())
}

/// A holder gives a module back, as often as it holds it.
fn give(table: &mut HeldTable, number: usize, slot: usize)
    requires number { number < length table.old.held.table.rows }
    ensures gives { Gives number (λ m. m ≡ slot) table.old table.new }
    ensures given { holds_at table.new.held.table number slot ≡ false }
{
    table.laws();
    if slot >= table.slots() {
        return;
    }
    while table.held(number, slot) > 0 {
        let _ = table.put(number, slot);
    }
}

/// A holder gives each of these modules back.
pub(crate) fn give_all(table: &mut HeldTable, number: usize, slots: &[usize])
    requires { number < length table.old.held.table.rows }
    ensures gives { Gives number (Contains slots.now) table.old table.new }
    ensures given { All (λ (m : ℕ). holds_at table.new.held.table number m ≡ false) slots.now }
{
    for slot in slots {
        give(table, number, *slot);
    }
}
