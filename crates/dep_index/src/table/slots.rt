//! What a table asks of a catalogue: needs and marks by slot.
ghost use Rattle.std.specs.Prelude.{◌≡◌, ℕ, ◌<◌, ◌≤◌, ◌==◌, true, [], ◌∷◌, ◌++◌, length, slice_index_or, IfOk, OnOk, OnErr};
ghost use Rattle.std.specs.List.{list_any};
ghost use Rattle.dep_index.specs.Table.{module_at, needs_slot};
ghost use Rattle.dep_index.specs.Slots.{rows_in, is_noted, AreKept, AreNotedFor};

use std::alloc::{AllocError, Global};
use std::marker::Model;

/// What the catalogue says of a slot.
#[derive(Drop)]
struct Slot {
    needs: Vec<u16>,
    unknown_symbol: bool,
    permanent: bool,
}

/// The modules of a catalogue by slot. Contracts see it as the list of its modules.
#[derive(Drop)]
pub struct Slots {
    slots: Vec<Slot>,
    /// By slot, who needs it. Out of memory at a `push`, some may be noted that do not.
    users: Vec<Vec<u16>>,
}

impl Model for Slots {
    ghost use Rattle.std.specs.Prelude.{List};
    ghost use Rattle.dep_index.specs.Table.{Module};

    ghost Value = { List Module };

    ghost use Rattle.dep_index.specs.Slots.{modules_in, IsIndexed};

    ghost view = { λ a. modules_in a.slots.items };

    ghost invariant = { λ a. IsIndexed a.slots.items a.users.items };
}

/// Adds empty rows up to that many.
fn lengthen(alloc: Global, rows: &mut Vec<Vec<u16>>, len: usize) -> Result<(), AllocError>
    ensures rows { (m : ℕ) → slice_index_or (rows_in rows.new.items) m [] ≡ slice_index_or (rows_in rows.old.items) m [] }
    ensures len { OnOk result (len ≤ length rows.new.items) }
{
    'padding: while rows.len() < len {
        rows.push(Vec::new(alloc))?;
    }
    Ok(())
}

/// Notes the user in the row of the slot.
fn note(alloc: Global, rows: &mut Vec<Vec<u16>>, slot: usize, user: u16) -> Result<(), AllocError>
    requires { slot < 65536 }
    ensures kept { AreKept (rows_in rows.old.items) (rows_in rows.new.items) }
    ensures noted { OnOk result (is_noted (rows_in rows.new.items) slot user ≡ true) }
{
    lengthen(alloc, rows, slot + 1)?;
    let row = &mut rows[slot];
    row.push(user)?;
    Ok(())
}

/// Notes the user in the rows of its needs.
fn note_needs(
    alloc: Global,
    rows: &mut Vec<Vec<u16>>,
    needs: &[u16],
    user: u16,
) -> Result<(), AllocError>
    ensures kept { AreKept (rows_in rows.old.items) (rows_in rows.new.items) }
    ensures noted { OnOk result (AreNotedFor needs.now (rows_in rows.new.items) user) }
{
    for need in needs {
        note(alloc, rows, *need as usize, user)?;
    }
    Ok(())
}

impl Slots {
    /// No module.
    pub fn new(alloc: Global) -> Slots
        ensures { result ≡ [] }
    {
        Slots {
            slots: Vec::new(alloc),
            users: Vec::new(alloc),
        }
    }

    /// Adds a module behind the others, of which there are at most 65,534. Out of memory, it is not added.
    pub fn push(
        &mut self,
        needs: Vec<u16>,
        unknown_symbol: bool,
        permanent: bool,
    ) -> Result<(), AllocError>
        requires room { length self.old < 65535 }
        ensures added { IfOk result (λ _. self.new ≡ self.old ++ record { needs = needs.items; unknown_symbol = unknown_symbol; permanent = permanent } ∷ []) }
        ensures kept { OnErr result (self.new ≡ self.old) }
    {
        let alloc = *self.slots.allocator();
        let user = self.slots.len() as u16;
        note_needs(alloc, &mut self.users, &needs, user)?;
        self.slots.push(Slot {
            needs,
            unknown_symbol,
            permanent,
        })?;
        Ok(())
    }

    /// How many modules there are, at most 65,535.
    pub fn len(&self) -> usize
        ensures result_is { result ≡ length self.now }
        ensures bound { length self.now ≤ 65535 }
    {
        self.slots.len()
    }

    /// The slots that the module needs, in the order of its symbols.
    pub fn needs(&self, slot: usize) -> &[u16]
        requires { slot < length self.now }
        ensures { result.now ≡ (module_at self.now slot).needs }
    {
        &self.slots[slot].needs
    }

    /// Slots among which is each that needs the slot.
    pub(crate) fn users(&self, slot: usize) -> &[u16]
        ensures { (u : ℕ) → needs_slot self.now slot u ≡ true → list_any (λ s. s == u) result.now ≡ true }
    {
        match self.users.get(slot) {
            Some(row) => row,
            None => &[],
        }
    }

    /// Whether the module needs a symbol that no module exports.
    pub fn unknown_symbol(&self, slot: usize) -> bool
        requires { slot < length self.now }
        ensures { result ≡ (module_at self.now slot).unknown_symbol }
    {
        self.slots[slot].unknown_symbol
    }

    /// Whether the module stays once it is loaded.
    pub fn permanent(&self, slot: usize) -> bool
        requires { slot < length self.now }
        ensures { result ≡ (module_at self.now slot).permanent }
    {
        self.slots[slot].permanent
    }

    /// The same slots, for another owner. It fails only out of memory.
    pub fn copy(&self, alloc: Global) -> Result<Slots, AllocError>
        ensures { IfOk result (λ copied. copied ≡ self.now) }
    {
        let mut copied = Slots::new(alloc);
        for slot in &self.slots {
            let needs = Vec::from_slice(alloc, &slot.needs)?;
            copied.push(needs, slot.unknown_symbol, slot.permanent)?;
        }
        Ok(copied)
    }
}
