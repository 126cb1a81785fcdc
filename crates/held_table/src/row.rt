//! What one holder holds.
ghost use Rattle.std.specs.Prelude.{◌≡◌, ◌<◌, ◌≤◌, ◌↔◌, ℕ, [], nat_eq, length, IsTrue, IfNone, IfSome, OnOk, if◌then◌else◌};
ghost use Rattle.held_table.specs.Rows.{count_in};

use indexmap::IndexMap;
use std::alloc::{AllocError, Global};
use std::marker::Model;

/// How often one holder holds each slot, in the memory of those that it holds.
#[derive(Drop)]
pub(crate) struct Row {
    counts: IndexMap<u16, u16>,
}

impl Model for Row {
    ghost use Rattle.indexmap.specs.IndexMap.{spare};
    ghost use Rattle.held_table.specs.Rows.{Holding, IsPositive};

    ghost Value = { Holding };

    ghost view = { λ r. record { counts = r.counts.entries; spare = spare r.counts } };

    ghost invariant = { λ r. IsPositive r.counts.entries };
}

impl Row {
    /// Nothing is held.
    pub(crate) fn new(alloc: Global) -> Row
        ensures { result.counts ≡ [] }
    {
        Row {
            counts: IndexMap::new(alloc),
        }
    }

    /// How often the slot is held.
    pub(crate) fn count(&self, slot: u16) -> u16
        ensures { result ≡ count_in self.now.counts slot }
    {
        self.counts.get(&slot).copied().unwrap_or(0)
    }

    /// Whether nothing is held.
    pub(crate) fn is_empty(&self) -> bool
        ensures { IsTrue result ↔ ((m : ℕ) → count_in self.now.counts m ≡ 0) }
    {
        self.counts.is_empty()
    }

    /// A slot that is held. None if nothing is.
    pub(crate) fn first(&self) -> Option<u16>
        ensures some { IfSome result (λ slot. 0 < count_in self.now.counts slot) }
        ensures none { IfNone result ((m : ℕ) → count_in self.now.counts m ≡ 0) }
    {
        match self.counts.first() {
            Some((slot, _)) => Some(*slot),
            None => None,
        }
    }

    /// Makes room for one slot more.
    pub(crate) fn make_room(&mut self) -> Result<(), AllocError>
        ensures room { OnOk result (0 < self.new.spare) }
        ensures stays { self.new.counts ≡ self.old.counts }
        ensures kept { self.old.spare ≤ self.new.spare }
    {
        self.counts.reserve(1)
    }

    /// Writes the count of a slot.
    pub(crate) fn set(&mut self, slot: u16, count: u16)
        requires room { 0 < count → count_in self.old.counts slot ≡ 0 → 0 < self.old.spare }
        ensures { (m : ℕ) → count_in self.new.counts m ≡ (if nat_eq slot m then count else count_in self.old.counts m) }
    {
        if count == 0 {
            self.counts.swap_remove(&slot);
            return;
        }
        if self.counts.insert(slot, count).is_err() {
            unreachable!()
        }
    }
}
