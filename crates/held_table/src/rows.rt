//! What all holders hold.
ghost use Rattle.std.specs.Prelude.{◌≡◌, ◌<◌, ◌≤◌, ◌==◌, ◌↔◌, ◌&&◌, ◌++◌, ◌∷◌, ℕ, true, None, [], length, nat_lt, replicate, slice_index, slice_index_or, slice_set, swap_remove, IsTrue, IfNone, IfOk, IfSome, OnOk, OnErr, if◌then◌else◌};
ghost use Rattle.dep_index.specs.Table.{holders, pairs};
ghost use Rattle.held_table.specs.Held.{is_idle, IsIdle};
ghost use Rattle.held_table.specs.Names.{name_bytes, place_of};
ghost use Rattle.held_table.specs.Rows.{no_holding, count_in};

use crate::name::HolderName;
use crate::names::Names;
use crate::row::Row;
use std::alloc::{AllocError, Global};
use std::marker::Model;

/// What each holder holds, by numbers from 0, and how often all together hold each slot. Contracts see a row of
/// counts for each holder.
#[derive(Drop)]
pub(crate) struct Rows {
    rows: Vec<Row>,
    totals: Vec<u32>,
}

impl Model for Rows {
    ghost use Rattle.std.specs.Prelude.{length};
    ghost use Rattle.held_table.specs.Rows.{Rows, rows_of, AreTotalled};

    ghost Value = { Rows };

    ghost view = { λ r. rows_of (length r.totals.items) r.rows.items };

    ghost invariant = { λ r. AreTotalled r.rows.items r.totals.items };
}

/// Writes a count, and says what it was.
fn write(rows: &mut Vec<Row>, number: usize, slot: u16, count: u16) -> u16
    requires number { number < length rows.old.items }
    requires room { 0 < count → count_in (slice_index_or rows.old.items number no_holding).counts slot ≡ 0 → 0 < (slice_index_or rows.old.items number no_holding).spare }
    ensures was { result ≡ count_in (slice_index_or rows.old.items number no_holding).counts slot }
    ensures len { length rows.new.items ≡ length rows.old.items }
    ensures counts { (w m : ℕ) → count_in (slice_index_or rows.new.items w no_holding).counts m ≡ (if (number == w) && (slot == m) then count else count_in (slice_index_or rows.old.items w no_holding).counts m) }
{
    let row = &mut rows[number];
    let was = row.count(slot);
    row.set(slot, count);
    was
}

impl Rows {
    /// No holder, of so many slots.
    pub(crate) fn new(alloc: Global, slots: usize) -> Result<Rows, AllocError>
        requires { slots ≤ 65535 }
        ensures slots { IfOk result (λ made. made.slots ≡ slots) }
        ensures none { IfOk result (λ made. made.rows ≡ []) }
    {
        Ok(Rows {
            rows: Vec::new(alloc),
            totals: vec![in alloc; 0u32; slots]?,
        })
    }

    /// How many holders there are, 65,536 at most.
    pub(crate) fn len(&self) -> usize
        ensures len { result ≡ length self.now.rows }
        ensures few { result ≤ 65536 }
    {
        self.rows.len()
    }

    /// How often the holder holds the slot.
    pub(crate) fn count(&self, number: usize, slot: usize) -> u16
        requires number { number < length self.now.rows }
        requires slot { slot < self.now.slots }
        ensures { result ≡ slice_index (slice_index_or self.now.rows number []) slot }
    {
        self.rows[number].count(slot as u16)
    }

    /// How often all holders together hold the slot.
    pub(crate) fn total(&self, slot: usize) -> u32
        requires { slot < self.now.slots }
        ensures sum { result ≡ pairs self.now.rows slot }
        ensures bound { result ≤ 4294901760 }
    {
        self.totals[slot]
    }

    /// Whether any holder holds the slot.
    pub(crate) fn is_held(&self, slot: usize) -> bool
        requires { slot < self.now.slots }
        ensures { result ≡ nat_lt 0 (holders self.now.rows slot) }
    {
        self.total(slot) > 0
    }

    /// Makes room for one slot more of a holder.
    pub(crate) fn make_room(&mut self, number: usize) -> Result<(), AllocError>
        requires { number < length self.old.rows }
        ensures room { OnOk result (0 < slice_index self.new.spare number) }
        ensures rows { self.new.rows ≡ self.old.rows }
        ensures slots { self.new.slots ≡ self.old.slots }
    {
        let row = &mut self.rows[number];
        row.make_room()
    }

    /// Writes how often a holder holds a slot.
    pub(crate) fn set_count(&mut self, number: usize, slot: usize, count: u16)
        requires number { number < length self.old.rows }
        requires slot { slot < self.old.slots }
        requires room { 0 < count → slice_index (slice_index_or self.old.rows number []) slot ≡ 0 → 0 < slice_index self.old.spare number }
        ensures rows { self.new.rows ≡ slice_set self.old.rows number (slice_set (slice_index_or self.old.rows number []) slot count) }
        ensures slots { self.new.slots ≡ self.old.slots }
    {
        let was = write(&mut self.rows, number, slot as u16, count);
        let others = self.totals[slot] - u32::from(was);
        self.totals[slot] = others + u32::from(count);
    }

    /// Adds a holder behind the others, which holds nothing, and its name behind theirs. Out of memory, neither.
    pub(crate) fn push(&mut self, names: &mut Names, name: HolderName) -> Result<(), AllocError>
        requires few { length self.old.rows < 65536 }
        requires new { place_of names.old (name_bytes name) ≡ None }
        ensures added { OnOk result (self.new.rows ≡ self.old.rows ++ replicate self.old.slots 0 ∷ []) }
        ensures named { OnOk result (names.new ≡ names.old ++ name_bytes name ∷ []) }
        ensures rows { OnErr result (self.new.rows ≡ self.old.rows) }
        ensures names { OnErr result (names.new ≡ names.old) }
        ensures slots { self.new.slots ≡ self.old.slots }
    {
        let alloc = *self.rows.allocator();
        self.rows.reserve(1)?;
        names.push(name)?;
        if self.rows.push(Row::new(alloc)).is_err() {
            unreachable!()
        }
        Ok(())
    }

    /// Whether a holder holds nothing.
    pub(crate) fn is_idle(&self, number: usize) -> bool
        requires { number < length self.now.rows }
        ensures { result ≡ is_idle (slice_index_or self.now.rows number []) }
    {
        self.rows[number].is_empty()
    }

    /// Removes a holder that holds nothing; the last one takes its place.
    pub(crate) fn remove(&mut self, number: usize)
        requires number { number < length self.old.rows }
        requires idle { is_idle (slice_index_or self.old.rows number []) ≡ true }
        ensures rows { self.new.rows ≡ swap_remove self.old.rows number [] }
        ensures slots { self.new.slots ≡ self.old.slots }
    {
        let _row = self.rows.swap_remove(number);
    }

    /// A slot that a holder holds. None if it holds nothing.
    fn first(&self, number: usize) -> Option<usize>
        requires { number < length self.now.rows }
        ensures within { IfSome result (λ slot. slot < self.now.slots) }
        ensures some { IfSome result (λ slot. 0 < slice_index (slice_index_or self.now.rows number []) slot) }
        ensures none { IfNone result (IsIdle (slice_index_or self.now.rows number [])) }
    {
        match self.rows[number].first() {
            Some(slot) => Some(usize::from(slot)),
            None => None,
        }
    }

    /// Writes that a holder holds nothing of so many slots, which are all. It takes as long as the holder holds slots.
    pub(crate) fn clear(&mut self, number: usize, slots: usize)
        requires number { number < length self.old.rows }
        requires slots { slots ≡ self.old.slots }
        requires row { length (slice_index_or self.old.rows number []) ≡ self.old.slots }
        ensures rows { self.new.rows ≡ slice_set self.old.rows number (replicate self.old.slots 0) }
        ensures slots { self.new.slots ≡ self.old.slots }
    {
        while let Some(slot) = self.first(number) {
            self.set_count(number, slot, 0);
        }
    }
}
