//! The counts: how often each worker holds each slot.
ghost use Rattle.std.specs.Prelude.{ℕ, ◌≡◌, ◌<◌, ◌≤◌, [], length, slice_index, slice_index_or, slice_set, replicate, IfOk};
ghost use Rattle.dep_index.specs.Calls.{IsWorkerInRange, worker_of, slot_of, rows_effect};
ghost use Rattle.dep_index.specs.declared.table.calls.Call.TheVariants.{Get};

use dep_index::Call;
use std::alloc::{AllocError, Global};
use std::marker::Model;

/// A row of counts for each worker. Contracts see them as lists.
#[derive(Drop)]
pub struct Counts {
    rows: Vec<Vec<u16>>,
}

impl Model for Counts {
    ghost use Rattle.std.specs.Prelude.{ℕ, List};

    ghost Value = { List (List ℕ) };

    ghost use Rattle.seq_table.specs.Rows.{rows_of};

    ghost view = { λ c. rows_of c.rows.items };
}

/// A row's count of a slot, 0 past its end.
fn count_at(row: &[u16], slot: usize) -> u16
    ensures { result ≡ slice_index row.now slot }
{
    row.get(slot).copied().unwrap_or(0)
}

impl Counts {
    ghost use Rattle.dep_index.specs.Table.{holders, pairs};

    /// Counts of zero.
    pub fn new(alloc: Global, workers: usize, slots: usize) -> Result<Counts, AllocError>
        ensures { IfOk result (λ counts. counts ≡ replicate workers (replicate slots 0)) }
    {
        let mut rows = Vec::with_capacity(alloc, workers)?;
        for _ in 0..workers {
            rows.push(vec![in alloc; 0u16; slots]?)?;
        }
        Ok(Counts { rows })
    }

    pub fn workers(&self) -> usize
        ensures { result ≡ length self.now }
    {
        self.rows.len()
    }

    /// How often the worker holds the slot.
    pub fn count(&self, worker: usize, slot: usize) -> u16
        requires { worker < length self.now }
        ensures { result ≡ slice_index (slice_index_or self.now worker []) slot }
    {
        count_at(&self.rows[worker], slot)
    }

    /// How many workers hold the slot.
    pub fn holders(&self, slot: usize) -> usize
        ensures { result ≡ holders self.now slot }
    {
        self.rows
            .iter()
            .filter(|row| count_at(row, slot) > 0)
            .count()
    }

    /// How often all workers together hold the slot.
    pub fn pairs(&self, slot: usize) -> u32
        requires { length self.now ≤ 64 }
        ensures sum { result ≡ pairs self.now slot }
        ensures bound { result ≤ 4194240 }
    {
        let mut total = 0;
        for row in &self.rows {
            total += u32::from(count_at(row, slot));
        }
        total
    }

    /// Writes a worker's count of a slot.
    pub fn set_count(&mut self, worker: usize, slot: usize, count: u16)
        requires worker { worker < length self.old }
        requires slot { slot < length (slice_index_or self.old worker []) }
        ensures { self.new ≡ slice_set self.old worker (slice_set (slice_index_or self.old worker []) slot count) }
    {
        let row = &mut self.rows[worker];
        row[slot] = count;
    }

    /// Writes a call that is not refused.
    pub fn write(&mut self, call: Call)
        requires worker { IsWorkerInRange (length self.old) (worker_of call) }
        requires slot { (w : ℕ) → w < length self.old → slot_of call < length (slice_index_or self.old w []) }
        requires room { (w m : ℕ) → call ≡ Get w m → slice_index (slice_index_or self.old w []) m < 65535 }
        ensures { self.new ≡ rows_effect self.old call }
    {
        match call {
            Call::Get(worker, slot) => {
                let count = self.count(worker, slot);
                self.set_count(worker, slot, count + 1);
            }
            Call::Put(worker, slot) => {
                let count = self.count(worker, slot);
                self.set_count(worker, slot, count.saturating_sub(1));
            }
            _ => {}
        }
    }
}
