//! The row of root words.
use crate::rule::{OneHistory, Setting};
use crate::view::Trail;
use atomic_table::Table;
use std::alloc::Global;
use std::marker::Model;

/// How far a slot's word stands from the next slot's: two cache lines, which processors fetch together.
pub(crate) const WORDS_APART: usize = 16;

/// How many slots' room stays free after the last word: a page of memory. A processor whose worker goes through the words
/// fetches ahead of it, to the end of the page, and would take what other workers write there.
pub(crate) const SLOTS_FREE: usize = 32;

/// A root word for each slot of a catalogue, each on two cache lines of its own, so that workers of different modules
/// don't disturb each other. Two spare lines stand before them, and a free page after them.
///
/// Each of its steps is one atomic step with one seat of this row, takes no memory and does not wait.
#[derive(Drop)]
#[repr(C)]
pub struct Row {
    pub(crate) table: Table<(), Trail, Setting, OneHistory, Global>,
    pub(crate) slot_count: usize,
    /// Two cache lines: each call reads the row, so what others write may lie behind it, and not beside it.
    pub(crate) room: [u64; 16],
}

impl Model for Row {
    ghost use Rattle.std.specs.Prelude.{◌≡◌, ◌+◌, ◌<◌};
    ghost use Rattle.root_row.specs.World.{slots, word_count};
    ghost use Rattle.root_row.specs.Setting.{world_of};
    ghost use Rattle.root_row.specs.Seats.{RowIs};

    ghost Value = { RowIs };

    ghost view = { λ r. record { id = r.table.shared.table_id; world = world_of r.table.shared.key } };

    ghost invariant = { λ r. (r.table.shared.table_id.words ≡ word_count (world_of r.table.shared.key))
        × (r.slot_count ≡ slots (world_of r.table.shared.key)) × (r.slot_count < 4294967296) };
}

impl Row {
    ghost use Rattle.std.specs.Prelude.{◌≡◌};
    ghost use Rattle.root_row.specs.World.{slots};

    /// How many slots the row has.
    pub fn slots(&self) -> usize
        ensures { result ≡ slots self.now.world }
    {
        self.slot_count
    }
}
