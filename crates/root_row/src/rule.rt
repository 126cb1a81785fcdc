//! The rule as the base asks for it.
use crate::view::Trail;
use atomic_table::TableRule;
use dep_index::Slots;
use std::snapshot::Snapshot;

/// What a row is told once: its catalogue, and the numbers of workers and readers.
#[derive(Drop)]
pub struct Setting {
    pub workers: usize,
    pub readers: usize,
    pub catalogue: Snapshot<Slots>,
}

/// One legal history for all seats, and words that show the table after it.
pub struct OneHistory;

impl TableRule<(), Trail, Setting> for OneHistory {
    ghost use Rattle.std.specs.Prelude.{[]};
    ghost use Rattle.root_row.specs.Setting.{world_of, first_view};
    ghost use Rattle.root_row.specs.Trails.{trail, TrailRule};

    ghost holds = { λ setting. TrailRule (world_of setting) };

    ghost first = { λ setting. trail (first_view setting) [] };
}
