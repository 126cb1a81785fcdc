//! The rule as the base asks for it.
use crate::keyed::Keyed;
use crate::view::Passes;
use atomic_table::TableRule;
use root_row::Row;
use std::marker::PhantomData;
use std::snapshot::Snapshot;

/// What the locks are told once: the row, and how many locks there are.
#[derive(Drop)]
pub struct Setting {
    pub row: Snapshot<Row>,
    pub locks: usize,
}

/// Each call of a seat behind a lock was made in one turn of one pass.
pub struct OneTurn<T> {
    marker: PhantomData<T>,
}

impl<T: Keyed> TableRule<T, Passes, Setting> for OneTurn<T> {
    ghost use Rattle.managed_table.specs.Locks.{LocksRule, first_view};

    ghost holds = { λ setting. LocksRule setting.row.value setting.locks T.by T.fits T.shown };

    ghost first = { first_view };
}
