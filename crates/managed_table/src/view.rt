//! What a caller's passes know, as plain data. No value of these types is made.
use root_row::Row;
use root_row::view::{AtomicStep, SeatAnswer};
use std::collections::LinkedList;
use std::snapshot::Snapshot;

/// A lock was taken and let go once. `before` and `after` are what the seat behind it had seen at these two moments, `steps`
/// the steps that it made between.
pub struct Turn {
    pub lock: usize,
    pub before: LinkedList<SeatAnswer>,
    pub after: LinkedList<SeatAnswer>,
    pub steps: LinkedList<AtomicStep>,
}

/// The lock that a pass has taken, what the seat behind it had seen, and the steps that it had made.
pub struct Taken {
    pub lock: usize,
    pub before: LinkedList<SeatAnswer>,
    pub steps: LinkedList<AtomicStep>,
}

/// What a pass knows: the row that its locks are of, its own name, how many further passes came from it, the lock that it has
/// taken, its turns, the oldest first, and the locks that it found taken, one for each time, the last first.
///
/// The first pass has the empty name. A further pass has its parent's, with its number among those of that parent before it.
pub struct Pass {
    pub row: Snapshot<Row>,
    pub name: LinkedList<u64>,
    pub further: u64,
    pub taken: Option<Taken>,
    pub turns: LinkedList<Turn>,
    pub missed: LinkedList<usize>,
}

/// What a seat at the locks knows: a caller's has one pass, that of two which are put together has two, a spent one's has none.
pub struct Passes {
    pub passes: LinkedList<Pass>,
}
