//! A machine in memory on which calls hold modules: a kernel, locks, acts that go on, and the table of held_table.
#![tactic(auto)]

mod asked;
mod countdown;
mod hands;
mod held;
mod kernel;
mod locks;
mod log;
mod plan;
mod running;
mod story;
mod table;
#[cfg(test)]
mod tests;

pub use asked::Asked;
pub use hands::{Doing, MemoryHands};
pub use kernel::Kernel;
pub use plan::{Plan, Progress};
pub use running::{Run, run_in_memory};
pub use story::Happened;
pub use table::MemoryTable;
