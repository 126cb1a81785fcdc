//! Processes that use a table one after another, over a file of which a cut of the power loses what was not synced.
#![tactic(auto)]

mod cuts;
mod disk;
mod life;
mod log;
mod running;
mod state;
#[cfg(test)]
mod tests;

pub use cuts::{PowerCuts, noted_steps};
pub use disk::MemoryDisk;
pub use life::{End, Life};
pub use log::Log;
pub use running::run_with_power_cuts;
