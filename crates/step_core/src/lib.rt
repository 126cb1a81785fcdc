//! The machine of steps: the calls of many threads on a module table, one atomic step at a time.
#![tactic(auto)]

mod holders;
pub mod laws;
mod line;
mod machine;
mod state;
mod steps;
mod word_step;

pub use dep_index::{Call, Reply};
pub use machine::Machine;
pub use steps::{Activity, Event, Line, Step, StepError};
