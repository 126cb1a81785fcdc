//! Processes that use one table one after another, whatever cuts them off.
#![tactic(auto)]

mod ending;
pub mod laws;
mod making;
mod outside;
mod process;
mod processes;
mod step;

pub use ending::Stopped;
pub use outside::World;
pub use process::tenure;
pub use processes::run;
pub use step::Step;
