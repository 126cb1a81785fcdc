//! The program of schedules and scripts, over any words and streams.
#![tactic(auto)]

mod asked;
mod explain;
mod fault;
mod lines;
mod program;
mod schedule;
mod script;
mod statement;

pub use fault::{LineCode, LineFault, ScheduleFault};
pub use program::drive;
pub use schedule::report;
pub use script::{
    Gate, Numbering, OpenGate, Replies, Script, WorkFault, read_script, run_managed, run_threads,
};
