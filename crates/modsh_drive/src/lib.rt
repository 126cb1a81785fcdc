//! The session program over any words and streams.
#![tactic(auto)]

mod asked;
mod causes;
mod commands;
mod explain;
mod files;
mod hints;
mod holders;
mod lists;
mod near;
mod notes;
mod parameters;
mod places;
mod program;
mod refusals;
mod sections;
mod status;
mod texts;
mod values;
mod ways;
mod witness;

pub use modprobe::FromWrite;
pub use program::drive;
