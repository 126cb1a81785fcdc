//! Look-up of modules, the order in which they are loaded or removed, and their parameters.
#![tactic(auto)]

mod by_slot;
mod filled;
mod graph;
mod items;
mod kept;
pub mod laws;
mod learnt;
mod look_up;
mod options;
mod parameters;
mod planner;
mod plans;
mod reach;
mod refusal;
mod sources;
mod trial;
mod values;
mod visit;
mod walk;

pub use items::{Item, PlanError, plan, removal_plan};
pub use kept::is_kept;
pub use look_up::{FindError, find};
pub use options::Options;
pub use parameters::params_valid;
pub use planner::Planner;
pub use sources::Sources;
