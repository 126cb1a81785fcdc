//! The table of modules, used by one thread.
#![tactic(auto)]

mod counts;
mod modules;
mod performing;
mod table;

pub use counts::Counts;
pub use modules::Modules;
pub use performing::perform;
pub use table::Table;
