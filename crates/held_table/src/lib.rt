//! The table of modules by the holders that there are, used by one thread.
#![tactic(auto)]

mod held_table;
mod name;
mod names;
mod row;
mod rows;
mod settling;

pub use held_table::HeldTable;
pub use name::{HolderName, NameError};
pub use settling::{EnterError, MOST_HOLDERS};
