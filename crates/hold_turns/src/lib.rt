//! Calls that load, hold, give back and remove modules, in any order of their turns, whatever is cut off when.
#![tactic(auto)]

mod bring;
mod call;
mod course;
mod hands;
mod run;
mod table;

pub use call::{Call, End, Job, State, Stopped};
pub use hands::{Gone, Hands};
pub use run::{Choice, holds_keep_modules};
pub use table::{Broken, Half, Table};
