//! Which names two worlds answer otherwise, and how.
#![tactic(auto)]

mod answering;
mod comparing;
mod lines;

pub use comparing::{Difference, differences};
pub use lines::{added_lines, taken_lines};
