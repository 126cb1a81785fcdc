//! The words of the program of a shared table: what they ask for, and with which status the program ends.
#![tactic(auto)]

mod asked;
mod ending;
mod fault;
mod help;
pub mod laws;
mod line;
mod options;
mod step;

pub use asked::{Asked, Job, Machine, Origin, read_words};
pub use ending::Ending;
pub use fault::{Fault, Stop};
pub use help::{HELP, VERSION};
pub use line::{is_line_word, line_of};
pub use options::Valued;
