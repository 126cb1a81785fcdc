//! The names of a module's parameters, by its own file.
#![tactic(auto)]

mod file;
mod names;

pub use file::parameters;
