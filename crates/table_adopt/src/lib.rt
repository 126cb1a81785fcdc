//! What brings a table of modules to those that a kernel has: the lines to be performed, one after another.
#![tactic(auto)]

mod adoption;
mod course;
mod kernel;
mod loads;
mod plan;
mod step;

pub use adoption::{Adoption, adopt};
pub use kernel::{KernelFault, KernelModule, read_modules};
pub use step::Step;
