//! Processes that use a table one after another, over a file of the system which each of them opens anew.
#![tactic(auto)]

mod counted;
mod life;
mod lives;
mod making;
mod running;
#[cfg(test)]
mod tests;

pub use counted::CountedFile;
pub use life::Life;
pub use lives::FileLives;
pub use running::run_over_files;
