//! Which kmod's answers are wanted, and in what its versions differ.
#![tactic(auto)]

mod kmod;

pub use kmod::Kmod;
