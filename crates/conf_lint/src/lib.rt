//! Which lines of a configuration are about nothing.
#![tactic(auto)]

mod known;
pub mod laws;
mod lines;
mod named;
mod note;
mod setting;
mod words;

pub use known::Known;
pub use lines::lint;
pub use note::{Note, NoteKind};
