//! Files that stand before a session, as sections of its text.
#![tactic(auto)]

mod folder;
mod words;

pub use folder::paths_in;
pub use words::{NamedFile, add_section};
