//! Which lines of a machine's own configuration have no effect on it.
#![tactic(auto)]

mod items;
mod judge;
mod kinds;
mod known;
pub mod laws;
mod line;
mod lines;
mod names;
mod note;
mod notes;
mod options;
mod parameters;
mod repeats;
mod setting;
mod soft_items;
mod unread;
mod words;

pub use known::{Known, ModuleParameters, Origin};
pub use note::{Note, NoteKind};
pub use notes::lint;
pub use setting::Setting;
pub use unread::unchecked;
pub use words::has_pattern;
