//! The lines of /proc/modules in both directions, and the listings of a table of modules.
#![tactic(auto)]

mod columns;
mod entry;
pub mod laws;
mod line;
mod listing;
mod modinfo;
mod names;
mod read;
mod users;
mod words;
mod write;

pub use entry::{Entry, push_line};
pub use line::{Line, LineError, LineState};
pub use listing::{lsmod_text, proc_text};
pub use modinfo::{modinfo_text, push_kind};
pub use names::Names;
pub use read::read_line;
pub use write::{push_number, write_line};
