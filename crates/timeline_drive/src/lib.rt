//! The program of pictures: a report of a schedule in, its picture out.
#![tactic(auto)]

mod asked;
mod bars;
mod captions;
mod columns;
mod entries;
mod escapes;
mod explain;
mod flaws;
mod labels;
pub mod laws;
mod layout;
mod numbers;
mod other_input;
mod page;
mod program;
mod reports;
mod svg;
mod terminal;

pub use call_words::{ReplyWord, Verb};
pub use entries::{Effect, Entry};
pub use program::drive;
pub use reports::{ReportFault, read_report};
