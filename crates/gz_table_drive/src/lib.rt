//! The program of a table that processes share, over any words and streams.
#![tactic(auto)]

mod adopt;
mod adopting;
mod answering;
mod check;
mod compaction;
mod create;
mod in_use;
mod kept;
pub mod laws;
mod log;
mod opening;
mod program;
mod reading;
mod renewal;
mod repair;
mod tenure;

pub use adopting::{AdoptError, adopt_modules};
pub use answering::{AnswerError, Replies, answer_lines};
pub use log::Tenures;
pub use program::drive;
