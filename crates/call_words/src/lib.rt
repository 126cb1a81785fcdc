//! The words of calls and replies, as schedules and reports have them.
#![tactic(auto)]

mod reply;
mod verb;

pub use reply::ReplyWord;
pub use verb::{Said, Verb, call_of};
