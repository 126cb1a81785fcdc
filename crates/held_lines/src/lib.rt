//! A table of modules with named holders: what a line is answered, and what it leaves.
#![tactic(auto)]

mod asked;
mod book_copy;
mod by_name;
mod found;
mod gets;
mod gives;
mod guest;
pub mod laws;
mod listing;
mod puts;
mod reply;
mod same;
mod session;
mod snapshot;
mod takes;
mod through;

pub use asked::Reference;
pub use reply::HeldReply;
pub use session::HeldSession;
