//! A script: lines of workers, each worker on a thread of its own.

mod acts;
mod by_caller;
mod by_manager;
mod calls;
mod course;
mod entries;
mod listing;
mod replies;
mod tasks;
mod threads;
mod worker;

pub use replies::{Numbering, Replies};
pub use tasks::{Script, read_script};
pub use threads::{Gate, OpenGate, WorkFault, run_managed, run_threads};
