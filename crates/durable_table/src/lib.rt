//! A table with named holders whose journal is on the disk before a reply is given.
#![tactic(auto)]

mod chained;
mod compaction;
mod durable;
mod group;
mod head;
mod kept;
mod opening;
mod renewal;
mod replay;
mod seal;

pub use chained::Chained;
pub use compaction::Compacted;
pub use durable::{DurableTable, PerformError};
pub use head::NO_NAME;
pub use kept::CaughtUp;
pub use opening::{OpenedTable, ReadTable, create, open, open_reading};
