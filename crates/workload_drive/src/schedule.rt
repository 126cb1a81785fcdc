//! A schedule: steps of threads, made one by one on the machine, and the report of the calls that they make.

mod order;
mod reports;
mod steps;

pub(crate) use order::{Order, order_of};
pub(crate) use reports::name_at;
pub use reports::report;
