//! The book of loads, drains and removals, and a manager that keeps it and the leaves behind locks.
#![tactic(auto)]

mod book;
mod making;
mod manager;
mod own_book;
mod own_leaf;
mod own_reader;

pub use book::Book;
pub use manager::Manager;
pub use own_book::OwnBook;
pub use own_leaf::OwnLeaf;
pub use own_reader::OwnReader;
