//! The table's parts: its calls, their refusals, the states of its modules and the book that keeps them.

pub(crate) mod book;
pub(crate) mod calls;
pub(crate) mod order;
pub(crate) mod refusals;
pub(crate) mod slots;
pub(crate) mod states;
