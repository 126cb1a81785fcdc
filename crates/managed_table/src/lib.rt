//! A row with its leaves and its book behind locks that know whose they are. Each managed call is one turn of a caller.
#![tactic(auto)]

mod all_or_none;
mod attempt;
mod book_calls;
mod caller;
mod calls;
mod hearing;
mod holdings;
mod keyed;
mod leaf_calls;
mod locks;
mod making;
mod meeting;
mod own_caller;
mod own_caller_all;
mod own_caller_book;
mod own_caller_holdings;
mod own_caller_meeting;
mod plays;
mod rule;
mod table;
mod taken;
mod teller;
mod tries;
pub mod view;

pub use all_or_none::NotTaken;
pub use attempt::{Attempt, attempted};
pub use caller::Caller;
pub use holdings::Holding;
pub use own_caller::OwnCaller;
pub use table::ManagedTable;
pub use teller::Teller;
