//! Shell patterns over bytes, and the aliases of a modules.alias text.
#![tactic(auto)]

mod alias;
mod alias_list;
mod aliases;
mod chains;
mod front;
mod hash_table;
mod idle;
mod item;
mod laws;
mod pattern;
mod read;
mod runs;

pub use alias::Alias;
pub use alias_list::AliasList;
pub use aliases::{Aliases, read_aliases};
pub use idle::{IdleLine, NoEffect, idle_aliases};
pub use laws::{match_is_decided, matches_begin_literally, one_reading, reading_is_total};
pub use pattern::Pattern;
pub use read::PatternError;
