//! Names, aliases and patterns, as kmod reads and compares them.
#![tactic(auto)]

mod alias_table;
mod key_places;
mod names;
mod pattern_list;
mod place;
mod text;

pub use alias_table::AliasEntry;
pub use key_places::KeyPlaces;
pub use names::{name_of_path, normal_alias};
pub use pattern_list::PatternList;
pub use place::Place;
pub use text::Text;
