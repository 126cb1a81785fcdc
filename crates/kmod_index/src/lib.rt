//! The texts that depmod and the kernel's build write into a folder of modules, as kmod reads the tables beside them.
#![tactic(auto)]

mod alias_scan;
mod aliases;
mod builtins;
mod dep_line;
mod dep_scan;
mod dep_table;
mod index;
mod index_line;
mod modinfo;
mod modules_dep;
mod needs;
mod parts;
mod path_names;
mod symbol_scan;
mod symbols;
mod tables;
mod trie_order;

pub use dep_line::DepLine;
pub use dep_table::DepTable;
pub use index::{Index, IndexTexts};
pub use index_line::IndexLine;
