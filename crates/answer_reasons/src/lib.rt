//! Why kmod answers as it does: which line of which file says so.
#![tactic(auto)]

mod exemptions;
mod explaining;
mod file_facts;
mod heads;
mod idle_lines;
mod kept;
mod kernel_list;
mod known;
mod leading;
mod line_ends;
mod named_lines;
mod near_names;
mod soft_leads;
mod sources;
mod tasks;
mod told;
mod told_loads;
mod told_modules;
mod told_removals;
mod told_soft;
mod told_words;

pub use explaining::explanation;
pub use file_facts::{add_hidden, add_unread};
pub use leading::{Leads, leads_to};
pub use sources::{Device, Sources, UnreadFile};
