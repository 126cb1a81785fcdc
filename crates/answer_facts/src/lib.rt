//! What is said of an answer, as values: lines for people and JSON are made of the same ones.
#![tactic(auto)]

mod blacklist;
mod change_fact;
mod fact;
mod file_fact;
mod idle_fact;
mod lead_fact;
mod line_fact;
mod lines;
mod missing_fact;
mod module_fact;
mod name_fact;
mod note_fact;
mod origin;
mod piece;
mod plan;
mod quoted;
mod removal_fact;
mod sentence;
mod shell;
mod shown;
mod spot;
mod state_fact;
mod step;

pub use blacklist::Blacklist;
pub use change_fact::ChangeFact;
pub use fact::{Fact, What};
pub use file_fact::{FileFact, Unread};
pub use idle_fact::{IdleFact, Setting};
pub use lead_fact::{LeadFact, Side};
pub use line_fact::{Command, LineFact, Passed};
pub use lines::{json_lines, text_lines};
pub use missing_fact::MissingFact;
pub use module_fact::ModuleFact;
pub use name_fact::NameFact;
pub use note_fact::{NoteFact, because, counting_place};
pub use origin::Origin;
pub use plan::{origin_lines, plan_lines};
pub use removal_fact::{RemovalFact, Shows};
pub use shell::shell_lines;
pub use spot::Spot;
pub use state_fact::{Outcome, StateFact};
