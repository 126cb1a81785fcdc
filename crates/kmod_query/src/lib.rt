//! kmod's answers to the queries of modprobe.
#![tactic(auto)]

mod answer;
mod answering;
mod asked;
mod commands;
mod early;
mod finding;
mod fronts;
mod key_order;
mod laws;
mod lines;
mod loaded_names;
mod loading;
mod look_up;
mod object;
mod parameters;
mod paths;
mod probes;
mod query;
mod removal;
mod removal_check;
mod removal_lines;
mod removed_names;
mod shown;
mod soft_lists;
mod states;
mod taken;
mod way;
mod whole_names;
mod whole_steps;
mod world;

pub use answer::{Answer, Failure};
pub use answering::answer_to;
pub use asked::Asked;
pub use commands::{install_line, remove_line};
pub use early::{is_early, is_symbolless};
pub use finding::Finding;
pub use laws::{
    blacklisted_modules_are_not_loaded, hard_needs_come_first, later_texts_do_not_count,
    names_are_answered_in_turn, only_live_modules_count, show_depends_ignores_states,
    symbols_do_not_count,
};
pub use loading::{is_barred, is_passed};
pub use look_up::{find_name, find_word, has_soft_items};
pub use object::Object;
pub use paths::{AtPath, OwnFile, PathWord};
pub use query::{Ask, Query};
pub use removal_check::{Verdict, has_users, is_fatal};
pub use states::{ModuleState, ModuleStatus, States};
pub use taken::{Holders, Taken, is_gone, push_taken};
pub use whole_names::whole_removal;
pub use whole_steps::{is_gone_by, is_in_use_after, judge_after};
pub use world::{World, file_of};
