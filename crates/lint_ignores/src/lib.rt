//! Which notes of a lint are left out, since a comment or a file says so.
#![tactic(auto)]

mod comments;
mod files;
mod ignore;
mod kinds;
pub mod laws;
mod left;
mod unknown;

pub use comments::add_comments;
pub use files::{add_file, is_bad_line};
pub use ignore::Ignore;
pub use kinds::is_kind;
pub use left::{is_file_left, left_notes};
pub use unknown::add_unknown;
