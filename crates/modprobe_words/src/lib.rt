//! The words of modprobe's command line: what they ask for, and what people are told of them.
#![tactic(auto)]

mod arguments;
mod asked;
mod endings;
mod form;
mod found;
mod help;
mod items;
mod long_words;
mod messages;
mod numbers;
mod options;
mod switches;
mod told_endings;
mod variable;
mod wishes;
mod words;
mod written;

pub use arguments::{given_options, given_variable, given_words};
pub use asked::{Asked, Other};
pub use endings::{Ending, first_ending};
pub use form::Form;
pub use items::{Fault, Item};
pub use messages::{Level, Messages, tell_line, write_parts};
pub use numbers::{behind_spaces, is_digit, is_space};
pub use options::{LongOption, Switch, Valued};
pub use switches::Switches;
pub use told_endings::end_early;
pub use variable::variable_words;
pub use wishes::Wish;
pub use words::read_words;
pub use written::{Written, write_whole};
