//! What every program has round its work: its words, its input and output, its end, and what it tells people.
#![tactic(auto)]

mod arguments;
pub mod catalogue_faults;
mod folder;
mod line;
mod path;
mod shown;
mod source;
mod status;
mod streams;
mod told;

pub use arguments::{end_by, flag, words};
pub use folder::{counted_names, counts, folder_names, is_folder};
pub use line::first_word;
pub use path::{PathFault, read_path};
pub use shown::Shown;
pub use source::{InputFault, Source};
pub use status::Status;
pub use streams::{StreamFault, read_input, write_text};
pub use told::{tell_hint, tell_no_input, tell_no_memory, tell_sentence, tell_unread};
