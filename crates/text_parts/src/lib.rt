//! What all texts are made of: lines, words, comments, numbers, and names in normal form.
#![tactic(auto)]

pub mod laws;
mod names;
mod text;

pub use names::Name;
pub use text::{
    find_words, has_word, is_blank, is_comment, is_name, is_same, number_within, whole_lines, words,
};
