//! Aliases.

use crate::place::Place;
use crate::text::Text;

/// An alias: a pattern and the name that it stands for, both in normal form, and where they were read.
#[derive(Drop)]
pub struct AliasEntry {
    pub pattern: Text,
    pub target: Text,
    pub place: Place,
}
