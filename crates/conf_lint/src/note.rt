//! What is noted of a line.

use modprobe_conf::Word;

/// What a note says of its line.
#[derive(Drop)]
pub enum NoteKind {
    /// No module has the name that the line is of, and no alias matches it.
    UnknownName,
    /// The same, and the name is written as a pattern, which stands for itself alone there.
    PatternName,
    /// No module has the name that an alias leads to.
    UnknownTarget,
    /// An earlier softdep line of the module counts, and this one does not.
    LaterSoftdep,
    /// The module has a parameter of this word's name, and it does not take the word's value.
    RefusedValue(Word),
    /// An item of a softdep line is written as a pattern, which stands for itself alone there.
    PatternItem(Word),
}

/// A note of a line: its number, from 1, which is that of the first line if lines are joined, and what is said of it.
#[derive(Drop)]
pub struct Note {
    pub number: usize,
    pub kind: NoteKind,
}
