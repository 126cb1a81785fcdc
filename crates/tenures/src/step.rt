//! What a process does with its table.

/// A step of a process.
#[derive(Drop)]
pub enum Step {
    /// Lines are made as one group. A group may have one line, or none.
    Group(Vec<Vec<u8>>),
    /// The journal is rewritten as the lines that make its table.
    Compaction,
}
