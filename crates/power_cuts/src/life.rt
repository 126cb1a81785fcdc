//! What is planned for a process.

/// What ends a process.
#[derive(Clone, Copy, Debug, PartialEq, Eq)]
pub enum End {
    /// Itself, or a kill: the next process finds what a read returned.
    Process,
    /// The power is cut: the next process finds what was on the disk.
    Power,
}

/// How far a process comes, and what ends it.
#[derive(Clone, Copy, Debug)]
pub struct Life {
    /// So many calls of its device succeed. Each later one fails, and does nothing.
    pub calls: usize,
    /// So many replies are begun.
    pub replies: usize,
    pub end: End,
}

impl Life {
    /// Nothing cuts the process off.
    pub const WHOLE: Life = Life {
        calls: usize::MAX,
        replies: usize::MAX,
        end: End::Process,
    };
}
