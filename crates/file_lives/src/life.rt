//! What is planned for a process.

/// How far a process comes.
#[derive(Clone, Copy, Debug, PartialEq, Eq)]
pub struct Life {
    /// So many calls of its file are answered. Within the next one it is killed.
    pub calls: usize,
    /// So many replies are begun.
    pub replies: usize,
}

impl Life {
    /// Nothing cuts the process off.
    pub const WHOLE: Life = Life {
        calls: usize::MAX,
        replies: usize::MAX,
    };
}
