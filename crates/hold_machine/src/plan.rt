//! What is planned for a run.

/// How far an act comes when it goes on.
#[derive(Clone, Copy, Debug, PartialEq, Eq, Drop)]
pub struct Progress {
    /// It does its work.
    pub works: bool,
    pub ends: bool,
}

impl Progress {
    pub const WHOLE: Progress = Progress {
        works: true,
        ends: true,
    };
    /// It ends, and has not done its work.
    pub const FAILS: Progress = Progress {
        works: false,
        ends: true,
    };
}

/// What goes wrong, and when.
#[derive(Clone, Copy, Debug, Drop)]
pub struct Plan<'a> {
    /// How acts go on, one after another. Those beyond do their work, and end.
    pub acts: &'a [Progress],
    /// After so many answers the hands of the next call that asks are gone.
    pub answers: usize,
    /// After so many lines and looks at the table, the next one finds it broken.
    pub lines: usize,
}

impl Plan<'_> {
    /// Nothing goes wrong.
    pub const NONE: Plan<'static> = Plan {
        acts: &[],
        answers: usize::MAX,
        lines: usize::MAX,
    };
}
