//! What is asked.

/// What modprobe(8) is asked for.
#[derive(Clone, Copy)]
pub enum Ask {
    /// `--show-depends`: the lines that load a name, whatever is loaded already.
    ShowDepends,
    /// `--dry-run`: the lines that load a name now. They are shown at a verbosity above 4.
    DryRun,
    /// `--resolve-alias`: the modules that a name stands for.
    Resolve,
    /// `--remove` with `--dry-run`: the lines that remove names now. They are shown at a verbosity above 4.
    Remove,
    /// `--remove` with `--show-depends`: the lines that remove names, even if their modules are in use or not loaded. A module
    /// that one of them needs has a line only if its `refcnt` is 0 now.
    ShowRemoval,
    /// `--showconfig`: the configuration and the indexes.
    ShowConfig,
}

/// A query: the words of a command line, as options and the words after them.
#[derive(Clone, Copy)]
pub struct Query<'a> {
    pub ask: Ask,
    /// `--all`: each word is a name. Without it the words after the first are parameters, but under `Ask::Remove` and
    /// `Ask::ShowRemoval`.
    pub all: bool,
    /// `--use-blacklist`
    pub use_blacklist: bool,
    /// `--ignore-install` or `--ignore-remove`
    pub ignore_commands: bool,
    /// `--first-time`
    pub first_time: bool,
    /// 4 at first; each `--verbose` adds one, and `--quiet` sets it to 0. A message of FATAL is shown at 2 or more, an
    /// ERROR at 3, a WARNING at 4.
    pub verbosity: u64,
    /// A name and its parameters, or names. Without words nothing is answered, and nothing fails.
    pub words: &'a [&'a [u8]],
}
