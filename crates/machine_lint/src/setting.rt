//! What a line sets.
ghost use Rattle.std.specs.Prelude.{◌≡◌};
ghost use Rattle.machine_lint.specs.Notes.{is_options, is_softdep, number_of};

/// What a line of the configuration sets (modprobe.d(5)).
#[derive(Clone, Copy)]
pub enum Setting {
    Alias,
    Blacklist,
    Options,
    Install,
    Remove,
    Softdep,
    Weakdep,
    /// Nothing: no kmod reads the line.
    Bad,
}

impl Setting {
    /// Each setting has a number of its own.
    pub(crate) fn number(self) -> u8
        ensures { result ≡ number_of self }
    {
        self as u8
    }

    pub(crate) fn is_options(self) -> bool
        ensures { result ≡ is_options self }
    {
        matches!(self, Setting::Options)
    }

    pub(crate) fn is_softdep(self) -> bool
        ensures { result ≡ is_softdep self }
    {
        matches!(self, Setting::Softdep)
    }
}
