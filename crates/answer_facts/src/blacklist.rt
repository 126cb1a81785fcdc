//! What blacklist lines do.
ghost use Rattle.std.specs.Prelude.{◌≡◌};
ghost use Rattle.answer_facts.specs.Words.{blacklist_outcome, blacklist_passed_over, blacklist_words};

/// What a blacklist line does.
#[derive(Clone, Copy)]
pub enum Blacklist {
    /// That is not looked at.
    Listed,
    /// It keeps the module from being loaded.
    Holds,
    /// It holds for a module in the kernel, which is there all the same.
    InKernel,
    /// It does not hold, since the module is asked for by its own name, without -b.
    OwnName,
    /// It does not hold, since another module needs it.
    Needed,
    /// It does not hold for a soft dependency.
    SoftDependency,
    /// It does not hold, since names are resolved, and nothing is loaded.
    Resolved,
}

impl Blacklist {
    /// What is said after `blacklisted`.
    pub(crate) fn words(self) -> &'static [u8]
        ensures { result.now ≡ blacklist_words self }
    {
        match self {
            Blacklist::Listed => b"",
            Blacklist::Holds => b", so it is not loaded",
            Blacklist::InKernel => b", so it has no line, but is in the kernel",
            Blacklist::OwnName => b", which does not hold for its own name without -b",
            Blacklist::Needed => b", which does not hold for what another module needs",
            Blacklist::SoftDependency => b", which does not hold for a soft dependency",
            Blacklist::Resolved => b", which does not hold for -R",
        }
    }

    /// Why it does not hold, in JSON.
    pub(crate) fn passed_over(self) -> &'static [u8]
        ensures { result.now ≡ blacklist_passed_over self }
    {
        match self {
            Blacklist::Listed => b"",
            Blacklist::Holds => b"",
            Blacklist::InKernel => b"",
            Blacklist::OwnName => b"own_name",
            Blacklist::Needed => b"needed",
            Blacklist::SoftDependency => b"soft_dependency",
            Blacklist::Resolved => b"resolve",
        }
    }

    /// What follows, in JSON.
    pub(crate) fn outcome(self) -> &'static [u8]
        ensures { result.now ≡ blacklist_outcome self }
    {
        match self {
            Blacklist::Listed => b"",
            Blacklist::Holds => b"not_loaded",
            Blacklist::InKernel => b"in_kernel",
            Blacklist::OwnName => b"",
            Blacklist::Needed => b"",
            Blacklist::SoftDependency => b"",
            Blacklist::Resolved => b"",
        }
    }
}
