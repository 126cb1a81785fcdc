//! The options of modprobe(8), and eleven more: `--explain`, `--lint`, `--root`, `--as`, `--whole`, `--why`, `--json`, `--shell`,
//! `--diff`, `--strict` and `--ignore=FILE`.
ghost use Rattle.std.specs.Prelude.{◌≡◌};
ghost use Rattle.modprobe_words.specs.Options.{kind_of, may_be_cut, meaning_of_letter, meaning_of, word_of, valued_form};

/// An option without a value.
#[derive(Clone, Copy)]
pub enum Switch {
    All,
    Remove,
    RemoveHolders,
    ResolveAlias,
    FirstTime,
    IgnoreCommands,
    UseBlacklist,
    Force,
    ForceModversion,
    ForceVermagic,
    ShowDepends,
    ShowConfig,
    ShowModversions,
    ShowExports,
    DryRun,
    Syslog,
    Quiet,
    Verbose,
    Version,
    Help,
    Explain,
    Lint,
    Whole,
    Why,
    Json,
    Shell,
    Diff,
    Strict,
}

/// An option with a value.
#[derive(Clone, Copy)]
pub enum Valued {
    Wait,
    Config,
    Dirname,
    SetVersion,
    Root,
    As,
    Explain,
    Lint,
    Ignore,
}

/// What an option stands for.
#[derive(Clone, Copy)]
pub(crate) enum Meaning {
    Plain(Switch),
    WithValue(Valued),
}

/// An option by a word of more than one letter.
#[derive(Clone, Copy)]
pub enum LongOption {
    AllWord,
    RemoveWord,
    RemoveDependenciesWord,
    RemoveHoldersWord,
    WaitWord,
    ResolveAliasWord,
    FirstTimeWord,
    IgnoreInstallWord,
    IgnoreRemoveWord,
    UseBlacklistWord,
    ForceWord,
    ForceModversionWord,
    ForceVermagicWord,
    ShowDependsWord,
    ShowconfigWord,
    ShowConfigWord,
    ShowModversionsWord,
    DumpModversionsWord,
    ShowExportsWord,
    DryRunWord,
    ShowWord,
    ConfigWord,
    DirnameWord,
    SetVersionWord,
    SyslogWord,
    QuietWord,
    VerboseWord,
    VersionWord,
    HelpWord,
    ExplainWord,
    LintWord,
    RootWord,
    AsWord,
    WholeWord,
    WhyWord,
    JsonWord,
    ShellWord,
    DiffWord,
    StrictWord,
    IgnoreWord,
}

/// The options by words, in the order of `modprobe --help`, and then those that modprobe has not.
pub(crate) const LONG_OPTIONS: [LongOption; 40] = [
    LongOption::AllWord,
    LongOption::RemoveWord,
    LongOption::RemoveDependenciesWord,
    LongOption::RemoveHoldersWord,
    LongOption::WaitWord,
    LongOption::ResolveAliasWord,
    LongOption::FirstTimeWord,
    LongOption::IgnoreInstallWord,
    LongOption::IgnoreRemoveWord,
    LongOption::UseBlacklistWord,
    LongOption::ForceWord,
    LongOption::ForceModversionWord,
    LongOption::ForceVermagicWord,
    LongOption::ShowDependsWord,
    LongOption::ShowconfigWord,
    LongOption::ShowConfigWord,
    LongOption::ShowModversionsWord,
    LongOption::DumpModversionsWord,
    LongOption::ShowExportsWord,
    LongOption::DryRunWord,
    LongOption::ShowWord,
    LongOption::ConfigWord,
    LongOption::DirnameWord,
    LongOption::SetVersionWord,
    LongOption::SyslogWord,
    LongOption::QuietWord,
    LongOption::VerboseWord,
    LongOption::VersionWord,
    LongOption::HelpWord,
    LongOption::ExplainWord,
    LongOption::LintWord,
    LongOption::RootWord,
    LongOption::AsWord,
    LongOption::WholeWord,
    LongOption::WhyWord,
    LongOption::JsonWord,
    LongOption::ShellWord,
    LongOption::DiffWord,
    LongOption::StrictWord,
    LongOption::IgnoreWord,
];

/// The option of a letter.
#[tactic(auto, unfolding(crate::specs::Options::meaning_of_letter))]
pub(crate) fn meaning_of_letter(letter: u8) -> Option<Meaning>
    ensures { result ≡ meaning_of_letter letter }
{
    match letter {
        b'a' => Some(Meaning::Plain(Switch::All)),
        b'r' => Some(Meaning::Plain(Switch::Remove)),
        b'w' => Some(Meaning::WithValue(Valued::Wait)),
        b'R' => Some(Meaning::Plain(Switch::ResolveAlias)),
        b'i' => Some(Meaning::Plain(Switch::IgnoreCommands)),
        b'b' => Some(Meaning::Plain(Switch::UseBlacklist)),
        b'f' => Some(Meaning::Plain(Switch::Force)),
        b'D' => Some(Meaning::Plain(Switch::ShowDepends)),
        b'c' => Some(Meaning::Plain(Switch::ShowConfig)),
        b'n' => Some(Meaning::Plain(Switch::DryRun)),
        b'C' => Some(Meaning::WithValue(Valued::Config)),
        b'd' => Some(Meaning::WithValue(Valued::Dirname)),
        b'S' => Some(Meaning::WithValue(Valued::SetVersion)),
        b's' => Some(Meaning::Plain(Switch::Syslog)),
        b'q' => Some(Meaning::Plain(Switch::Quiet)),
        b'v' => Some(Meaning::Plain(Switch::Verbose)),
        b'V' => Some(Meaning::Plain(Switch::Version)),
        b'h' => Some(Meaning::Plain(Switch::Help)),
        _ => None,
    }
}

impl Meaning {
    /// Options of one kind are the same option under several words.
    #[tactic(auto, unfolding(crate::specs::Options::kind_of))]
    pub(crate) fn kind(self) -> u8
        ensures { result ≡ kind_of self }
    {
        match self {
            Meaning::Plain(switch) => switch as u8,
            Meaning::WithValue(valued) => 100 + valued as u8,
        }
    }
}

impl LongOption {
    /// The word behind `--`.
    #[tactic(auto, unfolding(crate::specs::Options::word_of))]
    pub(crate) fn word(self) -> &'static [u8]
        ensures { result.now ≡ word_of self }
    {
        match self {
            LongOption::AllWord => b"all",
            LongOption::RemoveWord => b"remove",
            LongOption::RemoveDependenciesWord => b"remove-dependencies",
            LongOption::RemoveHoldersWord => b"remove-holders",
            LongOption::WaitWord => b"wait",
            LongOption::ResolveAliasWord => b"resolve-alias",
            LongOption::FirstTimeWord => b"first-time",
            LongOption::IgnoreInstallWord => b"ignore-install",
            LongOption::IgnoreRemoveWord => b"ignore-remove",
            LongOption::UseBlacklistWord => b"use-blacklist",
            LongOption::ForceWord => b"force",
            LongOption::ForceModversionWord => b"force-modversion",
            LongOption::ForceVermagicWord => b"force-vermagic",
            LongOption::ShowDependsWord => b"show-depends",
            LongOption::ShowconfigWord => b"showconfig",
            LongOption::ShowConfigWord => b"show-config",
            LongOption::ShowModversionsWord => b"show-modversions",
            LongOption::DumpModversionsWord => b"dump-modversions",
            LongOption::ShowExportsWord => b"show-exports",
            LongOption::DryRunWord => b"dry-run",
            LongOption::ShowWord => b"show",
            LongOption::ConfigWord => b"config",
            LongOption::DirnameWord => b"dirname",
            LongOption::SetVersionWord => b"set-version",
            LongOption::SyslogWord => b"syslog",
            LongOption::QuietWord => b"quiet",
            LongOption::VerboseWord => b"verbose",
            LongOption::VersionWord => b"version",
            LongOption::HelpWord => b"help",
            LongOption::ExplainWord => b"explain",
            LongOption::LintWord => b"lint",
            LongOption::RootWord => b"root",
            LongOption::AsWord => b"as",
            LongOption::WholeWord => b"whole",
            LongOption::WhyWord => b"why",
            LongOption::JsonWord => b"json",
            LongOption::ShellWord => b"shell",
            LongOption::DiffWord => b"diff",
            LongOption::StrictWord => b"strict",
            LongOption::IgnoreWord => b"ignore",
        }
    }

    /// Whether a beginning of the word stands for it. `--as`, `--whole`, `--why`, `--shell`, `--diff`, `--strict` and `--ignore`
    /// are not cut, so that `--a` is `--all`, `--w` is `--wait` and `--di` is `--dirname`, as with modprobe.
    pub(crate) fn may_be_cut(self) -> bool
        ensures { result ≡ may_be_cut self }
    {
        !matches!(
            self,
            LongOption::AsWord
                | LongOption::WholeWord
                | LongOption::WhyWord
                | LongOption::ShellWord
                | LongOption::DiffWord
                | LongOption::StrictWord
                | LongOption::IgnoreWord
        )
    }

    /// What an option without a value stands for if it has one all the same; None if that is refused.
    pub(crate) fn valued_form(self) -> Option<Valued>
        ensures { result ≡ valued_form self }
    {
        match self {
            LongOption::ExplainWord => Some(Valued::Explain),
            LongOption::LintWord => Some(Valued::Lint),
            LongOption::IgnoreWord => Some(Valued::Ignore),
            _ => None,
        }
    }

    #[tactic(auto, unfolding(crate::specs::Options::meaning_of))]
    pub(crate) fn meaning(self) -> Meaning
        ensures { result ≡ meaning_of self }
    {
        match self {
            LongOption::AllWord => Meaning::Plain(Switch::All),
            LongOption::RemoveWord => Meaning::Plain(Switch::Remove),
            LongOption::RemoveDependenciesWord | LongOption::RemoveHoldersWord => Meaning::Plain(
                Switch::RemoveHolders,
            ),
            LongOption::WaitWord => Meaning::WithValue(Valued::Wait),
            LongOption::ResolveAliasWord => Meaning::Plain(Switch::ResolveAlias),
            LongOption::FirstTimeWord => Meaning::Plain(Switch::FirstTime),
            LongOption::IgnoreInstallWord | LongOption::IgnoreRemoveWord => Meaning::Plain(
                Switch::IgnoreCommands,
            ),
            LongOption::UseBlacklistWord => Meaning::Plain(Switch::UseBlacklist),
            LongOption::ForceWord => Meaning::Plain(Switch::Force),
            LongOption::ForceModversionWord => Meaning::Plain(Switch::ForceModversion),
            LongOption::ForceVermagicWord => Meaning::Plain(Switch::ForceVermagic),
            LongOption::ShowDependsWord => Meaning::Plain(Switch::ShowDepends),
            LongOption::ShowconfigWord | LongOption::ShowConfigWord => Meaning::Plain(
                Switch::ShowConfig,
            ),
            LongOption::ShowModversionsWord | LongOption::DumpModversionsWord => Meaning::Plain(
                Switch::ShowModversions,
            ),
            LongOption::ShowExportsWord => Meaning::Plain(Switch::ShowExports),
            LongOption::DryRunWord | LongOption::ShowWord => Meaning::Plain(Switch::DryRun),
            LongOption::ConfigWord => Meaning::WithValue(Valued::Config),
            LongOption::DirnameWord => Meaning::WithValue(Valued::Dirname),
            LongOption::SetVersionWord => Meaning::WithValue(Valued::SetVersion),
            LongOption::SyslogWord => Meaning::Plain(Switch::Syslog),
            LongOption::QuietWord => Meaning::Plain(Switch::Quiet),
            LongOption::VerboseWord => Meaning::Plain(Switch::Verbose),
            LongOption::VersionWord => Meaning::Plain(Switch::Version),
            LongOption::HelpWord => Meaning::Plain(Switch::Help),
            LongOption::ExplainWord => Meaning::Plain(Switch::Explain),
            LongOption::LintWord => Meaning::Plain(Switch::Lint),
            LongOption::RootWord => Meaning::WithValue(Valued::Root),
            LongOption::AsWord => Meaning::WithValue(Valued::As),
            LongOption::WholeWord => Meaning::Plain(Switch::Whole),
            LongOption::WhyWord => Meaning::Plain(Switch::Why),
            LongOption::JsonWord => Meaning::Plain(Switch::Json),
            LongOption::ShellWord => Meaning::Plain(Switch::Shell),
            LongOption::DiffWord => Meaning::Plain(Switch::Diff),
            LongOption::StrictWord => Meaning::Plain(Switch::Strict),
            LongOption::IgnoreWord => Meaning::Plain(Switch::IgnoreCommands),
        }
    }
}
