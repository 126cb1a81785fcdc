//! Options without values.
ghost use Rattle.std.specs.Prelude.{◌≡◌};
ghost use Rattle.modprobe_words.specs.Asked.{no_switch, with_form, with_switch};

use crate::form::Form;
use crate::options::Switch;

/// Which options without values were given.
#[derive(Clone, Copy)]
pub struct Switches {
    pub all: bool,
    pub remove: bool,
    pub remove_holders: bool,
    pub resolve: bool,
    pub first_time: bool,
    pub ignore_commands: bool,
    pub use_blacklist: bool,
    pub show_depends: bool,
    pub show_config: bool,
    /// What the file of a module has is asked for.
    pub show_module: bool,
    pub dry_run: bool,
    /// In which form it is told why an answer is as it is, or lines are linted, if one is asked for.
    pub explain: Option<Form>,
    pub lint: bool,
    /// A removal is shown as it would be made.
    pub whole: bool,
    /// What leads to names is asked for.
    pub why: bool,
    /// Standard output has JSON, and what explains the answer goes there too.
    pub json: bool,
    /// The lines of an answer are those of a shell.
    pub shell: bool,
    /// What two machines answer otherwise is asked for.
    pub diff: bool,
    /// Each note of a lint counts for the status.
    pub strict: bool,
    /// 4 at first.
    pub verbosity: u64,
}

impl Switches {
    pub(crate) fn new() -> Switches
        ensures { result ≡ no_switch }
    {
        Switches {
            all: false,
            remove: false,
            remove_holders: false,
            resolve: false,
            first_time: false,
            ignore_commands: false,
            use_blacklist: false,
            show_depends: false,
            show_config: false,
            show_module: false,
            dry_run: false,
            explain: None,
            lint: false,
            whole: false,
            why: false,
            json: false,
            shell: false,
            diff: false,
            strict: false,
            verbosity: 4,
        }
    }

    /// One option more.
    pub(crate) fn with(self, option: Switch) -> Switches
        ensures { result ≡ with_switch self option }
    {
        let mut switches = self;
        match option {
            Switch::All => switches.all = true,
            Switch::Remove => switches.remove = true,
            Switch::RemoveHolders => switches.remove_holders = true,
            Switch::ResolveAlias => switches.resolve = true,
            Switch::FirstTime => switches.first_time = true,
            Switch::IgnoreCommands => switches.ignore_commands = true,
            Switch::UseBlacklist => switches.use_blacklist = true,
            Switch::ShowDepends => switches.show_depends = true,
            Switch::ShowConfig => switches.show_config = true,
            Switch::ShowModversions | Switch::ShowExports => switches.show_module = true,
            Switch::DryRun => switches.dry_run = true,
            Switch::Quiet => switches.verbosity = 0,
            Switch::Verbose => switches.verbosity = switches.verbosity.saturating_add(1),
            Switch::Explain => switches.explain = Some(Form::Text),
            Switch::Lint => switches.lint = true,
            Switch::Whole => switches.whole = true,
            Switch::Why => switches.why = true,
            Switch::Json => {
                switches.json = true;
                switches.explain = Some(Form::Json);
            }
            Switch::Shell => switches.shell = true,
            Switch::Diff => switches.diff = true,
            Switch::Strict => switches.strict = true,
            Switch::Force
            | Switch::ForceModversion
            | Switch::ForceVermagic
            | Switch::Syslog
            | Switch::Version
            | Switch::Help => {}
        }
        switches
    }

    /// With the value of an `--explain` or a `--lint`.
    pub(crate) fn with_form(self, form: Option<Form>) -> Switches
        ensures { result ≡ with_form self form }
    {
        let mut switches = self;
        switches.explain = form.or(self.explain);
        switches
    }
}
