//! What the options of a command line wish for.
ghost use Rattle.std.specs.Prelude.{◌≡◌};
ghost use Rattle.modprobe_words.specs.Wishes.{asks, asks_of_two, loads, wish_of};

use crate::switches::Switches;

/// What is asked, or why it is not answered.
#[derive(Clone, Copy)]
pub enum Wish {
    ShowConfig,
    ShowDepends,
    DryRun,
    Resolve,
    /// `-r -n`: the lines that remove names now.
    Remove,
    /// `-r -D`: these lines, even if the modules are in use or not loaded.
    ShowRemoval,
    /// `--lint`: which lines of the configuration have no effect.
    Lint,
    /// `--why`: what leads to names.
    Why,
    /// `--diff`: what two machines answer otherwise.
    Diff,
    /// Refused: no name was given.
    NoName,
    /// Refused: what the file of a module has.
    ShowModule,
    /// Refused: to remove also the modules that hold one.
    RemoveHolders,
    /// Refused: a load that is no dry run.
    Load,
    /// Refused: a removal that is no dry run.
    Removal,
}

impl Switches {
    /// What is wished if nothing is removed.
    fn loads(self) -> Wish
        ensures { result ≡ loads self }
    {
        if self.why {
            Wish::Why
        } else if self.resolve {
            Wish::Resolve
        } else if self.show_depends {
            Wish::ShowDepends
        } else if self.dry_run {
            Wish::DryRun
        } else {
            Wish::Load
        }
    }

    /// What is wished if nothing is linted, if there is a name or not.
    fn asks(self, has_name: bool) -> Wish
        ensures { result ≡ asks self has_name }
    {
        if self.show_config {
            Wish::ShowConfig
        } else if !has_name {
            Wish::NoName
        } else if self.show_module {
            Wish::ShowModule
        } else if !self.remove {
            self.loads()
        } else if self.remove_holders {
            Wish::RemoveHolders
        } else if self.show_depends {
            Wish::ShowRemoval
        } else if self.dry_run {
            Wish::Remove
        } else {
            Wish::Removal
        }
    }

    /// The same, of one machine or of two.
    fn asks_of_two(self, has_name: bool) -> Wish
        ensures { result ≡ asks_of_two self has_name }
    {
        if self.diff {
            Wish::Diff
        } else {
            self.asks(has_name)
        }
    }

    /// What is wished, if there is a name or not. The words of a lint are no names, but files.
    #[tactic(auto, unfolding(crate::specs::Wishes::wish_of))]
    pub fn wish(self, has_name: bool) -> Wish
        ensures { result ≡ wish_of self has_name }
    {
        if self.lint {
            Wish::Lint
        } else {
            self.asks_of_two(has_name)
        }
    }
}
