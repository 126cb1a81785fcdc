//! Which query a command line asks.
ghost use Rattle.std.specs.Prelude.{◌≡◌, IfNone, IfSome, None};
ghost use Rattle.text_parts.specs.Text.{texts_of};
ghost use Rattle.gz_modprobe_drive.specs.Queries.{IsQueryOf, ask_of, asks_states, is_lint, is_removal, is_why};

use kmod_query::{Ask, Query};
use modprobe_words::{Switches, Wish};

/// What a wish asks, if it is a query.
fn ask_of(wish: Wish) -> Option<Ask>
    ensures { result ≡ ask_of wish }
{
    match wish {
        Wish::ShowConfig => Some(Ask::ShowConfig),
        Wish::ShowDepends => Some(Ask::ShowDepends),
        Wish::DryRun => Some(Ask::DryRun),
        Wish::Resolve => Some(Ask::Resolve),
        Wish::Remove => Some(Ask::Remove),
        Wish::ShowRemoval => Some(Ask::ShowRemoval),
        Wish::Lint
        | Wish::Why
        | Wish::Diff
        | Wish::NoName
        | Wish::ShowModule
        | Wish::RemoveHolders
        | Wish::Load
        | Wish::Removal => None,
    }
}

/// The query of a wish, None if it is none.
pub(crate) fn query_of<'a>(
    wish: Wish,
    switches: Switches,
    words: &'a [&'a [u8]],
) -> Option<Query<'a>>
    ensures query { IfSome result (IsQueryOf wish switches (texts_of words.entry.now)) }
    ensures none { IfNone result (ask_of wish ≡ None) }
{
    Some(Query {
        ask: ask_of(wish)?,
        all: switches.all,
        use_blacklist: switches.use_blacklist,
        ignore_commands: switches.ignore_commands,
        first_time: switches.first_time,
        verbosity: switches.verbosity,
        words,
    })
}

/// Whether the lines of the configuration that have no effect are wished for.
pub(crate) fn is_lint(wish: Wish) -> bool
    ensures { result ≡ is_lint wish }
{
    matches!(wish, Wish::Lint)
}

/// Whether facts of names are wished for: what leads to them, or what two machines answer otherwise.
pub(crate) fn is_why(wish: Wish) -> bool
    ensures { result ≡ is_why wish }
{
    matches!(wish, Wish::Why | Wish::Diff)
}

/// Whether states of modules count.
pub(crate) fn asks_states(ask: Ask) -> bool
    ensures { result ≡ asks_states ask }
{
    match ask {
        Ask::DryRun | Ask::Remove | Ask::ShowRemoval => true,
        Ask::ShowDepends | Ask::Resolve | Ask::ShowConfig => false,
    }
}

/// Whether modules are to be removed. Users count then; if not, then of states only which modules are live
/// (`only_live_modules_count`).
pub(crate) fn is_removal(ask: Ask) -> bool
    ensures { result ≡ is_removal ask }
{
    match ask {
        Ask::Remove | Ask::ShowRemoval => true,
        Ask::DryRun | Ask::ShowDepends | Ask::Resolve | Ask::ShowConfig => false,
    }
}

/// Whether names that a module may have are looked up for a query. An alias of a device has a colon, and is none.
pub(crate) fn looks_up_modules(query: &Query<'_>) -> bool {
    match query.ask {
        Ask::ShowConfig => false,
        Ask::Resolve => query.words.iter().any(|word| !word.contains(&b':')),
        Ask::ShowDepends | Ask::DryRun | Ask::Remove | Ask::ShowRemoval => true,
    }
}
