//! What a run does.
ghost use Rattle.std.specs.Prelude.{◌≡◌, ◌≤◌, ℕ, List, None, false, true, IfNone, IfSome};
ghost use Rattle.text_parts.specs.Text.{texts_of};
ghost use Rattle.modprobe_words.specs.declared.switches.Switches.{Switches};
ghost use Rattle.gz_modprobe_drive.specs.Jobs.{IsJob, worst_job};
ghost use Rattle.gz_modprobe_drive.specs.Queries.{ask_of, is_lint, is_why};

use crate::queries::{is_lint, is_why, query_of};
use kmod_query::Query;
use modprobe_words::{Switches, Wish};

#[derive(Clone, Copy)]
pub(crate) enum Job<'a> {
    /// Looks for lines of the configuration that have no effect.
    Lint,
    /// Tells what leads to names.
    Why,
    /// Tells what two machines answer otherwise.
    Diff,
    Answer(Query<'a>),
}

/// Which facts are told of names, if some are wished for.
fn told_job<'a>(wish: Wish) -> Job<'a>
    requires { is_why wish ≡ true }
    ensures { (switches : Switches) (given : List (List ℕ)) → IsJob wish switches given result }
{
    if matches!(wish, Wish::Diff) {
        Job::Diff
    } else {
        Job::Why
    }
}

/// What is wished for; None if it is refused.
pub(crate) fn job_of<'a>(wish: Wish, switches: Switches, words: &'a [&'a [u8]]) -> Option<Job<'a>>
    ensures job { IfSome result (IsJob wish switches (texts_of words.entry.now)) }
    ensures lint { IfNone result (is_lint wish ≡ false) }
    ensures why { IfNone result (is_why wish ≡ false) }
    ensures ask { IfNone result (ask_of wish ≡ None) }
{
    if is_lint(wish) {
        return Some(Job::Lint);
    }
    if is_why(wish) {
        return Some(told_job(wish));
    }
    let Some(query) = query_of(wish, switches, words) else {
        return None;
    };
    Some(Job::Answer(query))
}

/// The status if the machine cannot be read.
pub(crate) fn unread_status(job: Job<'_>) -> u8
    ensures least { 1 ≤ result }
    ensures most { result ≤ worst_job job.entry }
{
    match job {
        Job::Lint | Job::Why | Job::Diff => 2,
        Job::Answer(_) => 1,
    }
}
