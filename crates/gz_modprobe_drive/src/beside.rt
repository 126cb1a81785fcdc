//! Where a configuration lies: on the machine, or beside it, as that of a repository.
ghost use Rattle.std.specs.Prelude.{◌≡◌, IfOk};

use crate::job::Job;
use modprobe_files::{ConfTexts, Host, System, read_beside, read_configuration};
use modprobe_words::{Asked, Messages};
use std::alloc::AllocError;
use std::io::Write;

/// Whether the configuration is that of the words, as a lint's may be: they are paths of the system, whatever the root is.
pub(crate) fn is_beside(asked: &Asked<'_>, job: Job<'_>) -> bool {
    matches!(job, Job::Lint) && !asked.words.is_empty()
}

/// The paths of the configuration that are named.
pub(crate) fn named_paths<'a>(asked: &'a Asked<'a>, job: Job<'_>) -> &'a [&'a [u8]] {
    if is_beside(asked, job) {
        asked.words.as_slice()
    } else {
        asked.configurations.as_slice()
    }
}

/// Reads the texts of the configuration. It fails only if memory runs out.
pub(crate) fn read_texts<S: System, E: Write>(
    host: &Host<'_, S>,
    beside: &Host<'_, S>,
    asked: &Asked<'_>,
    job: Job<'_>,
    directory: &[u8],
    messages: &mut Messages<'_, E>,
) -> Result<ConfTexts, AllocError>
    ensures { IfOk result (λ texts. texts.kmod ≡ asked.now.kmod) }
{
    if is_beside(asked, job) {
        read_beside(host, beside, asked.kmod, directory, &asked.words, messages)
    } else {
        read_configuration(host, asked.kmod, directory, &asked.configurations, messages)
    }
}
