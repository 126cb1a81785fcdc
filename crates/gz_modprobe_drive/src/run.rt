//! A run over the files of a machine.
ghost use Rattle.std.specs.Prelude.{◌≡◌, ◌≢◌, ◌≤◌, IfOk};
ghost use Rattle.modprobe_words.specs.Asked.{asked_of};
ghost use Rattle.gz_modprobe_drive.specs.Jobs.{JobBegun, JobEnds, JobWrites, worst_job};
ghost use Rattle.gz_modprobe_drive.specs.Texts.{IsConfOf};

use crate::answering::answer_query;
use crate::beside::{is_beside, named_paths, read_texts};
use crate::comparing::compare;
use crate::configuration::conf_of;
use crate::current::known_directory;
use crate::job::{Job, unread_status};
use crate::linting::lint_machine;
use crate::shown::shown;
use crate::why::tell_why;
use kmod_conf::Conf;
use modprobe_files::{ConfTexts, Host, ModuleTexts, System, is_rootless, read_modules};
use modprobe_words::{Asked, Level, Messages};
use std::alloc::AllocError;
use std::io::Write;

/// What a run asks, of which files, and what is read of these whatever it asks.
#[derive(Drop)]
pub(crate) struct Run<'a, S> {
    pub(crate) host: &'a Host<'a, S>,
    /// The files of the system, whatever the root is.
    pub(crate) beside: &'a Host<'a, S>,
    /// Whether the configuration lies there.
    pub(crate) is_beside: bool,
    /// The paths of the configuration that are named.
    pub(crate) named: &'a [&'a [u8]],
    pub(crate) asked: &'a Asked<'a>,
    /// The folder of modules, as it is printed.
    pub(crate) directory: &'a [u8],
    pub(crate) texts: &'a ConfTexts,
    /// What `texts` say.
    pub(crate) conf: &'a Conf,
    pub(crate) modules: &'a ModuleTexts,
}

impl<'a, S: System> Run<'a, S> {
    /// Whose files the configuration is of.
    pub(crate) fn configuration_host(&self) -> &'a Host<'a, S> {
        if self.is_beside {
            self.beside
        } else {
            self.host
        }
    }

    /// Tells the lines of the configuration that say nothing. No byte of them has an effect on a terminal.
    pub(crate) fn tell_bad_lines<E: Write>(
        &self,
        messages: &mut Messages<'_, E>,
    ) -> Result<(), AllocError> {
        let alloc = self.host.alloc();
        for line in self.conf.bad() {
            let path = shown(alloc, self.texts.path(line.place.source))?;
            let name = shown(alloc, line.name.as_bytes())?;
            let text = format!(in alloc;
                " line {}: ignoring bad line starting with '",
                line.place.line
            )?;
            messages.tell_always(Level::Error, &path, text.as_bytes(), &name, b"'");
        }
        Ok(())
    }
}

/// Does a job by what was read, and by the files of another machine if two are compared. Returns the status.
fn perform<S: System, O: Write, E: Write>(
    run: &Run<'_, S>,
    other: &Host<'_, S>,
    job: Job<'_>,
    output: &mut O,
    messages: &mut Messages<'_, E>,
) -> Result<u8, AllocError>
    requires kmod { run.now.texts.now.kmod ≡ run.now.asked.now.kmod }
    requires conf { IsConfOf run.now.texts.now run.now.conf.now }
    ensures status { IfOk result (λ status. status ≤ worst_job job.entry) }
    ensures well { IfOk result (λ status. status ≡ 0 → JobEnds job.entry (asked_of run.now.asked.now) (O.contents output.old) (O.contents output.new)) }
    ensures written { JobWrites job.entry (asked_of run.now.asked.now) (O.contents output.old) (O.contents output.new) }
{
    match job {
        Job::Lint => lint_machine(run, output, messages),
        Job::Why => tell_why(run, output, messages),
        Job::Diff => compare(run, other, output, messages),
        Job::Answer(query) => answer_query(run, &query, output, messages),
    }
}

/// Reads the configuration and the folder of modules, and does a job. `beside` has the files of the system, whatever the root is,
/// and `other` those of another machine, which may count. Where the root is missing, or that folder's path is not known, it is
/// told, and nothing is done. Returns the status. It fails only if memory runs out.
pub(crate) fn read_and_perform<S: System, O: Write, E: Write>(
    host: &Host<'_, S>,
    beside: &Host<'_, S>,
    other: &Host<'_, S>,
    asked: &Asked<'_>,
    job: Job<'_>,
    output: &mut O,
    messages: &mut Messages<'_, E>,
) -> Result<u8, AllocError>
    ensures status { IfOk result (λ status. status ≤ worst_job job.entry) }
    ensures well { IfOk result (λ status. status ≡ 0 → JobEnds job.entry (asked_of asked.now) (O.contents output.old) (O.contents output.new)) }
    ensures written { JobWrites job.entry (asked_of asked.now) (O.contents output.old) (O.contents output.new) }
{
    if is_rootless(host, asked.root.unwrap_or(b""), messages)? {
        return Ok(unread_status(job));
    }
    let Some(directory) = known_directory(host, asked, messages)? else {
        return Ok(unread_status(job));
    };
    let texts = read_texts(host, beside, asked, job, &directory, messages)?;
    let conf = conf_of(host.alloc(), &texts)?;
    let modules = read_modules(host, &directory, messages)?;
    let run = Run {
        host,
        beside,
        is_beside: is_beside(asked, job),
        named: named_paths(asked, job),
        asked,
        directory: &directory,
        texts: &texts,
        conf: &conf,
        modules: &modules,
    };
    perform(&run, other, job, output, messages)
}
