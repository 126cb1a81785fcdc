//! What people are told of names that were not answered, and of texts that may not say all.

use crate::texts::Machine;
use kmod_names::{Text, name_of_path};
use kmod_query::{Answer, Failure, Query};
use modprobe_files::{Host, System, tell_folder};
use modprobe_words::{Level, Messages};
use std::alloc::{AllocError, Global};
use std::io::Write;

fn tell_could_not<E: Write>(messages: &mut Messages<'_, E>, verb: &[u8], name: &Text, why: &[u8]) {
    messages.tell(Level::Error, verb, b" '", name.as_bytes(), why);
}

fn tell_failure<E: Write>(
    failure: &Failure,
    query: &Query<'_>,
    directory: &[u8],
    messages: &mut Messages<'_, E>,
) {
    let level = if query.all {
        Level::Warning
    } else {
        Level::Fatal
    };
    let (name, what, more): (&Text, &[u8], &[u8]) = match failure {
        Failure::NoFile(word, reason) => {
            let text = b"Failed to get module from path ";
            messages.tell(level, text, word.as_bytes(), b": ", reason.as_bytes());
            return;
        }
        Failure::AlreadyLoaded(name) => {
            let why = b"': Module already in kernel";
            return tell_could_not(messages, b"could not insert", name, why);
        }
        Failure::Gone(name) => {
            let why = b"': No such file or directory";
            return tell_could_not(messages, b"could not remove", name, why);
        }
        Failure::NotFound(word) => (word, b" not found in directory ", directory),
        Failure::NothingToRemove(word) => (word, b" not found.", b""),
        Failure::NotInKernel(name) => (name, b" is not in kernel.", b""),
        Failure::Builtin(name) => (name, b" is builtin.", b""),
        Failure::InUse(name) => (name, b" is in use.", b""),
    };
    messages.tell(level, b"Module ", name.as_bytes(), what, more);
}

/// What the names of modules' files end with.
const ENDINGS: [&[u8]; 4] = [b".ko", b".ko.gz", b".ko.xz", b".ko.zst"];

/// Whether a word is a path, or the name of a module's file.
fn is_path(word: &[u8]) -> bool {
    word.contains(&b'/') || ENDINGS.iter().any(|ending| word.ends_with(*ending))
}

fn tell_path<E: Write>(
    alloc: Global,
    word: &[u8],
    messages: &mut Messages<'_, E>,
) -> Result<(), AllocError> {
    if is_path(word) {
        let name = name_of_path(alloc, word)?;
        let text = b" is a path: the name of its module is ";
        messages.tell(Level::Notice, word, text, name.as_bytes(), b"");
    }
    Ok(())
}

/// Tells that modules.dep ends within a line, as one does whose writing was cut off: then needs of its last module may be
/// missing from an answer.
fn tell_cut_needs<E: Write>(machine: &Machine<'_>, messages: &mut Messages<'_, E>) {
    let needs = &machine.modules.dep;
    if !needs.is_empty() && !needs.ends_with(b"\n") {
        let (name, text) = (b"/modules.dep", b" ends within a line");
        messages.tell(Level::Notice, machine.directory, name, text, b"");
    }
}

/// Tells why names were not answered, and what is wrong with their folder of modules.
pub(crate) fn tell_failures<S: System, E: Write>(
    host: &Host<'_, S>,
    machine: &Machine<'_>,
    answer: &Answer,
    query: &Query<'_>,
    messages: &mut Messages<'_, E>,
) -> Result<(), AllocError> {
    let directory = machine.directory;
    let mut is_found = true;
    for failure in answer.failures() {
        tell_failure(failure, query, directory, messages);
        if let Failure::NotFound(word) = failure {
            is_found = false;
            tell_path(host.alloc(), word.as_bytes(), messages)?;
        }
    }
    if is_found {
        tell_cut_needs(machine, messages);
        return Ok(());
    }
    tell_folder(host, directory, messages)
}
