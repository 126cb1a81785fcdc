//! What people are told on the stream for errors. If that stream fails, nobody is told.
ghost use Rattle.std.specs.Prelude.{◌≡◌};
ghost use Rattle.program_frame.specs.declared.status.Status.TheVariants as statuses;

use crate::path::PathFault;
use crate::source::{InputFault, Source};
use crate::status::Status;
use std::io::Write;

/// Tells that the program of this name had no memory, with which it ends.
pub fn tell_no_memory<E: Write>(name: &str, errors: &mut E) -> Status
    ensures { result ≡ statuses.Fault }
{
    let _ = writeln!(errors, "{name}: out of memory");
    Status::Fault
}

/// Tells a sentence that explains a fault.
pub fn tell_sentence<E: Write>(sentence: &str, errors: &mut E) {
    let _ = writeln!(errors, "  {sentence}");
}

/// Tells what may have been meant, if there is something to tell.
pub fn tell_hint<E: Write>(hint: Option<&str>, errors: &mut E) {
    if let Some(hint) = hint {
        let _ = writeln!(errors, "  hint: {hint}");
    }
}

/// Tells a path that the program of this name does not read, and why.
pub fn tell_unread<E: Write>(name: &str, path: &str, why: PathFault, errors: &mut E) {
    let _ = writeln!(errors, "{name}: cannot read {path}: {why}");
}

/// Tells why the program of this name has no input.
pub fn tell_no_input<E: Write>(name: &str, source: Source<'_>, fault: InputFault, errors: &mut E) {
    match (source, fault) {
        (Source::File(path), InputFault::Path(why)) if why != PathFault::Memory => {
            tell_unread(name, path, why, errors)
        }
        _ => {
            let _ = writeln!(errors, "{name}: {fault}");
        }
    }
}
