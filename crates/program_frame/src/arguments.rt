//! The words that a program is given.
ghost use Rattle.std.specs.Prelude.{◌≡◌, ◌≢◌, IfErr};
ghost use Rattle.clap.specs.Values.{kind_of};
ghost use Rattle.clap.specs.declared.error.kind.ErrorKind.TheVariants as kind;
ghost use Rattle.program_frame.specs.declared.status.Status.TheVariants as statuses;

use crate::status::Status;
use crate::told::tell_no_memory;
use clap::error::ErrorKind;
use clap::{Arg, ArgAction, Error as ClapError};
use std::alloc::Global;
use std::env::{self, Env};
use std::io;
use std::io::Write;

/// The words of the program, the first of which is its own name; or how it ends without them.
pub fn words<R: Env + AllocGlobal>(rt: &R) -> Result<Vec<String>, Status>
    ensures { IfErr result (λ status. status ≢ statuses.Done) }
{
    let args = match env::args(rt) {
        Ok(args) => args,
        Err(error) if error.kind() == io::ErrorKind::OutOfMemory => return Err(Status::Fault),
        Err(_) => return Err(Status::Refused),
    };
    args.collect(rt.alloc()).map_err(|_| Status::Fault)
}

/// An option of a program without a value.
pub fn flag<'a>(alloc: Global, name: &'a str, help: &'a str) -> Arg<'a> {
    Arg::new(alloc, name)
        .long(name)
        .action(ArgAction::SetTrue)
        .help(help)
}

/// Ends the program of this name if its words ask for no work: help and the version go to `writer`, and why words are
/// refused goes to `errors`.
pub fn end_by<O: Write, E: Write>(
    name: &str,
    error: &ClapError,
    writer: &mut O,
    errors: &mut E,
) -> Status
    ensures help { kind_of error.now ≡ kind.DisplayHelp → result ≡ statuses.Done }
    ensures version { kind_of error.now ≡ kind.DisplayVersion → result ≡ statuses.Done }
    ensures memory { kind_of error.now ≡ kind.OutOfMemory → result ≡ statuses.Fault }
    ensures well { result ≡ statuses.Done → kind_of error.now ≢ kind.DisplayHelp → kind_of error.now ≡ kind.DisplayVersion }
    ensures fault { result ≢ statuses.Done → kind_of error.now ≢ kind.OutOfMemory → result ≡ statuses.Refused }
    ensures silent { result ≢ statuses.Done → writer.new ≡ writer.old }
{
    if error.kind() == ErrorKind::OutOfMemory {
        return tell_no_memory(name, errors);
    }
    if error.use_stderr() {
        let _ = write!(errors, "{error}");
        return Status::Refused;
    }
    let _ = write!(writer, "{error}");
    Status::Done
}
