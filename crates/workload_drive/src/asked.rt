//! What the arguments of the program ask for.

use crate::script::Numbering;
use clap::{Arg, ArgAction, ArgMatches, Command, Error as ClapError};
use program_frame::{Source, flag};
use std::alloc::{AllocError, Global};

/// The version of the program.
const VERSION: &str = "0.2.0";

/// What stands at the end of the help text.
const HELP: &str =
    "FILE or standard input is a schedule, or a script with --threads, each with a catalogue before it:
  %catalogue  the modules that there may be
  %schedule   workers N, threads N, and the steps of threads
  %script     workers N, and the lines of workers
The report, or the table that the workers leave, is written to standard output.

Example:
  printf '%%catalogue\\nmodule snd\\n%%script\\nworkers 1\\nw0 load snd\\n' | workload --threads --replies

Exit status:
  0  the report or the table was written
  2  an argument, the file or the input is refused
  3  a read or a write failed, memory ran out, or a thread could not be started";

/// What is asked for.
#[derive(Clone, Copy, Drop)]
pub(crate) struct Asked<'a> {
    /// Where the input is read.
    pub(crate) source: Source<'a>,
    /// Whether the input is a script, which is run on threads.
    pub(crate) threads: bool,
    /// Whether the reply of each line of a script is written, and how its lines are numbered then.
    pub(crate) replies: Option<Numbering>,
    /// Whether faults are explained.
    pub(crate) explain: bool,
}

/// The file of the input.
fn file<'a>(alloc: Global) -> Arg<'a> {
    Arg::new(alloc, "file")
        .value_name("FILE")
        .action(ArgAction::Set)
        .help("The input; standard input without it, or if it is -")
}

/// What the program takes.
fn command<'a>(alloc: Global) -> Result<Command<'a>, AllocError> {
    let replies = "Writes the reply of each line of a script";
    let input_lines = "Numbers the lines of replies as in the input, from 1";
    let explain = "Explains a fault on standard error";
    Command::new(alloc, "workload")
        .version(VERSION)
        .after_help(HELP)
        .arg(flag(alloc, "threads", "Runs a script on threads"))?
        .arg(flag(alloc, "replies", replies).requires_arg("threads")?)?
        .arg(flag(alloc, "input-lines", input_lines).requires_arg("replies")?)?
        .arg(flag(alloc, "explain", explain))?
        .arg(file(alloc))
}

/// How the lines of replies are numbered, if replies are asked for.
fn numbering_in(matches: &ArgMatches<'_>) -> Option<Numbering> {
    if !matches.get_flag("replies") {
        None
    } else if matches.get_flag("input-lines") {
        Some(Numbering::OfInput)
    } else {
        Some(Numbering::OfWorker)
    }
}

/// What the words ask for.
pub(crate) fn asked_by<'a>(alloc: Global, words: &'a [String]) -> Result<Asked<'a>, ClapError> {
    let matches = command(alloc)?.try_get_matches_from(words)?;
    Ok(Asked {
        source: Source::of(matches.get_str("file")),
        threads: matches.get_flag("threads"),
        replies: numbering_in(&matches),
        explain: matches.get_flag("explain"),
    })
}
