//! What the arguments of the program ask for.

use clap::{Arg, ArgAction, Command, Error as ClapError};
use program_frame::{Source, flag};
use std::alloc::{AllocError, Global};

/// What stands at the end of the help text.
const EXAMPLE: &str = "FILE or standard input is a report, as workload writes it.

Example:
  workload schedule | timeline > schedule.svg
  workload schedule | timeline --text

Exit status:
  0  the picture was written
  2  an argument, the file or the report is refused
  3  a stream failed, or there was no memory";

/// What is asked for.
#[derive(Clone, Copy, Drop)]
pub(crate) struct Asked<'a> {
    /// Where the report is read.
    pub(crate) source: Source<'a>,
    /// Whether the picture is drawn in letters.
    pub(crate) in_letters: bool,
    /// Whether a refused report is explained.
    pub(crate) explain: bool,
}

/// The file of the report.
fn file<'a>(alloc: Global) -> Arg<'a> {
    Arg::new(alloc, "file")
        .value_name("FILE")
        .action(ArgAction::Set)
        .help("The report; standard input without it, or if it is -")
}

/// What the program takes.
fn command<'a>(alloc: Global) -> Result<Command<'a>, AllocError> {
    let explain = "Explains a refused report on standard error";
    let args = vec![in alloc;
        flag(alloc, "text", "Draws in columns of a terminal"),
        flag(alloc, "explain", explain),
        file(alloc),
    ]?;
    Command::new(alloc, "timeline")
        .version("0.2.0")
        .about("Draws a report of workload as an SVG")
        .after_help(EXAMPLE)
        .args(args)
}

/// What the words ask for.
pub(crate) fn asked_by<'a>(alloc: Global, words: &'a [String]) -> Result<Asked<'a>, ClapError> {
    let matches = command(alloc)?.try_get_matches_from(words)?;
    Ok(Asked {
        source: Source::of(matches.get_str("file")),
        in_letters: matches.get_flag("text"),
        explain: matches.get_flag("explain"),
    })
}
