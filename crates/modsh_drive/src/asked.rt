//! What the arguments of the program ask for.
ghost use Rattle.std.specs.Prelude.{◌≤◌};

use clap::{Arg, ArgAction, ArgMatches, Command, Error as ClapError, value_parser};
use program_frame::flag;
use std::alloc::{AllocError, Global};

/// The version of the program.
const VERSION: &str = "0.2.0";

/// What stands at the end of the help text.
const HELP: &str =
    "Standard input is read after the files. An input is sections, and then a session:
  %catalogue  the modules that there may be
  %dep        lines of modules.dep
  %alias      lines of modules.alias
  %conf       lines of modprobe.d
  %session    commands, each of which gets its reply on standard output
Each WORD is a section too, which stands before standard input.

Example:
  printf '%%session\\nmodprobe snd\\nlsmod\\n' | modsh catalogue=snd.catalogue

Exit status:
  0  the input was answered to its end
  1  with --fail, a reply was an error; with --lint, a line was listed
  2  an argument, a file or a section is refused
  3  a read or a write failed, memory ran out, or a limit was reached";

/// How many workers a session has.
fn workers<'a>(alloc: Global) -> Arg<'a> {
    Arg::new(alloc, "workers")
        .long("workers")
        .value_name("N")
        .value_parser(value_parser!(u16).range(1..=64))
        .default_value("1")
        .help("How many workers there are")
}

/// Files that stand before the input.
fn words<'a>(alloc: Global) -> Arg<'a> {
    Arg::new(alloc, "words")
        .value_name("WORD")
        .num_args(0..)
        .action(ArgAction::Append)
        .help("catalogue=PATH, dep=PATH, alias=PATH or conf=PATH")
}

/// What the program takes.
fn command<'a>(alloc: Global) -> Result<Command<'a>, AllocError> {
    let explain = "Explains a fault, and lists lines without effect, on standard error";
    let fail = "Ends with status 1 if a reply was an error or no line is %session";
    let lint =
        "Lists lines without effect or about nothing, on standard error, and answers no command";
    Command::new(alloc, "modsh")
        .version(VERSION)
        .after_help(HELP)
        .arg(workers(alloc))?
        .arg(flag(alloc, "explain", explain))?
        .arg(flag(alloc, "fail", fail))?
        .arg(flag(alloc, "lint", lint))?
        .arg(words(alloc))
}

/// What clap finds in the words.
pub(crate) fn matches_of<'a>(
    alloc: Global,
    words: &'a [String],
) -> Result<ArgMatches<'a>, ClapError> {
    command(alloc)?.try_get_matches_from(words)
}

/// What is asked for besides files.
#[derive(Clone, Copy, Drop)]
pub(crate) struct Asked {
    /// How many workers the session has.
    pub(crate) workers: usize,
    /// Whether faults are explained, and lines without effect are listed.
    pub(crate) explain: bool,
    /// Whether a reply that is an error, or an input without a session, makes the status 1.
    pub(crate) fail: bool,
    /// Whether lines of the sections are listed that have no effect or are about nothing, and no command is made.
    pub(crate) lint: bool,
    ghost few: { workers ≤ 64 },
}

impl Asked {
    ghost use Rattle.std.specs.Prelude.{◌≡◌, false};

    /// What a program without arguments is asked for.
    pub(crate) fn plain() -> Asked
        ensures workers { result.workers ≡ 1 }
        ensures fail { result.fail ≡ false }
        ensures lint { result.lint ≡ false }
    {
        Asked {
            workers: 1,
            explain: false,
            fail: false,
            lint: false,
        }
    }

    /// What clap has found. The number of workers is in its range there.
    pub(crate) fn of(matches: &ArgMatches<'_>) -> Asked {
        let workers = match matches.get_one::<u16>("workers") {
            Some(workers) => workers.clamp(1, 64) as usize,
            None => 1,
        };
        Asked {
            workers,
            explain: matches.get_flag("explain"),
            fail: matches.get_flag("fail"),
            lint: matches.get_flag("lint"),
        }
    }
}
