//! What people are told if a command line ends before a query is answered.
ghost use Rattle.std.specs.Prelude.{◌≡◌, ◌≤◌, None, option_map};
ghost use Rattle.modprobe_words.specs.Endings.{IsEnded, IsShownPart, seen, shown_by};

use crate::endings::Ending;
use crate::found::{is_alike, is_near};
use crate::help::{HELP, VERSION};
use crate::items::Fault;
use crate::long_words::name_part;
use crate::messages::{tell_line, write_parts};
use crate::options::{LONG_OPTIONS, LongOption};
use crate::written::{Written, write_whole};
use std::io::Write;

/// Tells the options that a word may stand for: the first, and those that mean another thing.
fn tell_possibilities<E: Write>(text: &[u8], errors: &mut E) {
    let word = name_part(text);
    let mut first: Option<LongOption> = None;
    for option in LONG_OPTIONS.iter() {
        if !is_near(word, *option) {
            continue;
        }
        let is_told = match first {
            None => true,
            Some(other) => !is_alike(word, other, *option),
        };
        if is_told {
            write_parts(errors, b" '--", option.word(), b"'");
        }
        first = first.or(Some(*option));
    }
    let _ = errors.write_all(b"\n");
}

/// Tells why words are refused, as getopt_long(3) does.
fn tell_fault<E: Write>(fault: Fault<'_>, errors: &mut E) {
    match fault {
        Fault::BadLetter(letter) => tell_line(errors, b"invalid option -- '", &[letter], b"'"),
        Fault::LetterWantsValue(letter) => {
            tell_line(errors, b"option requires an argument -- '", &[letter], b"'");
        }
        Fault::UnknownWord(text) => tell_line(errors, b"unrecognized option '--", text, b"'"),
        Fault::AmbiguousWord(text) => {
            write_parts(
                errors,
                b"gz-modprobe: option '--",
                text,
                b"' is ambiguous; possibilities:",
            );
            tell_possibilities(text, errors);
        }
        Fault::WordTakesNone(option) => {
            tell_line(
                errors,
                b"option '--",
                option.word(),
                b"' doesn't allow an argument",
            );
        }
        Fault::WordWantsValue(option) => {
            tell_line(
                errors,
                b"option '--",
                option.word(),
                b"' requires an argument",
            );
        }
    }
}

/// The text that an ending shows on standard output, if it shows one.
fn shown_by(ending: Ending<'_>) -> Option<&'static str>
    ensures { option_map (λ text. text.now) result ≡ shown_by (seen ending.entry) }
{
    match ending {
        Ending::Version => Some(VERSION),
        Ending::Help => Some(HELP),
        Ending::BadWait(_) | Ending::BadKmod(_) => None,
        Ending::BadForm(_) | Ending::BadLint(_) | Ending::Refused(_) => None,
    }
}

/// Tells why an ending refuses words, if it does.
fn tell_why<E: Write>(ending: Ending<'_>, errors: &mut E) {
    match ending {
        Ending::BadWait(text) => {
            tell_line(errors, b"ERROR: unexpected wait value '", text, b"'.");
        }
        Ending::BadKmod(text) => {
            tell_line(errors, b"ERROR: --as has '", text, b"': it knows 30 and 34");
        }
        Ending::BadForm(text) => {
            tell_line(errors, b"ERROR: --explain has '", text, b"': it knows json");
        }
        Ending::BadLint(text) => {
            tell_line(errors, b"ERROR: --lint has '", text, b"': it knows json");
        }
        Ending::Refused(fault) => tell_fault(fault, errors),
        Ending::Version | Ending::Help => {}
    }
}

/// Ends the program if a word says so: the version and the help go to `output`, and why words are refused to `errors`.
/// Returns the exit status: 0, or 1 if words are refused or the output was not written.
pub fn end_early<O: Write, E: Write>(ending: Ending<'_>, output: &mut O, errors: &mut E) -> u8
    ensures status { result ≤ 1 }
    ensures end { IsEnded (seen ending.entry) (O.contents output.old) (O.contents output.new) result }
    ensures part { IsShownPart (shown_by (seen ending.entry)) (O.contents output.old) (O.contents output.new) }
    ensures silent { shown_by (seen ending.entry) ≡ None → output.new ≡ output.old }
{
    match shown_by(ending) {
        Some(text) => match write_whole(output, text.as_bytes()) {
            Written::Whole => 0,
            Written::Closed | Written::Failed => 1,
        },
        None => {
            tell_why(ending, errors);
            1
        }
    }
}
