//! What people are told of words that are refused.

use program_frame::Shown;
use std::io::Write;
use table_words::{Fault, Valued};

/// The option, as its value stands behind it.
fn option_words(valued: Valued) -> &'static str {
    match valued {
        Valued::Wait => "--wait SECONDS",
        Valued::Release => "-S VERSION",
        Valued::Root => "--root DIR",
        Valued::As => "--as VERSION",
        Valued::Mode => "--mode MODE",
    }
}

/// What is wrong with a word, the word, and what to do.
fn tell_word<E: Write>(what: &str, word: &[u8], advice: &str, errors: &mut E) {
    let word = Shown(word);
    let _ = writeln!(errors, "gz-table: {what} {word}: {advice}");
}

fn tell_sentence<E: Write>(sentence: &str, errors: &mut E) {
    let _ = writeln!(errors, "gz-table: {sentence}");
}

fn tell_value<E: Write>(valued: Valued, errors: &mut E) {
    let words = option_words(valued);
    let _ = writeln!(errors, "gz-table: a value is missing: write {words}");
}

/// Tells why the words of a command line are refused, and what to do: a line on the stream. If it fails, nobody is told.
pub fn tell_fault<E: Write>(fault: Fault<'_>, errors: &mut E) {
    match fault {
        Fault::UnknownOption(word) => {
            tell_word("unknown option", word, "--help lists the options", errors)
        }
        Fault::BadWait(word) => {
            tell_word("bad --wait", word, "give seconds, below 4294967296", errors)
        }
        Fault::BadMode(word) => {
            tell_word(
                "bad --mode",
                word,
                "give three octal digits, as 750",
                errors,
            )
        }
        Fault::ExtraWord(word) => {
            tell_word(
                "extra word",
                word,
                "the command before it takes none",
                errors,
            )
        }
        Fault::BadWord(word) => {
            let advice = "a word of a command has no blank and no line's end, and is not empty";
            tell_word("bad word", word, advice, errors)
        }
        Fault::BadHolder(word) => {
            let advice = "a holder does not begin with -, and --again is an option of hold";
            tell_word("bad holder", word, advice, errors)
        }
        Fault::WantsValue(valued) => tell_value(valued, errors),
        Fault::NoFolder => tell_sentence(
            "no folder: name the table's folder, or set GZ_TABLE",
            errors,
        ),
        Fault::NoFile => tell_sentence(
            "no file: name one with lines of /proc/modules, or - for standard input",
            errors,
        ),
        Fault::NothingToCreate => {
            tell_sentence("nothing to create: name catalogue=PATH, or --host", errors)
        }
        Fault::WantsHost => tell_sentence(
            "-S, --root and --as are options of create --host",
            errors,
        ),
    }
}
