//! What people may have meant by a line that is refused.

use crate::commands::{form_in, form_of};
use modprobe::SetupCode;
use program_frame::first_word;
use text_parts::{is_comment, is_same, whole_lines};

/// A line that is refused, and so many lines of its section's text before it.
#[derive(Clone, Copy, Drop)]
pub(crate) struct Faulty<'a> {
    pub(crate) text: &'a [u8],
    pub(crate) before: usize,
    pub(crate) line: &'a [u8],
}

impl<'a> Faulty<'a> {
    /// The line of this number, from 1, of a section's text.
    pub(crate) fn of(text: &'a [u8], number: u64) -> Faulty<'a> {
        let before = number.saturating_sub(1) as usize;
        let line = whole_lines(text).nth(before).unwrap_or(b"");
        Faulty { text, before, line }
    }

    /// A line of no section.
    pub(crate) fn in_hand(line: &'a [u8]) -> Faulty<'a> {
        Faulty {
            text: b"",
            before: 0,
            line,
        }
    }
}

/// What lines of a catalogue that name symbols have to have.
const SYMBOLS: &str = "exports and needs have one or more symbols";

/// The first words of lines of a catalogue, and what a line of each has to have.
const FORMS: [(&[u8], &str); 9] = [
    (
        b"module",
        "module has one name, of 1 to 55 letters, digits, _ and -",
    ),
    (
        b"size",
        "size has one number, at most 4294967295, and stands once per module",
    ),
    (b"exports", SYMBOLS),
    (b"needs", SYMBOLS),
    (
        b"param",
        "param has a name and a type, each name once per module; types beyond int, bool and charp want version 3",
    ),
    (b"permanent", "permanent stands alone"),
    (
        b"softneeds",
        "softneeds has one or more names, in a catalogue that begins with version 2 or 3",
    ),
    (
        b"version",
        "version 2 or version 3 is the first line of a catalogue, and there is no other version",
    ),
    (
        b"end",
        "end has one number, that of the modules before it, in a catalogue that begins with version 3: was that cut or changed?",
    ),
];

/// What is wrong with a line of a catalogue that is whole without it.
const BEHIND_END: &str = "end is the last line of a catalogue: comments alone may follow it";

/// The first words of lines of a configuration, but for `alias`.
const SETTINGS: [&[u8]; 5] = [b"blacklist", b"install", b"options", b"remove", b"softdep"];

/// What is likely wrong with a line in the wrong section that begins with this word.
fn word_in_section_hint(word: &[u8]) -> Option<&'static str> {
    if word.first() == Some(&b'%') {
        Some("a section line is %catalogue, %dep, %alias, %conf or %session, and nothing else")
    } else if word.get(..3) == Some(b"\xef\xbb\xbf".as_slice()) {
        Some("the text begins with a byte order mark: save it without")
    } else if form_of(word).is_some() {
        Some("this is a command of a session: is %session missing before it?")
    } else if form_in(&FORMS, word).is_some() {
        Some(
            "this is a line of a catalogue: is %catalogue missing before it, or catalogue= before its file?",
        )
    } else if SETTINGS.iter().any(|own| is_same(word, *own)) {
        Some(
            "this is a line of a configuration: is %conf missing before it, or conf= before its file?",
        )
    } else if is_same(word, b"alias") {
        Some(
            "this is an alias: is %alias or %conf missing before it, or alias= or conf= before its file?",
        )
    } else if word.last() == Some(&b':') {
        Some("this is a line of modules.dep: is %dep missing before it, or dep= before its file?")
    } else {
        None
    }
}

/// What is likely wrong with a line that stands in the wrong section.
fn section_hint(line: &[u8]) -> Option<&'static str> {
    if is_comment(line) {
        return None;
    }
    word_in_section_hint(first_word(line))
}

/// Whether a line that begins with this word stands before this line of a catalogue.
fn is_behind(faulty: &Faulty<'_>, word: &[u8]) -> bool {
    let mut before = whole_lines(faulty.text).take(faulty.before);
    before.any(|line| is_same(first_word(line), word))
}

/// Whether a line of a catalogue that begins with this word may stand if no module line is before it.
fn is_of_no_module(word: &[u8]) -> bool {
    let words: [&[u8]; 3] = [b"module", b"version", b"end"];
    words.iter().any(|own| is_same(word, own))
}

/// What is likely wrong with a line of no form in a catalogue.
fn catalogue_hint(faulty: &Faulty<'_>) -> Option<&'static str> {
    let word = first_word(faulty.line);
    if word.is_empty() {
        return None;
    }
    let is_ended = is_behind(faulty, b"end");
    let Some(form) = form_in(&FORMS, word) else {
        let wrong = if is_ended {
            BEHIND_END
        } else {
            "a line of a catalogue begins with module, size, exports, needs, param or permanent"
        };
        return section_hint(faulty.line).or(Some(wrong));
    };
    if is_ended {
        Some(BEHIND_END)
    } else if is_of_no_module(word) || is_behind(faulty, b"module") {
        Some(form)
    } else {
        Some("a module line comes first")
    }
}

/// What is likely wrong with a line that is refused with this code.
pub(crate) fn hint_of(code: SetupCode, faulty: &Faulty<'_>) -> Option<&'static str> {
    match code {
        SetupCode::C1 => catalogue_hint(faulty),
        SetupCode::C2 => Some("- and _ are the same in names"),
        SetupCode::C4 => Some("a catalogue that begins with version 3 holds 65,535 modules"),
        SetupCode::M1 => section_hint(faulty.line),
        SetupCode::B1 => {
            let likely = section_hint(faulty.line);
            likely.or(Some("begin the input with a section line, such as %catalogue"))
        }
        _ => None,
    }
}

/// What is likely wrong with a word of the program.
pub(crate) fn word_hint(word: &str) -> &'static str {
    if word == "-" {
        "standard input is read without a word"
    } else if word.starts_with('-') {
        "an option stands before --"
    } else {
        "a word is catalogue=PATH, dep=PATH, alias=PATH or conf=PATH"
    }
}

/// What is likely wrong with a path that cannot be read.
pub(crate) fn path_hint(path: &str) -> Option<&'static str> {
    if path.is_empty() {
        Some("nothing stands after the equals sign")
    } else if path.starts_with('~') {
        Some("a shell leaves a ~ after an equals sign as it is: write the whole path")
    } else {
        None
    }
}
