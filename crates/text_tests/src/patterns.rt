//! Patterns, and modules.alias texts.

use crate::texts::{behind, holds_at, holds_or_short};
use alias_match::{Aliases, Pattern, PatternError, read_aliases};
use std::alloc::{AllocError, Global};
use std::process::Abort;
use std::test::Fail;

/// Whether the pattern matches the text, or why it is none.
fn answer(alloc: Global, pattern: &str, text: &str) -> Result<bool, PatternError> {
    let pattern = Pattern::read(alloc, pattern.as_bytes())?;
    Ok(pattern.matches(text.as_bytes()))
}

/// A pattern, a text, and whether the one matches the other, or why the pattern is none.
static ANSWERS: [(&str, &str, Result<bool, PatternError>); 37] = [
    ("[", "", Err(PatternError::Unclosed)),
    ("[]", "", Err(PatternError::Unclosed)),
    ("[!]", "", Err(PatternError::Unclosed)),
    ("[a-", "", Err(PatternError::Unclosed)),
    ("x[[:alpha:]]", "", Err(PatternError::Class)),
    ("[[.", "", Err(PatternError::Class)),
    ("a\\", "", Err(PatternError::Backslash)),
    ("[a\\", "", Err(PatternError::Backslash)),
    ("x[a-\\", "", Err(PatternError::Backslash)),
    ("a-b", "a_b", Ok(true)),
    ("a\\-b", "a_b", Ok(true)),
    ("[a-]", "a", Ok(true)),
    ("[a-]", "-", Ok(true)),
    ("[^a]", "b", Ok(true)),
    ("*", "", Ok(true)),
    ("usb:v[0-9A-F]*p??", "usb:v0Ap12", Ok(true)),
    ("usb:v[0-9A-F]*p??", "usb:v0pp12", Ok(true)),
    ("[a-[:]", ":", Ok(true)),
    ("[\\[:]", "[", Ok(true)),
    ("[\\[:]", ":", Ok(true)),
    ("[\\a-\\c]", "b", Ok(true)),
    ("[]-a]", "_", Ok(true)),
    ("[]]", "]", Ok(true)),
    ("\\*", "*", Ok(true)),
    (
        "pci:v00008086d*sv*sd*bc03sc*i*",
        "pci:v00008086d00001916sv00001028sd000006DEbc03sc00i00",
        Ok(true),
    ),
    ("a-b", "a-b", Ok(false)),
    ("[^a]", "a", Ok(false)),
    ("[^a]", "", Ok(false)),
    ("[z-a]", "m", Ok(false)),
    ("[z-a]", "z", Ok(false)),
    ("usb:v[0-9A-F]*p??", "usb:vGp12", Ok(false)),
    ("usb:v[0-9A-F]*p??", "usb:v0p1", Ok(false)),
    ("[a-[:]", "a", Ok(false)),
    ("[]-a]", "b", Ok(false)),
    ("\\*", "a", Ok(false)),
    ("", "a", Ok(false)),
    (
        "pci:v00008086d*sv*sd*bc03sc*i*",
        "pci:v00008086d00009D2Fsv00001028sd000006DEbc0Csc03i30",
        Ok(false),
    ),
];

fn is_row(rt: &impl Abort, pattern: &str, text: &str, fact: bool) {
    assert!(rt; fact, "{pattern} at {text}");
}

#[test]
fn answers(rt: HostRuntime) -> Result<(), PatternError> {
    let mut whole = Ok(());
    for (pattern, text, wanted) in &ANSWERS {
        match answer(rt.alloc(), pattern, text) {
            Err(PatternError::Memory) => whole = Err(PatternError::Memory),
            found => is_row(&rt, pattern, text, found == *wanted),
        }
    }
    whole
}

fn repeated(alloc: Global, word: &[u8], count: usize) -> Result<Vec<u8>, AllocError> {
    let mut text = Vec::new(alloc);
    for _ in 0..count {
        text.extend_from_slice(word)?;
    }
    Ok(text)
}

#[test]
fn many_runs_end_at_once(rt: HostRuntime) -> Result<(), Fail> {
    let pattern = Pattern::read(rt.alloc(), &repeated(rt.alloc(), b"*a", 1000)?)?;
    let mut text = repeated(rt.alloc(), b"a", 4000)?;
    text.extend_from_slice(b"b")?;
    assert!(rt; !pattern.matches(&text));
    Ok(())
}

const ALIASES: &[u8] =
    b"# alias a b\n\nalias usb:v[0-9A-F]*p?? usbx\r\nalias x\nalias [ y\n\talias snd-* snd-pcm more\noptions q r";

/// The same aliases, with a line between them that is none.
const TWO_ALIASES: &[u8] = b"alias usb:v[0-9A-F]*p?? usbx\noptions q r\nalias snd-* snd-pcm more\n";

/// A name, a text of two aliases, the targets of those that match the name, one a line, and which lines are none.
static TARGETS: [(&str, &[u8], &[u8], &[usize]); 4] = [
    ("usb:v0Ap12", ALIASES, b"usbx\n", &[4, 5, 7]),
    ("snd_hda", ALIASES, b"snd_pcm\n", &[4, 5, 7]),
    ("usb:v0pp12", TWO_ALIASES, b"usbx\n", &[2]),
    ("snd_hda", TWO_ALIASES, b"snd_pcm\n", &[2]),
];

/// Whether there are two aliases, and these are the targets of those that match the name, one a line.
fn are_targets(aliases: &Aliases, name: &[u8], wanted: &[u8]) -> bool {
    let mut rest = Some(wanted);
    for i in 0..aliases.len() {
        if aliases.pattern(i).matches(name) {
            rest = behind(rest, &[aliases.target(i).as_bytes(), b"\n"]);
        }
    }
    matches!(rest, Some([])) && aliases.len() == 2
}

/// Whether the text has these aliases, and these lines that are none.
fn have_targets(
    alloc: Global,
    text: &[u8],
    name: &[u8],
    wanted: &[u8],
    none: &[usize],
) -> Result<bool, AllocError> {
    let aliases = read_aliases(alloc, text)?;
    Ok(are_targets(&aliases, name, wanted) && aliases.skipped() == none)
}

#[test]
fn targets_of_aliases(rt: HostRuntime) -> Result<(), AllocError> {
    let mut whole = Ok(());
    for (name, text, wanted, none) in &TARGETS {
        let fact = have_targets(rt.alloc(), text, name.as_bytes(), wanted, none);
        whole = whole.and(holds_or_short(&rt, name, fact));
    }
    whole
}

/// How many aliases a text has, and how many lines that are none.
fn counts(alloc: Global, text: &[u8]) -> Result<(usize, usize), AllocError> {
    let aliases = read_aliases(alloc, text)?;
    Ok((aliases.len(), aliases.skipped().len()))
}

#[test]
fn each_prefix_of_an_alias(rt: HostRuntime) {
    let text = b"alias usb:v[0-9A-F]*p?? usbx".as_slice();
    for end in 0..=text.len() {
        let wanted = match end {
            0 => (0, 0),
            1..=24 => (0, 1),
            _ => (1, 0),
        };
        let found = counts(rt.alloc(), &text[..end]);
        holds_at(&rt, end, found == Ok(wanted));
    }
}

#[test]
fn each_prefix_of_a_pattern(rt: HostRuntime) {
    let pattern = b"x[[:a\\-z]*?\\".as_slice();
    for end in 0..=pattern.len() {
        let wanted = match end {
            0 | 1 => None,
            2 | 3 => Some(PatternError::Unclosed),
            _ => Some(PatternError::Class),
        };
        let found = Pattern::read(rt.alloc(), &pattern[..end]).err();
        holds_at(&rt, end, found == wanted);
    }
}
