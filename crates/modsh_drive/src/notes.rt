//! What people are told of lines and words that have no effect, and of lines about nothing.
ghost use Rattle.std.specs.Prelude.{◌<◌, length};

use crate::parameters::kind_of;
use crate::places::Places;
use crate::witness::Kept;
use alias_match::{IdleLine, NoEffect, idle_aliases};
use bstr::Lines;
use conf_lint::NoteKind;
use modprobe::{Section, Setup};
use modprobe_conf::idle_settings;
use program_frame::{Shown, first_word};
use std::alloc::{AllocError, Global};
use std::io::Write;
use text_parts::{is_same, whole_lines};

fn reason(why: NoEffect) -> &'static str {
    match why {
        NoEffect::UnknownWord => "no effect, no line begins with this word",
        NoEffect::FewWords => "no effect, too few words",
        NoEffect::BadPattern => "no effect, the pattern cannot be read",
    }
}

/// What is reported of a line by a note, and the word that it is about, or none for the line.
fn about(kind: &NoteKind) -> (&'static str, Option<&[u8]>) {
    let unread = "no pattern is read here, and no module has this name";
    match kind {
        NoteKind::UnknownName => ("no module or alias has this name", None),
        NoteKind::PatternName => (unread, None),
        NoteKind::UnknownTarget => ("no module has the name that it leads to", None),
        NoteKind::LaterSoftdep => (
            "no effect, an earlier softdep line of the module counts",
            None,
        ),
        NoteKind::RefusedValue(word) => (
            "the module does not take this value",
            Some(word.as_bytes()),
        ),
        NoteKind::PatternItem(word) => (unread, Some(word.as_bytes())),
    }
}

/// Notes of the lines of a section's text, whose numbers rise.
#[derive(Drop)]
struct LineNotes<'a, 'e, E> {
    section: Section,
    places: &'a Places<'a>,
    lines: Lines<'a>,
    next: usize,
    line: &'a [u8],
    errors: &'e mut E,
}

impl<'a, 'e, E: Write> LineNotes<'a, 'e, E> {
    fn new(section: Section, kept: &'a Kept<'_>, errors: &'e mut E) -> LineNotes<'a, 'e, E> {
        LineNotes {
            section,
            places: &kept.places,
            lines: whole_lines(kept.text(section)),
            next: 1,
            line: b"",
            errors,
        }
    }

    /// Tells where a line stands, why it is noted, and the word that this is about, or else the line.
    fn tell(&mut self, number: usize, why: &str, word: Option<&[u8]>) {
        if number >= self.next {
            let between = number.saturating_sub(self.next);
            self.line = self.lines.nth(between).unwrap_or(b"");
            self.next = number.saturating_add(1);
        }
        let place = self.places.in_section(self.section, number as u64);
        let text = Shown(word.unwrap_or(self.line));
        let _ = writeln!(self.errors, "modsh: note: {place}: {why}: {text}");
    }
}

/// Tells the words of options lines of the module in a slot whose parameters it does not define.
fn note_words_of<E: Write>(
    alloc: Global,
    setup: &Setup,
    slot: usize,
    errors: &mut E,
) -> Result<(), AllocError>
    requires { slot < length setup.now.catalogue }
{
    let name = setup.catalogue().name(slot);
    for word in setup.configuration().options(name) {
        let params = setup.catalogue().params(slot);
        if kind_of(alloc, params, word.as_bytes())?.is_none() {
            let (name, word) = (Shown(name), Shown(word.as_bytes()));
            let _ = writeln!(
                errors,
                "modsh: note: module {name} has no parameter of this name: {word}"
            );
        }
    }
    Ok(())
}

/// Tells the words of options lines that no module takes.
pub(crate) fn note_words<E: Write>(
    alloc: Global,
    setup: &Setup,
    errors: &mut E,
) -> Result<(), AllocError> {
    for slot in 0..setup.catalogue().len() {
        note_words_of(alloc, setup, slot, errors)?;
    }
    Ok(())
}

/// Whether a catalogue is of version 3 and has no line that says where it ends.
fn says_no_end(catalogue: &[u8]) -> bool {
    let mut is_third = false;
    for line in whole_lines(catalogue) {
        let word = first_word(line);
        if is_same(word, b"end") {
            return false;
        }
        // (of the versions 3 alone has this digit)
        is_third |= is_same(word, b"version") && line.contains(&b'3');
    }
    is_third
}

/// The number of the last line of a catalogue, or of one of its files, if it lacks a line feed there.
fn unended_line(kept: &Kept<'_>) -> Option<u64> {
    let text = kept.text(Section::Catalogue);
    let count = whole_lines(text).count() as u64;
    match kept.places.unended_in(Section::Catalogue) {
        Some(number) if number <= count => Some(number),
        _ if text.is_empty() || text.last() == Some(&b'\n') => None,
        _ => Some(count),
    }
}

/// Tells where a catalogue may be cut.
pub(crate) fn note_cut<E: Write>(kept: &Kept<'_>, errors: &mut E) {
    let Some(number) = unended_line(kept) else {
        return;
    };
    if says_no_end(kept.text(Section::Catalogue)) {
        let why =
            "the catalogue may be cut, no line feed ends this line and no line begins with end";
        LineNotes::new(Section::Catalogue, kept, errors).tell(number as usize, why, None);
    }
}

/// Tells lines of a section that have no effect.
fn tell_idle<E: Write>(section: Section, idle: &[IdleLine], kept: &Kept<'_>, errors: &mut E) {
    let mut notes = LineNotes::new(section, kept, errors);
    for line in idle {
        notes.tell(line.number, reason(line.why), None);
    }
}

/// Tells the lines of aliases and of the configuration that have no effect, by file and line, and answers how many there
/// are.
pub(crate) fn note_idle<E: Write>(kept: &Kept<'_>, errors: &mut E) -> Result<usize, AllocError> {
    let aliases = idle_aliases(kept.alloc, kept.text(Section::Alias))?;
    tell_idle(Section::Alias, &aliases, kept, errors);
    let settings = idle_settings(kept.alloc, kept.text(Section::Conf))?;
    tell_idle(Section::Conf, &settings, kept, errors);
    Ok(aliases.len().saturating_add(settings.len()))
}

/// Tells the notes of lines of the configuration that are about nothing, by file and line.
pub(crate) fn note_about<E: Write>(kept: &Kept<'_>, errors: &mut E) {
    let mut notes = LineNotes::new(Section::Conf, kept, errors);
    for note in &kept.about {
        let (why, word) = about(&note.kind);
        notes.tell(note.number, why, word);
    }
}
