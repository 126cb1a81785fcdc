//! The notes of a whole configuration.
ghost use Rattle.std.specs.Prelude.{◌≡◌, ◌++◌, IfOk, OnOk};
ghost use Rattle.text_parts.specs.Text.{texts_of};
ghost use Rattle.conf_lint.specs.Notes.{line_notes, notes_of, with_line, with_words, word_notes};

use crate::known::Known;
use crate::named::{Found, NamedLine};
use crate::note::Note;
use crate::setting::setting_said;
use modprobe_conf::JoinedLines;
use std::alloc::{AllocError, Global};
use text_parts::{Name, is_comment, is_same, words};

fn add_words(
    alloc: Global,
    known: &Known<'_>,
    found: &mut Found,
    number: usize,
    words: &[&[u8]],
) -> Result<(), AllocError>
    ensures notes { OnOk result (found.new.notes.items
        ≡ found.old.notes.items ++ word_notes known.now number found.old.softdeps.keys (texts_of words.now)) }
    ensures softdeps { OnOk result (found.new.softdeps.keys
        ≡ with_words known.now found.old.softdeps.keys (texts_of words.now)) }
{
    let [word, name, rest @ ..] = words else {
        return Ok(());
    };
    if is_same(word, b"alias") {
        return found.add_alias(alloc, known, number, words);
    }
    let Some(setting) = setting_said(word, rest) else {
        return Ok(());
    };
    let name = Name::new(alloc, name)?;
    let line = NamedLine {
        number,
        setting,
        words: rest,
    };
    found.add_named(alloc, known, name.as_bytes(), &line)
}

fn add_line(
    alloc: Global,
    known: &Known<'_>,
    found: &mut Found,
    number: usize,
    line: &[u8],
) -> Result<(), AllocError>
    ensures notes { OnOk result (found.new.notes.items
        ≡ found.old.notes.items ++ line_notes known.now found.old.softdeps.keys (number, line.now)) }
    ensures softdeps { OnOk result (found.new.softdeps.keys
        ≡ with_line known.now found.old.softdeps.keys (number, line.now)) }
{
    if is_comment(line) {
        return Ok(());
    }
    let words = words(alloc, line)?;
    add_words(alloc, known, found, number, &words)
}

/// The notes of a configuration text, in the order of its lines: of each line that is about nothing among the names that a
/// session has, and of no other. A line that has no effect at all, as `idle_settings` of modprobe_conf tells, has none.
/// It fails only out of memory.
pub fn lint(alloc: Global, known: &Known<'_>, text: &[u8]) -> Result<Vec<Note>, AllocError>
    ensures { IfOk result (λ notes. notes.items ≡ notes_of known.now text.now) }
{
    let mut found = Found::new(alloc);
    let mut lines = JoinedLines::new(text);
    let mut buffer = Vec::new(alloc);
    'lines: while let Some((number, line)) = lines.next_line(&mut buffer)? {
        add_line(alloc, known, &mut found, number, line.text(&buffer))?;
    }
    Ok(found.notes)
}
