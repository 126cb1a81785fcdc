//! Comments that name what is no kind of notes.
ghost use Rattle.std.specs.Prelude.{◌≡◌, ◌++◌, filter, map, IfOk, OnOk};
ghost use Rattle.text_parts.specs.Text.{texts_of};
ghost use Rattle.lint_ignores.specs.Ignores.{comment_unknown, is_no_kind, text_unknown, unknown_at};

use crate::comments::kinds_of;
use crate::kinds::is_kind;
use kmod_names::{Place, Text};
use machine_lint::{Note, NoteKind, Setting};
use std::alloc::{AllocError, Global};
use text_parts::whole_lines;

fn unknown_at(alloc: Global, source: usize, number: usize, word: &[u8]) -> Result<Note, AllocError>
    ensures { IfOk result (λ note. note ≡ unknown_at source number word.now) }
{
    Ok(Note {
        place: Place {
            source,
            line: number,
        },
        setting: Setting::Bad,
        name: Text::new(alloc, word)?,
        kind: NoteKind::UnknownKind,
    })
}

fn add_words(
    alloc: Global,
    notes: &mut Vec<Note>,
    source: usize,
    number: usize,
    words: &[&[u8]],
) -> Result<(), AllocError>
    ensures { OnOk result (notes.new.items ≡ notes.old.items ++ map (unknown_at source number) (filter is_no_kind (texts_of words.now))) }
{
    for word in words {
        if !is_kind(*word) {
            notes.push(unknown_at(alloc, source, number, *word)?)?;
        }
    }
    Ok(())
}

fn add_line(
    alloc: Global,
    notes: &mut Vec<Note>,
    source: usize,
    number: usize,
    line: &[u8],
) -> Result<(), AllocError>
    ensures { OnOk result (notes.new.items ≡ notes.old.items ++ comment_unknown source (number, line.now)) }
{
    let kinds = kinds_of(alloc, line)?;
    add_words(alloc, notes, source, number, &kinds)
}

/// Adds a note for each word of a comment `# gz-lint: ignore KIND ..` of a text of the configuration that is no kind.
/// `source` is the number of the text. It fails only if memory runs out.
pub fn add_unknown(
    alloc: Global,
    notes: &mut Vec<Note>,
    source: usize,
    text: &[u8],
) -> Result<(), AllocError>
    ensures { OnOk result (notes.new.items ≡ notes.old.items ++ text_unknown source text.now) }
{
    let mut lines = whole_lines(text);
    let mut number = 1usize;
    'lines: while let Some(line) = lines.next() {
        add_line(alloc, notes, source, number, line)?;
        number += 1;
    }
    Ok(())
}
