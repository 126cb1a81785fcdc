//! The notes of a machine's configuration.
ghost use Rattle.std.specs.Prelude.{◌≡◌, ◌++◌, option_map, IfOk, IsPermutation, OnOk};
ghost use Rattle.std.specs.List.{filter_map, flat_map};
ghost use Rattle.std.specs.Option.{option_to_list};
ghost use Rattle.machine_lint.specs.Notes.{due, facts_by, item_note, line_notes, note_with, notes_by, notes_of, word_note};
ghost use Rattle.machine_lint.specs.Options.{option_words, words_of};

use crate::judge::Judge;
use crate::known::{Known, Origin};
use crate::line::Line;
use crate::lines::lines_of;
use crate::note::{Note, NoteKind};
use crate::options::{OptionWord, option_words, words_of};
use kmod_names::Text;
use std::alloc::{AllocError, Global};

/// What is noted, unless it is to be expected of a package's line.
fn due(origin: Origin, kind: Option<NoteKind>) -> Option<NoteKind>
    ensures { result ≡ due origin kind }
{
    let is_expected = match &kind {
        Some(kind) => origin.is_package() && kind.is_expected_of_packages(),
        None => false,
    };
    if is_expected { None } else { kind }
}

/// A note of a line, if anything is noted.
fn note_with(alloc: Global, line: &Line, kind: Option<NoteKind>) -> Result<Option<Note>, AllocError>
    ensures { IfOk result (λ note. note ≡ option_map (note_with line.now) kind) }
{
    let Some(kind) = kind else {
        return Ok(None);
    };
    Ok(Some(Note {
        place: line.place(),
        setting: line.setting(),
        name: Text::new(alloc, line.name())?,
        kind,
    }))
}

/// Adds a note, if there is one.
fn push(notes: &mut Vec<Note>, note: Option<Note>) -> Result<(), AllocError>
    ensures { OnOk result (notes.new.items ≡ notes.old.items ++ option_to_list note) }
{
    if let Some(note) = note {
        notes.push(note)?;
    }
    Ok(())
}

impl Judge<'_> {
    /// The note of an item of a line.
    fn item_note(
        &self,
        alloc: Global,
        origin: Origin,
        line: &Line,
        item: &[u8],
    ) -> Result<Option<Note>, AllocError>
        ensures { IfOk result (λ note. note ≡ item_note (facts_by self.now) origin line.now item.now) }
    {
        let kind = self.item_kind(alloc, line, item)?;
        note_with(alloc, line, due(origin, kind))
    }

    /// Adds the notes of a line's items.
    fn add_items(
        &self,
        alloc: Global,
        origin: Origin,
        line: &Line,
        notes: &mut Vec<Note>,
    ) -> Result<(), AllocError>
        ensures { OnOk result (notes.new.items ≡ notes.old.items ++ filter_map (item_note (facts_by self.now) origin line.now) line.now.items) }
    {
        let items = line.items();
        for item in items {
            let note = self.item_note(alloc, origin, line, item.as_bytes())?;
            push(notes, note)?;
        }
        Ok(())
    }

    /// The note of a word of an options line, by the words of all lines of its name.
    fn word_note(
        &self,
        alloc: Global,
        origin: Origin,
        line: &Line,
        words: &[OptionWord],
        word: &[u8],
    ) -> Result<Option<Note>, AllocError>
        ensures { IfOk result (λ note. note ≡ word_note (facts_by self.now) origin line.now words.now word.now) }
    {
        let kind = self.word_kind(alloc, line, words, word)?;
        note_with(alloc, line, due(origin, kind))
    }

    /// Adds the notes of an options line's words.
    fn add_words(
        &self,
        alloc: Global,
        origin: Origin,
        line: &Line,
        notes: &mut Vec<Note>,
    ) -> Result<(), AllocError>
        ensures { OnOk result (notes.new.items ≡ notes.old.items ++ filter_map (word_note (facts_by self.now) origin line.now (words_of line.now.name self.now.conf.now)) (option_words line.now.text)) }
    {
        let all = words_of(alloc, line.name(), self.conf)?;
        let words = option_words(alloc, line.text())?;
        for word in &words {
            let note = self.word_note(alloc, origin, line, &all, word.as_bytes())?;
            push(notes, note)?;
        }
        Ok(())
    }

    /// Adds the notes of a line, unless depmod wrote it.
    fn add_line(
        &self,
        alloc: Global,
        origin: Origin,
        line: &Line,
        notes: &mut Vec<Note>,
    ) -> Result<(), AllocError>
        ensures { OnOk result (notes.new.items ≡ notes.old.items ++ notes_by (facts_by self.now) origin line.now) }
    {
        if origin.is_depmod() {
            return Ok(());
        }
        let kind = self.kind_of(alloc, origin, line)?;
        let sets_parameters = line.setting().is_options() && kind.is_none();
        let note = note_with(alloc, line, due(origin, kind))?;
        push(notes, note)?;
        self.add_items(alloc, origin, line, notes)?;
        if sets_parameters {
            self.add_words(alloc, origin, line, notes)
        } else {
            Ok(())
        }
    }

    /// The notes of all lines.
    fn notes(&self, alloc: Global, known: &Known<'_>) -> Result<Vec<Note>, AllocError>
        ensures { IfOk result (λ notes. notes.items ≡ flat_map (line_notes known.now.files.now (facts_by self.now)) self.now.lines.now) }
    {
        let mut notes = Vec::new(alloc);
        let lines = self.lines;
        for line in lines {
            let origin = known.origin_at(line.place().source);
            self.add_line(alloc, origin, line, &mut notes)?;
        }
        Ok(notes)
    }
}

/// The notes of a machine's configuration, in the order of its files and their lines: of each line that modprobe(8) does not
/// read or that has no effect on this machine, of each item of a softdep or weakdep line that has none, of each word of an
/// options line whose parameter the module does not have or has another value in the end, and of nothing else. Lines of
/// depmod have none. Lines of packages have none that no such module or parameter is there, that the module is in the
/// kernel, or that the parameter is set again. It fails only out of memory.
#[tactic(auto, unfolding(crate::specs::Notes::notes_of))]
pub fn lint(alloc: Global, known: &Known<'_>) -> Result<Vec<Note>, AllocError>
    ensures { IfOk result (λ notes. IsPermutation (notes_of known.now) notes.items) }
{
    let lines = lines_of(alloc, known.conf)?;
    let judge = Judge {
        conf: known.conf,
        index: known.index,
        parameters: known.parameters,
        lines: &lines,
    };
    let mut notes = judge.notes(alloc, known)?;
    notes.sort_by_key(|note| (note.place.source, note.place.line))?;
    Ok(notes)
}
