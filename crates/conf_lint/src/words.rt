//! What is noted of the words behind a module's name.
ghost use Rattle.std.specs.Prelude.{◌≡◌, ◌<◌, ◌++◌, length, OnOk};
ghost use Rattle.text_parts.specs.Text.{texts_of};
ghost use Rattle.dep_index.specs.Catalogue.{description_at};
ghost use Rattle.conf_lint.specs.Notes.{has_pattern, pattern_notes, value_notes};

use crate::note::{Note, NoteKind};
use dep_index::Catalogue;
use load_plan::params_valid;
use modprobe_conf::Word;
use std::alloc::{AllocError, Global};

/// Whether a word has a byte that makes a shell pattern of it.
pub(crate) fn has_pattern(word: &[u8]) -> bool
    ensures { result ≡ has_pattern word.now }
{
    word.iter()
        .any(|byte| *byte == b'*' || *byte == b'?' || *byte == b'[')
}

/// Notes the words of an options line that the module in the slot refuses.
pub(crate) fn note_values(
    alloc: Global,
    catalogue: &Catalogue,
    slot: usize,
    number: usize,
    words: &[&[u8]],
    notes: &mut Vec<Note>,
) -> Result<(), AllocError>
    requires { slot < length catalogue.now }
    ensures { OnOk result (notes.new.items
        ≡ notes.old.items ++ value_notes number (description_at catalogue.now slot).params (texts_of words.now)) }
{
    for word in words {
        if !params_valid(catalogue, slot, &[word]) {
            let kind = NoteKind::RefusedValue(Word::new(alloc, word)?);
            notes.push(Note { number, kind })?;
        }
    }
    Ok(())
}

/// Notes the words of a softdep line that are written as patterns.
pub(crate) fn note_patterns(
    alloc: Global,
    number: usize,
    words: &[&[u8]],
    notes: &mut Vec<Note>,
) -> Result<(), AllocError>
    ensures { OnOk result (notes.new.items ≡ notes.old.items ++ pattern_notes number (texts_of words.now)) }
{
    for word in words {
        if has_pattern(word) {
            let kind = NoteKind::PatternItem(Word::new(alloc, word)?);
            notes.push(Note { number, kind })?;
        }
    }
    Ok(())
}
