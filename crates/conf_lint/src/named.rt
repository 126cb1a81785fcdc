//! What is noted of a line of a name, and of an alias.
ghost use Rattle.std.specs.Prelude.{◌≡◌, ◌<◌, ◌++◌, [], ◌∷◌, length, OnOk, Some};
ghost use Rattle.text_parts.specs.Text.{texts_of};
ghost use Rattle.dep_index.specs.Catalogue.{slot_named};
ghost use Rattle.alias_match.specs.Aliases.{alias_of};
ghost use Rattle.conf_lint.specs.Notes.{module_notes, named_notes, nameless_notes, note, softdep_notes, target_notes, with_setting, with_slot};

use crate::known::{Known, is_answered, is_command};
use crate::note::{Note, NoteKind};
use crate::setting::Setting;
use crate::words::{has_pattern, note_patterns, note_values};
use alias_match::Alias;
use indexmap::IndexSet;
use std::alloc::{AllocError, Global};
use text_parts::{Name, is_same};

/// A line of a name: its number, what it says, and the words behind the name.
#[derive(Clone, Copy)]
pub(crate) struct NamedLine<'w, 'a> {
    pub(crate) number: usize,
    pub(crate) setting: Setting,
    pub(crate) words: &'w [&'a [u8]],
}

/// What is found in lines: their notes, and the slots of the modules with a softdep line.
#[derive(Drop)]
pub(crate) struct Found {
    pub(crate) notes: Vec<Note>,
    pub(crate) softdeps: IndexSet<usize>,
}

impl Found {
    pub(crate) fn new(alloc: Global) -> Found
        ensures notes { result.notes.items ≡ [] }
        ensures softdeps { result.softdeps.keys ≡ [] }
    {
        Found {
            notes: Vec::new(alloc),
            softdeps: IndexSet::new(alloc),
        }
    }

    fn push(&mut self, number: usize, kind: NoteKind) -> Result<(), AllocError>
        ensures notes { OnOk result (self.new.notes.items ≡ self.old.notes.items ++ note number kind ∷ []) }
        ensures softdeps { self.new.softdeps ≡ self.old.softdeps }
    {
        self.notes.push(Note { number, kind })?;
        Ok(())
    }

    /// A line of a name that no module has.
    fn add_nameless(
        &mut self,
        alloc: Global,
        known: &Known<'_>,
        name: &[u8],
        line: &NamedLine<'_, '_>,
    ) -> Result<(), AllocError>
        ensures notes { OnOk result (self.new.notes.items ≡ self.old.notes.items
            ++ nameless_notes known.now line.now.number name.now line.now.setting (texts_of line.now.words.now)) }
        ensures softdeps { self.new.softdeps ≡ self.old.softdeps }
    {
        if has_pattern(name) {
            return self.push(line.number, NoteKind::PatternName);
        }
        if is_answered(alloc, known, name, line.setting, line.words)? {
            return Ok(());
        }
        self.push(line.number, NoteKind::UnknownName)
    }

    /// A softdep line of the module in the slot.
    fn add_softdep(
        &mut self,
        alloc: Global,
        slot: usize,
        line: &NamedLine<'_, '_>,
    ) -> Result<(), AllocError>
        ensures notes { OnOk result (self.new.notes.items ≡ self.old.notes.items
            ++ softdep_notes line.now.number self.old.softdeps.keys slot (texts_of line.now.words.now)) }
        ensures softdeps { OnOk result (self.new.softdeps.keys ≡ with_slot self.old.softdeps.keys slot) }
    {
        let is_first = self.softdeps.insert(slot)?;
        if is_first {
            note_patterns(alloc, line.number, line.words, &mut self.notes)
        } else {
            self.push(line.number, NoteKind::LaterSoftdep)
        }
    }

    /// A line of the module in the slot.
    fn add_of_module(
        &mut self,
        alloc: Global,
        known: &Known<'_>,
        slot: usize,
        line: &NamedLine<'_, '_>,
    ) -> Result<(), AllocError>
        requires { slot < length known.now.catalogue.now }
        ensures notes { OnOk result (self.new.notes.items ≡ self.old.notes.items
            ++ module_notes known.now line.now.number self.old.softdeps.keys slot line.now.setting (texts_of line.now.words.now)) }
        ensures softdeps { OnOk result (self.new.softdeps.keys
            ≡ with_setting self.old.softdeps.keys (Some slot) (Some line.now.setting)) }
    {
        match line.setting {
            Setting::Blacklist | Setting::Command => Ok(()),
            Setting::Options => note_values(
                alloc,
                known.catalogue,
                slot,
                line.number,
                line.words,
                &mut self.notes,
            ),
            Setting::Softdep => self.add_softdep(alloc, slot, line),
        }
    }

    /// A line of a name, in normal form.
    pub(crate) fn add_named(
        &mut self,
        alloc: Global,
        known: &Known<'_>,
        name: &[u8],
        line: &NamedLine<'_, '_>,
    ) -> Result<(), AllocError>
        ensures notes { OnOk result (self.new.notes.items ≡ self.old.notes.items
            ++ named_notes known.now line.now.number self.old.softdeps.keys name.now
            (slot_named known.now.catalogue.now name.now) line.now.setting (texts_of line.now.words.now)) }
        ensures softdeps { OnOk result (self.new.softdeps.keys ≡ with_setting self.old.softdeps.keys
            (slot_named known.now.catalogue.now name.now) (Some line.now.setting)) }
    {
        match known.catalogue.slot(name) {
            Some(slot) => self.add_of_module(alloc, known, slot, line),
            None => self.add_nameless(alloc, known, name, line),
        }
    }

    /// The words of an alias line.
    pub(crate) fn add_alias(
        &mut self,
        alloc: Global,
        known: &Known<'_>,
        number: usize,
        words: &[&[u8]],
    ) -> Result<(), AllocError>
        ensures notes { OnOk result (self.new.notes.items ≡ self.old.notes.items
            ++ target_notes known.now number (alias_of (texts_of words.now))) }
        ensures softdeps { self.new.softdeps ≡ self.old.softdeps }
    {
        let Some(alias) = Alias::read(alloc, words)? else {
            return Ok(());
        };
        let target = alias.target.as_bytes();
        let is_module = known.catalogue.slot(target).is_some();
        if is_same(target, b"off") || is_module || is_command(known, target) {
            return Ok(());
        }
        self.push(number, NoteKind::UnknownTarget)
    }
}
