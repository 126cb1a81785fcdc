//! Notes of lines that have no effect, or not the one that they seem to have.
ghost use Rattle.std.specs.Prelude.{◌≡◌, ◌++◌, IfOk, OnOk};
ghost use Rattle.std.specs.List.{list_any};
ghost use Rattle.answer_facts.specs.Pieces.{piece_of, pieces_of};
ghost use Rattle.answer_facts.specs.NoteFacts.{because, built_in_words, counting_pieces, counting_place, hyphen_words, is_hyphen, line_word, named_piece, note_fact_pieces, space_behind, severity, unknown_because, unknown_words, words_after, words_before};

use crate::piece::Piece;
use kmod_names::Place;
use machine_lint::{Note, NoteKind, Setting};
use std::alloc::{AllocError, Global};

/// A note of a line of a file.
#[derive(Clone, Copy)]
pub struct NoteFact<'a> {
    pub note: &'a Note,
    /// The file of the line that counts in its place; empty if the note names none.
    pub other: &'a [u8],
}

/// The place of the line that counts in place of the one that is noted, if the note names it.
pub fn counting_place(kind: &NoteKind) -> Option<Place>
    ensures { result ≡ counting_place kind.now }
{
    match kind {
        NoteKind::Later(place) => Some(*place),
        NoteKind::PassedOver(place) => Some(*place),
        NoteKind::Repeated(place) => Some(*place),
        NoteKind::Stopped(place) => Some(*place),
        NoteKind::SetLater(_, place) => Some(*place),
        NoteKind::OtherText(place) => Some(*place),
        _ => None,
    }
}

/// The first word of a line; that of a bad line stands for its name.
fn line_word(setting: Setting) -> &'static [u8]
    ensures { result.now ≡ line_word setting }
{
    match setting {
        Setting::Alias => b"alias",
        Setting::Blacklist => b"blacklist",
        Setting::Options => b"options",
        Setting::Install => b"install",
        Setting::Remove => b"remove",
        Setting::Softdep => b"softdep",
        Setting::Weakdep => b"weakdep",
        Setting::Bad => b"",
    }
}

/// What divides a word from the name behind it.
fn space_behind(word: &[u8]) -> &'static [u8]
    ensures { result.now ≡ space_behind word.now }
{
    if word.is_empty() { b"" } else { b" " }
}

/// Why a line of a name that nothing has has no effect, in JSON.
fn unknown_because(setting: Setting) -> &'static [u8]
    ensures { result.now ≡ unknown_because setting }
{
    match setting {
        Setting::Install | Setting::Remove => b"keeps_nothing",
        _ => b"unknown",
    }
}

/// The kind of a note: why the line has no effect, in JSON.
pub fn because(setting: Setting, kind: &NoteKind) -> &'static [u8]
    ensures { result.now ≡ because setting kind.now }
{
    match kind {
        NoteKind::BadLine => b"bad_line",
        NoteKind::CarriageReturn => b"carriage_return",
        NoteKind::Unknown => unknown_because(setting),
        NoteKind::Pattern => b"pattern",
        NoteKind::BuiltIn => b"built_in",
        NoteKind::AliasName => b"alias",
        NoteKind::UnknownModule(_) => b"unknown_module",
        NoteKind::NoItem => b"no_item",
        NoteKind::UnknownItem(_) => b"unknown_item",
        NoteKind::OwnItem => b"itself",
        NoteKind::RingItem(_) => b"ring",
        NoteKind::Later(_) => b"later",
        NoteKind::PassedOver(_) => b"passed_over",
        NoteKind::Repeated(_) => b"repeated",
        NoteKind::Stopped(_) => b"stopped",
        NoteKind::UnknownParameter(_) => b"unknown_parameter",
        NoteKind::SetLater(_, _) => b"set_later",
        NoteKind::OtherText(_) => b"other_text",
        NoteKind::UnknownKind => b"unknown_kind",
    }
}

/// How grave a note is, in JSON: that of a line without effect on this machine, or of one that does other than it says.
fn severity(kind: &NoteKind) -> &'static [u8]
    ensures { result.now ≡ severity kind.now }
{
    match kind {
        NoteKind::Unknown
        | NoteKind::BuiltIn
        | NoteKind::UnknownModule(_)
        | NoteKind::UnknownItem(_)
        | NoteKind::Repeated(_) => b"note",
        _ => b"error",
    }
}

/// Why a line of a module in the kernel has no effect.
fn built_in_words(setting: Setting) -> &'static [u8]
    ensures { result.now ≡ built_in_words setting }
{
    match setting {
        Setting::Options =>
            b"the module is in the kernel, which takes its options from its command line alone",
        _ => b"the module is in the kernel, and is not loaded",
    }
}

/// Why a line of a name that nothing has does nothing. The name of an install or remove line is that of a command itself.
fn unknown_words(setting: Setting) -> &'static [u8]
    ensures { result.now ≡ unknown_words setting }
{
    match setting {
        Setting::Install | Setting::Remove =>
            b"no module or alias has this name, so there is nothing to keep out",
        _ => b"no module, alias or command has this name",
    }
}

fn is_hyphen(byte: u8) -> bool
    ensures { result ≡ is_hyphen byte }
{
    byte == b'-'
}

fn has_hyphen(name: &[u8]) -> bool
    ensures { result ≡ list_any is_hyphen name.now }
{
    name.iter().any(|byte| is_hyphen(*byte))
}

/// What is said of a name with a hyphen, which only the kernel's command line has outside `[..]`.
fn hyphen_words(name: &[u8]) -> &'static [u8]
    ensures { result.now ≡ hyphen_words name.now }
{
    if has_hyphen(name) {
        b", as a - stands for itself here"
    } else {
        b""
    }
}

/// What is said before the name of something else.
fn words_before(setting: Setting, kind: &NoteKind) -> &'static [u8]
    ensures { result.now ≡ words_before setting kind.now }
{
    match kind {
        NoteKind::BadLine => b"no line of this form is read",
        NoteKind::CarriageReturn => b"a CR ends the line, and counts as a part of its last word",
        NoteKind::Unknown => unknown_words(setting),
        NoteKind::Pattern => b"no pattern is read here, and nothing has this name",
        NoteKind::BuiltIn => built_in_words(setting),
        NoteKind::AliasName => b"it names an alias, and such lines count for modules alone",
        NoteKind::UnknownModule(_) => b"it leads to ",
        NoteKind::NoItem => b"no item stands after pre: or post:",
        NoteKind::UnknownItem(_) => b"nothing answers to ",
        NoteKind::OwnItem => b"it names itself",
        NoteKind::RingItem(_) => b"a ring: the softdep line of ",
        NoteKind::Later(_) => b"does not count, since this line comes first: ",
        NoteKind::PassedOver(_) =>
            b"does not count, since this line gives the module soft dependencies: ",
        NoteKind::Repeated(_) => b"the same line stands before it: ",
        NoteKind::Stopped(_) => b"not used, since this install line loads nothing: ",
        NoteKind::UnknownParameter(_) => b"the module has no parameter ",
        NoteKind::SetLater(_, _) => b"",
        NoteKind::OtherText(_) =>
            b"does not count, since this alias takes options by its own text alone: ",
        NoteKind::UnknownKind => b"no note has this kind",
    }
}

/// The name of something else that is noted.
fn named_piece<'a>(kind: &'a NoteKind) -> Piece<'a>
    ensures { piece_of result ≡ named_piece kind.entry.now }
{
    match kind {
        NoteKind::UnknownModule(target) => Piece::Field(b"target", target.as_bytes()),
        NoteKind::UnknownItem(item) => Piece::Field(b"item", item.as_bytes()),
        NoteKind::RingItem(item) => Piece::Field(b"item", item.as_bytes()),
        NoteKind::UnknownParameter(name) => Piece::Field(b"parameter", name.as_bytes()),
        NoteKind::SetLater(name, _) => Piece::Field(b"parameter", name.as_bytes()),
        _ => Piece::Words(b""),
    }
}

/// What is said behind it.
fn words_after(name: &[u8], kind: &NoteKind) -> &'static [u8]
    ensures { result.now ≡ words_after name.now kind.now }
{
    match kind {
        NoteKind::Unknown => hyphen_words(name),
        NoteKind::UnknownModule(_) => b", and no module has that name",
        NoteKind::RingItem(_) => b" names it back",
        NoteKind::SetLater(_, _) => b" does not count, since this line sets it later: ",
        _ => b"",
    }
}

impl<'a> NoteFact<'a> {
    /// Adds where the line stands that counts in its place, if the note names it.
    fn push_counting(self, pieces: &mut Vec<Piece<'a>>) -> Result<(), AllocError>
        ensures { OnOk result (pieces_of pieces.new.items ≡ pieces_of pieces.old.items ++ counting_pieces self.entry.other.now (counting_place self.entry.note.now.kind)) }
    {
        match counting_place(&self.note.kind) {
            Some(place) => pieces.extend_from_slice(&[
                Piece::Field(b"by_file", self.other),
                Piece::Words(b":"),
                Piece::Number(b"by_line", place.line as u64),
            ]),
            None => Ok(()),
        }
    }

    /// What is said, of a line of this file.
    pub(crate) fn pieces(self, alloc: Global, file: &'a [u8]) -> Result<Vec<Piece<'a>>, AllocError>
        ensures { IfOk result (λ pieces. pieces_of pieces.items ≡ note_fact_pieces file.entry.now self.entry) }
    {
        let note = self.note;
        let word = line_word(note.setting);
        let mut pieces = Vec::from_slice(
            alloc,
            &[
                Piece::Kind(b"note"),
                Piece::Field(b"file", file),
                Piece::Words(b":"),
                Piece::Number(b"line", note.place.line as u64),
                Piece::Words(b": "),
                Piece::Words(word),
                Piece::Words(space_behind(word)),
                Piece::Field(b"name", note.name.as_bytes()),
                Piece::Words(b": "),
                Piece::Tag(b"setting", word),
                Piece::Tag(b"because", because(note.setting, &note.kind)),
                Piece::Tag(b"severity", severity(&note.kind)),
                Piece::Words(words_before(note.setting, &note.kind)),
                named_piece(&note.kind),
                Piece::Words(words_after(note.name.as_bytes(), &note.kind)),
            ],
        )?;
        self.push_counting(&mut pieces)?;
        Ok(pieces)
    }
}
