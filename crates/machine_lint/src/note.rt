//! What is noted of a line.
ghost use Rattle.std.specs.Prelude.{◌≡◌};
ghost use Rattle.machine_lint.specs.Notes.{is_expected_of_packages};

use crate::setting::Setting;
use kmod_names::{Place, Text};

/// Why a line has no effect, or not the one that it seems to have.
#[derive(Drop)]
pub enum NoteKind {
    /// No kmod reads the line: its first word is unknown, or words are missing.
    BadLine,
    /// A carriage return ends the line, and counts as a part of its last word.
    CarriageReturn,
    /// No module has the name, no alias matches it, and no command is run for it.
    Unknown,
    /// The same, and the name is written as a pattern, which stands for itself here.
    Pattern,
    /// The name is that of a module in the kernel, or an alias of one. modprobe(8) does not load it.
    BuiltIn,
    /// The name is an alias alone, and the line counts for modules alone.
    AliasName,
    /// The alias leads to this name, and no module has it.
    UnknownModule(Text),
    /// No item stands in the softdep line: none of its words comes after `pre:` or `post:`.
    NoItem,
    /// Nothing answers to this item.
    UnknownItem(Text),
    /// An item is the line's own module.
    OwnItem,
    /// The softdep line of this item names the line's own module: a ring, in which kmod loses itself.
    RingItem(Text),
    /// The line at this place counts for the name.
    Later(Place),
    /// The softdep line at this place has the module loaded by its file: its install line does not count.
    PassedOver(Place),
    /// The same line stands at this place of the same file.
    Repeated(Place),
    /// The install line at this place runs `true` or `false` in place of a load.
    Stopped(Place),
    /// The module has no parameter of this name.
    UnknownParameter(Text),
    /// The line at this place sets the parameter of this name after it, to another value. It may be the same line.
    SetLater(Text, Place),
    /// The alias line at this place answers to the name first, and takes options by its own text alone, which is another one.
    OtherText(Place),
    /// No note has this kind, of which a comment says that it is not to be noted. `lint` gives none of these.
    UnknownKind,
}

impl NoteKind {
    /// Whether it is to be expected of a package's line, which is for whichever kernel is there: that no such module or
    /// parameter is there, that the module is in the kernel, or that people set another value or alias after it.
    pub(crate) fn is_expected_of_packages(&self) -> bool
        ensures { result ≡ is_expected_of_packages self.now }
    {
        matches!(
            self,
            NoteKind::Unknown
                | NoteKind::BuiltIn
                | NoteKind::AliasName
                | NoteKind::UnknownModule(_)
                | NoteKind::UnknownItem(_)
                | NoteKind::UnknownParameter(_)
                | NoteKind::SetLater(_, _)
                | NoteKind::OtherText(_)
        )
    }
}

/// A note of a line: where it stands, what it sets, its name in normal form, and what is noted. Of a bad line the name is its
/// first word, and the place that of its end.
#[derive(Drop)]
pub struct Note {
    pub place: Place,
    pub setting: Setting,
    pub name: Text,
    pub kind: NoteKind,
}
