//! What lines say, with their places.
ghost use Rattle.std.specs.Prelude.{◌≡◌, ℕ, List};

use crate::softdep::{SoftItems, WeakItems};
use kmod_names::{AliasEntry, Place, Text};

/// A name, as a blacklist line has it; or the first word of a bad line, and the place of its end.
#[derive(Drop)]
pub struct NameLine {
    pub name: Text,
    pub place: Place,
}

/// A name, and the text after it: options, with blanks for tabs, or the command of an install or a remove line as it stands.
#[derive(Drop)]
pub struct TextLine {
    pub name: Text,
    pub text: Text,
    pub place: Place,
}

/// A name, and what is loaded before and after it.
#[derive(Drop)]
pub struct SoftdepLine {
    pub name: Text,
    pub items: SoftItems,
    pub place: Place,
}

/// A name, and what may be used while it is loaded, in the order of the line.
#[derive(Drop)]
pub struct WeakdepLine {
    pub name: Text,
    pub items: WeakItems,
    pub place: Place,
}

/// A line that has a name.
pub(crate) trait Named: Drop {
    ghost name: { Self → List ℕ };

    fn name(&self) -> &[u8]
        ensures { result.now ≡ name self.now };
}

/// An alias is found by its pattern.
impl Named for AliasEntry {
    ghost name = { λ line. line.pattern };

    fn name(&self) -> &[u8] {
        self.pattern.as_bytes()
    }
}

impl Named for NameLine {
    ghost name = { λ line. line.name };

    fn name(&self) -> &[u8] {
        self.name.as_bytes()
    }
}

impl Named for TextLine {
    ghost name = { λ line. line.name };

    fn name(&self) -> &[u8] {
        self.name.as_bytes()
    }
}

impl Named for SoftdepLine {
    ghost name = { λ line. line.name };

    fn name(&self) -> &[u8] {
        self.name.as_bytes()
    }
}
