//! Lines in the order of the texts, found by their names.
ghost use Rattle.std.specs.Prelude.{◌≡◌, ◌∷◌, ◌++◌, [], OnOk, OnErr};
ghost use Rattle.std.specs.List.{list_any};
ghost use Rattle.std.specs.Str.{bytes_eq};

use crate::line::Named;
use kmod_names::KeyPlaces;
use std::alloc::{AllocError, Global};
use std::marker::Model;

/// Lines with names in the order of the texts, found by a hash of their names.
#[derive(Drop)]
pub(crate) struct NamedLines<L: Named> {
    pub(crate) lines: Vec<L>,
    pub(crate) places: KeyPlaces,
}

impl<L: Named> Model for NamedLines<L> {
    ghost use Rattle.std.specs.Prelude.{List, map};
    ghost use Rattle.kmod_names.specs.Places.{ArePlaces};

    ghost Value = { List L };

    ghost view = { λ l. l.lines.items };

    ghost invariant = { λ l. ArePlaces l.places (map L.name l.lines.items) };
}

impl<L: Named> NamedLines<L> {
    pub(crate) fn new(alloc: Global) -> NamedLines<L>
        ensures { result ≡ [] }
    {
        NamedLines {
            lines: Vec::new(alloc),
            places: KeyPlaces::new(alloc),
        }
    }

    /// Adds a line after the others. If memory runs out the list stays as it was.
    pub(crate) fn push(&mut self, alloc: Global, line: L) -> Result<(), AllocError>
        ensures ok { OnOk result (self.new ≡ self.old ++ line ∷ []) }
        ensures err { OnErr result (self.new ≡ self.old) }
    {
        self.lines.reserve(1)?;
        self.places.add(alloc, line.name(), self.lines.len())?;
        self.lines.push(line)?;
        Ok(())
    }

    pub(crate) fn lines(&self) -> &[L]
        ensures { result.now ≡ self.now }
    {
        &self.lines
    }

    /// Whether some line has just this name.
    pub(crate) fn has(&self, name: &[u8]) -> bool
        ensures { result ≡ list_any (λ line. bytes_eq (L.name line) name.now) self.now }
    {
        !self.places.of(name).is_empty()
    }
}
