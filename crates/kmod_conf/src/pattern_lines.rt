//! Lines with names that are patterns, and those that concern a module.
ghost use Rattle.std.specs.Prelude.{◌≡◌, ◌∷◌, ◌++◌, [], filter, map, IfOk, OnOk, OnErr, option_copied, slice_get};
ghost use Rattle.std.specs.List.{filter_map, find, list_any};
ghost use Rattle.std.specs.Str.{bytes_eq};
ghost use Rattle.kmod_names.specs.Patterns.{matches_pattern};

use crate::line::Named;
use kmod_names::PatternList;
use std::alloc::{AllocError, Global};
use std::marker::Model;

/// Lines in the order of the texts, with their names as patterns.
#[derive(Drop)]
pub(crate) struct PatternLines<L: Named> {
    lines: Vec<L>,
    names: PatternList,
}

impl<L: Named> Model for PatternLines<L> {
    ghost use Rattle.std.specs.Prelude.{◌≡◌, List, map};

    ghost Value = { List L };

    ghost view = { λ l. l.lines.items };

    ghost invariant = { λ l. l.names ≡ map L.name l.lines.items };
}

/// The line at a place, None past the last.
fn line_at<L>(lines: &[L], place: usize) -> Option<&L>
    ensures { option_copied result ≡ slice_get lines.entry.now place }
{
    lines.get(place)
}

/// The lines at the places.
fn lines_at<'a, L>(
    alloc: Global,
    lines: &'a [L],
    places: &[usize],
) -> Result<Vec<&'a L>, AllocError>
    ensures { IfOk result (λ found. map (λ line. line.now) found.items ≡ filter_map (slice_get lines.entry.now) places.now) }
{
    let mut found = Vec::new(alloc);
    for place in places {
        if let Some(line) = line_at(lines, *place) {
            found.push(line)?;
        }
    }
    Ok(found)
}

impl<L: Named> PatternLines<L> {
    pub(crate) fn new(alloc: Global) -> PatternLines<L>
        ensures { result ≡ [] }
    {
        PatternLines {
            lines: Vec::new(alloc),
            names: PatternList::new(alloc),
        }
    }

    /// Adds a line after the others. If memory runs out the list stays as it was.
    pub(crate) fn push(&mut self, alloc: Global, line: L) -> Result<(), AllocError>
        ensures ok { OnOk result (self.new ≡ self.old ++ line ∷ []) }
        ensures err { OnErr result (self.new ≡ self.old) }
    {
        self.lines.reserve(1)?;
        self.names.push(alloc, line.name())?;
        self.lines.push(line)?;
        Ok(())
    }

    pub(crate) fn lines(&self) -> &[L]
        ensures { result.now ≡ self.now }
    {
        &self.lines
    }

    /// The lines whose names, as patterns, match, in order.
    pub(crate) fn matching(&self, alloc: Global, name: &[u8]) -> Result<Vec<&L>, AllocError>
        ensures { IfOk result (λ found. map (λ line. line.now) found.items ≡ filter (λ own. matches_pattern (L.name own) name.now) self.now) }
    {
        let places = self.names.places(alloc, name)?;
        lines_at(alloc, &self.lines, &places)
    }

    /// The first line whose name, as a pattern, matches.
    pub(crate) fn first(&self, alloc: Global, name: &[u8]) -> Result<Option<&L>, AllocError>
        ensures { IfOk result (λ line. option_copied line ≡ find (λ own. matches_pattern (L.name own) name.now) self.now) }
    {
        match self.names.first(alloc, name)? {
            Some(place) => Ok(line_at(&self.lines, place)),
            None => Ok(None),
        }
    }

    /// The first line that has just this name.
    pub(crate) fn named(&self, name: &[u8]) -> Option<&L>
        ensures { option_copied result ≡ find (λ line. bytes_eq (L.name line) name.now) self.now }
    {
        match self.names.place_named(name) {
            Some(place) => line_at(&self.lines, place),
            None => None,
        }
    }

    /// Whether some line has just this name.
    pub(crate) fn has_named(&self, name: &[u8]) -> bool
        ensures { result ≡ list_any (λ line. bytes_eq (L.name line) name.now) self.now }
    {
        self.names.has(name)
    }
}
