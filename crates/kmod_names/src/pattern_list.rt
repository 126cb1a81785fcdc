//! Patterns in order, and those that match a text.
ghost use Rattle.std.specs.Prelude.{◌≡◌, ◌∷◌, ◌++◌, [], codes, false, option_map, slice_get, true, IfOk, OnOk, OnErr};
ghost use Rattle.std.specs.List.{filter_map, list_any};
ghost use Rattle.std.specs.Result.{result_ok};
ghost use Rattle.std.specs.Str.{bytes_eq};
ghost use Rattle.alias_match.specs.Reading.{pattern_of};
ghost use Rattle.kmod_names.specs.Patterns.{IsReadAs, MatchesNothing, first_pattern, pattern_places, place_named};
ghost use Rattle.kmod_names.specs.ForProofs.{is_literal, is_special};

use crate::key_places::{KeyPlaces, merged};
use crate::text::Text;
use alias_match::{Alias, AliasList};
use std::alloc::{AllocError, Global};
use std::marker::Model;
use text_parts::is_same;

/// Patterns in order, given as their texts. Those that match a text are found fast: literal ones by a hash of the whole text,
/// the others by eight of their bytes (`AliasList`). A pattern that cannot be read is kept, and matches nothing. Contracts see
/// the list of the texts.
pub struct PatternList {
    patterns: Vec<Text>,
    literals: KeyPlaces,
    others: AliasList,
    other_places: Vec<usize>,
}

// By hand, since a derived drop is written out, and proved, at each place where a value is let go.
impl Drop for PatternList {
    fn drop(self) {
        let PatternList {
            patterns: _,
            literals: _,
            others: _,
            other_places: _,
        } = self;
    }
}

impl Model for PatternList {
    ghost use Rattle.std.specs.Prelude.{ℕ, List};
    ghost use Rattle.kmod_names.specs.ForProofs.{FindsEach};

    ghost Value = { List (List ℕ) };

    ghost view = { λ l. l.patterns.items };

    ghost invariant = { λ l. FindsEach l.patterns.items l.literals l.others l.other_places.items };
}

/// Whether a byte of a pattern may stand for another byte than itself.
fn is_special(byte: u8) -> bool
    ensures { result ≡ is_special byte }
{
    matches!(byte, b'*' | b'-' | b'?' | b'[' | b'\\')
}

fn has_special(pattern: &[u8]) -> bool
    ensures { result ≡ list_any is_special pattern.now }
{
    pattern.iter().any(|byte| is_special(*byte))
}

/// Whether each byte of a pattern stands for itself.
fn is_literal(pattern: &[u8]) -> bool
    ensures { result ≡ is_literal pattern.now }
{
    !has_special(pattern)
}

/// The item at a place, None past the last.
fn item_at(items: &[usize], place: usize) -> Option<usize>
    ensures { result ≡ slice_get items.now place }
{
    items.get(place).copied()
}

/// What stands at the places.
fn items_at(alloc: Global, items: &[usize], places: &[usize]) -> Result<Vec<usize>, AllocError>
    ensures { IfOk result (λ found. found.items ≡ filter_map (slice_get items.now) places.now) }
{
    let mut found = Vec::new(alloc);
    for place in places {
        if let Some(item) = item_at(items, *place) {
            found.push(item)?;
        }
    }
    Ok(found)
}

/// The alias of a pattern, None if the pattern cannot be read.
fn read_alias(alloc: Global, pattern: &[u8]) -> Result<Option<Alias>, AllocError>
    ensures { IfOk result (λ found. option_map (λ alias. alias.pattern) found ≡ result_ok (pattern_of pattern.now)) }
{
    Alias::read(alloc, &[b"alias", pattern, b""])
}

/// The alias of a set without members, which no text matches.
fn no_match(alloc: Global) -> Result<Alias, AllocError>
    ensures { IfOk result (λ alias. MatchesNothing alias.pattern) }
{
    match read_alias(alloc, b"[b-a]")? {
        Some(alias) => Ok(alias),
        None => unreachable!(),
    }
}

/// An alias whose pattern matches as the text does, also if the text cannot be read.
fn alias_for(alloc: Global, pattern: &[u8]) -> Result<Alias, AllocError>
    ensures { IfOk result (λ alias. IsReadAs pattern.now alias.pattern) }
{
    match read_alias(alloc, pattern)? {
        Some(alias) => Ok(alias),
        None => no_match(alloc),
    }
}

impl PatternList {
    pub fn new(alloc: Global) -> PatternList
        ensures { result ≡ [] }
    {
        PatternList {
            patterns: Vec::new(alloc),
            literals: KeyPlaces::new(alloc),
            others: AliasList::new(alloc),
            other_places: Vec::new(alloc),
        }
    }

    fn push_literal(&mut self, alloc: Global, pattern: &[u8]) -> Result<(), AllocError>
        requires { is_literal pattern.now ≡ true }
        ensures ok { OnOk result (self.new ≡ self.old ++ pattern.now ∷ []) }
        ensures err { OnErr result (self.new ≡ self.old) }
    {
        self.patterns.reserve(1)?;
        let own = Text::new(alloc, pattern)?;
        self.literals.add(alloc, pattern, self.patterns.len())?;
        self.patterns.push(own)?;
        Ok(())
    }

    fn push_other(&mut self, alloc: Global, pattern: &[u8]) -> Result<(), AllocError>
        requires { is_literal pattern.now ≡ false }
        ensures ok { OnOk result (self.new ≡ self.old ++ pattern.now ∷ []) }
        ensures err { OnErr result (self.new ≡ self.old) }
    {
        self.patterns.reserve(1)?;
        self.other_places.reserve(1)?;
        let own = Text::new(alloc, pattern)?;
        let alias = alias_for(alloc, pattern)?;
        self.others.push(alloc, alias)?;
        self.other_places.push(self.patterns.len())?;
        self.patterns.push(own)?;
        Ok(())
    }

    /// Adds a pattern after the others. If memory runs out the list stays as it was.
    pub fn push(&mut self, alloc: Global, pattern: &[u8]) -> Result<(), AllocError>
        ensures ok { OnOk result (self.new ≡ self.old ++ pattern.now ∷ []) }
        ensures err { OnErr result (self.new ≡ self.old) }
    {
        if is_literal(pattern) {
            self.push_literal(alloc, pattern)
        } else {
            self.push_other(alloc, pattern)
        }
    }

    /// Whether some pattern has just this text.
    pub fn has(&self, pattern: &[u8]) -> bool
        ensures { result ≡ list_any (λ own. bytes_eq own pattern.now) self.now }
    {
        if is_literal(pattern) {
            !self.literals.of(pattern).is_empty()
        } else {
            self.patterns
                .iter()
                .any(|own| is_same(own.as_bytes(), pattern))
        }
    }

    /// The place, from 0, of the first pattern that has just this text.
    pub fn place_named(&self, pattern: &[u8]) -> Option<usize>
        ensures { result ≡ place_named self.now pattern.now }
    {
        if is_literal(pattern) {
            self.literals.of(pattern).first().copied()
        } else {
            self.patterns
                .iter()
                .position(|own| is_same(own.as_bytes(), pattern))
        }
    }

    /// The places, from 0, of the patterns that match the text, in rising order. It fails only if memory runs out.
    pub fn places(&self, alloc: Global, text: &[u8]) -> Result<Vec<usize>, AllocError>
        ensures { IfOk result (λ places. places.items ≡ pattern_places self.now text.now) }
    {
        let others = self.others.matching_places(alloc, text)?;
        let places = items_at(alloc, &self.other_places, &others)?;
        merged(alloc, self.literals.of(text), &places)
    }

    /// The place of the first pattern that matches the text. It fails only if memory runs out.
    pub fn first(&self, alloc: Global, text: &[u8]) -> Result<Option<usize>, AllocError>
        ensures { IfOk result (λ place. place ≡ first_pattern self.now text.now) }
    {
        let places = self.places(alloc, text)?;
        Ok(places.first().copied())
    }
}
