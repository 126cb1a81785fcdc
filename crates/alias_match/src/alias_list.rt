//! Aliases in the order of their lines, and those that match a text.
ghost use Rattle.std.specs.Prelude.{◌≡◌, ◌<◌, suc, ◌∷◌, ◌++◌, [], filter, length, map, slice_get};
ghost use Rattle.std.specs.Prelude.{IfOk, OnOk, OnErr, Some, option_copied};
ghost use Rattle.std.specs.List.{filter_map};
ghost use Rattle.alias_match.specs.Aliases.{matching, matching_places};
ghost use Rattle.alias_match.specs.ForProofs.{HaveFronts, KeepsEach, is_match_at, matches_below, places_of};

use crate::alias::Alias;
use crate::front::{Front, NumberedText, next_number};
use crate::hash_table::HashTable;
use std::alloc::{AllocError, Global};
use std::marker::Model;

/// Aliases in the order of their lines. Those that match a text are found by a hash table, whose keys are the marks of their
/// patterns: a pattern matches no text without the pattern's mark. A pattern is tried only on a text that begins as its front
/// says.
pub struct AliasList {
    entries: Vec<Alias>,
    fronts: Vec<Front>,
    table: HashTable,
}

// By hand, since a derived drop is written out, and proved, at each place where a value is let go.
impl Drop for AliasList {
    fn drop(self) {
        let AliasList {
            entries: _,
            fronts: _,
            table: _,
        } = self;
    }
}

impl Model for AliasList {
    ghost use Rattle.std.specs.Prelude.{List};
    ghost use Rattle.alias_match.specs.declared.alias.Alias.{Alias};
    ghost use Rattle.alias_match.specs.ForProofs.{KeepsEach};

    ghost Value = { List Alias };

    ghost view = { λ l. l.entries.items };

    ghost invariant = { λ l. KeepsEach l.table l.fronts.items l.entries.items };
}

/// Whether the alias at a place matches. The alias is read only if the text begins as its front says, so a look-up that
/// tries many aliases in vain stays in the processor's cache.
#[inline(always)]
fn is_match_at(entries: &[Alias], fronts: &[Front], text: &NumberedText, place: usize) -> bool
    requires fronts { HaveFronts fronts.now entries.now }
    requires within { place < length entries.now }
    ensures { result ≡ is_match_at entries.now text.now place }
{
    text.begins_with(fronts[place]) && entries[place].pattern.matches(text.bytes())
}

/// Adds the places of a key at which an alias matches the text.
fn add_of_key(
    entries: &[Alias],
    fronts: &[Front],
    table: &HashTable,
    text: &NumberedText,
    key: u64,
    found: &mut Vec<usize>,
) -> Result<(), AllocError>
    requires { KeepsEach table.now fronts.now entries.now }
    ensures { OnOk result (found.new.items ≡ found.old.items ++ filter (is_match_at entries.now text.now) (places_of key table.now)) }
{
    let mut next = table.last(key);
    'places: while let Some(place) = next {
        if is_match_at(entries, fronts, text, place) {
            found.push(place)?;
        }
        next = table.before(key, place);
    }
    Ok(())
}

/// The places of the aliases that match, for each mark of the text. The mark of one byte more is made of the one before.
fn places_by_marks(
    alloc: Global,
    entries: &[Alias],
    fronts: &[Front],
    table: &HashTable,
    text: &[u8],
) -> Result<Vec<usize>, AllocError>
    requires { KeepsEach table.now fronts.now entries.now }
    ensures { IfOk result (λ found. found.items
        ≡ matches_below entries.now table.now text.now (suc (length text.now))) }
{
    let numbered = NumberedText::of(text);
    let mut found = Vec::new(alloc);
    let mut mark = 0u64;
    for count in 0..text.len() {
        add_of_key(entries, fronts, table, &numbered, mark, &mut found)?;
        mark = next_number(mark, text, count);
    }
    add_of_key(entries, fronts, table, &numbered, mark, &mut found)?;
    Ok(found)
}

/// The alias at a place, None past the last.
fn alias_at(entries: &[Alias], place: usize) -> Option<&Alias>
    ensures { option_copied result ≡ slice_get entries.entry.now place }
{
    entries.get(place)
}

/// The aliases at the places.
fn aliases_at<'a>(
    alloc: Global,
    entries: &'a [Alias],
    places: &[usize],
) -> Result<Vec<&'a Alias>, AllocError>
    ensures { IfOk result (λ found. map (λ alias. alias.now) found.items ≡ filter_map (slice_get entries.entry.now) places.now) }
{
    let mut found = Vec::new(alloc);
    for place in places {
        if let Some(alias) = alias_at(entries, *place) {
            found.push(alias)?;
        }
    }
    Ok(found)
}

impl AliasList {
    pub fn new(alloc: Global) -> AliasList
        ensures { result ≡ [] }
    {
        AliasList {
            entries: Vec::new(alloc),
            fronts: Vec::new(alloc),
            table: HashTable::new(alloc),
        }
    }

    /// Adds an alias after the others. If memory runs out the list stays as it was.
    pub fn push(&mut self, alloc: Global, alias: Alias) -> Result<(), AllocError>
        ensures ok { OnOk result (self.new ≡ self.old ++ alias ∷ []) }
        ensures err { OnErr result (self.new ≡ self.old) }
    {
        self.entries.reserve(1)?;
        self.fronts.reserve(1)?;
        self.table.add(alloc, alias.pattern.mark())?;
        self.fronts.push(alias.pattern.front())?;
        self.entries.push(alias)?;
        Ok(())
    }

    /// How many aliases there are.
    pub fn len(&self) -> usize
        ensures { result ≡ length self.now }
    {
        self.entries.len()
    }

    /// The alias at a place in the order of the lines, from 0.
    pub fn at(&self, i: usize) -> &Alias
        requires { i < length self.now }
        ensures { slice_get self.now i ≡ Some result.now }
    {
        &self.entries[i]
    }

    /// The places, from 0, of the aliases whose patterns match the text, in rising order. It fails only if memory runs out.
    pub fn matching_places(&self, alloc: Global, text: &[u8]) -> Result<Vec<usize>, AllocError>
        ensures { IfOk result (λ places. places.items ≡ matching_places self.now text.now) }
    {
        let mut places = places_by_marks(alloc, &self.entries, &self.fronts, &self.table, text)?;
        places.sort_unstable();
        places.dedup();
        Ok(places)
    }

    /// The aliases whose patterns match the text, in the order of the lines. It fails only if memory runs out.
    pub fn matching(&self, alloc: Global, text: &[u8]) -> Result<Vec<&Alias>, AllocError>
        ensures { IfOk result (λ found. map (λ alias. alias.now) found.items ≡ matching self.now text.now) }
    {
        let places = self.matching_places(alloc, text)?;
        aliases_at(alloc, &self.entries, &places)
    }
}
