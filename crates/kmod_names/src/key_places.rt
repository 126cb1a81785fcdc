//! At which places of a list a key stands.
ghost use Rattle.std.specs.Prelude.{◌≡◌, ◌≤◌, ◌||◌, [], List, ℕ, length, nat_le, nat_lt, IfOk, OnErr, OnOk};
ghost use Rattle.std.specs.List.{prefix_len};
ghost use Rattle.std.specs.Str.{bytes_eq};
ghost use Rattle.alias_match.specs.Aliases.{places_where};
ghost use Rattle.kmod_names.specs.Places.{ArePlaces, merged, places_in, those_above, those_below, with_place};

use indexmap::IndexMap;
use std::alloc::{AllocError, Global};
use std::marker::Model;

/// Keys, each with places, found by a hash of the key. Contracts see them as pairs.
pub struct KeyPlaces {
    places: IndexMap<Vec<u8>, Vec<usize>>,
}

// By hand, since a derived drop is written out, and proved, at each place where a value is let go.
impl Drop for KeyPlaces {
    fn drop(self) {
        let KeyPlaces { places: _ } = self;
    }
}

impl Model for KeyPlaces {
    ghost use Rattle.std.specs.Prelude.{ℕ, List, map};

    ghost Value = { List (List ℕ × List ℕ) };

    ghost view = { λ keys. map (λ entry. (entry.0.items, entry.1.items)) keys.places.entries };
}

/// How many places at the beginning are below a place.
fn count_below(places: &[usize], place: usize) -> usize
    ensures value { result ≡ prefix_len (λ other. nat_lt other place) places.now }
    ensures within { result ≤ length places.now }
{
    places.iter().take_while(|other| **other < place).count()
}

/// How many places at the beginning are a place or below it.
fn count_up_to(places: &[usize], place: usize) -> usize
    ensures value { result ≡ prefix_len (λ other. nat_le other place) places.now }
    ensures within { result ≤ length places.now }
{
    places.iter().take_while(|other| **other <= place).count()
}

fn those_below(places: &[usize], place: usize) -> &[usize]
    ensures { result.now ≡ those_below place places.entry.now }
{
    &places[..count_below(places, place)]
}

fn those_above(places: &[usize], place: usize) -> &[usize]
    ensures { result.now ≡ those_above place places.entry.now }
{
    &places[count_up_to(places, place)..]
}

/// The places of two lists in rising order, each once; in both lists they are so.
pub(crate) fn merged(
    alloc: Global,
    first: &[usize],
    second: &[usize],
) -> Result<Vec<usize>, AllocError>
    ensures { IfOk result (λ places. places.items ≡ merged first.now second.now) }
{
    let mut places = Vec::new(alloc);
    let mut others = second;
    'places: for place in first {
        places.extend_from_slice(those_below(others, *place))?;
        places.push(*place)?;
        others = those_above(others, *place);
    }
    places.extend_from_slice(others)?;
    Ok(places)
}

impl KeyPlaces {
    pub fn new(alloc: Global) -> KeyPlaces
        ensures { result ≡ [] }
    {
        KeyPlaces {
            places: IndexMap::new(alloc),
        }
    }

    /// The places of a key, in the order in which they were added.
    pub fn of(&self, key: &[u8]) -> &[usize]
        ensures { result.now ≡ places_in self.now key.now }
    {
        match self.places.get(key) {
            Some(places) => places,
            None => &[],
        }
    }

    /// The places of one key or of another, in rising order and each once, if the places of each key rise.
    pub fn of_either(
        &self,
        alloc: Global,
        one: &[u8],
        other: &[u8],
    ) -> Result<Vec<usize>, AllocError>
        ensures { IfOk result (λ places. (keys : List (List ℕ)) → ArePlaces self.now keys
            → places.items ≡ places_where (λ key. bytes_eq one.now key || bytes_eq other.now key) 0 keys) }
    {
        merged(alloc, self.of(one), self.of(other))
    }

    /// Adds a place of a key. If memory runs out no key has other places than before.
    pub fn add(&mut self, alloc: Global, key: &[u8], place: usize) -> Result<(), AllocError>
        ensures ok { OnOk result (self.new ≡ with_place self.old key.now place) }
        ensures err { OnErr result ((other : List ℕ) → places_in self.new other ≡ places_in self.old other) }
    {
        let key = Vec::from_slice(alloc, key)?;
        let places = self.places.entry(key)?.or_insert(Vec::new(alloc));
        places.push(place)?;
        Ok(())
    }
}
