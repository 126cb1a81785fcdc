//! How many soft items at the front of a list were met.
ghost use Rattle.std.specs.Prelude.{◌≡◌, ◌+◌, List, Some, OnOk, slice_get, true};
ghost use Rattle.kmod_query.specs.Facts.{Facts};
ghost use Rattle.kmod_query.specs.Objects.{Object, has};
ghost use Rattle.kmod_query.specs.Stacks.{AreFronts, AreFrontsAt, IsFront, count_in, soft_of};
ghost use Rattle.kmod_query.specs.declared.look_up.Place.{Place};

use crate::look_up::Place;
use indexmap::IndexMap;
use std::alloc::{AllocError, Global};

/// For modules with soft items, how many at the front of the list on each side are known to be met. What was met stays
/// met, so a number only grows.
#[derive(Drop)]
pub(crate) struct Fronts {
    before: IndexMap<Vec<u8>, usize>,
    after: IndexMap<Vec<u8>, usize>,
}

fn count_in(counts: &IndexMap<Vec<u8>, usize>, name: &[u8]) -> usize
    ensures { result ≡ count_in counts.now.entries name.now }
{
    counts.get(name).copied().unwrap_or(0)
}

fn set_count(
    alloc: Global,
    counts: &mut IndexMap<Vec<u8>, usize>,
    name: &[u8],
    count: usize,
) -> Result<(), AllocError>
    ensures { OnOk result ((facts : Facts) (met : List Object) (place : Place) → IsFront met count (soft_of facts place name.now)
        → AreFrontsAt facts met place counts.old.entries → AreFrontsAt facts met place counts.new.entries) }
{
    let key = Vec::from_slice(alloc, name)?;
    counts.insert(key, count)?;
    Ok(())
}

impl Fronts {
    pub(crate) fn new(alloc: Global) -> Fronts
        ensures { (facts : Facts) (met : List Object) → AreFronts facts met result }
    {
        Fronts {
            before: IndexMap::new(alloc),
            after: IndexMap::new(alloc),
        }
    }

    /// How many at the front are known to be met.
    pub(crate) fn of(&self, place: Place, name: &[u8]) -> usize
        ensures { (facts : Facts) (met : List Object) → AreFronts facts met self.now → IsFront met result (soft_of facts place name.now) }
    {
        match place {
            Place::Before => count_in(&self.before, name),
            Place::After => count_in(&self.after, name),
        }
    }

    fn set(
        &mut self,
        alloc: Global,
        place: Place,
        name: &[u8],
        count: usize,
    ) -> Result<(), AllocError>
        ensures { OnOk result ((facts : Facts) (met : List Object) → IsFront met count (soft_of facts place name.now)
            → AreFronts facts met self.old → AreFronts facts met self.new) }
    {
        match place {
            Place::Before => set_count(alloc, &mut self.before, name, count),
            Place::After => set_count(alloc, &mut self.after, name, count),
        }
    }

    /// The item at an index is met, and `next` is the index after it. It is noted if all before it are known to be met.
    pub(crate) fn meet(
        &mut self,
        alloc: Global,
        place: Place,
        name: &[u8],
        index: usize,
        next: usize,
    ) -> Result<(), AllocError>
        ensures { OnOk result ((facts : Facts) (met : List Object) (object : Object) → next ≡ index + 1
            → slice_get (soft_of facts place name.now) index ≡ Some object → has met object ≡ true
            → AreFronts facts met self.old → AreFronts facts met self.new) }
    {
        if self.of(place, name) != index {
            return Ok(());
        }
        self.set(alloc, place, name, next)
    }
}
