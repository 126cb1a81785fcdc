//! The way of a cycle of hard dependencies.

use dep_index::{Catalogue, DepIndex};
use std::alloc::{AllocError, Global};

/// How many steps a walk has, at most.
const MOST_STEPS: usize = 1_000_000;

/// A module on the way of a walk, and how many of its dependencies were tried.
#[derive(Clone, Copy, Drop)]
struct Tried {
    slot: usize,
    count: usize,
}

/// How a step of a walk goes.
#[derive(Clone, Copy, Drop)]
enum Step {
    /// The walk goes on.
    On,
    /// It has come back to where it began.
    Back,
    /// It has been everywhere.
    End,
}

/// A walk over hard dependencies, which ends where it comes back to the module from which it began.
#[derive(Drop)]
struct Walk {
    way: Vec<Tried>,
    seen: Vec<bool>,
    start: usize,
}

/// What says which modules a module depends on: modules.dep if it has a line for it, and else the catalogue.
#[derive(Drop)]
pub(crate) struct Dependencies<'a> {
    pub(crate) catalogue: &'a Catalogue,
    pub(crate) lines: &'a DepIndex,
}

impl Dependencies<'_> {
    /// The slot of the dependency in a place of a module's list, None if it is no module; and None after the last.
    fn at(&self, slot: usize, place: usize) -> Option<Option<usize>> {
        if slot >= self.catalogue.len() {
            return None;
        }
        match self.lines.deps(self.catalogue.name(slot)) {
            Some(names) => Some(self.catalogue.slot(names.get(place)?.as_bytes())),
            None => Some(Some(*self.catalogue.needs(slot).get(place)? as usize)),
        }
    }
}

impl Walk {
    /// Begins a walk at a module.
    fn new(alloc: Global, modules: usize, start: usize) -> Result<Walk, AllocError> {
        let mut way = Vec::new(alloc);
        way.push(Tried {
            slot: start,
            count: 0,
        })?;
        let seen = vec![in alloc; false; modules]?;
        Ok(Walk { way, seen, start })
    }

    /// Goes to a module, unless the walk was there.
    fn go_to(&mut self, slot: usize) -> Result<(), AllocError> {
        if let Some(seen) = self.seen.get_mut(slot) {
            if !*seen {
                *seen = true;
                self.way.push(Tried { slot, count: 0 })?;
            }
        }
        Ok(())
    }

    /// Tries the next dependency of the last module.
    fn step(&mut self, dependencies: &Dependencies<'_>) -> Result<Step, AllocError> {
        let Some(last) = self.way.last_mut() else {
            return Ok(Step::End);
        };
        let next = dependencies.at(last.slot, last.count);
        last.count = last.count.saturating_add(1);
        match next {
            None => {
                self.way.pop();
            }
            Some(Some(slot)) if slot == self.start => return Ok(Step::Back),
            Some(Some(slot)) => self.go_to(slot)?,
            Some(None) => {}
        }
        Ok(Step::On)
    }
}

/// The modules of a cycle from this one back to it, each of which has the next as a hard dependency; none if no cycle is
/// found.
pub(crate) fn cycle_from(
    alloc: Global,
    dependencies: &Dependencies<'_>,
    start: usize,
) -> Result<Vec<usize>, AllocError> {
    let mut walk = Walk::new(alloc, dependencies.catalogue.len(), start)?;
    for _ in 0..MOST_STEPS {
        match walk.step(dependencies)? {
            Step::On => {}
            Step::Back => return walk.way.iter().map(|tried| tried.slot).collect(alloc),
            Step::End => break,
        }
    }
    Ok(Vec::new(alloc))
}
