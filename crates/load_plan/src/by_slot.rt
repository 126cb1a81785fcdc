//! Values by slot, of which few differ from the usual one.
ghost use Rattle.std.specs.Prelude.{◌≡◌, ◌<◌, length, replicate, set, slice_index_or, IfOk, OnOk};

use crate::filled::filled;
use std::alloc::{AllocError, Global};
use std::marker::Model;

/// A value for each slot. Most slots have the usual one, and those cost a word each, so that a plan does not fill a
/// row for each module of a catalogue. Contracts see it as the list of the values.
#[derive(Drop)]
pub(crate) struct BySlot<T> {
    usual: T,
    own: Vec<T>,
    // 0 for a slot with the usual value, else one more than where its own stands
    places: Vec<usize>,
}

impl<T> Model for BySlot<T> {
    ghost use Rattle.std.specs.Prelude.{List};
    ghost use Rattle.load_plan.specs.BySlot.{values_of, ArePlaces};

    ghost Value = { List T };

    ghost view = { λ b. values_of b.usual b.own.items b.places.items };

    ghost invariant = { λ b. ArePlaces b.own.items b.places.items };
}

impl<T: Copy + Drop> BySlot<T> {
    /// So many slots with the usual value.
    pub(crate) fn new(alloc: Global, usual: T, count: usize) -> Result<BySlot<T>, AllocError>
        ensures { IfOk result (λ values. values ≡ replicate count usual) }
    {
        Ok(BySlot {
            usual,
            own: Vec::new(alloc),
            places: filled(alloc, 0, count)?,
        })
    }

    /// The number of slots.
    pub(crate) fn len(&self) -> usize
        ensures { result ≡ length self.now }
    {
        self.places.len()
    }

    /// The value of a slot.
    pub(crate) fn at(&self, slot: usize) -> T
        requires { slot < length self.now }
        ensures { result ≡ slice_index_or self.now slot result }
    {
        match self.places[slot] {
            0 => self.usual,
            place => self.own[place - 1],
        }
    }

    /// Gives a slot a value of its own.
    pub(crate) fn set(&mut self, slot: usize, value: T) -> Result<(), AllocError>
        requires { slot < length self.old }
        ensures { OnOk result (self.new ≡ set self.old slot value) }
    {
        self.own.push(value)?;
        self.places[slot] = self.own.len();
        Ok(())
    }
}
