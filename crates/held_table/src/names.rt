//! The names of the holders, each with its number.
ghost use Rattle.std.specs.Prelude.{◌≡◌, ◌<◌, ◌++◌, ◌∷◌, [], None, length, slice_index_or, swap_remove, OnOk, OnErr, IsOk};
ghost use Rattle.held_table.specs.Names.{place_of, name_bytes};

use crate::name::HolderName;
use indexmap::IndexSet;
use std::alloc::{AllocError, Global};
use std::marker::Model;

/// The names of the holders by their numbers. Contracts see them as a list.
#[derive(Drop)]
pub(crate) struct Names {
    names: IndexSet<HolderName>,
}

impl Model for Names {
    ghost use Rattle.std.specs.Prelude.{ℕ, List, map};
    ghost use Rattle.held_table.specs.Names.{name_bytes};

    ghost Value = { List (List ℕ) };

    ghost view = { λ n. map name_bytes n.names.keys };
}

impl Names {
    ghost use Rattle.held_table.specs.Names.{EachOnce};

    pub(crate) fn new(alloc: Global) -> Names
        ensures { result ≡ [] }
    {
        Names {
            names: IndexSet::new(alloc),
        }
    }

    pub(crate) fn len(&self) -> usize
        ensures len { result ≡ length self.now }
        ensures once { EachOnce self.now }
    {
        self.names.len()
    }

    /// The number of a name.
    pub(crate) fn number(&self, name: &HolderName) -> Option<usize>
        ensures { result ≡ place_of self.now (name_bytes name.now) }
    {
        self.names.get_index_of(name)
    }

    /// The name of a number.
    pub(crate) fn at(&self, number: usize) -> &HolderName
        requires { number < length self.now }
        ensures { name_bytes result.now ≡ slice_index_or self.now number [] }
    {
        &self.names.as_slice()[number]
    }

    /// Adds a new name behind the others. Out of memory, it does not.
    pub(crate) fn push(&mut self, name: HolderName) -> Result<(), AllocError>
        requires { place_of self.old (name_bytes name) ≡ None }
        ensures added { OnOk result (self.new ≡ self.old ++ name_bytes name ∷ []) }
        ensures stays { OnErr result (self.new ≡ self.old) }
    {
        self.names.insert(name)?;
        Ok(())
    }

    /// Removes the name of a number; the last name takes its place.
    pub(crate) fn remove(&mut self, number: usize)
        requires { number < length self.old }
        ensures { self.new ≡ swap_remove self.old number [] }
    {
        let _name = self.names.swap_remove_index(number);
    }
}
