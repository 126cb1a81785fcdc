//! The modules whose soft items are being removed.
ghost use Rattle.std.specs.Prelude.{◌≡◌, [], OnOk};
ghost use Rattle.std.specs.List.{list_any};
ghost use Rattle.std.specs.Str.{bytes_eq};
ghost use Rattle.kmod_query.specs.Removal.{front_of};
ghost use Rattle.kmod_query.specs.Removals.{with_name};

use indexmap::IndexSet;
use std::alloc::{AllocError, Global};
use std::marker::Model;

/// The modules whose soft items are being removed, the outermost first, each once. One is found by a hash of its name.
#[derive(Drop)]
pub(crate) struct Way {
    names: IndexSet<Vec<u8>>,
}

impl Model for Way {
    ghost use Rattle.std.specs.Prelude.{ℕ, List};
    ghost use Rattle.kmod_query.specs.Objects.{names_of};

    ghost Value = { List (List ℕ) };

    ghost view = { λ w. names_of w.names.keys };
}

impl Way {
    pub(crate) fn new(alloc: Global) -> Way
        ensures { result ≡ [] }
    {
        Way {
            names: IndexSet::new(alloc),
        }
    }

    pub(crate) fn has(&self, name: &[u8]) -> bool
        ensures { result ≡ list_any (bytes_eq name.now) self.now }
    {
        self.names.contains(name)
    }

    /// Adds a module as the innermost, if it is not there.
    pub(crate) fn enter(&mut self, alloc: Global, name: &[u8]) -> Result<(), AllocError>
        ensures { OnOk result (self.new ≡ with_name self.old name.now) }
    {
        let own = Vec::from_slice(alloc, name)?;
        self.names.insert(own)?;
        Ok(())
    }

    /// Takes the innermost away.
    pub(crate) fn leave(&mut self)
        ensures { self.new ≡ front_of self.old }
    {
        self.names.pop();
    }
}
