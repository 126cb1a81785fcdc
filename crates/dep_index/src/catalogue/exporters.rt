//! Which module exports a symbol.
ghost use Rattle.std.specs.Prelude.{◌≡◌, true, [], ◌∷◌, ◌++◌, is_none, IfOk};
ghost use Rattle.dep_index.specs.Catalogue.Exports.{slot_at};

use indexmap::IndexMap;
use std::alloc::{AllocError, Global};
use std::marker::Model;

/// The symbols that were exported so far, each with the slot of its module.
#[derive(Drop)]
pub(crate) struct Exporters<'a> {
    by_symbol: IndexMap<&'a [u8], u16>,
}

impl<'a> Model for Exporters<'a> {
    ghost use Rattle.std.specs.Prelude.{List, map};
    ghost use Rattle.dep_index.specs.Catalogue.Exports.{Link};

    ghost Value = { List Link };

    ghost view = { λ a. map (λ e. (e.0.now, e.1)) a.by_symbol.entries };
}

impl<'a> Exporters<'a> {
    pub(crate) fn new(alloc: Global) -> Exporters<'a>
        ensures { result ≡ [] }
    {
        Exporters {
            by_symbol: IndexMap::new(alloc),
        }
    }

    /// The slot of the module that exports the symbol.
    pub(crate) fn slot(&self, symbol: &[u8]) -> Option<u16>
        ensures { result ≡ slot_at self.now symbol.now }
    {
        self.by_symbol.get(symbol).copied()
    }

    /// Adds the symbol with the slot, and says whether it is new. One that is there has this slot then.
    pub(crate) fn add(&mut self, symbol: &'a [u8], slot: u16) -> Result<bool, AllocError>
        ensures added { IfOk result (λ is_new. is_new ≡ is_none (slot_at self.old symbol.now)) }
        ensures links { IfOk result (λ is_new. is_new ≡ true → self.new ≡ self.old ++ (symbol.now, slot) ∷ []) }
    {
        let before = self.by_symbol.insert(symbol, slot)?;
        Ok(before.is_none())
    }
}
