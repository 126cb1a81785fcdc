//! A catalogue by slot.
ghost use Rattle.std.specs.Prelude.{◌≡◌, ◌<◌, ◌≤◌, length, unwrap_or, IfOk};
ghost use Rattle.dep_index.specs.Catalogue.{description_at, slot_named, needs_of, has_unknown_symbol, modules_of};
ghost use Rattle.dep_index.specs.Catalogue.Descriptions.{descriptions_in};

pub(crate) mod details;
pub(crate) mod directives;
pub(crate) mod draft;
pub(crate) mod exporters;
pub(crate) mod needs;
pub(crate) mod param_list;
pub(crate) mod params;
pub(crate) mod symbols;
pub(crate) mod text;
pub(crate) mod versions;

use crate::catalogue::details::Details;
use crate::catalogue::params::Param;
use crate::table::slots::Slots;
use indexmap::IndexMap;
use std::alloc::{AllocError, Global};
use std::marker::Model;
use text_parts::Name;

/// The modules of a catalogue text. A module's slot is its place in the text, from 0.
/// Contracts see it as the list of its descriptions.
pub struct Catalogue {
    modules: IndexMap<Vec<u8>, Details>,
    slots: Slots,
}

// By hand, since a derived drop is written out, and proved, at each place where a value is let go.
impl Drop for Catalogue {
    fn drop(self) {
        let Catalogue {
            modules: _,
            slots: _,
        } = self;
    }
}

impl Model for Catalogue {
    ghost use Rattle.std.specs.Prelude.{List, length, ◌≡◌, ◌≤◌};
    ghost use Rattle.dep_index.specs.Catalogue.{Description, modules_of};

    ghost Value = { List Description };

    ghost use Rattle.dep_index.specs.Catalogue.Descriptions.{descriptions_in};

    ghost view = { λ c. descriptions_in c.modules.entries };

    ghost invariant = { λ c. record { slots : c.slots ≡ modules_of (descriptions_in c.modules.entries); few : length c.modules.entries ≤ 65535 } };
}

impl Catalogue {
    /// The modules, with what is known of them by slot.
    pub(crate) fn new(modules: IndexMap<Vec<u8>, Details>, slots: Slots) -> Catalogue
        requires slots { slots ≡ modules_of (descriptions_in modules.entries) }
        requires few { length modules.entries ≤ 65535 }
        ensures { result ≡ descriptions_in modules.entries }
    {
        Catalogue { modules, slots }
    }

    /// How many modules there are, at most 65,535.
    pub fn len(&self) -> usize
        ensures result_is { result ≡ length self.now }
        ensures bound { length self.now ≤ 65535 }
    {
        self.modules.len()
    }

    /// The slot of a name, which is compared as it stands: names are kept in normal form.
    pub fn slot(&self, name: &[u8]) -> Option<usize>
        ensures { result ≡ slot_named self.now name.now }
    {
        self.modules.get_index_of(name)
    }

    /// The name of the module in the slot, in normal form.
    pub fn name(&self, slot: usize) -> &[u8]
        requires { slot < length self.now }
        ensures { result.now ≡ (description_at self.now slot).name }
    {
        let (name, _) = self.modules.get_index(slot).unwrap();
        name
    }

    /// The size of the module, 0 if the text has none.
    pub fn size(&self, slot: usize) -> u32
        requires { slot < length self.now }
        ensures { result ≡ unwrap_or (description_at self.now slot).size 0 }
    {
        let (_, details) = self.modules.get_index(slot).unwrap();
        details.size.unwrap_or(0)
    }

    /// The slots that the module needs: the exporters of its symbols, in the order of the symbols, each once and
    /// never the module itself.
    pub fn needs(&self, slot: usize) -> &[u16]
        requires { slot < length self.now }
        ensures { result.now ≡ needs_of self.now slot }
    {
        self.slots.needs(slot)
    }

    /// Whether the module needs a symbol that no module exports.
    pub fn unknown_symbol(&self, slot: usize) -> bool
        requires { slot < length self.now }
        ensures { result ≡ has_unknown_symbol self.now slot }
    {
        self.slots.unknown_symbol(slot)
    }

    /// The parameters of the module, in the order of the text.
    pub fn params(&self, slot: usize) -> &[Param]
        requires { slot < length self.now }
        ensures { result.now ≡ (description_at self.now slot).params }
    {
        let (_, details) = self.modules.get_index(slot).unwrap();
        &details.params
    }

    /// Whether the module stays once it is loaded.
    pub fn permanent(&self, slot: usize) -> bool
        requires { slot < length self.now }
        ensures { result ≡ (description_at self.now slot).permanent }
    {
        self.slots.permanent(slot)
    }

    /// The names of the modules that the module would have loaded before it, repeats kept; they need not be in the
    /// catalogue.
    pub fn softneeds(&self, slot: usize) -> &[Name]
        requires { slot < length self.now }
        ensures { result.now ≡ (description_at self.now slot).softneeds }
    {
        let (_, details) = self.modules.get_index(slot).unwrap();
        &details.softneeds
    }

    /// Needs and marks by slot, for an owner of its own.
    pub fn slots(&self, alloc: Global) -> Result<Slots, AllocError>
        ensures { IfOk result (λ slots. slots ≡ modules_of self.now) }
    {
        self.slots.copy(alloc)
    }
}
