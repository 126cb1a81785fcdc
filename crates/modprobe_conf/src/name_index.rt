//! The settings of modules, found by name.
ghost use Rattle.std.specs.Prelude.{◌≡◌, [], OnOk, MatchOption};
ghost use Rattle.modprobe_conf.specs.Configuration.{settings_by, settings_in, with_named};
ghost use Rattle.modprobe_conf.specs.ForProofs.{line_of};

use crate::settings::{Line, Settings};
use indexmap::IndexMap;
use std::alloc::{AllocError, Global};
use std::marker::Model;
use text_parts::Name;

/// What all lines say of each module, by its name in normal form.
#[derive(Drop)]
pub(crate) struct NameIndex {
    settings: IndexMap<Vec<u8>, Settings>,
}

impl Model for NameIndex {
    ghost use Rattle.std.specs.Prelude.{ℕ, List, map};
    ghost use Rattle.modprobe_conf.specs.Configuration.{ModuleSettings};

    ghost Value = { List (List ℕ × ModuleSettings) };

    ghost view = { λ index. map (λ entry. (entry.0.items, entry.1)) index.settings.entries };
}

impl NameIndex {
    pub(crate) fn new(alloc: Global) -> NameIndex
        ensures { result ≡ [] }
    {
        NameIndex {
            settings: IndexMap::new(alloc),
        }
    }

    /// What is said of a name, None if no line names it.
    pub(crate) fn at(&self, name: &[u8]) -> Option<&Settings>
        ensures { MatchOption result
            (settings_in self.now name.now ≡ settings_by [])
            (λ settings. settings_in self.now name.now ≡ settings.now) }
    {
        self.settings.get(name)
    }

    /// Adds what a line says of a name.
    pub(crate) fn add(&mut self, alloc: Global, name: Name, line: Line) -> Result<(), AllocError>
        ensures { OnOk result (self.new ≡ with_named self.old name (line_of line)) }
    {
        let key = name.into_bytes();
        let settings = self.settings.entry(key)?.or_insert(Settings::new(alloc));
        settings.add(line)
    }
}
