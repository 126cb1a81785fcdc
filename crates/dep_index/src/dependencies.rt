//! The dependencies that a modules.dep text gives.
ghost use Rattle.std.specs.Prelude.{◌≡◌};
ghost use Rattle.std.specs.Option.{option_map};
ghost use Rattle.dep_index.specs.Dependencies.{deps};
ghost use Rattle.dep_index.specs.Dependencies.Pairs.{pairs_in};

pub(crate) mod paths;
pub(crate) mod text;

use indexmap::IndexMap;
use std::marker::Model;
use text_parts::Name;

/// The lines of a modules.dep text (depmod(8)): for each name that has one, the names that it depends on.
/// Contracts see it as the list of its pairs.
pub struct DepIndex {
    lines: IndexMap<Vec<u8>, Vec<Name>>,
}

// By hand, since a derived drop is written out, and proved, at each place where a value is let go.
impl Drop for DepIndex {
    fn drop(self) {
        let DepIndex { lines: _ } = self;
    }
}

impl Model for DepIndex {
    ghost use Rattle.std.specs.Prelude.{List};
    ghost use Rattle.dep_index.specs.Dependencies.{Pair};

    ghost Value = { List Pair };

    ghost use Rattle.dep_index.specs.Dependencies.Pairs.{pairs_in};

    ghost view = { λ d. pairs_in d.lines.entries };
}

impl DepIndex {
    /// The lines that were read.
    pub(crate) fn new(lines: IndexMap<Vec<u8>, Vec<Name>>) -> DepIndex
        ensures { result ≡ pairs_in lines.entries }
    {
        DepIndex { lines }
    }

    /// The names that the name depends on, in the order of its line, repeats kept, or `None` if it has no line.
    /// The name is compared as it stands: names are kept in normal form.
    pub fn deps(&self, name: &[u8]) -> Option<&[Name]>
        ensures { option_map (λ names. names.now) result ≡ deps self.now name.now }
    {
        if self.lines.is_empty() {
            return None;
        }
        let names = self.lines.get(name)?;
        Some(names)
    }
}
