//! What an explanation is of.

use crate::named_lines::NamedLines;
use crate::sources::Sources;
use kmod_query::{Ask, Asked, ModuleState, ModuleStatus};
use std::alloc::{AllocError, Global};
use text_parts::is_same;

/// A query, the world that it asks of, the lines of that world's texts by their names, and the files that these stand in.
#[derive(Clone, Copy)]
pub(crate) struct Known<'k, 'a> {
    pub(crate) asked: &'k Asked<'a>,
    pub(crate) named: &'k NamedLines<'a>,
    pub(crate) sources: &'k Sources<'a>,
    /// The names of `module_blacklist=`, with commas between them.
    pub(crate) refused: &'a [u8],
}

impl Known<'_, '_> {
    pub(crate) fn is_live(&self, name: &[u8]) -> bool {
        let asked = self.asked;
        matches!(
            asked.world.states.of(name),
            Some(ModuleStatus {
                state: ModuleState::Live,
                ..
            })
        )
    }

    /// Whether modules are to be removed.
    pub(crate) fn is_removal(&self) -> bool {
        matches!(self.asked.query.ask, Ask::Remove | Ask::ShowRemoval)
    }

    /// Whether modules.dep has a module.
    pub(crate) fn has_file(&self, name: &[u8]) -> bool {
        let asked = self.asked;
        asked.world.index.find(name).is_some()
    }

    /// Whether an object is built in: it came by an alias of modules.builtin.modinfo, or modules.builtin has its name.
    pub(crate) fn is_built_in(&self, name: &[u8], by_builtin_alias: bool) -> bool {
        let asked = self.asked;
        by_builtin_alias || asked.world.index.is_builtin(name)
    }

    /// Whether an alias of the configuration leads to this name.
    pub(crate) fn is_target(&self, name: &[u8]) -> bool {
        let asked = self.asked;
        let aliases = asked.world.conf.aliases();
        aliases
            .iter()
            .any(|line| is_same(line.target.as_bytes(), name))
    }

    /// Whether a line or a text has a module of this name, or a pattern of commands matches it.
    pub(crate) fn is_module(&self, alloc: Global, name: &[u8]) -> Result<bool, AllocError> {
        let asked = self.asked;
        let (conf, index) = (asked.world.conf, asked.world.index);
        Ok(
            self.has_file(name)
                || index.is_builtin(name)
                || conf.has_install_named(name)
                || conf.has_remove_named(name)
                || conf.install_of(alloc, name)?.is_some()
                || conf.remove_of(alloc, name)?.is_some(),
        )
    }
}
