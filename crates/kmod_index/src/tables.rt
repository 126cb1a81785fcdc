//! Tables of the texts of a folder of modules, for many look-ups.
#![tactic(auto, unfolding(crate::specs::Index::indexes_of))]

ghost use Rattle.std.specs.Prelude.{◌≡◌, IfOk, option_copied};
ghost use Rattle.kmod_index.specs.Aliases.{aliases_of};
ghost use Rattle.kmod_index.specs.Builtins.{is_among};
ghost use Rattle.kmod_index.specs.Dependencies.{line_of};
ghost use Rattle.kmod_index.specs.ForProofs.{IsTableOf, TabledOf};
ghost use Rattle.kmod_index.specs.Index.{indexes_of, texts_in};
ghost use Rattle.kmod_index.specs.Lines.{keyed_lines};
ghost use Rattle.kmod_index.specs.Tries.{in_order, matching_lines};

use crate::aliases::{Aliases, read_aliases};
use crate::builtins::{Builtins, read_builtins};
use crate::dep_line::DepLine;
use crate::index::IndexTexts;
use crate::index_line::{IndexLine, copied};
use crate::modinfo::read_builtin_aliases;
use crate::modules_dep::{ModulesDep, read_modules_dep};
use crate::symbols::{Symbols, read_symbols};
use crate::trie_order::in_order;
use kmod_names::normal_alias;
use std::alloc::{AllocError, Global};
use std::marker::Model;

/// The lines of the texts by names, keys and patterns. modules.alias and modules.symbols have a table if many look-ups may get
/// to them.
pub(crate) struct Tables {
    dependencies: ModulesDep,
    aliases: Option<Aliases>,
    symbols: Option<Symbols>,
    builtins: Builtins,
    builtin_aliases: Aliases,
}

// By hand, since a derived drop is written out, and proved, at each place where a value is let go.
impl Drop for Tables {
    fn drop(self) {
        let Tables {
            dependencies: _,
            aliases: _,
            symbols: _,
            builtins: _,
            builtin_aliases: _,
        } = self;
    }
}

impl Model for Tables {
    ghost use Rattle.kmod_index.specs.ForProofs.{Tabled};

    ghost Value = { Tabled };

    ghost view = { λ tables. record { dependencies = tables.dependencies; aliases = tables.aliases; symbols = tables.symbols; builtin_names = tables.builtins; builtin_aliases = tables.builtin_aliases } };
}

/// Whether a name was met that modules.dep does not have, or this is one. It may be that of an alias.
fn meets_other(
    alloc: Global,
    dependencies: &ModulesDep,
    was_met: bool,
    name: &[u8],
) -> Result<bool, AllocError> {
    if was_met {
        return Ok(true);
    }
    match normal_alias(alloc, name)? {
        Some(name) => Ok(dependencies.find(name.as_bytes()).is_none()),
        None => Ok(false),
    }
}

/// Whether modules.dep does not have one of the names.
fn has_other(
    alloc: Global,
    dependencies: &ModulesDep,
    names: &[&[u8]],
) -> Result<bool, AllocError> {
    let mut is_met = false;
    'names: for name in names {
        is_met = meets_other(alloc, dependencies, is_met, name)?;
    }
    Ok(is_met)
}

/// A table of modules.alias, if a name is not that of a module of modules.dep.
fn aliases_for(
    alloc: Global,
    text: &[u8],
    dependencies: &ModulesDep,
    names: &[&[u8]],
) -> Result<Option<Aliases>, AllocError>
    ensures { IfOk result (IsTableOf (aliases_of text.now)) }
{
    if has_other(alloc, dependencies, names)? {
        Ok(Some(read_aliases(alloc, text)?))
    } else {
        Ok(None)
    }
}

fn has_symbol(names: &[&[u8]]) -> bool {
    names.iter().any(|name| name.starts_with(b"symbol:"))
}

/// A table of modules.symbols, if a name is that of a symbol.
fn symbols_for(alloc: Global, text: &[u8], names: &[&[u8]]) -> Result<Option<Symbols>, AllocError>
    ensures { IfOk result (IsTableOf (keyed_lines text.now)) }
{
    if has_symbol(names) {
        Ok(Some(read_symbols(alloc, text)?))
    } else {
        Ok(None)
    }
}

impl Tables {
    /// The tables of these texts, as they serve the look-up of these names. It fails only if memory runs out.
    pub(crate) fn read(
        alloc: Global,
        texts: &IndexTexts,
        names: &[&[u8]],
    ) -> Result<Tables, AllocError>
        ensures { IfOk result (λ tables. TabledOf tables (indexes_of (texts_in texts.now))) }
    {
        let dependencies = read_modules_dep(alloc, texts.dep)?;
        let aliases = aliases_for(alloc, texts.alias, &dependencies, names)?;
        Ok(Tables {
            dependencies,
            aliases,
            symbols: symbols_for(alloc, texts.symbols, names)?,
            builtins: read_builtins(alloc, texts.builtin)?,
            builtin_aliases: read_builtin_aliases(alloc, texts.builtin_modinfo)?,
        })
    }

    /// The table of modules.alias, if there is one.
    pub(crate) fn aliases(&self) -> Option<&Aliases>
        ensures { option_copied result ≡ self.now.aliases }
    {
        self.aliases.as_ref()
    }

    /// The table of modules.symbols, if there is one.
    pub(crate) fn symbols(&self) -> Option<&Symbols>
        ensures { option_copied result ≡ self.now.symbols }
    {
        self.symbols.as_ref()
    }

    /// The first line of modules.dep of a module.
    pub(crate) fn find(&self, name: &[u8]) -> Option<DepLine<'_>>
        ensures { result ≡ line_of self.now.dependencies name.now }
    {
        self.dependencies.find(name)
    }

    /// Whether a module is built in.
    pub(crate) fn is_builtin(&self, name: &[u8]) -> bool
        ensures { result ≡ is_among self.now.builtin_names name.now }
    {
        self.builtins.has(name)
    }

    /// The aliases of built-in modules that a name matches, in kmod's order.
    pub(crate) fn builtin_aliases(
        &self,
        alloc: Global,
        name: &[u8],
    ) -> Result<Vec<IndexLine>, AllocError>
        ensures { IfOk result (λ found. found.items ≡ in_order (matching_lines self.now.builtin_aliases name.now)) }
    {
        let found = self.builtin_aliases.matching(alloc, name)?;
        copied(alloc, &in_order(alloc, &found)?)
    }
}
