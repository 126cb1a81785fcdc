//! All that the texts of a folder of modules say.
#![tactic(auto, unfolding(crate::specs::Index::indexes_of))]

ghost use Rattle.std.specs.Prelude.{◌≡◌, IfOk, IfSome};
ghost use Rattle.kmod_index.specs.Builtins.{is_among};
ghost use Rattle.kmod_index.specs.Dependencies.{dependencies_of, hard_needs, line_of};
ghost use Rattle.kmod_index.specs.Prepared.{IsMadeOf};
ghost use Rattle.kmod_index.specs.Index.{indexes_of, texts_in};
ghost use Rattle.kmod_index.specs.Lines.{lines_of_key};
ghost use Rattle.kmod_index.specs.Tries.{in_order, matching_lines};

use crate::alias_scan::{alias_lines, matching_aliases};
use crate::aliases::Aliases;
use crate::builtins::is_builtin_in;
use crate::dep_line::DepLine;
use crate::dep_scan::{dep_lines, find_line};
use crate::dep_table::DepTable;
use crate::index_line::{IndexLine, copied};
use crate::modinfo::matching_builtins;
use crate::symbol_scan::{symbol_lines, symbols_of_key};
use crate::symbols::Symbols;
use crate::tables::Tables;
use kmod_names::Text;
use std::alloc::{AllocError, Global};
use std::marker::Model;

/// The texts of a folder of modules; one that is not there is empty.
#[derive(Clone, Copy)]
pub struct IndexTexts<'a> {
    /// modules.dep.
    pub dep: &'a [u8],
    /// modules.alias.
    pub alias: &'a [u8],
    /// modules.symbols.
    pub symbols: &'a [u8],
    /// modules.builtin.
    pub builtin: &'a [u8],
    /// modules.builtin.modinfo.
    pub builtin_modinfo: &'a [u8],
}

/// What was made of the texts before names are looked up.
pub(crate) enum Prepared<'a> {
    /// Nothing.
    Nothing,
    /// The lines of modules.dep, for some look-ups.
    Lines(&'a DepTable<'a>),
    /// Tables of the texts, for many.
    Tables(Tables),
}

// By hand, since a derived drop is written out, and proved, at each place where a value is let go.
impl Drop for Prepared<'_> {
    fn drop(self) {
        match self {
            Prepared::Nothing => {}
            Prepared::Lines(_) => {}
            Prepared::Tables(_) => {}
        }
    }
}

/// What the texts of a folder of modules say. A name is looked up in the texts themselves, or in what was made of them.
pub struct Index<'a> {
    texts: IndexTexts<'a>,
    prepared: Prepared<'a>,
}

// By hand, since a derived drop is written out, and proved, at each place where a value is let go.
impl Drop for Index<'_> {
    fn drop(self) {
        let Index {
            texts: _,
            prepared: _,
        } = self;
    }
}

impl<'a> Model for Index<'a> {
    ghost use Rattle.kmod_index.specs.Index.{indexes_of, texts_in};
    ghost use Rattle.kmod_index.specs.Indexes.{Indexes};
    ghost use Rattle.kmod_index.specs.Prepared.{IsMadeOf};

    ghost Value = { Indexes };

    ghost view = { λ index. indexes_of (texts_in index.texts) };

    ghost invariant = { λ index. IsMadeOf (indexes_of (texts_in index.texts)) index.prepared };
}

impl<'a> Index<'a> {
    /// What the texts say. Each look-up goes through a text.
    pub fn read(texts: IndexTexts<'a>) -> Index<'a>
        ensures { result ≡ indexes_of (texts_in texts.entry) }
    {
        Index {
            texts,
            prepared: Prepared::Nothing,
        }
    }

    /// What the texts say, for the look-up of some names: `lines` are those of modules.dep.
    pub fn with_lines(texts: IndexTexts<'a>, lines: &'a DepTable<'a>) -> Index<'a>
        requires { lines.now ≡ dependencies_of texts.dep.now }
        ensures { result ≡ indexes_of (texts_in texts.entry) }
    {
        let prepared = Prepared::Lines(lines);
        Index { texts, prepared }
    }

    /// What the texts say, in tables: the look-up of many names is faster so. modules.alias has a table if one of these names is
    /// not in modules.dep, and modules.symbols if one is that of a symbol. It fails only if memory runs out.
    pub fn with_tables(
        alloc: Global,
        texts: IndexTexts<'a>,
        names: &[&[u8]],
    ) -> Result<Index<'a>, AllocError>
        ensures { IfOk result (λ index. index ≡ indexes_of (texts_in texts.entry)) }
    {
        let prepared = Prepared::Tables(Tables::read(alloc, &texts, names)?);
        Ok(Index { texts, prepared })
    }

    /// The table of modules.alias, if there is one.
    fn alias_table(&self) -> Option<&Aliases>
        ensures { IfSome result (λ table. table.now ≡ self.now.aliases) }
    {
        match &self.prepared {
            Prepared::Tables(tables) => tables.aliases(),
            _ => None,
        }
    }

    /// The table of modules.symbols, if there is one.
    fn symbol_table(&self) -> Option<&Symbols>
        ensures { IfSome result (λ table. table.now ≡ self.now.symbols) }
    {
        match &self.prepared {
            Prepared::Tables(tables) => tables.symbols(),
            _ => None,
        }
    }

    /// The first line of modules.dep of the module of this name, None if it has none. Names have `_` for each `-`.
    pub fn find(&self, name: &[u8]) -> Option<DepLine<'_>>
        ensures { result ≡ line_of self.now.dependencies name.now }
    {
        match &self.prepared {
            Prepared::Tables(tables) => tables.find(name),
            Prepared::Lines(lines) => lines.find(name),
            Prepared::Nothing => find_line(self.texts.dep, name),
        }
    }

    /// The names of the modules that a module needs, in the order in which they are loaded, none if it has no line. It
    /// fails only if memory runs out.
    pub fn hard_needs(&self, alloc: Global, name: &[u8]) -> Result<Vec<Text>, AllocError>
        ensures { IfOk result (λ names. names.items ≡ hard_needs self.now.dependencies name.now) }
    {
        match self.find(name) {
            Some(line) => line.needed_names(alloc),
            None => Ok(Vec::new(alloc)),
        }
    }

    /// The lines of modules.dep, in order. It fails only if memory runs out.
    pub fn dep_lines(&self, alloc: Global) -> Result<Vec<DepLine<'_>>, AllocError>
        ensures { IfOk result (λ lines. lines.items ≡ self.now.dependencies) }
    {
        dep_lines(alloc, self.texts.dep)
    }

    /// The lines of modules.alias, in order. It fails only if memory runs out.
    pub fn alias_lines(&self, alloc: Global) -> Result<Vec<IndexLine>, AllocError>
        ensures { IfOk result (λ lines. lines.items ≡ self.now.aliases) }
    {
        alias_lines(alloc, self.texts.alias)
    }

    /// The lines of modules.alias whose key a name in normal form matches, in order. It fails only if memory runs out.
    pub fn matching_aliases(&self, alloc: Global, name: &[u8]) -> Result<Vec<IndexLine>, AllocError>
        ensures { IfOk result (λ found. found.items ≡ matching_lines self.now.aliases name.now) }
    {
        match self.alias_table() {
            Some(table) => copied(alloc, &table.matching(alloc, name)?),
            None => matching_aliases(alloc, self.texts.alias, name),
        }
    }

    /// The lines of modules.symbols, in order. It fails only if memory runs out.
    pub fn symbol_lines(&self, alloc: Global) -> Result<Vec<IndexLine>, AllocError>
        ensures { IfOk result (λ lines. lines.items ≡ self.now.symbols) }
    {
        symbol_lines(alloc, self.texts.symbols)
    }

    /// The lines of modules.symbols whose key is this text, as `symbol:NAME`, in order. It fails only if memory runs out.
    pub fn symbols_of_key(&self, alloc: Global, key: &[u8]) -> Result<Vec<IndexLine>, AllocError>
        ensures { IfOk result (λ found. found.items ≡ lines_of_key self.now.symbols key.now) }
    {
        match self.symbol_table() {
            Some(table) => copied(alloc, &table.of_key(alloc, key)?),
            None => symbols_of_key(alloc, self.texts.symbols, key),
        }
    }

    /// Whether the module of this name is built in. Names have `_` for each `-`.
    pub fn is_builtin(&self, name: &[u8]) -> bool
        ensures { result ≡ is_among self.now.builtin_names name.now }
    {
        match &self.prepared {
            Prepared::Tables(tables) => tables.is_builtin(name),
            _ => is_builtin_in(self.texts.builtin, name),
        }
    }

    /// The aliases of built-in modules that a name in normal form matches, in kmod's order. It fails only if memory
    /// runs out.
    pub fn builtin_aliases(&self, alloc: Global, name: &[u8]) -> Result<Vec<IndexLine>, AllocError>
        ensures { IfOk result (λ found. found.items ≡ in_order (matching_lines self.now.builtin_aliases name.now)) }
    {
        match &self.prepared {
            Prepared::Tables(tables) => tables.builtin_aliases(alloc, name),
            _ => matching_builtins(alloc, self.texts.builtin_modinfo, name),
        }
    }
}
