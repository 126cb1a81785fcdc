//! Aliases of modules that are built in.
ghost use Rattle.std.specs.Prelude.{◌≡◌, ◌++◌, IfOk, OnOk, None, Some, MatchOption};
ghost use Rattle.std.specs.Option.{option_to_list};
ghost use Rattle.kmod_index.specs.Builtins.{alias_of_entry, alias_value, builtin_aliases, modinfo_parts};
ghost use Rattle.kmod_index.specs.Parts.{at_first};
ghost use Rattle.kmod_index.specs.Tries.{in_order, matching_lines};

use crate::aliases::Aliases;
use crate::index_line::{IndexLine, copied};
use crate::parts::at_first;
use crate::trie_order::in_order;
use std::alloc::{AllocError, Global};
use text_parts::is_same;

/// The value and the module of a key and its value, if the key is that of an alias.
fn alias_value<'a>(key: &'a [u8], value: &'a [u8]) -> Option<(&'a [u8], &'a [u8])>
    ensures { MatchOption result
        (alias_value value.entry.now (at_first 46 key.entry.now) ≡ None)
        (λ parts. alias_value value.entry.now (at_first 46 key.entry.now) ≡ Some (parts.0.now, parts.1.now)) }
{
    let (module, field) = at_first(b'.', key)?;
    if is_same(field, b"alias") && !module.is_empty() && !value.is_empty() {
        Some((value, module))
    } else {
        None
    }
}

/// An alias and its module, as one entry says.
fn modinfo_parts(entry: &[u8]) -> Option<(&[u8], &[u8])>
    ensures { MatchOption result
        (modinfo_parts entry.entry.now ≡ None)
        (λ parts. modinfo_parts entry.entry.now ≡ Some (parts.0.now, parts.1.now)) }
{
    let (key, value) = at_first(b'=', entry)?;
    alias_value(key, value)
}

/// Adds the alias of the entry of this number, if it has one.
fn add_entry(
    aliases: &mut Aliases,
    alloc: Global,
    number: usize,
    entry: &[u8],
) -> Result<(), AllocError>
    ensures { OnOk result (aliases.new ≡ aliases.old ++ option_to_list (alias_of_entry (number, entry.now))) }
{
    let Some((value, module)) = modinfo_parts(entry) else {
        return Ok(());
    };
    match IndexLine::of_alias(alloc, number, value, module)? {
        Some(alias) => aliases.push(alloc, alias),
        None => Ok(()),
    }
}

/// The aliases of a whole modules.builtin.modinfo text. It fails only if memory runs out.
pub(crate) fn read_builtin_aliases(alloc: Global, text: &[u8]) -> Result<Aliases, AllocError>
    ensures { IfOk result (λ aliases. aliases ≡ builtin_aliases text.now) }
{
    let mut aliases = Aliases::new(alloc);
    let mut rest = text;
    let mut number = 1usize;
    'entries: loop {
        match at_first(0, rest) {
            Some((entry, later)) => {
                add_entry(&mut aliases, alloc, number, entry)?;
                rest = later;
                number += 1;
            }
            None => {
                add_entry(&mut aliases, alloc, number, rest)?;
                return Ok(aliases);
            }
        }
    }
}

/// The aliases of a whole modules.builtin.modinfo text that a name in normal form matches, in kmod's order. It fails only
/// if memory runs out.
pub(crate) fn matching_builtins(
    alloc: Global,
    text: &[u8],
    name: &[u8],
) -> Result<Vec<IndexLine>, AllocError>
    ensures { IfOk result (λ found. found.items ≡ in_order (matching_lines (builtin_aliases text.now) name.now)) }
{
    let aliases = read_builtin_aliases(alloc, text)?;
    let found = aliases.matching(alloc, name)?;
    copied(alloc, &in_order(alloc, &found)?)
}
