//! Reads a modules.dep text.
ghost use Rattle.std.specs.Prelude.{◌≡◌, Ok, MatchResult};
ghost use Rattle.std.specs.List.{list_any};
ghost use Rattle.std.specs.Str.{bytes_eq};
ghost use Rattle.std.specs.Str.Lines.{lines};
ghost use Rattle.dep_index.specs.Dependencies.{Pair, dependencies_of, dep_line, is_empty, with_pair};
ghost use Rattle.dep_index.specs.Faults.{IsDepMade, IsFirstDepFault};
ghost use Rattle.dep_index.specs.Dependencies.Pairs.{pairs_in};

use crate::dependencies::DepIndex;
use crate::dependencies::paths::{name_of, names_of, split_at_colon, trimmed};
use crate::faults::{DepError, DepRefused};
use indexmap::IndexMap;
use std::alloc::Global;
use text_parts::{Name, find_words, has_word, is_comment, whole_lines};

fn has_no_bytes(name: &[u8]) -> bool
    ensures { result ≡ is_empty name.now }
{
    name.is_empty()
}

fn has_empty(names: &[Name]) -> bool
    ensures { result ≡ list_any is_empty names.now }
{
    names.iter().any(|name| has_no_bytes(name.as_bytes()))
}

fn is_among(index: &IndexMap<Vec<u8>, Vec<Name>>, name: &[u8]) -> bool
    ensures { result ≡ list_any (λ p. bytes_eq name.now p.0) (pairs_in index.now.entries) }
{
    index.contains_key(name)
}

/// Adds the line of the name.
fn add(
    index: &mut IndexMap<Vec<u8>, Vec<Name>>,
    name: Name,
    names: Vec<Name>,
) -> Result<(), DepRefused>
    ensures { IsDepMade result (with_pair (pairs_in index.old.entries) (name, names.items)) (pairs_in index.new.entries) }
{
    if has_no_bytes(name.as_bytes()) || has_empty(&names) {
        return Err(DepRefused::EmptyName);
    }
    if is_among(index, name.as_bytes()) {
        return Err(DepRefused::SecondLine);
    }
    index.insert(name.into_bytes(), names)?;
    Ok(())
}

/// Takes one line. The paths behind its colon are put into `paths`, in place of those of an earlier line.
fn read_line<'a>(
    index: &mut IndexMap<Vec<u8>, Vec<Name>>,
    alloc: Global,
    paths: &mut Vec<&'a [u8]>,
    line: &'a [u8],
) -> Result<(), DepRefused>
    ensures { IsDepMade result (dep_line (pairs_in index.old.entries) line.now) (pairs_in index.new.entries) }
{
    if is_comment(line) || !has_word(line) {
        return Ok(());
    }
    let Some((path, rest)) = split_at_colon(line) else {
        return Err(DepRefused::NoColon);
    };
    find_words(paths, rest)?;
    let name = name_of(alloc, trimmed(path))?;
    let names = names_of(alloc, paths)?;
    add(index, name, names)
}

/// The dependencies that a modules.dep text (depmod(8)) gives, or its first fault with its line. Lines without a
/// word and lines whose first byte is `#` say nothing; in every other the part before the first `:` is a path, and
/// the words behind it are the paths that it depends on. A path's name is its last part behind `/`, up to its first
/// `.`, in normal form. Names need not be in a catalogue, and repeats are kept.
pub fn read_dep(alloc: Global, text: &[u8]) -> Result<DepIndex, DepError>
    ensures { MatchResult result (λ index. dependencies_of text.now ≡ Ok index) (λ e. IsFirstDepFault e (dependencies_of text.now)) }
{
    let mut index = IndexMap::new(alloc);
    let mut paths = Vec::new(alloc);
    let mut lines = whole_lines(text);
    let mut number: usize = 1;
    while let Some(line) = lines.next() {
        if let Err(refused) = read_line(&mut index, alloc, &mut paths, line) {
            return Err(refused.at(number));
        }
        number += 1;
    }
    Ok(DepIndex::new(index))
}
