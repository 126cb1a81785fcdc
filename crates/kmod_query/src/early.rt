//! Whether an answer does not depend on modules.alias and modules.symbols, or not on modules.symbols.
#![tactic(auto, unfolding(crate::specs::World::facts_of))]

ghost use Rattle.std.specs.Prelude.{◌≡◌, IfOk};
ghost use Rattle.std.specs.List.{list_all, list_any};
ghost use Rattle.text_parts.specs.Text.{texts_of};
ghost use Rattle.kmod_names.specs.Names.{name_of_path, normal_alias};
ghost use Rattle.kmod_query.specs.Early.{has_words, is_early, is_early_by, is_early_first, is_early_name, is_early_word, loads, stands_alone};
ghost use Rattle.kmod_query.specs.Early.{are_plain, is_plain_first, is_plain_word, is_symbolless};
ghost use Rattle.kmod_query.specs.Objects.{by_name, names_of, object_of, objects_of};
ghost use Rattle.kmod_query.specs.World.{facts_of};

use crate::look_up::early_list;
use crate::object::Object;
use crate::paths::AtPath;
use crate::query::{Ask, Query};
use crate::world::{World, at_path, needs_of};
use kmod_names::{name_of_path, normal_alias};
use std::alloc::{AllocError, Global};

/// Whether a softdep line has words before or after a module.
fn has_words(alloc: Global, world: &World, name: &[u8]) -> Result<bool, AllocError>
    ensures { IfOk result (λ has. has ≡ has_words (facts_of world.now) name.now) }
{
    match world.conf.softdep_of(alloc, name)? {
        Some(line) => Ok(line.items.pre().len() > 0 || line.items.post().len() > 0),
        None => Ok(false),
    }
}

/// Whether a softdep line has words for one of these modules.
fn any_has_words(alloc: Global, world: &World, names: &[Vec<u8>]) -> Result<bool, AllocError>
    ensures { IfOk result (λ has. has ≡ list_any (has_words (facts_of world.now)) (names_of names.now)) }
{
    let mut rest = names;
    'names: while let Some((name, later)) = rest.split_first() {
        if has_words(alloc, world, name)? {
            return Ok(true);
        }
        rest = later;
    }
    Ok(false)
}

/// Whether no softdep line has words for a module or for what it needs.
fn stands_alone(alloc: Global, world: &World, object: &Object) -> Result<bool, AllocError>
    ensures { IfOk result (λ is_alone. is_alone ≡ stands_alone (facts_of world.now) (object_of object.now)) }
{
    if has_words(alloc, world, &object.name)? {
        return Ok(false);
    }
    let needs = needs_of(alloc, world, &object.name)?;
    Ok(!any_has_words(alloc, world, &needs)?)
}

fn stand_alone(alloc: Global, world: &World, objects: &[Object]) -> Result<bool, AllocError>
    ensures { IfOk result (λ are_alone. are_alone ≡ list_all (stands_alone (facts_of world.now)) (objects_of objects.now)) }
{
    let mut rest = objects;
    'objects: while let Some((object, later)) = rest.split_first() {
        if !stands_alone(alloc, world, object)? {
            return Ok(false);
        }
        rest = later;
    }
    Ok(true)
}

fn is_early_name(alloc: Global, world: &World, name: &[u8]) -> Result<bool, AllocError>
    ensures { IfOk result (λ is_early. is_early ≡ is_early_name (facts_of world.now) name.now) }
{
    let Some(finding) = early_list(alloc, world, name)? else {
        return Ok(false);
    };
    let objects = finding.objects(alloc, name)?;
    stand_alone(alloc, world, &objects)
}

/// Whether no softdep line has words for the module of a file or for what it needs, by the path of the file.
fn is_early_file(alloc: Global, world: &World, word: &[u8]) -> Result<bool, AllocError>
    ensures { IfOk result (λ is_early. is_early ≡ stands_alone (facts_of world.now) (by_name (name_of_path word.now))) }
{
    let name = name_of_path(alloc, word)?;
    let object = Object::by_name(alloc, name.as_bytes())?;
    stands_alone(alloc, world, &object)
}

/// Whether a word that is no path is early.
fn is_early_text(alloc: Global, world: &World, word: &[u8]) -> Result<bool, AllocError>
    ensures { IfOk result (λ is_early. is_early ≡ is_early_by (facts_of world.now) (normal_alias word.now)) }
{
    match normal_alias(alloc, word)? {
        Some(name) => is_early_name(alloc, world, name.as_bytes()),
        None => Ok(true),
    }
}

fn is_early_word(alloc: Global, world: &World, word: &[u8]) -> Result<bool, AllocError>
    ensures { IfOk result (λ is_early. is_early ≡ is_early_word (facts_of world.now) word.now) }
{
    match at_path(world, word) {
        Some(AtPath::File(_)) => is_early_file(alloc, world, word),
        Some(AtPath::Nothing(_)) => Ok(true),
        None => is_early_text(alloc, world, word),
    }
}

fn are_early_words(alloc: Global, world: &World, words: &[&[u8]]) -> Result<bool, AllocError>
    ensures { IfOk result (λ are_early. are_early ≡ list_all (is_early_word (facts_of world.now)) (texts_of words.now)) }
{
    'words: for word in words {
        if !is_early_word(alloc, world, word)? {
            return Ok(false);
        }
    }
    Ok(true)
}

fn is_early_first(alloc: Global, world: &World, words: &[&[u8]]) -> Result<bool, AllocError>
    ensures { IfOk result (λ is_early. is_early ≡ is_early_first (facts_of world.now) (texts_of words.now)) }
{
    match words.first() {
        Some(word) => is_early_word(alloc, world, word),
        None => Ok(true),
    }
}

/// Whether something is loaded or resolved.
fn loads(ask: Ask) -> bool
    ensures { result ≡ loads ask }
{
    match ask {
        Ask::ShowDepends | Ask::DryRun | Ask::Resolve => true,
        Ask::Remove | Ask::ShowRemoval | Ask::ShowConfig => false,
    }
}

/// Whether the answer to a query is seen to depend on neither modules.alias nor modules.symbols: each name that is asked for is
/// an alias of the configuration, a module of modules.dep or a path, and no softdep line has words for what is loaded. By
/// `later_texts_do_not_count` the answer is then the same whatever these two texts say. It fails only if memory runs out.
pub fn is_early(alloc: Global, world: &World, query: &Query) -> Result<bool, AllocError>
    ensures { IfOk result (λ early. early ≡ is_early (facts_of world.now) query.now (texts_of query.now.words.now)) }
{
    if !loads(query.ask) {
        return Ok(false);
    }
    if query.all {
        return are_early_words(alloc, world, query.words);
    }
    is_early_first(alloc, world, query.words)
}

/// Whether a word is not the name of a symbol.
fn is_plain_word(alloc: Global, word: &[u8]) -> Result<bool, AllocError>
    ensures { IfOk result (λ is_plain. is_plain ≡ is_plain_word word.now) }
{
    match normal_alias(alloc, word)? {
        Some(name) => Ok(!name.as_bytes().starts_with(b"symbol:")),
        None => Ok(true),
    }
}

fn are_plain_words(alloc: Global, words: &[&[u8]]) -> Result<bool, AllocError>
    ensures { IfOk result (λ are_plain. are_plain ≡ list_all is_plain_word (texts_of words.now)) }
{
    'words: for word in words {
        if !is_plain_word(alloc, word)? {
            return Ok(false);
        }
    }
    Ok(true)
}

fn is_plain_first(alloc: Global, words: &[&[u8]]) -> Result<bool, AllocError>
    ensures { IfOk result (λ is_plain. is_plain ≡ is_plain_first (texts_of words.now)) }
{
    match words.first() {
        Some(word) => is_plain_word(alloc, word),
        None => Ok(true),
    }
}

/// Whether no name that is asked for is that of a symbol.
fn are_plain(alloc: Global, query: &Query) -> Result<bool, AllocError>
    ensures { IfOk result (λ plain. plain ≡ are_plain query.now (texts_of query.now.words.now)) }
{
    if query.all {
        return are_plain_words(alloc, query.words);
    }
    is_plain_first(alloc, query.words)
}

/// Whether a query resolves names none of which is that of a symbol. By `symbols_do_not_count` the answer is then the same
/// whatever modules.symbols says. It fails only if memory runs out.
pub fn is_symbolless(alloc: Global, query: &Query) -> Result<bool, AllocError>
    ensures { IfOk result (λ symbolless. symbolless ≡ is_symbolless query.now (texts_of query.now.words.now)) }
{
    match query.ask {
        Ask::Resolve => are_plain(alloc, query),
        _ => Ok(false),
    }
}
