//! What the machine's texts and states say.
#![tactic(auto, unfolding(crate::specs::World::facts_of))]

ghost use Rattle.std.specs.Prelude.{◌≡◌, IfOk, option_copied, option_map};
ghost use Rattle.kmod_query.specs.Facts.{with_own};
ghost use Rattle.kmod_query.specs.Lines.{file_of as file_of_object};
ghost use Rattle.kmod_query.specs.Objects.{alias_of, names_of, object_of};
ghost use Rattle.kmod_query.specs.Paths.{own_file};
ghost use Rattle.kmod_query.specs.World.{facts_of, file_of};

use crate::object::Object;
use crate::paths::{AtPath, OwnFile, PathWord};
use crate::states::{ModuleStatus, States};
use kmod_conf::Conf;
use kmod_index::Index;
use kmod_names::Text;
use std::alloc::{AllocError, Global};
use text_parts::is_same;

/// What answers are made from: a configuration, the texts of a folder of modules, the states of modules, the name of that
/// folder, as it is printed before a module's file, and what stands at words that are paths of files. A word that is none
/// of `paths` is a name. `own` is a module whose file is another one than modules.dep says, if there is one.
#[derive(Clone, Copy)]
pub struct World<'a> {
    pub conf: &'a Conf,
    pub index: &'a Index<'a>,
    pub states: &'a States,
    pub directory: &'a [u8],
    pub paths: &'a [PathWord],
    pub own: Option<OwnFile<'a>>,
}

impl<'a> World<'a> {
    /// The same world, in which a module has this file. It is not built in then, and no line of its very name gives it a
    /// command.
    pub fn with_own(&self, own: OwnFile<'a>) -> World<'a>
        ensures { facts_of result ≡ with_own (facts_of self.now) own.entry.name.now own.entry.file.now }
    {
        World {
            own: Some(own),
            ..*self
        }
    }
}

fn copied_names(alloc: Global, texts: &[Text]) -> Result<Vec<Vec<u8>>, AllocError>
    ensures { IfOk result (λ names. names_of names.items ≡ texts.now) }
{
    let mut names = Vec::with_capacity(alloc, texts.len())?;
    'texts: for text in texts {
        names.push(Vec::from_slice(alloc, text.as_bytes())?)?;
    }
    Ok(names)
}

/// The modules that a module needs, in the order in which they are loaded.
pub(crate) fn needs_of(
    alloc: Global,
    world: &World,
    name: &[u8],
) -> Result<Vec<Vec<u8>>, AllocError>
    ensures { IfOk result (λ needs. names_of needs.items ≡ (facts_of world.now).needs name.now) }
{
    let needs = world.index.hard_needs(alloc, name)?;
    copied_names(alloc, &needs)
}

pub(crate) fn is_builtin(world: &World, name: &[u8]) -> bool
    ensures { result ≡ (facts_of world.now).is_builtin name.now }
{
    world.index.is_builtin(name)
}

pub(crate) fn is_blacklisted(world: &World, name: &[u8]) -> bool
    ensures { result ≡ (facts_of world.now).is_blacklisted name.now }
{
    world.conf.is_blacklisted(name)
}

pub(crate) fn status_of(world: &World, name: &[u8]) -> Option<ModuleStatus>
    ensures { result ≡ (facts_of world.now).status name.now }
{
    world.states.of(name)
}

/// The alias by which an object came.
pub(crate) fn alias_bytes(object: &Object) -> Option<&[u8]>
    ensures { option_map (λ text. text.now) result ≡ alias_of object.entry.now.alias }
{
    object.alias.as_deref()
}

/// What stands at a word, if it is the path of a module's file.
pub(crate) fn at_path<'a>(world: &World<'a>, word: &[u8]) -> Option<&'a AtPath>
    ensures { option_copied result ≡ (facts_of world.now).at_path word.now }
{
    let found = world
        .paths
        .iter()
        .find(|own| is_same(word, own.word.as_bytes()));
    match found {
        Some(own) => Some(&own.at),
        None => None,
    }
}

/// The file that stands for the one of modules.dep, if the module came by its own name and is the one that has such a file.
pub(crate) fn own_file<'a>(world: &World<'a>, name: &[u8], alias: Option<&[u8]>) -> Option<&'a [u8]>
    ensures { option_map (λ file. file.now) result ≡ own_file (facts_of world.now).own name.now (option_map (λ own. own.now) alias.entry) }
{
    match world.own {
        Some(own) if alias.is_none() && is_same(name, own.name) => Some(own.file),
        _ => None,
    }
}

/// The file of a path of modules.dep, which stands in this folder. It fails only if memory runs out.
pub fn file_of(alloc: Global, directory: &[u8], path: &[u8]) -> Result<Vec<u8>, AllocError>
    ensures { IfOk result (λ file. file.items ≡ file_of directory.now path.now) }
{
    if path.first() == Some(&b'/') {
        return Vec::from_slice(alloc, path);
    }
    let mut file = Vec::from_slice(alloc, directory)?;
    file.push(b'/')?;
    file.extend_from_slice(path)?;
    Ok(file)
}

/// The file of a module, as modules.dep says.
fn listed_path_of<'a>(
    alloc: Global,
    world: &World<'a>,
    name: &[u8],
) -> Result<Option<Vec<u8>>, AllocError>
    ensures { IfOk result (λ path. alias_of path ≡ (facts_of world.now).path name.now) }
{
    match world.index.find(name) {
        Some(line) => Ok(Some(file_of(alloc, world.directory, line.path())?)),
        None => Ok(None),
    }
}

/// The file of an object.
pub(crate) fn path_of<'a>(
    alloc: Global,
    world: &World<'a>,
    object: &Object,
) -> Result<Option<Vec<u8>>, AllocError>
    ensures { IfOk result (λ path. alias_of path ≡ file_of_object (facts_of world.now) (object_of object.now)) }
{
    match own_file(world, &object.name, alias_bytes(object)) {
        Some(file) => Ok(Some(Vec::from_slice(alloc, file)?)),
        None => listed_path_of(alloc, world, &object.name),
    }
}
