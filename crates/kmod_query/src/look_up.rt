//! Which list has a name, and which modules it stands for.
#![tactic(auto, unfolding(crate::specs::World::facts_of))]

ghost use Rattle.std.specs.Prelude.{◌≡◌, map, IfOk, IfSome, is_some};
ghost use Rattle.kmod_query.specs.Early.{is_found_early};
ghost use Rattle.kmod_query.specs.Lines.{has_soft_items};
ghost use Rattle.kmod_query.specs.LookUp.{found, look_up, look_up_each};
ghost use Rattle.kmod_query.specs.Objects.{objects_of};
ghost use Rattle.kmod_query.specs.Probes.{after_of, before_of};
ghost use Rattle.kmod_query.specs.Reasons.{aliased_reason, exported_reason, exporters_of, found_by, reason_of, said_by};
ghost use Rattle.kmod_query.specs.World.{facts_of, name_of};

use crate::finding::Finding;
use crate::object::Object;
use crate::world::{World, is_builtin};
use kmod_index::IndexLine;
use kmod_names::{Text, normal_alias};
use std::alloc::{AllocError, Global};

/// The lines of modules.symbols of a name, if it is that of a symbol.
fn exporters(alloc: Global, world: &World, name: &[u8]) -> Result<Vec<IndexLine>, AllocError>
    ensures { IfOk result (λ lines. map name_of lines.items ≡ exporters_of (facts_of world.now) name.now) }
{
    if name.starts_with(b"symbol:") {
        world.index.symbols_of_key(alloc, name)
    } else {
        Ok(Vec::new(alloc))
    }
}

/// The first of modules.alias, modules.builtin and modules.builtin.modinfo that has a name.
fn aliased_list<'a>(
    alloc: Global,
    world: &World<'a>,
    name: &[u8],
) -> Result<Finding<'a>, AllocError>
    ensures { IfOk result (λ finding. said_by world.now finding ≡ aliased_reason (facts_of world.now) name.now) }
{
    let lines = world.index.matching_aliases(alloc, name)?;
    if lines.len() > 0 {
        return Ok(Finding::Aliased(lines));
    }
    if is_builtin(world, name) {
        return Ok(Finding::BuiltIn);
    }
    let lines = world.index.builtin_aliases(alloc, name)?;
    if lines.len() > 0 {
        return Ok(Finding::AliasedBuiltIn(lines));
    }
    Ok(Finding::Nothing)
}

/// The first of modules.symbols, the commands and the lists after them that has a name.
fn exported_list<'a>(
    alloc: Global,
    world: &World<'a>,
    name: &[u8],
) -> Result<Finding<'a>, AllocError>
    ensures { IfOk result (λ finding. said_by world.now finding ≡ exported_reason (facts_of world.now) name.now) }
{
    let lines = exporters(alloc, world, name)?;
    if lines.len() > 0 {
        return Ok(Finding::Exported(lines));
    }
    if world.conf.has_install_named(name) || world.conf.has_remove_named(name) {
        return Ok(Finding::Commanded);
    }
    aliased_list(alloc, world, name)
}

/// The first of the configuration's aliases and modules.dep that has a name; None if neither has it.
pub(crate) fn early_list<'a>(
    alloc: Global,
    world: &World<'a>,
    name: &[u8],
) -> Result<Option<Finding<'a>>, AllocError>
    ensures early { IfOk result (λ own. is_some own ≡ is_found_early (facts_of world.now) name.now) }
    ensures list { IfOk result (λ own. IfSome own (λ finding. said_by world.now finding ≡ reason_of (facts_of world.now) name.now)) }
{
    let entries = world.conf.matching_aliases(alloc, name)?;
    if entries.len() > 0 {
        return Ok(Some(Finding::Configured(entries)));
    }
    match world.index.find(name) {
        Some(line) => Ok(Some(Finding::Module(line))),
        None => Ok(None),
    }
}

/// The first list that has a name.
fn first_list<'a>(alloc: Global, world: &World<'a>, name: &[u8]) -> Result<Finding<'a>, AllocError>
    ensures { IfOk result (λ finding. said_by world.now finding ≡ reason_of (facts_of world.now) name.now) }
{
    match early_list(alloc, world, name)? {
        Some(finding) => Ok(finding),
        None => exported_list(alloc, world, name),
    }
}

/// The first list that has a name in normal form, in the order in which `answer_to` looks it up (modprobe(8)). The name
/// stands for the modules of that list. It fails only if memory runs out.
pub fn find_name<'a>(
    alloc: Global,
    world: &World<'a>,
    name: &[u8],
) -> Result<Finding<'a>, AllocError>
    ensures list { IfOk result (λ finding. said_by world.now finding ≡ reason_of (facts_of world.now) name.now) }
    ensures modules { IfOk result (λ finding. found_by name.now finding ≡ found (facts_of world.now) name.now) }
{
    first_list(alloc, world, name)
}

/// What a name in normal form stands for.
pub(crate) fn found(alloc: Global, world: &World, name: &[u8]) -> Result<Vec<Object>, AllocError>
    ensures { IfOk result (λ objects. objects_of objects.items ≡ found (facts_of world.now) name.now) }
{
    find_name(alloc, world, name)?.objects(alloc, name)
}

/// What a word stands for: no module, if it is no name. It fails only if memory runs out.
pub fn find_word(alloc: Global, world: &World, word: &[u8]) -> Result<Vec<Object>, AllocError>
    ensures { IfOk result (λ objects. objects_of objects.items ≡ look_up (facts_of world.now) word.now) }
{
    match normal_alias(alloc, word)? {
        Some(name) => found(alloc, world, name.as_bytes()),
        None => Ok(Vec::new(alloc)),
    }
}

/// What words stand for, in their order.
fn look_up_each(alloc: Global, world: &World, words: &[Text]) -> Result<Vec<Object>, AllocError>
    ensures { IfOk result (λ objects. objects_of objects.items ≡ look_up_each (facts_of world.now) words.now) }
{
    let mut found = Vec::new(alloc);
    'words: for word in words {
        let mut own = find_word(alloc, world, word.as_bytes())?;
        found.append(&mut own)?;
    }
    Ok(found)
}

/// The side of a module on which soft items stand.
#[derive(Clone, Copy)]
pub(crate) enum Place {
    Before,
    After,
}

/// The soft items of a module.
#[derive(Drop)]
pub(crate) struct SoftItems {
    pub(crate) before: Vec<Object>,
    pub(crate) after: Vec<Object>,
}

/// The soft items of a module.
pub(crate) fn soft_items(alloc: Global, world: &World, name: &[u8]) -> Result<SoftItems, AllocError>
    ensures before { IfOk result (λ items. objects_of items.before.items ≡ before_of (facts_of world.now) name.now) }
    ensures after { IfOk result (λ items. objects_of items.after.items ≡ after_of (facts_of world.now) name.now) }
{
    match world.conf.softdep_of(alloc, name)? {
        Some(line) => Ok(SoftItems {
            before: look_up_each(alloc, world, line.items.pre())?,
            after: look_up_each(alloc, world, line.items.post())?,
        }),
        None => Ok(SoftItems {
            before: Vec::new(alloc),
            after: Vec::new(alloc),
        }),
    }
}

/// Whether a module has soft items. It fails only if memory runs out.
pub fn has_soft_items(alloc: Global, world: &World, name: &[u8]) -> Result<bool, AllocError>
    ensures { IfOk result (λ has. has ≡ has_soft_items (facts_of world.now) name.now) }
{
    let items = soft_items(alloc, world, name)?;
    Ok(items.before.len() > 0 || items.after.len() > 0)
}
