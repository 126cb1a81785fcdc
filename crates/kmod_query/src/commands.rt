//! The lines of a module that have its commands.
#![tactic(auto, unfolding(crate::specs::World::facts_of))]

ghost use Rattle.std.specs.Prelude.{◌≡◌, ◌&&◌, IfOk, is_none, option_copied, option_map};
ghost use Rattle.kmod_query.specs.CommandLines.{install_line, own_install_line, own_remove_line, remove_line};
ghost use Rattle.kmod_query.specs.Commands.{install_of, is_unlisted, own_install, own_remove, remove_of};
ghost use Rattle.kmod_query.specs.World.{facts_of, text_of};

use crate::world::{World, own_file};
use kmod_conf::TextLine;
use std::alloc::{AllocError, Global};

/// Whether a module came by its own name, modules.dep does not have it, and no file stands for that of modules.dep.
fn is_unlisted(world: &World, name: &[u8], alias: Option<&[u8]>) -> bool
    ensures { result ≡ is_unlisted (facts_of world.now) name.now (option_map (λ own. own.now) alias.entry) }
{
    alias.is_none() && world.index.find(name).is_none() && own_file(world, name, alias).is_none()
}

/// The install line by which a module was found. Few names have one, so modules.dep is asked last.
fn own_install<'a>(world: &World<'a>, name: &[u8], alias: Option<&[u8]>) -> Option<&'a TextLine>
    ensures line { option_copied result ≡ own_install_line world.now name.now (option_map (λ own. own.now) alias.entry) }
    ensures text { option_map text_of (option_copied result) ≡ own_install (facts_of world.now) name.now (option_map (λ own. own.now) alias.entry) }
{
    match world.conf.install_named(name) {
        Some(line) if is_unlisted(world, name, alias) => Some(line),
        _ => None,
    }
}

/// Whether a remove line of just its name is that by which a module was found.
fn is_own_remove(world: &World, name: &[u8], alias: Option<&[u8]>) -> bool
    ensures { result ≡ (is_unlisted (facts_of world.now) name.now (option_map (λ own. own.now) alias.entry) && is_none ((facts_of world.now).install_named name.now)) }
{
    is_unlisted(world, name, alias) && world.conf.install_named(name).is_none()
}

/// The remove line by which a module was found, if no install line has its name.
fn own_remove<'a>(world: &World<'a>, name: &[u8], alias: Option<&[u8]>) -> Option<&'a TextLine>
    ensures line { option_copied result ≡ own_remove_line world.now name.now (option_map (λ own. own.now) alias.entry) }
    ensures text { option_map text_of (option_copied result) ≡ own_remove (facts_of world.now) name.now (option_map (λ own. own.now) alias.entry) }
{
    match world.conf.remove_named(name) {
        Some(line) if is_own_remove(world, name, alias) => Some(line),
        _ => None,
    }
}

/// The install line that counts for a module if it has no soft items, by the module's name and the alias by which it
/// came: the line of just this name that found it, or else the first whose pattern matches. It fails only if memory runs
/// out.
pub fn install_line<'a>(
    alloc: Global,
    world: &World<'a>,
    name: &[u8],
    alias: Option<&[u8]>,
) -> Result<Option<&'a TextLine>, AllocError>
    ensures line { IfOk result (λ line. option_copied line ≡ install_line world.now name.now (option_map (λ own. own.now) alias.entry)) }
    ensures text { IfOk result (λ line. option_map text_of (option_copied line)
        ≡ install_of (facts_of world.now) name.now (option_map (λ own. own.now) alias.entry)) }
{
    match own_install(world, name, alias) {
        Some(line) => Ok(Some(line)),
        None => world.conf.install_of(alloc, name),
    }
}

/// The remove line whose command removes a module, by the module's name and the alias by which it came: the line of just
/// this name that found it, or else the first whose pattern matches. It fails only if memory runs out.
pub fn remove_line<'a>(
    alloc: Global,
    world: &World<'a>,
    name: &[u8],
    alias: Option<&[u8]>,
) -> Result<Option<&'a TextLine>, AllocError>
    ensures line { IfOk result (λ line. option_copied line ≡ remove_line world.now name.now (option_map (λ own. own.now) alias.entry)) }
    ensures text { IfOk result (λ line. option_map text_of (option_copied line)
        ≡ remove_of (facts_of world.now) name.now (option_map (λ own. own.now) alias.entry)) }
{
    match own_remove(world, name, alias) {
        Some(line) => Ok(Some(line)),
        None => world.conf.remove_of(alloc, name),
    }
}

/// The text of a line, if there is one.
pub(crate) fn text_in(line: Option<&TextLine>) -> Option<&[u8]>
    ensures { option_copied result ≡ option_map text_of (option_copied line.entry) }
{
    match line {
        Some(line) => Some(line.text.as_bytes()),
        None => None,
    }
}
