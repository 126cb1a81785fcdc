//! The lines that load a module, with its options.
ghost use Rattle.std.specs.Prelude.{◌≡◌, ◌++◌, ◌∷◌, [], fold, map, IfOk, OnOk, option_copied};
ghost use Rattle.kmod_query.specs.Facts.{Facts};
ghost use Rattle.kmod_query.specs.Lines.{command_of, has_soft_items, is_built_in, is_commandless, is_in_kernel, is_live};
ghost use Rattle.kmod_query.specs.Lines.{joined, line, line_by, load_line, option_text, own_parameters};
ghost use Rattle.kmod_query.specs.Objects.{alias_of, object_of};
ghost use Rattle.kmod_query.specs.World.{facts_of, text_of};

use crate::commands::{install_line, text_in};
use crate::object::Object;
use crate::parameters::push_joined;
use crate::states::{ModuleState, ModuleStatus};
use crate::world::{World, alias_bytes, is_builtin, own_file, path_of, status_of};
use kmod_conf::TextLine;
use std::alloc::{AllocError, Global};

/// The texts of lines as one, with blanks between them.
fn joined_texts(alloc: Global, lines: &[&TextLine]) -> Result<Vec<u8>, AllocError>
    ensures { IfOk result (λ text. text.items ≡ fold joined [] (map text_of (map (λ line. line.now) lines.now))) }
{
    let mut text = Vec::new(alloc);
    'lines: for line in lines {
        push_joined(&mut text, line.text.as_bytes())?;
    }
    Ok(text)
}

/// The options of an object, and the parameters after them.
fn option_text(
    alloc: Global,
    world: &World,
    object: &Object,
    parameters: &[u8],
) -> Result<Vec<u8>, AllocError>
    ensures { IfOk result (λ text. text.items ≡ option_text (facts_of world.now) (object_of object.now) parameters.now) }
{
    let lines = world
        .conf
        .options_of(alloc, &object.name, alias_bytes(object))?;
    let mut text = joined_texts(alloc, &lines)?;
    push_joined(&mut text, parameters)?;
    Ok(text)
}

pub(crate) fn is_built_in(world: &World, object: &Object) -> bool
    ensures { result ≡ is_built_in (facts_of world.now) (object_of object.now) }
{
    if object.builtin {
        return true;
    }
    own_file(world, &object.name, alias_bytes(object)).is_none() && is_builtin(world, &object.name)
}

fn is_live(status: Option<ModuleStatus>) -> bool
    ensures { result ≡ is_live status }
{
    match status {
        Some(status) => matches!(status.state, ModuleState::Live),
        None => false,
    }
}

/// Whether the kernel has it now.
pub(crate) fn is_in_kernel(world: &World, object: &Object) -> bool
    ensures { result ≡ is_in_kernel (facts_of world.now) (object_of object.now) }
{
    is_built_in(world, object) || is_live(status_of(world, &object.name))
}

/// Whether the install line of an object is passed over.
fn is_commandless(bare: bool, top: &Object, object: &Object, has_soft: bool) -> bool
    ensures { (facts : Facts) → has_soft ≡ has_soft_items facts (object_of object.now).name
        → result ≡ is_commandless facts bare (object_of top.now) (object_of object.now) }
{
    (bare && object.is_same(top)) || has_soft
}

fn command_of<'a>(
    alloc: Global,
    world: &World<'a>,
    bare: bool,
    top: &Object,
    object: &Object,
    has_soft: bool,
) -> Result<Option<&'a [u8]>, AllocError>
    requires { has_soft ≡ has_soft_items (facts_of world.now) (object_of object.now).name }
    ensures { IfOk result (λ command. option_copied command ≡ command_of (facts_of world.now) bare (object_of top.now) (object_of object.now)) }
{
    if is_commandless(bare, top, object, has_soft) {
        return Ok(None);
    }
    let line = install_line(alloc, world, &object.name, alias_bytes(object))?;
    Ok(text_in(line))
}

/// Adds a line.
pub(crate) fn push_line(
    text: &mut Vec<u8>,
    verb: &[u8],
    what: &[u8],
    options: &[u8],
) -> Result<(), AllocError>
    ensures { OnOk result (text.new.items ≡ text.old.items ++ line verb.now what.now options.now) }
{
    text.extend_from_slice(verb)?;
    text.extend_from_slice(what)?;
    text.push(b' ')?;
    text.extend_from_slice(options)?;
    text.extend_from_slice(b"\n")
}

fn line(alloc: Global, verb: &[u8], what: &[u8], options: &[u8]) -> Result<Vec<u8>, AllocError>
    ensures { IfOk result (λ text. text.items ≡ line verb.now what.now options.now) }
{
    let mut text = Vec::new(alloc);
    push_line(&mut text, verb, what, options)?;
    Ok(text)
}

/// Adds a line of a name alone, with what stands before it.
pub(crate) fn push_name(lines: &mut Vec<u8>, front: &[u8], name: &[u8]) -> Result<(), AllocError>
    ensures { OnOk result (lines.new.items ≡ lines.old.items ++ front.now ++ name.now ++ (10 ∷ [])) }
{
    lines.extend_from_slice(front)?;
    lines.extend_from_slice(name)?;
    lines.extend_from_slice(b"\n")
}

pub(crate) fn name_line(alloc: Global, front: &[u8], name: &[u8]) -> Result<Vec<u8>, AllocError>
    ensures { IfOk result (λ text. text.items ≡ front.now ++ name.now ++ (10 ∷ [])) }
{
    let mut text = Vec::new(alloc);
    push_name(&mut text, front, name)?;
    Ok(text)
}

/// The line by the command and the file. Without these it is that of a built-in, or empty.
fn line_by(
    alloc: Global,
    world: &World,
    object: &Object,
    command: Option<&[u8]>,
    path: Option<Vec<u8>>,
    options: &[u8],
) -> Result<Vec<u8>, AllocError>
    ensures { IfOk result (λ text. text.items ≡ line_by (option_copied command.entry) (alias_of path)
        (is_built_in (facts_of world.now) (object_of object.now)) (object_of object.now).name options.now) }
{
    match (command, path) {
        (Some(command), _) => line(alloc, b"install ", command, options),
        (None, Some(path)) => line(alloc, b"insmod ", &path, options),
        (None, None) => {
            if is_built_in(world, object) {
                return name_line(alloc, b"builtin ", &object.name);
            }
            Ok(Vec::new(alloc))
        }
    }
}

fn own_parameters<'a>(top: &Object, object: &Object, parameters: &'a [u8]) -> &'a [u8]
    ensures { result.now ≡ own_parameters (object_of top.now) (object_of object.now) parameters.entry.now }
{
    if object.is_same(top) {
        parameters
    } else {
        &parameters[..0]
    }
}

/// The line of an object in the load of another; `has_soft` says whether it has soft items.
pub(crate) fn load_line<'a>(
    alloc: Global,
    world: &World<'a>,
    bare: bool,
    parameters: &[u8],
    top: &Object,
    object: &Object,
    has_soft: bool,
) -> Result<Vec<u8>, AllocError>
    requires { has_soft ≡ has_soft_items (facts_of world.now) (object_of object.now).name }
    ensures { IfOk result (λ text. text.items ≡ load_line (facts_of world.now) bare parameters.now (object_of top.now) (object_of object.now)) }
{
    let command = command_of(alloc, world, bare, top, object, has_soft)?;
    let path = path_of(alloc, world, object)?;
    let options = option_text(
        alloc,
        world,
        object,
        own_parameters(top, object, parameters),
    )?;
    line_by(alloc, world, object, command, path, &options)
}
