//! The lines that remove an object.
ghost use Rattle.std.specs.Prelude.{◌≡◌, ◌++◌, ◌∷◌, [], codes, IfOk, OnOk};
ghost use Rattle.std.specs.List.{flat_map};
ghost use Rattle.kmod_query.specs.Objects.{names_of, object_of};
ghost use Rattle.kmod_query.specs.Removal.{removal_lines, rmmod_line, unmarked, unused_line};
ghost use Rattle.kmod_query.specs.World.{facts_of};

use crate::asked::Asked;
use crate::lines::push_name;
use crate::object::Object;
use crate::removal_check::{has_no_users, removal_command, shows_removal};
use crate::world::{World, needs_of, status_of};
use std::alloc::{AllocError, Global};

/// Adds a command without the mark that stands for options.
fn push_unmarked(text: &mut Vec<u8>, command: &[u8]) -> Result<(), AllocError>
    ensures { OnOk result (text.new.items ≡ text.old.items ++ unmarked command.now) }
{
    let mut skipped = 0usize;
    let mut rest = command;
    'bytes: while let Some((byte, later)) = rest.split_first() {
        if skipped > 0 {
            skipped -= 1;
        } else if rest.starts_with(b"$CMDLINE_OPTS") {
            skipped = 12;
        } else {
            text.push(*byte)?;
        }
        rest = later;
    }
    Ok(())
}

fn push_unused(lines: &mut Vec<u8>, world: &World, name: &[u8]) -> Result<(), AllocError>
    ensures { OnOk result (lines.new.items ≡ lines.old.items ++ unused_line (facts_of world.now) name.now) }
{
    if has_no_users(status_of(world, name)) {
        return push_name(lines, b"rmmod ", name);
    }
    Ok(())
}

/// Adds the lines that remove those of the modules that have no users.
fn push_all_unused(lines: &mut Vec<u8>, world: &World, names: &[Vec<u8>]) -> Result<(), AllocError>
    ensures { OnOk result (lines.new.items ≡ lines.old.items ++ flat_map (unused_line (facts_of world.now)) (names_of names.now)) }
{
    'names: for name in names {
        push_unused(lines, world, name)?;
    }
    Ok(())
}

pub(crate) fn push_command(lines: &mut Vec<u8>, command: &[u8]) -> Result<(), AllocError>
    ensures { OnOk result (lines.new.items ≡ lines.old.items ++ codes "remove " ++ unmarked command.now ++ (10 ∷ [])) }
{
    lines.extend_from_slice(b"remove ")?;
    push_unmarked(lines, command)?;
    lines.extend_from_slice(b"\n")
}

fn push_module(
    alloc: Global,
    lines: &mut Vec<u8>,
    world: &World,
    object: &Object,
) -> Result<(), AllocError>
    ensures { OnOk result (lines.new.items ≡ lines.old.items ++ rmmod_line (object_of object.now).name
        ++ flat_map (unused_line (facts_of world.now)) ((facts_of world.now).needs (object_of object.now).name)) }
{
    push_name(lines, b"rmmod ", &object.name)?;
    let needs = needs_of(alloc, world, &object.name)?;
    push_all_unused(lines, world, &needs)
}

/// The lines that remove an object.
pub(crate) fn removal_lines(asked: &Asked, object: &Object) -> Result<Vec<u8>, AllocError>
    ensures { IfOk result (λ text. text.items ≡ removal_lines (facts_of asked.now.world) asked.now.query (object_of object.now)) }
{
    if !shows_removal(&asked.query) {
        return Ok(Vec::new(asked.alloc));
    }
    let mut lines = Vec::new(asked.alloc);
    match removal_command(asked, object)? {
        Some(command) => push_command(&mut lines, command)?,
        None => push_module(asked.alloc, &mut lines, &asked.world, object)?,
    }
    Ok(lines)
}
