//! The lines of a modules.dep text.
ghost use Rattle.std.specs.Prelude.{◌≡◌, ◌++◌, map, slice_get, IfOk, OnOk};
ghost use Rattle.std.specs.Option.{option_to_list};
ghost use Rattle.kmod_index.specs.Dependencies.{dependencies_of, dependencies_of_line, line_of, name_of};
ghost use Rattle.kmod_names.specs.Places.{ArePlaces};

use crate::dep_line::{DepLine, OwnedLine};
use kmod_names::KeyPlaces;
use std::alloc::{AllocError, Global};
use std::marker::Model;
use text_parts::whole_lines;

/// The lines of a modules.dep text in order, found by the names of their modules.
#[derive(Drop)]
pub(crate) struct ModulesDep {
    lines: Vec<OwnedLine>,
    names: KeyPlaces,
}

impl Model for ModulesDep {
    ghost use Rattle.std.specs.Prelude.{List, map};
    ghost use Rattle.kmod_index.specs.Dependencies.{Dependencies, name_of};
    ghost use Rattle.kmod_names.specs.Places.{ArePlaces};

    ghost Value = { List Dependencies };

    ghost view = { λ dep. dep.lines.items };

    ghost invariant = { λ dep. ArePlaces dep.names (map name_of dep.lines.items) };
}

/// Adds a line, if it has a colon.
fn add_line(
    alloc: Global,
    lines: &mut Vec<OwnedLine>,
    names: &mut KeyPlaces,
    number: usize,
    line: &[u8],
) -> Result<(), AllocError>
    requires { ArePlaces names.old (map name_of lines.old.items) }
    ensures lines { OnOk result (lines.new.items ≡ lines.old.items ++ option_to_list (dependencies_of_line (number, line.now))) }
    ensures names { OnOk result (ArePlaces names.new (map name_of lines.new.items)) }
{
    let Some(read) = OwnedLine::read(alloc, number, line)? else {
        return Ok(());
    };
    let name = read.name(alloc)?;
    names.add(alloc, name.as_bytes(), lines.len())?;
    lines.push(read)?;
    Ok(())
}

/// The line at a place, None past the last.
fn line_at(lines: &[OwnedLine], place: usize) -> Option<DepLine<'_>>
    ensures { result ≡ slice_get lines.entry.now place }
{
    match lines.get(place) {
        Some(line) => Some(line.lent()),
        None => None,
    }
}

impl ModulesDep {
    /// The first line of the module of this name, None if it has none. Names have `_` for each `-`.
    pub(crate) fn find(&self, name: &[u8]) -> Option<DepLine<'_>>
        ensures { result ≡ line_of self.now name.now }
    {
        match self.names.of(name).first() {
            Some(place) => line_at(&self.lines, *place),
            None => None,
        }
    }
}

/// The lines of a whole modules.dep text. It fails only if memory runs out.
pub(crate) fn read_modules_dep(alloc: Global, text: &[u8]) -> Result<ModulesDep, AllocError>
    ensures { IfOk result (λ dep. dep ≡ dependencies_of text.now) }
{
    let mut found = Vec::new(alloc);
    let mut names = KeyPlaces::new(alloc);
    let mut lines = whole_lines(text);
    let mut number = 1usize;
    'lines: while let Some(line) = lines.next() {
        add_line(alloc, &mut found, &mut names, number, line)?;
        number += 1;
    }
    Ok(ModulesDep {
        lines: found,
        names,
    })
}
