//! Modules that are built in.
ghost use Rattle.std.specs.Prelude.{◌≡◌, ◌++◌, slice_index, IfOk, OnOk};
ghost use Rattle.std.specs.Option.{option_to_list};
ghost use Rattle.text_parts.specs.Text.{is_letter};
ghost use Rattle.kmod_index.specs.Builtins.{builtin_name, builtin_names, is_among};
ghost use Rattle.kmod_names.specs.Places.{ArePlaces};

use crate::path_names::is_name_of_path;
use kmod_names::{KeyPlaces, Text, name_of_path};
use std::alloc::{AllocError, Global};
use std::marker::Model;
use text_parts::whole_lines;

/// The names of the modules that are built in, in the order of modules.builtin.
#[derive(Drop)]
pub(crate) struct Builtins {
    names: Vec<Text>,
    places: KeyPlaces,
}

impl Model for Builtins {
    ghost use Rattle.std.specs.Prelude.{List, ℕ};
    ghost use Rattle.kmod_names.specs.Places.{ArePlaces};

    ghost Value = { List (List ℕ) };

    ghost view = { λ builtins. builtins.names.items };

    ghost invariant = { λ builtins. ArePlaces builtins.places builtins.names.items };
}

/// Whether the first byte of a line is a letter.
fn begins_with_letter(line: &[u8]) -> bool
    ensures { result ≡ is_letter (slice_index line.now 0) }
{
    matches!(line.first(), Some(byte) if byte.is_ascii_alphabetic())
}

/// Adds the name in a line's path, if it has one.
fn add_line(
    alloc: Global,
    names: &mut Vec<Text>,
    places: &mut KeyPlaces,
    line: &[u8],
) -> Result<(), AllocError>
    requires { ArePlaces places.old names.old.items }
    ensures names { OnOk result (names.new.items ≡ names.old.items ++ option_to_list (builtin_name line.now)) }
    ensures places { OnOk result (ArePlaces places.new names.new.items) }
{
    if !begins_with_letter(line) {
        return Ok(());
    }
    let name = name_of_path(alloc, line)?;
    places.add(alloc, name.as_bytes(), names.len())?;
    names.push(name)?;
    Ok(())
}

/// Whether a line has the path of a module of this name.
fn is_line_of(line: &[u8], name: &[u8]) -> bool
    ensures { result ≡ is_among (option_to_list (builtin_name line.now)) name.now }
{
    begins_with_letter(line) && is_name_of_path(name, line)
}

/// Whether a modules.builtin text has the module of this name. Names have `_` for each `-`.
pub(crate) fn is_builtin_in(text: &[u8], name: &[u8]) -> bool
    ensures { result ≡ is_among (builtin_names text.now) name.now }
{
    let mut lines = whole_lines(text);
    'lines: while let Some(line) = lines.next() {
        if is_line_of(line, name) {
            return true;
        }
    }
    false
}

impl Builtins {
    /// Whether the module of this name is built in. Names have `_` for each `-`.
    pub(crate) fn has(&self, name: &[u8]) -> bool
        ensures { result ≡ is_among self.now name.now }
    {
        !self.places.of(name).is_empty()
    }
}

/// The names of a whole modules.builtin text. It fails only if memory runs out.
pub(crate) fn read_builtins(alloc: Global, text: &[u8]) -> Result<Builtins, AllocError>
    ensures { IfOk result (λ builtins. builtins ≡ builtin_names text.now) }
{
    let mut names = Vec::new(alloc);
    let mut places = KeyPlaces::new(alloc);
    let mut lines = whole_lines(text);
    'lines: while let Some(line) = lines.next() {
        add_line(alloc, &mut names, &mut places, line)?;
    }
    Ok(Builtins { names, places })
}
