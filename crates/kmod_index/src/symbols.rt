//! The lines of a modules.symbols text.
ghost use Rattle.std.specs.Prelude.{◌≡◌, ◌++◌, map, IfOk, OnOk};
ghost use Rattle.std.specs.Option.{option_to_list};
ghost use Rattle.kmod_index.specs.Lines.{keyed_lines, keyed_of_line, lines_of_key};
ghost use Rattle.kmod_index.specs.ForProofs.{key_of, pointed};
ghost use Rattle.kmod_names.specs.Places.{ArePlaces};

use crate::index_line::{IndexLine, lines_at};
use kmod_names::KeyPlaces;
use std::alloc::{AllocError, Global};
use std::marker::Model;
use text_parts::whole_lines;

/// The lines of a modules.symbols text in order, found by their keys.
#[derive(Drop)]
pub(crate) struct Symbols {
    lines: Vec<IndexLine>,
    keys: KeyPlaces,
}

impl Model for Symbols {
    ghost use Rattle.std.specs.Prelude.{List, map};
    ghost use Rattle.kmod_index.specs.ForProofs.{key_of};
    ghost use Rattle.kmod_index.specs.Lines.{Keyed};
    ghost use Rattle.kmod_names.specs.Places.{ArePlaces};

    ghost Value = { List Keyed };

    ghost view = { λ symbols. symbols.lines.items };

    ghost invariant = { λ symbols. ArePlaces symbols.keys (map key_of symbols.lines.items) };
}

/// Adds a line, if it has a key.
fn add_line(
    alloc: Global,
    lines: &mut Vec<IndexLine>,
    keys: &mut KeyPlaces,
    number: usize,
    line: &[u8],
) -> Result<(), AllocError>
    requires { ArePlaces keys.old (map key_of lines.old.items) }
    ensures lines { OnOk result (lines.new.items ≡ lines.old.items ++ option_to_list (keyed_of_line (number, line.now))) }
    ensures keys { OnOk result (ArePlaces keys.new (map key_of lines.new.items)) }
{
    let Some(read) = IndexLine::read(alloc, number, line)? else {
        return Ok(());
    };
    keys.add(alloc, read.key(), lines.len())?;
    lines.push(read)?;
    Ok(())
}

impl Symbols {
    /// The lines whose key is this text, as `symbol:NAME`, in the order of the text. It fails only if memory runs out.
    pub(crate) fn of_key(&self, alloc: Global, key: &[u8]) -> Result<Vec<&IndexLine>, AllocError>
        ensures { IfOk result (λ found. pointed found.items ≡ lines_of_key self.now key.now) }
    {
        lines_at(alloc, &self.lines, self.keys.of(key))
    }
}

/// The lines of a whole modules.symbols text. It fails only if memory runs out.
pub(crate) fn read_symbols(alloc: Global, text: &[u8]) -> Result<Symbols, AllocError>
    ensures { IfOk result (λ symbols. symbols ≡ keyed_lines text.now) }
{
    let mut found = Vec::new(alloc);
    let mut keys = KeyPlaces::new(alloc);
    let mut lines = whole_lines(text);
    let mut number = 1usize;
    'lines: while let Some(line) = lines.next() {
        add_line(alloc, &mut found, &mut keys, number, line)?;
        number += 1;
    }
    Ok(Symbols { lines: found, keys })
}
