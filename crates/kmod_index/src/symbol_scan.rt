//! Lines of a modules.symbols text, found in the text itself.
ghost use Rattle.std.specs.Prelude.{◌≡◌, ◌++◌, IfOk, OnOk};
ghost use Rattle.std.specs.Option.{option_to_list};
ghost use Rattle.kmod_index.specs.Lines.{keyed_lines, keyed_of_line, lines_of_key};

use crate::index_line::{IndexLine, alias_parts};
use std::alloc::{AllocError, Global};
use text_parts::{is_same, whole_lines};

/// Adds the line of this number, if it has this key.
fn add_match(
    alloc: Global,
    found: &mut Vec<IndexLine>,
    number: usize,
    line: &[u8],
    key: &[u8],
) -> Result<(), AllocError>
    ensures { OnOk result (found.new.items ≡ found.old.items ++ lines_of_key (option_to_list (keyed_of_line (number, line.now))) key.now) }
{
    let Some((own, name)) = alias_parts(line) else {
        return Ok(());
    };
    if is_same(key, own) {
        found.push(IndexLine::of_parts(alloc, number, own, name)?)?;
    }
    Ok(())
}

/// The lines whose key is this text, as `symbol:NAME`, in order. It fails only if memory runs out.
pub(crate) fn symbols_of_key(
    alloc: Global,
    text: &[u8],
    key: &[u8],
) -> Result<Vec<IndexLine>, AllocError>
    ensures { IfOk result (λ found. found.items ≡ lines_of_key (keyed_lines text.now) key.now) }
{
    let mut found = Vec::new(alloc);
    let mut lines = whole_lines(text);
    let mut number = 1usize;
    'lines: while let Some(line) = lines.next() {
        add_match(alloc, &mut found, number, line, key)?;
        number += 1;
    }
    Ok(found)
}

/// Adds the line of this number, if it has a key.
fn add_line(
    alloc: Global,
    found: &mut Vec<IndexLine>,
    number: usize,
    line: &[u8],
) -> Result<(), AllocError>
    ensures { OnOk result (found.new.items ≡ found.old.items ++ option_to_list (keyed_of_line (number, line.now))) }
{
    if let Some(read) = IndexLine::read(alloc, number, line)? {
        found.push(read)?;
    }
    Ok(())
}

/// The lines, in order. It fails only if memory runs out.
pub(crate) fn symbol_lines(alloc: Global, text: &[u8]) -> Result<Vec<IndexLine>, AllocError>
    ensures { IfOk result (λ symbols. symbols.items ≡ keyed_lines text.now) }
{
    let mut found = Vec::new(alloc);
    let mut lines = whole_lines(text);
    let mut number = 1usize;
    'lines: while let Some(line) = lines.next() {
        add_line(alloc, &mut found, number, line)?;
        number += 1;
    }
    Ok(found)
}
