//! Lines of a modules.dep text, found in the text itself.
ghost use Rattle.std.specs.Prelude.{◌≡◌, ◌++◌, IfOk, OnOk};
ghost use Rattle.std.specs.Option.{option_to_list};
ghost use Rattle.kmod_index.specs.Dependencies.{dependencies_of, dependencies_of_line, line_of};

use crate::dep_line::DepLine;
use crate::path_names::is_name_of_path;
use std::alloc::{AllocError, Global};
use text_parts::whole_lines;

/// The line of this number, if its module has this name.
fn named_line<'a>(number: usize, line: &'a [u8], name: &[u8]) -> Option<DepLine<'a>>
    ensures { result ≡ line_of (option_to_list (dependencies_of_line (number, line.entry.now))) name.now }
{
    let read = DepLine::read(number, line)?;
    if is_name_of_path(name, read.path()) {
        Some(read)
    } else {
        None
    }
}

/// The first line of the module of this name, None if it has none. Names have `_` for each `-`.
pub(crate) fn find_line<'a>(text: &'a [u8], name: &[u8]) -> Option<DepLine<'a>>
    ensures { result ≡ line_of (dependencies_of text.entry.now) name.now }
{
    // A path ends before a colon, so that a device's alias is no name of a module.
    if name.contains(&b':') {
        return None;
    }
    let mut lines = whole_lines(text);
    let mut number = 1usize;
    'lines: while let Some(line) = lines.next() {
        if let Some(found) = named_line(number, line, name) {
            return Some(found);
        }
        number += 1;
    }
    None
}

/// Adds the line of this number, if it has a colon.
fn add_line<'a>(
    found: &mut Vec<DepLine<'a>>,
    number: usize,
    line: &'a [u8],
) -> Result<(), AllocError>
    ensures { OnOk result (found.new.items ≡ found.old.items ++ option_to_list (dependencies_of_line (number, line.entry.now))) }
{
    if let Some(read) = DepLine::read(number, line) {
        found.push(read)?;
    }
    Ok(())
}

/// The lines, in order. It fails only if memory runs out.
pub(crate) fn dep_lines<'a>(alloc: Global, text: &'a [u8]) -> Result<Vec<DepLine<'a>>, AllocError>
    ensures { IfOk result (λ lines. lines.items ≡ dependencies_of text.entry.now) }
{
    let mut found = Vec::new(alloc);
    let mut lines = whole_lines(text);
    let mut number = 1usize;
    'lines: while let Some(line) = lines.next() {
        add_line(&mut found, number, line)?;
        number += 1;
    }
    Ok(found)
}
