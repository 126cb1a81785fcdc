//! The lines of an index by their keys.
ghost use Rattle.std.specs.Prelude.{◌≡◌, ◌==◌, ◌/◌, ◌++◌, ◌∷◌, [], if◌then◌else◌, length, nat_lt, slice_get, IfOk, OnOk};
ghost use Rattle.std.specs.List.{flat_map};
ghost use Rattle.kmod_index.specs.ForProofs.{pointed};
ghost use Rattle.kmod_query.specs.KeyOrder.{ArePartsOf, IsAlike, Shows, code_at, lines_of};
ghost use Rattle.kmod_query.specs.Shown.{index_line, shown_index};

use crate::lines::push_line;
use kmod_index::IndexLine;
use std::alloc::{AllocError, Global};

/// Lines whose keys begin with the same bytes, as many as `depth`.
#[derive(Drop)]
struct Group<'a> {
    lines: Vec<&'a IndexLine>,
    depth: usize,
}

/// Lines by the byte of their keys at a place: those in which it is less than some byte, is this byte, and is greater.
#[derive(Drop)]
struct Parts<'a> {
    less: Vec<&'a IndexLine>,
    same: Vec<&'a IndexLine>,
    greater: Vec<&'a IndexLine>,
}

/// A number for the byte of a key at a place: 0 if the key ends before it.
fn code_at(key: &[u8], place: usize) -> usize
    ensures { result ≡ code_at key.now place }
{
    match key.get(place) {
        Some(byte) => usize::from(*byte) + 1,
        None => 0,
    }
}

impl<'a> Parts<'a> {
    /// Adds a line with this number to its part.
    fn add(&mut self, line: &'a IndexLine, own: usize, code: usize) -> Result<(), AllocError>
        ensures less { OnOk result (pointed self.new.less.items ≡ pointed self.old.less.items ++ (if nat_lt own code then line.now ∷ [] else [])) }
        ensures same { OnOk result (pointed self.new.same.items ≡ pointed self.old.same.items ++ (if own == code then line.now ∷ [] else [])) }
        ensures greater { OnOk result (pointed self.new.greater.items ≡ pointed self.old.greater.items ++ (if nat_lt code own then line.now ∷ [] else [])) }
    {
        if own < code {
            self.less.push(line)?;
        } else if own == code {
            self.same.push(line)?;
        } else {
            self.greater.push(line)?;
        }
        Ok(())
    }
}

/// Parts lines by the byte of their keys at a place.
fn parts_of<'a>(
    alloc: Global,
    lines: &[&'a IndexLine],
    place: usize,
    code: usize,
) -> Result<Parts<'a>, AllocError>
    ensures { IfOk result (ArePartsOf (pointed lines.now) place code) }
{
    let mut parts = Parts {
        less: Vec::new(alloc),
        same: Vec::with_capacity(alloc, lines.len())?,
        greater: Vec::new(alloc),
    };
    'lines: for line in lines {
        parts.add(line, code_at(line.key(), place), code)?;
    }
    Ok(parts)
}

/// Adds lines, in their order.
fn push_lines(text: &mut Vec<u8>, lines: &[&IndexLine]) -> Result<(), AllocError>
    ensures { OnOk result (text.new.items ≡ text.old.items ++ flat_map index_line (pointed lines.now)) }
{
    'lines: for own in lines {
        push_line(text, b"alias ", own.key(), own.name())?;
    }
    Ok(())
}

/// The line in the middle.
fn middle<'a>(lines: &[&'a IndexLine]) -> Option<&'a IndexLine>
    ensures { result ≡ slice_get lines.now (length lines.now / 2) }
{
    lines.get(lines.len() / 2).copied()
}

/// Adds the lines of a group, if they have one key. Else groups by the next byte come before the other groups; the last group
/// is the first to be shown.
fn push_group<'a>(
    alloc: Global,
    text: &mut Vec<u8>,
    group: Group<'a>,
    groups: &mut Vec<Group<'a>>,
) -> Result<(), AllocError>
    requires { IsAlike group }
    ensures { OnOk result (Shows group.entry.depth (lines_of group.entry) text.old.items text.new.items groups.old.items groups.new.items) }
{
    let Group { lines, depth } = group;
    let Some(middle) = middle(&lines) else {
        return Ok(());
    };
    if lines.len() == 1 {
        return push_lines(text, &lines);
    }
    let key = middle.key();
    let Parts {
        less,
        same,
        greater,
    } = parts_of(alloc, &lines, depth, code_at(key, depth))?;
    groups.push(Group {
        lines: greater,
        depth,
    })?;
    if key.len() <= depth {
        return push_lines(text, &same);
    }
    groups.push(Group {
        lines: same,
        depth: depth + 1,
    })?;
    groups.push(Group { lines: less, depth })?;
    Ok(())
}

/// References to lines, in their order.
fn references<'a>(alloc: Global, all: &'a [IndexLine]) -> Result<Vec<&'a IndexLine>, AllocError>
    ensures { IfOk result (λ lines. pointed lines.items ≡ all.entry.now) }
{
    all.iter().collect(alloc)
}

/// Adds the lines of an index, by the bytes of their keys.
pub(crate) fn push_index(
    alloc: Global,
    text: &mut Vec<u8>,
    all: &[IndexLine],
) -> Result<(), AllocError>
    ensures { OnOk result (text.new.items ≡ text.old.items ++ shown_index all.now) }
{
    let mut groups = Vec::new(alloc);
    groups.push(Group {
        lines: references(alloc, all)?,
        depth: 0,
    })?;
    'groups: while let Some(group) = groups.pop() {
        push_group(alloc, text, group, &mut groups)?;
    }
    Ok(())
}
