//! The order in which kmod has lines that it found in a trie.
ghost use Rattle.std.specs.Prelude.{◌≡◌, position, true, IfOk, OnOk};
ghost use Rattle.kmod_index.specs.ForProofs.{pointed};
ghost use Rattle.kmod_index.specs.Tries.{byte_before, comes_before, in_order, is_wild, put_line};

use crate::aliases::is_wild;
use crate::index_line::IndexLine;
use std::alloc::{AllocError, Global};

fn byte_before(is_plain: bool, first: u8, second: u8) -> bool
    ensures { result ≡ byte_before is_plain first second }
{
    if is_plain && is_wild(first) != is_wild(second) {
        is_wild(second)
    } else {
        second < first
    }
}

/// Whether what has the first key comes before what has the second.
fn comes_before(first: &[u8], second: &[u8]) -> bool
    ensures { result ≡ comes_before true first.now second.now }
{
    let mut is_plain = true;
    let mut one = first;
    let mut other = second;
    'bytes: while let Some((there, other_rest)) = other.split_first() {
        let Some((here, one_rest)) = one.split_first() else {
            return true;
        };
        if *here != *there {
            return byte_before(is_plain, *here, *there);
        }
        is_plain = is_plain && !is_wild(*here);
        one = one_rest;
        other = other_rest;
    }
    false
}

/// The place of the first line that the line comes before.
fn first_after(found: &[&IndexLine], line: &IndexLine) -> Option<usize>
    ensures { result ≡ position (λ other. comes_before true line.now.key other.now.key) found.now }
{
    found
        .iter()
        .position(|other| comes_before(line.key(), other.key()))
}

/// Puts a line before the first that it comes before.
fn put<'a>(found: &mut Vec<&'a IndexLine>, line: &'a IndexLine) -> Result<(), AllocError>
    ensures { OnOk result (pointed found.new.items ≡ put_line line.now (pointed found.old.items)) }
{
    match first_after(found, line) {
        Some(place) => found.insert(place, line)?,
        None => found.push(line)?,
    }
    Ok(())
}

/// The lines in kmod's order.
pub(crate) fn in_order<'a>(
    alloc: Global,
    lines: &[&'a IndexLine],
) -> Result<Vec<&'a IndexLine>, AllocError>
    ensures { IfOk result (λ ordered. pointed ordered.items ≡ in_order (pointed lines.now)) }
{
    let mut ordered = Vec::new(alloc);
    for line in lines {
        put(&mut ordered, line)?;
    }
    Ok(ordered)
}
