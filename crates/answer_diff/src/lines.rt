//! What of an answer's lines another answer has not.
ghost use Rattle.std.specs.Prelude.{◌≡◌, ◌==◌, ◌++◌, filter, IfOk, OnOk};
ghost use Rattle.std.specs.List.{list_any, slice_split};
ghost use Rattle.std.specs.Str.{bytes_eq};
ghost use Rattle.text_parts.specs.Text.{texts_of};
ghost use Rattle.answer_diff.specs.Differences.{difference_of};
ghost use Rattle.answer_diff.specs.Lines.{added_lines, are_alike, has_not, is_line, lines_of, own_lines, taken_lines, telling_lines, text_lines};

use crate::comparing::Difference;
use kmod_query::Answer;
use std::alloc::{AllocError, Global};
use text_parts::is_same;

/// The parts of a text between line feeds.
fn parts_of<'a>(alloc: Global, text: &'a [u8]) -> Result<Vec<&'a [u8]>, AllocError>
    ensures { IfOk result (λ parts. texts_of parts.items ≡ slice_split (λ byte. byte == 10) text.now) }
{
    text.split(|byte| *byte == b'\n').collect(alloc)
}

/// Adds the parts that are lines.
fn push_lines<'a>(lines: &mut Vec<&'a [u8]>, parts: &[&'a [u8]]) -> Result<(), AllocError>
    ensures { OnOk result (texts_of lines.new.items ≡ texts_of lines.old.items ++ filter is_line (texts_of parts.now)) }
{
    for part in parts {
        if !part.is_empty() {
            lines.push(*part)?;
        }
    }
    Ok(())
}

/// The lines that an answer prints, and one more if it failed.
fn lines_of<'a>(alloc: Global, answer: &'a Answer) -> Result<Vec<&'a [u8]>, AllocError>
    ensures { IfOk result (λ lines. texts_of lines.items ≡ lines_of answer.entry.now) }
{
    let parts = parts_of(alloc, answer.output())?;
    let mut lines = Vec::new(alloc);
    push_lines(&mut lines, &parts)?;
    if answer.has_failed() {
        lines.push(b"not found")?;
    }
    Ok(lines)
}

fn has_not(lines: &[&[u8]], line: &[u8]) -> bool
    ensures { result ≡ has_not (texts_of lines.now) line.now }
{
    for own in lines {
        if is_same(line, *own) {
            return false;
        }
    }
    true
}

/// The lines that others are not.
fn own_lines<'a>(
    alloc: Global,
    lines: &[&'a [u8]],
    others: &[&[u8]],
) -> Result<Vec<&'a [u8]>, AllocError>
    ensures { IfOk result (λ own. texts_of own.items ≡ own_lines (texts_of lines.now) (texts_of others.now)) }
{
    let mut own = Vec::new(alloc);
    for line in lines {
        if has_not(others, *line) {
            own.push(*line)?;
        }
    }
    Ok(own)
}

/// The lines that tell answers apart: those of the first that the second has not, or all of it if neither has such a line.
fn telling_lines<'a>(
    alloc: Global,
    lines: Vec<&'a [u8]>,
    others: &[&[u8]],
) -> Result<Vec<&'a [u8]>, AllocError>
    ensures { IfOk result (λ told. texts_of told.items ≡ telling_lines (texts_of lines.entry.items) (texts_of others.now)) }
{
    let own = own_lines(alloc, &lines, others)?;
    let theirs = own_lines(alloc, others, &lines)?;
    if own.is_empty() && theirs.is_empty() {
        Ok(lines)
    } else {
        Ok(own)
    }
}

/// The lines of the first answer that tell it from the second: those that the second has not, or all of it if the two have
/// the same lines in another order. An answer that failed has the line `not found`. It fails only if memory runs out.
pub fn taken_lines<'a>(
    alloc: Global,
    difference: &'a Difference<'_>,
) -> Result<Vec<&'a [u8]>, AllocError>
    ensures { IfOk result (λ lines. texts_of lines.items ≡ taken_lines (difference_of difference.entry.now)) }
{
    let before = lines_of(alloc, &difference.before)?;
    let after = lines_of(alloc, &difference.after)?;
    telling_lines(alloc, before, &after)
}

/// The lines of the second answer that tell it from the first, alike. It fails only if memory runs out.
pub fn added_lines<'a>(
    alloc: Global,
    difference: &'a Difference<'_>,
) -> Result<Vec<&'a [u8]>, AllocError>
    ensures { IfOk result (λ lines. texts_of lines.items ≡ added_lines (difference_of difference.entry.now)) }
{
    let before = lines_of(alloc, &difference.before)?;
    let after = lines_of(alloc, &difference.after)?;
    telling_lines(alloc, after, &before)
}
