//! An answer in JSON, with the machine that it is of.
ghost use Rattle.std.specs.Prelude.{◌≡◌, ◌==◌, ◌++◌, IfOk, OnOk};
ghost use Rattle.std.specs.List.{flat_map};
ghost use Rattle.text_parts.specs.Text.{texts_of};
ghost use Rattle.answer_facts.specs.Plan.{origin_line, origin_lines, parts_of, plan_line, plan_lines};

use crate::fact::Fact;
use crate::origin::Origin;
use crate::piece::push_json;
use crate::shown::push_line;
use crate::step::step_pieces;
use std::alloc::{AllocError, Global};

/// The lines of a text, and what stands behind the last of them.
pub(crate) fn parts_of<'a>(alloc: Global, text: &'a [u8]) -> Result<Vec<&'a [u8]>, AllocError>
    ensures { IfOk result (λ parts. texts_of parts.items ≡ parts_of text.now) }
{
    text.split(|byte| *byte == b'\n').collect(alloc)
}

/// Adds a line of an answer as an object.
fn push_plan_line(
    alloc: Global,
    lines: &mut Vec<u8>,
    origin: Origin<'_>,
    line: &[u8],
) -> Result<(), AllocError>
    ensures { OnOk result (lines.new.items ≡ lines.old.items ++ plan_line origin.entry line.now) }
{
    if line.is_empty() {
        return Ok(());
    }
    let mut pieces = step_pieces(alloc, line)?;
    origin.push_to(&mut pieces)?;
    let mut text = Vec::new(alloc);
    push_json(&mut text, &pieces)?;
    push_line(lines, &text)
}

/// The parts of an answer, an object for each that is not empty.
fn part_lines(alloc: Global, origin: Origin<'_>, parts: &[&[u8]]) -> Result<Vec<u8>, AllocError>
    ensures { IfOk result (λ lines. lines.items ≡ flat_map (plan_line origin.entry) (texts_of parts.now)) }
{
    let mut lines = Vec::new(alloc);
    for part in parts {
        push_plan_line(alloc, &mut lines, origin, *part)?;
    }
    Ok(lines)
}

/// The lines of an answer in JSON: an object for each, in their order. It fails only if memory runs out.
pub fn plan_lines(alloc: Global, origin: Origin<'_>, output: &[u8]) -> Result<Vec<u8>, AllocError>
    ensures { IfOk result (λ lines. lines.items ≡ plan_lines origin.entry output.now) }
{
    let parts = parts_of(alloc, output)?;
    part_lines(alloc, origin, &parts)
}

/// Adds a fact as an object.
fn push_origin_line(
    alloc: Global,
    lines: &mut Vec<u8>,
    origin: Origin<'_>,
    fact: Fact<'_>,
) -> Result<(), AllocError>
    ensures { OnOk result (lines.new.items ≡ lines.old.items ++ origin_line origin.entry fact.entry) }
{
    let mut pieces = fact.pieces(alloc)?;
    origin.push_to(&mut pieces)?;
    let mut text = Vec::new(alloc);
    push_json(&mut text, &pieces)?;
    push_line(lines, &text)
}

/// Facts in JSON, an object a line, each with the machine of which it is said. It fails only if memory runs out.
pub fn origin_lines(
    alloc: Global,
    origin: Origin<'_>,
    facts: &[Fact<'_>],
) -> Result<Vec<u8>, AllocError>
    ensures { IfOk result (λ lines. lines.items ≡ origin_lines origin.entry facts.now) }
{
    let mut lines = Vec::new(alloc);
    for fact in facts {
        push_origin_line(alloc, &mut lines, origin, *fact)?;
    }
    Ok(lines)
}
