//! Facts as lines.
ghost use Rattle.std.specs.Prelude.{◌≡◌, ◌++◌, IfOk, OnOk, true};
ghost use Rattle.std.specs.List.{list_all};
ghost use Rattle.answer_facts.specs.Facts.{json_line, json_lines, text_line, text_lines};
ghost use Rattle.answer_facts.specs.Shown.{is_shown};

use crate::fact::Fact;
use crate::piece::{push_json, push_text};
use crate::shown::push_line;
use std::alloc::{AllocError, Global};

/// Adds the line of a fact for people.
fn push_text_line(alloc: Global, lines: &mut Vec<u8>, fact: Fact<'_>) -> Result<(), AllocError>
    ensures { OnOk result (lines.new.items ≡ lines.old.items ++ text_line fact.entry) }
{
    let pieces = fact.pieces(alloc)?;
    let mut text = Vec::new(alloc);
    push_text(&mut text, &pieces)?;
    push_line(lines, &text)
}

/// Adds the line of a fact for programs.
fn push_json_line(alloc: Global, lines: &mut Vec<u8>, fact: Fact<'_>) -> Result<(), AllocError>
    ensures { OnOk result (lines.new.items ≡ lines.old.items ++ json_line fact.entry) }
{
    let pieces = fact.pieces(alloc)?;
    let mut text = Vec::new(alloc);
    push_json(&mut text, &pieces)?;
    push_line(lines, &text)
}

/// The lines of facts for people, each once, in their order. Control characters are shown as question marks. It fails only
/// if memory runs out.
#[tactic(auto, using(crate::proofs::ShownLemmas::text_shown))]
pub fn text_lines(alloc: Global, facts: &[Fact<'_>]) -> Result<Vec<u8>, AllocError>
    ensures lines { IfOk result (λ lines. lines.items ≡ text_lines facts.now) }
    ensures shown { IfOk result (λ lines. list_all is_shown lines.items ≡ true) }
{
    let mut lines = Vec::new(alloc);
    for fact in facts {
        push_text_line(alloc, &mut lines, *fact)?;
    }
    Ok(lines)
}

/// The same facts in JSON, an object a line. U+FFFD stands for bytes of names and texts that are no UTF-8. It fails only if
/// memory runs out.
#[tactic(auto, using(crate::proofs::ShownLemmas::json_shown))]
pub fn json_lines(alloc: Global, facts: &[Fact<'_>]) -> Result<Vec<u8>, AllocError>
    ensures lines { IfOk result (λ lines. lines.items ≡ json_lines facts.now) }
    ensures shown { IfOk result (λ lines. list_all is_shown lines.items ≡ true) }
{
    let mut lines = Vec::new(alloc);
    for fact in facts {
        push_json_line(alloc, &mut lines, *fact)?;
    }
    Ok(lines)
}
