//! What two machines answer otherwise, as facts.
ghost use Rattle.std.specs.Prelude.{◌≡◌, ◌++◌, IfOk, OnOk};
ghost use Rattle.answer_diff.specs.Differences.{difference_of, differences_of};
ghost use Rattle.answer_facts.specs.Facts.{pieces_of_facts};
ghost use Rattle.text_parts.specs.Text.{texts_of};
ghost use Rattle.gz_modprobe_drive.specs.Changes.{added_pieces, changes, changes_of, taken_pieces};

use answer_diff::{Difference, added_lines, taken_lines};
use answer_facts::{ChangeFact, Fact, Origin, Spot, What};
use std::alloc::{AllocError, Global};

fn push_taken<'a>(
    facts: &mut Vec<Fact<'a>>,
    name: &'a [u8],
    lines: &[&'a [u8]],
    origin: Origin<'a>,
) -> Result<(), AllocError>
    ensures { OnOk result (pieces_of_facts facts.new.items ≡ pieces_of_facts facts.old.items ++ taken_pieces origin.entry name.entry.now (texts_of lines.entry.now)) }
{
    for line in lines {
        facts.push(Fact {
            whom: name,
            what: What::Change(ChangeFact::Taken(*line, origin)),
            spot: Spot::Nowhere,
        })?;
    }
    Ok(())
}

fn push_added<'a>(
    facts: &mut Vec<Fact<'a>>,
    name: &'a [u8],
    lines: &[&'a [u8]],
    origin: Origin<'a>,
) -> Result<(), AllocError>
    ensures { OnOk result (pieces_of_facts facts.new.items ≡ pieces_of_facts facts.old.items ++ added_pieces origin.entry name.entry.now (texts_of lines.entry.now)) }
{
    for line in lines {
        facts.push(Fact {
            whom: name,
            what: What::Change(ChangeFact::Added(*line, origin)),
            spot: Spot::Nowhere,
        })?;
    }
    Ok(())
}

/// Adds what tells the answers to a name apart.
fn push_changes<'a>(
    alloc: Global,
    facts: &mut Vec<Fact<'a>>,
    difference: &'a Difference<'a>,
    one: Origin<'a>,
    other: Origin<'a>,
) -> Result<(), AllocError>
    ensures { OnOk result (pieces_of_facts facts.new.items ≡ pieces_of_facts facts.old.items ++ changes_of one.entry other.entry (difference_of difference.entry.now)) }
{
    let taken = taken_lines(alloc, difference)?;
    push_taken(facts, difference.name, &taken, one)?;
    let added = added_lines(alloc, difference)?;
    push_added(facts, difference.name, &added, other)
}

/// A fact for each line that tells answers apart: of each name first what is taken away, with the first machine, and then what
/// is added, with the second. It fails only if memory runs out.
pub(crate) fn changes<'a>(
    alloc: Global,
    all: &'a [Difference<'a>],
    one: Origin<'a>,
    other: Origin<'a>,
) -> Result<Vec<Fact<'a>>, AllocError>
    ensures { IfOk result (λ facts. pieces_of_facts facts.items ≡ changes one.entry other.entry (differences_of all.entry.now)) }
{
    let mut facts = Vec::new(alloc);
    for difference in all {
        push_changes(alloc, &mut facts, difference, one, other)?;
    }
    Ok(facts)
}
