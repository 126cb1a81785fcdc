//! Which names two worlds answer otherwise.
ghost use Rattle.std.specs.Prelude.{◌≡◌, ◌++◌, IfOk, OnOk};
ghost use Rattle.text_parts.specs.Text.{texts_of};
ghost use Rattle.answer_diff.specs.Differences.{differences, differences_of, of_name};

use crate::answering::{answer_to_name, differ};
use kmod_query::{Answer, Query, World};
use std::alloc::{AllocError, Global};

/// A name that two worlds answer otherwise, and what they answer.
#[derive(Drop)]
pub struct Difference<'a> {
    pub name: &'a [u8],
    /// What the first world answers.
    pub before: Answer,
    /// What the second one answers.
    pub after: Answer,
}

/// Adds a name, if its answers differ.
fn push_name<'a>(
    alloc: Global,
    all: &mut Vec<Difference<'a>>,
    one: &World<'_>,
    other: &World<'_>,
    query: &Query<'_>,
    name: &'a [u8],
) -> Result<(), AllocError>
    ensures { OnOk result (differences_of all.new.items ≡ differences_of all.old.items ++ of_name one.now other.now query.now name.entry.now) }
{
    let before = answer_to_name(alloc, one, query, name)?;
    let after = answer_to_name(alloc, other, query, name)?;
    if differ(&before, &after) {
        all.push(Difference {
            name,
            before,
            after,
        })?;
    }
    Ok(())
}

/// Each of the names whose answers differ between two worlds, and no other, in their order, with both answers: what `-a -D`
/// prints of the name alone, and whether that failed, with the options of `query`. What `query` asks and its words do not
/// count. It fails only if memory runs out.
pub fn differences<'a>(
    alloc: Global,
    one: &World<'_>,
    other: &World<'_>,
    query: &Query<'_>,
    names: &[&'a [u8]],
) -> Result<Vec<Difference<'a>>, AllocError>
    ensures { IfOk result (λ all. differences_of all.items ≡ differences one.now other.now query.now (texts_of names.entry.now)) }
{
    let mut all = Vec::new(alloc);
    for name in names {
        push_name(alloc, &mut all, one, other, query, *name)?;
    }
    Ok(all)
}
