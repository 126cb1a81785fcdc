//! Answers to the queries of modprobe(8).
ghost use Rattle.std.specs.Prelude.{◌≡◌, IfOk};
ghost use Rattle.kmod_query.specs.AnswerOf.{answer_of};
ghost use Rattle.kmod_query.specs.declared.query.Ask.TheVariants.{ShowDepends};
ghost use Rattle.theorems.specs.Queries.{HaveOneBasis};

use kmod_query::{Answer, Query, World, answer_to, show_depends_ignores_states};
use std::alloc::{AllocError, Global};

/// An answer is the definition's, of the texts and states and of the query, whatever bytes they are. When memory runs out is
/// not said.
pub fn queries_are_answered_as_defined(
    alloc: Global,
    world: &World,
    query: &Query,
) -> Result<Answer, AllocError>
    ensures { IfOk result (λ answer. answer ≡ answer_of world.now query.now) }
{
    answer_to(alloc, world, query)
}

/// What `--show-depends` without `--remove` answers is the same on each machine with this configuration, these texts and this
/// folder, whatever is loaded there. The first answer is the one machine's, the second the other's.
pub fn machines_show_the_same_depends(
    alloc: Global,
    one: &World,
    other: &World,
    query: &Query,
) -> Result<(Answer, Answer), AllocError>
    requires ask { query.now.ask ≡ ShowDepends }
    requires basis { HaveOneBasis one.now other.now }
    ensures same { IfOk result (λ answers. answers.0 ≡ answers.1) }
    ensures first { IfOk result (λ answers. answers.0 ≡ answer_of one.now query.now) }
    ensures second { IfOk result (λ answers. answers.1 ≡ answer_of other.now query.now) }
{
    show_depends_ignores_states();
    let first = answer_to(alloc, one, query)?;
    let second = answer_to(alloc, other, query)?;
    Ok((first, second))
}
