//! What a world says a load of a name would take.
ghost use Rattle.std.specs.Prelude.{◌≡◌, ◌∷◌, [], ℕ, List, IfOk};
ghost use Rattle.text_parts.specs.Text.{texts_of};
ghost use Rattle.answer_diff.specs.Answers.{answer_to_name, differ};

use kmod_query::{Answer, Ask, Query, World, answer_to};
use std::alloc::{AllocError, Global};
use text_parts::is_same;

/// The answer to a query that has these words, with the options of another.
fn answer_to_words(
    alloc: Global,
    world: &World<'_>,
    query: &Query<'_>,
    words: &[&[u8]],
) -> Result<Answer, AllocError>
    ensures { (name : List ℕ) → texts_of words.now ≡ name ∷ [] → IfOk result (λ answer. answer ≡ answer_to_name world.now query.now name) }
{
    let own = Query {
        ask: Ask::ShowDepends,
        all: true,
        use_blacklist: query.use_blacklist,
        ignore_commands: query.ignore_commands,
        first_time: query.first_time,
        verbosity: query.verbosity,
        words,
    };
    answer_to(alloc, world, &own)
}

/// What a name is answered alone, with the options of a query. It fails only if memory runs out.
pub(crate) fn answer_to_name(
    alloc: Global,
    world: &World<'_>,
    query: &Query<'_>,
    name: &[u8],
) -> Result<Answer, AllocError>
    ensures { IfOk result (λ answer. answer ≡ answer_to_name world.now query.now name.now) }
{
    let words = [name];
    answer_to_words(alloc, world, query, &words)
}

/// Whether answers print other lines, or only one of them failed.
pub(crate) fn differ(one: &Answer, other: &Answer) -> bool
    ensures { result ≡ differ one.now other.now }
{
    !is_same(one.output(), other.output()) || one.has_failed() != other.has_failed()
}
