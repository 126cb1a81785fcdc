//! The answer to a query.
ghost use Rattle.std.specs.Prelude.{◌≡◌, IfOk};
ghost use Rattle.kmod_query.specs.AnswerOf.{answer_of};

use crate::answer::Answer;
use crate::asked::Asked;
use crate::loaded_names::answer_names;
use crate::query::{Ask, Query};
use crate::removed_names::remove_names;
use crate::shown::shown;
use crate::world::World;
use std::alloc::{AllocError, Global};

/// The answer to a query: kmod's, of what the machine's texts and states say. It fails only if memory runs out.
pub fn answer_to(alloc: Global, world: &World, query: &Query) -> Result<Answer, AllocError>
    ensures { IfOk result (λ own. own ≡ answer_of world.now query.now) }
{
    let asked = Asked {
        alloc,
        world: *world,
        query: *query,
    };
    match query.ask {
        Ask::ShowDepends | Ask::DryRun | Ask::Resolve => { answer_names(&asked, query.words) }
        Ask::Remove | Ask::ShowRemoval => remove_names(&asked, query.words),
        Ask::ShowConfig => {
            let lines = shown(alloc, world.conf, world.index)?;
            Ok(Answer::said(alloc, lines))
        }
    }
}
