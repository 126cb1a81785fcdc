//! What names are answered that are to be removed.
ghost use Rattle.std.specs.Prelude.{◌≡◌, IfOk};
ghost use Rattle.text_parts.specs.Text.{texts_of};
ghost use Rattle.kmod_query.specs.Answers.{nothing};
ghost use Rattle.kmod_query.specs.Objects.{objects_of};
ghost use Rattle.kmod_query.specs.Removal.{has_ended, remove_found, remove_name, remove_names, remove_objects};
ghost use Rattle.kmod_query.specs.World.{facts_of};

use crate::answer::{Answer, Failure};
use crate::asked::Asked;
use crate::look_up::found;
use crate::object::Object;
use crate::query::Query;
use crate::removal::remove_object;
use crate::removal_check::is_fatal;
use kmod_names::{Text, normal_alias};
use std::alloc::AllocError;

/// The modules of a name one after another, up to the first that is refused.
fn remove_objects(asked: &Asked, objects: &[Object]) -> Result<Answer, AllocError>
    ensures { IfOk result (λ answer. answer ≡ remove_objects (facts_of asked.now.world) asked.now.query nothing (objects_of objects.now)) }
{
    let mut answer = Answer::nothing(asked.alloc);
    let mut rest = objects;
    'objects: while let Some((object, later)) = rest.split_first() {
        if answer.has_failed() {
            return Ok(answer);
        }
        answer = answer.and_then(remove_object(asked, object)?)?;
        rest = later;
    }
    Ok(answer)
}

fn remove_found(asked: &Asked, word: &[u8], found: &[Object]) -> Result<Answer, AllocError>
    ensures { IfOk result (λ answer. answer ≡ remove_found (facts_of asked.now.world) asked.now.query word.now (objects_of found.now)) }
{
    if found.is_empty() {
        return Answer::failing(
            asked.alloc,
            Failure::NothingToRemove(Text::new(asked.alloc, word)?),
        );
    }
    remove_objects(asked, found)
}

#[tactic(auto, unfolding(crate::specs::World::facts_of))]
fn remove_name(asked: &Asked, word: &[u8]) -> Result<Answer, AllocError>
    ensures { IfOk result (λ answer. answer ≡ remove_name (facts_of asked.now.world) asked.now.query word.now ((facts_of asked.now.world).normal word.now)) }
{
    match normal_alias(asked.alloc, word)? {
        Some(name) => {
            let found = found(asked.alloc, &asked.world, name.as_bytes())?;
            remove_found(asked, word, &found)
        }
        None => Ok(Answer::silent_failure(asked.alloc)),
    }
}

fn has_ended(query: &Query, answer: &Answer) -> bool
    ensures { result ≡ has_ended query.now answer.now.failures }
{
    match answer.failures().first() {
        Some(_) => is_fatal(query),
        None => false,
    }
}

/// What names are answered that are to be removed, one after another, up to a message that ends the program.
pub(crate) fn remove_names(asked: &Asked, words: &[&[u8]]) -> Result<Answer, AllocError>
    ensures { IfOk result (λ answer. answer ≡ remove_names (facts_of asked.now.world) asked.now.query nothing (texts_of words.now)) }
{
    let mut answer = Answer::nothing(asked.alloc);
    'words: for word in words {
        if has_ended(&asked.query, &answer) {
            return Ok(answer);
        }
        answer = answer.and_also(remove_name(asked, word)?)?;
    }
    Ok(answer)
}
