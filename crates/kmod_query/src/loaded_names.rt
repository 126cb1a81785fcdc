//! What names are answered that are to be loaded or resolved.
ghost use Rattle.std.specs.Prelude.{◌≡◌, IfOk, OnOk};
ghost use Rattle.text_parts.specs.Text.{texts_of};
ghost use Rattle.kmod_query.specs.Loading.{answer_each, answer_file, answer_found, answer_name, answer_names, answer_one};
ghost use Rattle.kmod_query.specs.Answers.{failing};
ghost use Rattle.kmod_query.specs.Objects.{objects_of};
ghost use Rattle.kmod_query.specs.Stacks.{AreSoftLists};
ghost use Rattle.kmod_query.specs.World.{facts_of};
ghost use Rattle.kmod_query.specs.declared.answer.Failure.TheVariants.{NoFile};

use crate::answer::{Answer, Failure};
use crate::asked::Asked;
use crate::loading::answer_object;
use crate::look_up::find_word;
use crate::object::Object;
use crate::parameters::parameter_text;
use crate::paths::{AtPath, OwnFile};
use crate::soft_lists::SoftLists;
use crate::world::at_path;
use kmod_names::{Text, name_of_path};
use std::alloc::{AllocError, Global};

/// The modules of a name one after another; the status is that of the last.
fn answer_found(
    asked: &Asked,
    parameters: &[u8],
    word: &[u8],
    found: &[Object],
    soft: &mut SoftLists,
) -> Result<Answer, AllocError>
    requires { AreSoftLists (facts_of asked.now.world) soft.old }
    ensures soft { OnOk result (AreSoftLists (facts_of asked.now.world) soft.new) }
    ensures answer { IfOk result (λ answer. answer ≡ answer_found (facts_of asked.now.world) asked.now.query parameters.now word.now (objects_of found.now)) }
{
    if found.is_empty() {
        return Answer::failing(
            asked.alloc,
            Failure::NotFound(Text::new(asked.alloc, word)?),
        );
    }
    let mut answer = Answer::nothing(asked.alloc);
    'objects: for object in found {
        answer = answer.and_then(answer_object(asked, parameters, object, soft)?)?;
    }
    Ok(answer)
}

/// The module of a file, by the path that was given for a name.
fn answer_file(
    asked: &Asked,
    parameters: &[u8],
    word: &[u8],
    file: &[u8],
) -> Result<Answer, AllocError>
    ensures { IfOk result (λ answer. answer ≡ answer_file (facts_of asked.now.world) asked.now.query parameters.now word.now file.now) }
{
    let alloc = asked.alloc;
    let name = name_of_path(alloc, word)?;
    let own = OwnFile {
        name: name.as_bytes(),
        file,
    };
    let asked = Asked {
        alloc,
        world: asked.world.with_own(own),
        query: asked.query,
    };
    let object = Object::by_name(alloc, name.as_bytes())?;
    let mut soft = SoftLists::new(alloc);
    answer_object(&asked, parameters, &object, &mut soft)
}

/// What is answered if nothing stands at a path.
fn answer_no_file(alloc: Global, word: &[u8], reason: &[u8]) -> Result<Answer, AllocError>
    ensures { IfOk result (λ answer. answer ≡ failing (NoFile word.now reason.now)) }
{
    let failure = Failure::NoFile(Text::new(alloc, word)?, Text::new(alloc, reason)?);
    Answer::failing(alloc, failure)
}

/// A name is looked up, unless it is a path.
fn answer_name(
    asked: &Asked,
    parameters: &[u8],
    word: &[u8],
    soft: &mut SoftLists,
) -> Result<Answer, AllocError>
    requires { AreSoftLists (facts_of asked.now.world) soft.old }
    ensures soft { OnOk result (AreSoftLists (facts_of asked.now.world) soft.new) }
    ensures answer { IfOk result (λ answer. answer ≡ answer_name (facts_of asked.now.world) asked.now.query parameters.now word.now) }
{
    match at_path(&asked.world, word) {
        Some(AtPath::File(file)) => answer_file(asked, parameters, word, file.as_bytes()),
        Some(AtPath::Nothing(reason)) => answer_no_file(asked.alloc, word, reason.as_bytes()),
        None => {
            let found = find_word(asked.alloc, &asked.world, word)?;
            answer_found(asked, parameters, word, &found, soft)
        }
    }
}

/// A name and its parameters.
fn answer_one(asked: &Asked, words: &[&[u8]], soft: &mut SoftLists) -> Result<Answer, AllocError>
    requires { AreSoftLists (facts_of asked.now.world) soft.old }
    ensures { IfOk result (λ answer. answer ≡ answer_one (facts_of asked.now.world) asked.now.query (texts_of words.now)) }
{
    match words.split_first() {
        Some((word, parameters)) => {
            let parameters = parameter_text(asked.alloc, parameters)?;
            answer_name(asked, &parameters, word, soft)
        }
        None => Ok(Answer::nothing(asked.alloc)),
    }
}

/// Names one after another.
fn answer_each(asked: &Asked, words: &[&[u8]], soft: &mut SoftLists) -> Result<Answer, AllocError>
    requires { AreSoftLists (facts_of asked.now.world) soft.old }
    ensures { IfOk result (λ answer. answer ≡ answer_each (facts_of asked.now.world) asked.now.query (texts_of words.now)) }
{
    let mut answer = Answer::nothing(asked.alloc);
    'words: for word in words {
        answer = answer.and_also(answer_name(asked, b"", word, soft)?)?;
    }
    Ok(answer)
}

/// What names are answered that are to be loaded or resolved.
pub(crate) fn answer_names(asked: &Asked, words: &[&[u8]]) -> Result<Answer, AllocError>
    ensures { IfOk result (λ answer. answer ≡ answer_names (facts_of asked.now.world) asked.now.query (texts_of words.now)) }
{
    let mut soft = SoftLists::new(asked.alloc);
    if asked.query.all {
        return answer_each(asked, words, &mut soft);
    }
    answer_one(asked, words, &mut soft)
}
