//! What a removal of names takes, if it is made and not only shown.
ghost use Rattle.std.specs.Prelude.{◌≡◌, IfOk, OnOk};
ghost use Rattle.std.specs.List.{list_any};
ghost use Rattle.text_parts.specs.Text.{texts_of};
ghost use Rattle.kmod_query.specs.Objects.{objects_of};
ghost use Rattle.kmod_query.specs.Whole.{answer_by, ends, is_over, no_course, whole_found, whole_name, whole_objects, whole_of, whole_word, whole_words};
ghost use Rattle.kmod_query.specs.Wholes.{course_of};
ghost use Rattle.kmod_query.specs.World.{facts_of};

use crate::answer::{Answer, Failure};
use crate::asked::Asked;
use crate::look_up::found;
use crate::object::Object;
use crate::removal_check::is_fatal;
use crate::taken::{Holders, lines_of};
use crate::way::Way;
use crate::whole_steps::{Course, fail, remove_whole};
use kmod_names::{Text, normal_alias};
use std::alloc::{AllocError, Global};
use std::mem::replace;

fn no_course(alloc: Global) -> Course
    ensures { course_of result ≡ no_course }
{
    Course {
        way: Way::new(alloc),
        stack: Vec::new(alloc),
        taken: Vec::new(alloc),
        failures: Vec::new(alloc),
        failed: false,
    }
}

/// Removes the modules of a name one after another, up to the first that is refused.
fn remove_objects(
    asked: &Asked,
    holders: &[Holders],
    course: &mut Course,
    objects: &[Object],
) -> Result<(), AllocError>
    ensures { OnOk result (course_of course.new ≡ whole_objects (facts_of asked.now.world) holders.now asked.now.query (course_of course.old) (objects_of objects.now)) }
{
    let mut rest = objects;
    'objects: while let Some((object, later)) = rest.split_first() {
        if course.failed {
            return Ok(());
        }
        remove_whole(asked, holders, course, object)?;
        rest = later;
    }
    Ok(())
}

fn remove_found(
    asked: &Asked,
    holders: &[Holders],
    course: &mut Course,
    word: &[u8],
    objects: &[Object],
) -> Result<(), AllocError>
    ensures { OnOk result (course_of course.new ≡ whole_found (facts_of asked.now.world) holders.now asked.now.query (course_of course.old) word.now (objects_of objects.now)) }
{
    if objects.is_empty() {
        let failure = Failure::NothingToRemove(Text::new(asked.alloc, word)?);
        return fail(asked.alloc, &asked.query, false, failure, course);
    }
    remove_objects(asked, holders, course, objects)
}

#[tactic(auto, unfolding(crate::specs::World::facts_of))]
fn remove_name(
    asked: &Asked,
    holders: &[Holders],
    course: &mut Course,
    word: &[u8],
) -> Result<(), AllocError>
    ensures { OnOk result (course_of course.new ≡ whole_name (facts_of asked.now.world) holders.now asked.now.query (course_of course.old) word.now ((facts_of asked.now.world).normal word.now)) }
{
    match normal_alias(asked.alloc, word)? {
        Some(name) => {
            let objects = found(asked.alloc, &asked.world, name.as_bytes())?;
            remove_found(asked, holders, course, word, &objects)
        }
        None => {
            course.failed = true;
            Ok(())
        }
    }
}

/// Removes a name after others.
fn remove_word(
    asked: &Asked,
    holders: &[Holders],
    course: &mut Course,
    word: &[u8],
) -> Result<(), AllocError>
    ensures { OnOk result (course_of course.new ≡ whole_word (facts_of asked.now.world) holders.now asked.now.query (course_of course.old) word.now) }
{
    let had_failed = course.failed;
    course.failed = false;
    remove_name(asked, holders, course, word)?;
    course.failed = had_failed || course.failed;
    Ok(())
}

/// Whether the message of a failure ends the program.
fn ends(failure: &Failure) -> bool
    ensures { result ≡ ends failure.now }
{
    !matches!(failure, Failure::Gone(_))
}

fn has_end(failures: &[Failure]) -> bool
    ensures { result ≡ list_any ends failures.now }
{
    failures.iter().any(|failure| ends(failure))
}

fn is_over(asked: &Asked, course: &Course) -> bool
    ensures { result ≡ is_over asked.now.query (course_of course.now).failures }
{
    is_fatal(&asked.query) && has_end(&course.failures)
}

/// Removes names one after another, up to a message that ends the program.
fn remove_words(
    asked: &Asked,
    holders: &[Holders],
    course: &mut Course,
    words: &[&[u8]],
) -> Result<(), AllocError>
    ensures { OnOk result (course_of course.new ≡ whole_words (facts_of asked.now.world) holders.now asked.now.query (course_of course.old) (texts_of words.now)) }
{
    'words: for word in words {
        if is_over(asked, course) {
            return Ok(());
        }
        remove_word(asked, holders, course, word)?;
    }
    Ok(())
}

/// What is answered of a removal of the query's words that is made, and not only shown: of what the texts and the states of
/// a machine say, and of who holds its modules. A module that has no entry in `holders` is held by none. It fails only if
/// memory runs out.
pub fn whole_removal(asked: &Asked, holders: &[Holders]) -> Result<Answer, AllocError>
    ensures { IfOk result (λ answer. answer ≡ answer_by asked.now.query (whole_of (facts_of asked.now.world) holders.now asked.now.query (texts_of asked.now.query.words.now))) }
{
    let mut course = no_course(asked.alloc);
    remove_words(asked, holders, &mut course, asked.query.words)?;
    let output = lines_of(asked.alloc, &asked.query, &course.taken)?;
    Ok(Answer {
        output,
        failures: replace(&mut course.failures, Vec::new(asked.alloc)),
        failed: course.failed,
    })
}
