//! What is answered of an object that is to be removed.
ghost use Rattle.std.specs.Prelude.{◌≡◌, ◌++◌, IfOk, OnOk};
ghost use Rattle.kmod_query.specs.Objects.{object_of, objects_of};
ghost use Rattle.kmod_query.specs.Probes.{step_limit};
ghost use Rattle.kmod_query.specs.Answers.{Answer};
ghost use Rattle.kmod_query.specs.Removal.{refused, release, remove_object, run_removal};
ghost use Rattle.kmod_query.specs.Removal.{removed_after, removed_before, take, take_each, taken_tasks};
ghost use Rattle.kmod_query.specs.Removals.{Moves, after, removal_of, removals_of};
ghost use Rattle.kmod_query.specs.World.{facts_of};

use crate::answer::{Answer, Failure};
use crate::asked::Asked;
use crate::look_up::soft_items;
use crate::object::Object;
use crate::query::Query;
use crate::removal_check::{Verdict, is_fatal, is_in_use, judge};
use crate::removal_lines::removal_lines;
use crate::way::Way;
use kmod_names::Text;
use std::alloc::{AllocError, Global};

/// What is to be done: take an object, which is a soft item or not, let it go once its soft items after it are gone, or
/// leave the way.
#[derive(Drop)]
pub(crate) enum Removal {
    Take(bool, Object),
    Release(bool, Object),
    Leave,
}

/// Where a run is: the modules whose soft items are being removed, and what is to be done, the next task last.
#[derive(Drop)]
struct Course {
    way: Way,
    stack: Vec<Removal>,
}

/// What a step answers, and whether it is the last.
#[derive(Drop)]
struct Step {
    answer: Answer,
    ended: bool,
}

fn removed_before(asked: &Asked, name: &[u8]) -> Result<Vec<Object>, AllocError>
    ensures { IfOk result (λ found. objects_of found.items ≡ removed_before (facts_of asked.now.world) asked.now.query name.now) }
{
    if asked.query.ignore_commands {
        return Ok(Vec::new(asked.alloc));
    }
    Ok(soft_items(asked.alloc, &asked.world, name)?.after)
}

pub(crate) fn removed_after(asked: &Asked, name: &[u8]) -> Result<Vec<Object>, AllocError>
    ensures { IfOk result (λ found. objects_of found.items ≡ removed_after (facts_of asked.now.world) asked.now.query name.now) }
{
    if asked.query.ignore_commands {
        return Ok(Vec::new(asked.alloc));
    }
    Ok(soft_items(asked.alloc, &asked.world, name)?.before)
}

/// The objects are taken as soft items, the last first, before what is to be done already.
pub(crate) fn push_each(stack: &mut Vec<Removal>, objects: Vec<Object>) -> Result<(), AllocError>
    ensures { OnOk result (removals_of stack.new.items ≡ take_each (objects_of objects.items) ++ removals_of stack.old.items) }
{
    'objects: for object in objects.into_iter() {
        stack.push(Removal::Take(true, object))?;
    }
    Ok(())
}

/// The object is taken: its soft items after it, then itself, before what is to be done already.
pub(crate) fn push_taken(
    asked: &Asked,
    soft: bool,
    stack: &mut Vec<Removal>,
    object: Object,
) -> Result<(), AllocError>
    ensures { OnOk result (removals_of stack.new.items ≡ taken_tasks (facts_of asked.now.world) asked.now.query soft (object_of object) ++ removals_of stack.old.items) }
{
    let items = removed_before(asked, &object.name)?;
    stack.push(Removal::Leave)?;
    stack.push(Removal::Release(soft, object))?;
    push_each(stack, items)
}

/// A step that answers nothing.
fn silent(alloc: Global) -> Step
    ensures { (later : Answer) → after result later ≡ later }
{
    Step {
        answer: Answer::nothing(alloc),
        ended: false,
    }
}

/// A failure that ends the run, or is noted.
fn refuse(alloc: Global, query: &Query, soft: bool, failure: Failure) -> Result<Step, AllocError>
    ensures { IfOk result (λ step. (later : Answer) → after step later ≡ refused query.now soft failure later) }
{
    if is_fatal(query) {
        return Ok(Step {
            answer: Answer::failing(alloc, failure)?,
            ended: true,
        });
    }
    Ok(Step {
        answer: Answer::noted(alloc, soft, failure)?,
        ended: false,
    })
}

fn take(asked: &Asked, soft: bool, object: Object, course: &mut Course) -> Result<Step, AllocError>
    ensures { IfOk result (Moves (facts_of asked.now.world) asked.now.query (take soft (object_of object)) course.old course.new) }
{
    if course.way.has(&object.name) {
        return Ok(silent(asked.alloc));
    }
    match judge(asked, soft, &object)? {
        Verdict::Remove => {
            course.way.enter(asked.alloc, &object.name)?;
            push_taken(asked, soft, &mut course.stack, object)?;
            Ok(silent(asked.alloc))
        }
        Verdict::Pass => Ok(silent(asked.alloc)),
        Verdict::Refuse(failure) => refuse(asked.alloc, &asked.query, soft, failure),
    }
}

fn release(
    asked: &Asked,
    soft: bool,
    object: &Object,
    course: &mut Course,
) -> Result<Step, AllocError>
    ensures { IfOk result (Moves (facts_of asked.now.world) asked.now.query (release soft (object_of object.now)) course.old course.new) }
{
    if is_in_use(asked, object)? {
        let name = Text::new(asked.alloc, &object.name)?;
        return refuse(asked.alloc, &asked.query, soft, Failure::InUse(name));
    }
    let lines = removal_lines(asked, object)?;
    let items = removed_after(asked, &object.name)?;
    push_each(&mut course.stack, items)?;
    Ok(Step {
        answer: Answer::said(asked.alloc, lines),
        ended: false,
    })
}

/// Makes one step.
fn make(asked: &Asked, task: Removal, course: &mut Course) -> Result<Step, AllocError>
    ensures { IfOk result (Moves (facts_of asked.now.world) asked.now.query (removal_of task) course.old course.new) }
{
    match task {
        Removal::Take(soft, object) => take(asked, soft, object, course),
        Removal::Release(soft, object) => release(asked, soft, &object, course),
        Removal::Leave => {
            course.way.leave();
            Ok(silent(asked.alloc))
        }
    }
}

/// What all that is to be done answers, as far as the steps that may be made go.
fn finish(asked: &Asked, course: &mut Course) -> Result<Answer, AllocError>
    ensures { IfOk result (λ answer. answer ≡ run_removal (facts_of asked.now.world) asked.now.query step_limit course.old.way (removals_of course.old.stack.items)) }
{
    let mut answer = Answer::nothing(asked.alloc);
    'tasks: for _step in 0..u64::MAX {
        match course.stack.pop() {
            None => return Ok(answer),
            Some(task) => {
                let Step { answer: own, ended } = make(asked, task, course)?;
                answer = answer.and_also(own)?;
                if ended {
                    return Ok(answer);
                }
            }
        }
    }
    Ok(answer)
}

/// What is answered of one object that is to be removed.
pub(crate) fn remove_object(asked: &Asked, object: &Object) -> Result<Answer, AllocError>
    ensures { IfOk result (λ answer. answer ≡ remove_object (facts_of asked.now.world) asked.now.query (object_of object.now)) }
{
    let own = object.copy(asked.alloc)?;
    let mut stack = Vec::new(asked.alloc);
    stack.push(Removal::Take(false, own))?;
    let mut course = Course {
        way: Way::new(asked.alloc),
        stack,
    };
    finish(asked, &mut course)
}
