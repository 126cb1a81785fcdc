//! What a removal takes of one object, if it is made and not only shown.
ghost use Rattle.std.specs.Prelude.{◌≡◌, IfOk, OnOk};
ghost use Rattle.kmod_query.specs.Objects.{object_of};
ghost use Rattle.kmod_query.specs.Probes.{step_limit};
ghost use Rattle.kmod_query.specs.Removal.{is_in_use, verdict};
ghost use Rattle.kmod_query.specs.Removals.{removal_of};
ghost use Rattle.kmod_query.specs.Verdicts.{verdict_of};
ghost use Rattle.kmod_query.specs.Whole.{all_done, done, facts_after, is_gone_by, released, taken_up, whole_object, with_failure, with_gone};
ghost use Rattle.kmod_query.specs.Wholes.{course_of};
ghost use Rattle.kmod_query.specs.World.{facts_of};

use crate::answer::Failure;
use crate::asked::Asked;
use crate::lines::is_built_in;
use crate::object::Object;
use crate::query::Query;
use crate::removal::{Removal, push_each, push_taken as push_tasks, removed_after};
use crate::removal_check::{
    Verdict, absent_verdict, builtin_verdict, counts_state, has_users, is_absent, is_fatal,
};
use crate::taken::{Holders, Taken, is_gone, push_taken, status_after};
use crate::way::Way;
use kmod_names::Text;
use std::alloc::{AllocError, Global};

/// Where a removal is: the modules whose soft items are being removed, what is to be done, the next task last, what was
/// taken, what failed, and whether the name that is being removed has failed.
pub(crate) struct Course {
    pub(crate) way: Way,
    pub(crate) stack: Vec<Removal>,
    pub(crate) taken: Vec<Taken>,
    pub(crate) failures: Vec<Failure>,
    pub(crate) failed: bool,
}

// By hand, since a derived drop is written out, and proved, at each place where a value is let go.
impl Drop for Course {
    fn drop(self) {
        let Course {
            way: _,
            stack: _,
            taken: _,
            failures: _,
            failed: _,
        } = self;
    }
}

/// What becomes of an object that is to be removed, a soft item or not, once other modules are gone. It fails only if memory
/// runs out.
pub fn judge_after(
    asked: &Asked,
    holders: &[Holders],
    taken: &[Taken],
    soft: bool,
    object: &Object,
) -> Result<Verdict, AllocError>
    ensures { IfOk result (λ own. verdict_of own ≡ verdict (facts_after (facts_of asked.now.world) holders.now taken.now) asked.now.query soft (object_of object.now)) }
{
    if !counts_state(asked, object)? {
        return Ok(Verdict::Remove);
    }
    if is_built_in(&asked.world, object) {
        return builtin_verdict(asked.alloc, soft, object);
    }
    if is_absent(status_after(&asked.world, holders, taken, &object.name)) {
        return absent_verdict(asked.alloc, &asked.query, object);
    }
    Ok(Verdict::Remove)
}

/// Whether an object that is to be removed is not, since it has users once other modules are gone. It fails only if memory
/// runs out.
pub fn is_in_use_after(
    asked: &Asked,
    holders: &[Holders],
    taken: &[Taken],
    object: &Object,
) -> Result<bool, AllocError>
    ensures { IfOk result (λ used. used ≡ is_in_use (facts_after (facts_of asked.now.world) holders.now taken.now) asked.now.query (object_of object.now)) }
{
    Ok(
        counts_state(asked, object)?
            && has_users(status_after(&asked.world, holders, taken, &object.name)),
    )
}

/// Whether an object cannot be removed, since a soft dependency after it took it along. It fails only if memory runs out.
pub fn is_gone_by(asked: &Asked, taken: &[Taken], object: &Object) -> Result<bool, AllocError>
    ensures { IfOk result (λ gone. gone ≡ is_gone_by (facts_of asked.now.world) asked.now.query taken.now (object_of object.now)) }
{
    Ok(counts_state(asked, object)? && is_gone(taken, &object.name))
}

/// Notes a failure, which may end all.
pub(crate) fn fail(
    alloc: Global,
    query: &Query,
    soft: bool,
    failure: Failure,
    course: &mut Course,
) -> Result<(), AllocError>
    ensures { OnOk result (course_of course.new ≡ with_failure query.now soft failure (course_of course.old)) }
{
    let fatal = is_fatal(query);
    if fatal {
        course.stack = Vec::new(alloc);
    }
    course.failures.push(failure)?;
    course.failed = course.failed || fatal || !soft;
    Ok(())
}

/// Notes that an object cannot be removed again, which ends nothing. Its line is shown.
fn note_gone(
    alloc: Global,
    soft: bool,
    object: &Object,
    course: &mut Course,
) -> Result<(), AllocError>
    ensures { OnOk result (course_of course.new ≡ with_gone soft (object_of object.now) (course_of course.old)) }
{
    course
        .taken
        .push(Taken::Removed(Text::new(alloc, &object.name)?))?;
    let name = Text::new(alloc, &object.name)?;
    course.failures.push(Failure::Gone(name))?;
    course.failed = course.failed || !soft;
    Ok(())
}

fn take_up(
    asked: &Asked,
    holders: &[Holders],
    soft: bool,
    object: Object,
    course: &mut Course,
) -> Result<(), AllocError>
    ensures { OnOk result (course_of course.new ≡ taken_up (facts_of asked.now.world) holders.now asked.now.query soft (object_of object) (course_of course.old)) }
{
    match judge_after(asked, holders, &course.taken, soft, &object)? {
        Verdict::Remove if course.way.has(&object.name) => Ok(()),
        Verdict::Remove => {
            course.way.enter(asked.alloc, &object.name)?;
            push_tasks(asked, soft, &mut course.stack, object)
        }
        Verdict::Pass => Ok(()),
        Verdict::Refuse(failure) => fail(asked.alloc, &asked.query, soft, failure, course),
    }
}

fn release(
    asked: &Asked,
    holders: &[Holders],
    soft: bool,
    object: &Object,
    course: &mut Course,
) -> Result<(), AllocError>
    ensures { OnOk result (course_of course.new ≡ released (facts_of asked.now.world) holders.now asked.now.query soft (object_of object.now) (course_of course.old)) }
{
    if is_in_use_after(asked, holders, &course.taken, object)? {
        let name = Text::new(asked.alloc, &object.name)?;
        return fail(
            asked.alloc,
            &asked.query,
            soft,
            Failure::InUse(name),
            course,
        );
    }
    if is_gone_by(asked, &course.taken, object)? {
        return note_gone(asked.alloc, soft, object, course);
    }
    push_taken(asked, holders, &mut course.taken, object)?;
    let items = removed_after(asked, &object.name)?;
    push_each(&mut course.stack, items)
}

/// Does one task.
fn perform(
    asked: &Asked,
    holders: &[Holders],
    task: Removal,
    course: &mut Course,
) -> Result<(), AllocError>
    ensures { OnOk result (course_of course.new ≡ done (facts_of asked.now.world) holders.now asked.now.query (removal_of task) (course_of course.old)) }
{
    match task {
        Removal::Take(soft, object) => take_up(asked, holders, soft, object, course),
        Removal::Release(soft, object) => release(asked, holders, soft, &object, course),
        Removal::Leave => {
            course.way.leave();
            Ok(())
        }
    }
}

/// Does all that is to be done, as far as the steps that may be made go.
fn perform_all(asked: &Asked, holders: &[Holders], course: &mut Course) -> Result<(), AllocError>
    ensures { OnOk result (course_of course.new ≡ all_done (facts_of asked.now.world) holders.now asked.now.query step_limit (course_of course.old)) }
{
    'tasks: for _step in 0..u64::MAX {
        match course.stack.pop() {
            None => return Ok(()),
            Some(task) => perform(asked, holders, task, course)?,
        }
    }
    Ok(())
}

/// Removes one object.
pub(crate) fn remove_whole(
    asked: &Asked,
    holders: &[Holders],
    course: &mut Course,
    object: &Object,
) -> Result<(), AllocError>
    ensures { OnOk result (course_of course.new ≡ whole_object (facts_of asked.now.world) holders.now asked.now.query (course_of course.old) (object_of object.now)) }
{
    let own = object.copy(asked.alloc)?;
    let mut stack = Vec::new(asked.alloc);
    stack.push(Removal::Take(false, own))?;
    course.way = Way::new(asked.alloc);
    course.stack = stack;
    perform_all(asked, holders, course)
}
