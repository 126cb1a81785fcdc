//! What is loaded for a module, in order.
ghost use Rattle.std.specs.Prelude.{◌≡◌, ◌<◌, ◌++◌, ◌∷◌, [], map, IfOk, OnOk};
ghost use Rattle.kmod_query.specs.Facts.{Facts};
ghost use Rattle.kmod_query.specs.Objects.{by_name, names_of, object_of, objects_of};
ghost use Rattle.kmod_query.specs.Probes.{add, fill, fill_tasks, first_tasks, probe, probe_list};
ghost use Rattle.kmod_query.specs.Stacks.{AreSoftLists, Ends, Falls, IsAt, IsFront, IsStart, Makes, Stands, rest_of, soft_of, stack_of, task_of};
ghost use Rattle.kmod_query.specs.World.{facts_of};

use crate::fronts::Fronts;
use crate::look_up::Place;
use crate::object::{Met, Object};
use crate::soft_lists::{Found, SoftLists};
use crate::world::{World, needs_of};
use std::alloc::{AllocError, Global};

/// The soft items on one side of a module, from an index on.
#[derive(Drop)]
struct Rest {
    name: Vec<u8>,
    place: Place,
    from: usize,
}

/// What is to be done: probe soft items one after another, fill in a module with its soft items, or add it to the list.
#[derive(Drop)]
enum Task {
    Soft(Rest),
    Fill(Object),
    Add(Object),
}

/// How far a run is: what was met, what was found of soft items, what is to be done, the next task last, what is out,
/// and how many steps are left.
pub(crate) struct Course {
    met: Met,
    pub(crate) soft: SoftLists,
    fronts: Fronts,
    stack: Vec<Task>,
    pub(crate) list: Vec<Object>,
    left: u64,
}

// By hand, since a derived drop is written out, and proved, at each place where a value is let go.
impl Drop for Course {
    fn drop(self) {
        let Course {
            met: _,
            soft: _,
            fronts: _,
            stack: _,
            list: _,
            left: _,
        } = self;
    }
}

/// The modules of these names are filled in, before what is to be done already. The names are taken out.
fn push_fills(stack: &mut Vec<Task>, names: &mut Vec<Vec<u8>>) -> Result<(), AllocError>
    ensures { OnOk result ((facts : Facts) → stack_of facts stack.new.items ≡ map (λ name. fill (by_name name)) (names_of names.old.items) ++ stack_of facts stack.old.items) }
{
    'names: while let Some(name) = names.pop() {
        let object = Object {
            name,
            alias: None,
            builtin: false,
        };
        stack.push(Task::Fill(object))?;
    }
    Ok(())
}

/// All soft items on one side of a module.
fn all_soft(alloc: Global, place: Place, name: &[u8]) -> Result<Rest, AllocError>
    ensures { IfOk result (λ rest. (facts : Facts) → rest_of facts rest ≡ map probe (soft_of facts place name.now)) }
{
    Ok(Rest {
        name: Vec::from_slice(alloc, name)?,
        place,
        from: 0,
    })
}

/// What fills in an object, before what is to be done already.
fn push_fill(alloc: Global, stack: &mut Vec<Task>, object: Object) -> Result<(), AllocError>
    ensures { OnOk result ((facts : Facts) → stack_of facts stack.new.items ≡ fill_tasks facts (object_of object) ++ stack_of facts stack.old.items) }
{
    let after = all_soft(alloc, Place::After, &object.name)?;
    stack.push(Task::Soft(after))?;
    let before = all_soft(alloc, Place::Before, &object.name)?;
    stack.push(Task::Add(object))?;
    stack.push(Task::Soft(before))?;
    Ok(())
}

/// What probes an object that was not met, before what is to be done already; without its soft items if it is bare.
fn push_probe(
    alloc: Global,
    world: &World,
    bare: bool,
    stack: &mut Vec<Task>,
    object: Object,
) -> Result<(), AllocError>
    ensures { OnOk result (stack_of (facts_of world.now) stack.new.items ≡ first_tasks (facts_of world.now) bare (object_of object) ++ stack_of (facts_of world.now) stack.old.items) }
{
    let mut needs = needs_of(alloc, world, &object.name)?;
    stack.push(if bare {
        Task::Add(object)
    } else {
        Task::Fill(object)
    })?;
    push_fills(stack, &mut needs)
}

fn add(own: Object, course: &mut Course) -> Result<(), AllocError>
    ensures made { OnOk result ((facts : Facts) → Makes facts (add (object_of own) ∷ []) course.old course.new) }
    ensures falls { OnOk result (Falls course.old course.new) }
{
    course.left = course.left.saturating_sub(1);
    course.list.push(own)?;
    Ok(())
}

fn fill(alloc: Global, own: Object, course: &mut Course) -> Result<(), AllocError>
    ensures made { OnOk result ((facts : Facts) → Makes facts (fill (object_of own) ∷ []) course.old course.new) }
    ensures falls { OnOk result (Falls course.old course.new) }
{
    course.left = course.left.saturating_sub(1);
    push_fill(alloc, &mut course.stack, own)
}

/// Passes over items that were met, up to the index `front`. Their steps are counted.
fn pass(mut rest: Rest, front: usize, course: &mut Course) -> Result<(), AllocError>
    requires { rest.from < front }
    ensures made { OnOk result ((facts : Facts) → IsFront course.old.met front (soft_of facts rest.place rest.name.items)
        → Makes facts (rest_of facts rest) course.old course.new) }
    ensures falls { OnOk result (Falls course.old course.new) }
{
    let count = front - rest.from;
    course.left = course.left.saturating_sub(count as u64);
    rest.from = front;
    course.stack.push(Task::Soft(rest))?;
    Ok(())
}

/// Probes the next soft item, and keeps those after it.
fn probe(
    alloc: Global,
    world: &World,
    mut rest: Rest,
    found: Found,
    course: &mut Course,
) -> Result<(), AllocError>
    ensures made { OnOk result (IsAt (soft_of (facts_of world.now) rest.place rest.name.items) rest.from found
        → Makes (facts_of world.now) (rest_of (facts_of world.now) rest) course.old course.new) }
    ensures falls { OnOk result (Falls course.old course.new) }
{
    let Found { object, next } = found;
    course.left = course.left.saturating_sub(1);
    let is_new = course.met.insert(alloc, &object)?;
    course
        .fronts
        .meet(alloc, rest.place, &rest.name, rest.from, next)?;
    rest.from = next;
    course.stack.push(Task::Soft(rest))?;
    if is_new {
        return push_probe(alloc, world, false, &mut course.stack, object);
    }
    Ok(())
}

/// Probes the soft items that are next.
fn probe_soft(
    alloc: Global,
    world: &World,
    rest: Rest,
    course: &mut Course,
) -> Result<(), AllocError>
    ensures made { OnOk result (Makes (facts_of world.now) (rest_of (facts_of world.now) rest) course.old course.new) }
    ensures falls { OnOk result (Falls course.old course.new) }
{
    let front = course.fronts.of(rest.place, &rest.name);
    if rest.from < front {
        return pass(rest, front, course);
    }
    match course
        .soft
        .item(alloc, world, rest.place, &rest.name, rest.from)?
    {
        Some(found) => probe(alloc, world, rest, found, course),
        None => Ok(()),
    }
}

/// Makes what is next.
fn make(alloc: Global, world: &World, task: Task, course: &mut Course) -> Result<(), AllocError>
    ensures made { OnOk result (Makes (facts_of world.now) (task_of (facts_of world.now) task) course.old course.new) }
    ensures falls { OnOk result (Falls course.old course.new) }
{
    match task {
        Task::Soft(rest) => probe_soft(alloc, world, rest, course),
        Task::Fill(own) => fill(alloc, own, course),
        Task::Add(own) => add(own, course),
    }
}

/// Nothing was met, and nothing is to be done.
pub(crate) fn start(alloc: Global) -> Course
    ensures { (facts : Facts) → IsStart facts result }
{
    Course {
        met: Met::new(alloc),
        soft: SoftLists::new(alloc),
        fronts: Fronts::new(alloc),
        stack: Vec::new(alloc),
        list: Vec::new(alloc),
        left: u64::MAX,
    }
}

/// A run begins with an object: it is met, and what probes it is to be done.
fn begin(
    alloc: Global,
    world: &World,
    bare: bool,
    object: &Object,
    course: &mut Course,
) -> Result<(), AllocError>
    requires { IsStart (facts_of world.now) course.old }
    ensures { OnOk result (Stands (facts_of world.now) [] course.new (probe_list (facts_of world.now) bare (object_of object.now))) }
{
    course.met.insert(alloc, object)?;
    let own = object.copy(alloc)?;
    push_probe(alloc, world, bare, &mut course.stack, own)
}

/// Makes all that is to be done, as far as the steps that are left go.
fn finish(alloc: Global, world: &World, course: &mut Course) -> Result<(), AllocError>
    ensures { OnOk result (Ends (facts_of world.now) course.old course.new) }
{
    'tasks: while course.left > 0 {
        match course.stack.pop() {
            None => return Ok(()),
            Some(task) => make(alloc, world, task, course)?,
        }
    }
    Ok(())
}

/// Lists what is loaded for an object, in order; for a bare one without its soft items. The caller has the run from its
/// start on, so that no step that may be refused has to drop it.
pub(crate) fn probe_list(
    alloc: Global,
    world: &World,
    bare: bool,
    object: &Object,
    course: &mut Course,
) -> Result<(), AllocError>
    requires { IsStart (facts_of world.now) course.old }
    ensures list { OnOk result (objects_of course.new.list.items ≡ probe_list (facts_of world.now) bare (object_of object.now)) }
    ensures soft { OnOk result (AreSoftLists (facts_of world.now) course.new.soft) }
{
    begin(alloc, world, bare, object, course)?;
    finish(alloc, world, course)
}
