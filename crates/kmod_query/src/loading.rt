//! What is answered of an object that is to be loaded or resolved.
ghost use Rattle.std.specs.Prelude.{◌≡◌, IfOk, OnOk};
ghost use Rattle.std.specs.List.{flat_map};
ghost use Rattle.kmod_query.specs.Lines.{has_soft_items};
ghost use Rattle.kmod_query.specs.Loading.{already, answer_object};
ghost use Rattle.kmod_query.specs.Loading.{is_barred, is_passed, is_show_depends, line_unless_passed, load, load_lines};
ghost use Rattle.kmod_query.specs.Loading.{shows_lines};
ghost use Rattle.kmod_query.specs.Objects.{object_of, objects_of};
ghost use Rattle.kmod_query.specs.Stacks.{AreSoftLists, IsStart};
ghost use Rattle.kmod_query.specs.World.{facts_of};

use crate::answer::{Answer, Failure};
use crate::asked::Asked;
use crate::lines::{is_in_kernel, load_line, name_line};
use crate::object::Object;
use crate::probes::{Course, probe_list, start};
use crate::query::{Ask, Query};
use crate::soft_lists::SoftLists;
use crate::world::{World, is_blacklisted};
use kmod_names::Text;
use std::alloc::{AllocError, Global};
use std::mem::swap;

fn is_show_depends(ask: Ask) -> bool
    ensures { result ≡ is_show_depends ask }
{
    matches!(ask, Ask::ShowDepends)
}

/// Whether lines are shown.
fn shows_lines(query: &Query) -> bool
    ensures { result ≡ shows_lines query.now }
{
    is_show_depends(query.ask) || query.verbosity > 4
}

/// Whether an object is passed over since the kernel has it.
pub fn is_passed(world: &World, query: &Query, object: &Object) -> bool
    ensures { result ≡ is_passed (facts_of world.now) query.now (object_of object.now) }
{
    !is_show_depends(query.ask) && is_in_kernel(world, object)
}

/// Whether the blacklist bars an object.
pub fn is_barred(world: &World, query: &Query, object: &Object) -> bool
    ensures { result ≡ is_barred (facts_of world.now) query.now (object_of object.now) }
{
    is_blacklisted(world, &object.name) && (object.alias.is_some() || query.use_blacklist)
}

fn line_unless_passed(
    asked: &Asked,
    parameters: &[u8],
    top: &Object,
    object: &Object,
    has_soft: bool,
) -> Result<Vec<u8>, AllocError>
    requires { has_soft ≡ has_soft_items (facts_of asked.now.world) (object_of object.now).name }
    ensures { IfOk result (λ text. text.items ≡ line_unless_passed (facts_of asked.now.world) asked.now.query parameters.now (object_of top.now) (object_of object.now)) }
{
    if is_passed(&asked.world, &asked.query, object) {
        return Ok(Vec::new(asked.alloc));
    }
    load_line(
        asked.alloc,
        &asked.world,
        asked.query.ignore_commands,
        parameters,
        top,
        object,
        has_soft,
    )
}

/// The lines of the objects, in the load of one, by the soft items that were looked up.
fn lines_of(
    asked: &Asked,
    parameters: &[u8],
    top: &Object,
    list: &[Object],
    soft: &mut SoftLists,
) -> Result<Vec<u8>, AllocError>
    requires { AreSoftLists (facts_of asked.now.world) soft.old }
    ensures soft { OnOk result (AreSoftLists (facts_of asked.now.world) soft.new) }
    ensures lines { IfOk result (λ text. text.items ≡ flat_map (line_unless_passed (facts_of asked.now.world) asked.now.query parameters.now (object_of top.now)) (objects_of list.now)) }
{
    let mut lines = Vec::new(asked.alloc);
    'objects: for object in list {
        let has_soft = soft.has_items(asked.alloc, &asked.world, &object.name)?;
        let mut own = line_unless_passed(asked, parameters, top, object, has_soft)?;
        lines.append(&mut own)?;
    }
    Ok(lines)
}

/// The lines that load an object, by a run that has not begun.
fn lines_by(
    asked: &Asked,
    parameters: &[u8],
    top: &Object,
    course: &mut Course,
) -> Result<Vec<u8>, AllocError>
    requires { IsStart (facts_of asked.now.world) course.old }
    ensures soft { OnOk result (AreSoftLists (facts_of asked.now.world) course.new.soft) }
    ensures lines { IfOk result (λ text. text.items ≡ load_lines (facts_of asked.now.world) asked.now.query parameters.now (object_of top.now)) }
{
    probe_list(
        asked.alloc,
        &asked.world,
        asked.query.ignore_commands,
        top,
        course,
    )?;
    lines_of(asked, parameters, top, &course.list, &mut course.soft)
}

/// The lines that load an object. What is found of soft items is kept for other objects.
fn load_lines(
    asked: &Asked,
    parameters: &[u8],
    top: &Object,
    soft: &mut SoftLists,
) -> Result<Vec<u8>, AllocError>
    requires { AreSoftLists (facts_of asked.now.world) soft.old }
    ensures soft { OnOk result (AreSoftLists (facts_of asked.now.world) soft.new) }
    ensures lines { IfOk result (λ text. text.items ≡ load_lines (facts_of asked.now.world) asked.now.query parameters.now (object_of top.now)) }
{
    let mut course = start(asked.alloc);
    swap(&mut course.soft, soft);
    let lines = lines_by(asked, parameters, top, &mut course)?;
    swap(&mut course.soft, soft);
    Ok(lines)
}

/// What is answered if the kernel has the object.
fn already(alloc: Global, query: &Query, object: &Object) -> Result<Answer, AllocError>
    ensures { IfOk result (λ answer. answer ≡ already query.now (object_of object.now)) }
{
    if query.first_time {
        return Answer::failing(
            alloc,
            Failure::AlreadyLoaded(Text::new(alloc, &object.name)?),
        );
    }
    Ok(Answer::nothing(alloc))
}

/// What is answered of one object that is to be loaded.
fn load(
    asked: &Asked,
    parameters: &[u8],
    top: &Object,
    soft: &mut SoftLists,
) -> Result<Answer, AllocError>
    requires { AreSoftLists (facts_of asked.now.world) soft.old }
    ensures soft { OnOk result (AreSoftLists (facts_of asked.now.world) soft.new) }
    ensures answer { IfOk result (λ answer. answer ≡ load (facts_of asked.now.world) asked.now.query parameters.now (object_of top.now)) }
{
    if is_passed(&asked.world, &asked.query, top) {
        return already(asked.alloc, &asked.query, top);
    }
    if is_barred(&asked.world, &asked.query, top) || !shows_lines(&asked.query) {
        return Ok(Answer::nothing(asked.alloc));
    }
    let lines = load_lines(asked, parameters, top, soft)?;
    Ok(Answer::said(asked.alloc, lines))
}

/// What is answered of an object. What is found of soft items is kept for other objects.
pub(crate) fn answer_object(
    asked: &Asked,
    parameters: &[u8],
    object: &Object,
    soft: &mut SoftLists,
) -> Result<Answer, AllocError>
    requires { AreSoftLists (facts_of asked.now.world) soft.old }
    ensures soft { OnOk result (AreSoftLists (facts_of asked.now.world) soft.new) }
    ensures answer { IfOk result (λ answer. answer ≡ answer_object (facts_of asked.now.world) asked.now.query parameters.now (object_of object.now)) }
{
    if matches!(asked.query.ask, Ask::Resolve) {
        let line = name_line(asked.alloc, b"", &object.name)?;
        return Ok(Answer::said(asked.alloc, line));
    }
    load(asked, parameters, object, soft)
}
