//! The hard walk: a module and all that it stands on, depth first, by marks and a stack of its own.
ghost use Rattle.std.specs.Prelude.{◌≡◌, ◌<◌, ◌&&◌, ℕ, List, [], ◌++◌, length, replicate, true, All, MatchOption, IfSome, IfOk, IfErr};
ghost use Rattle.load_plan.specs.declared.walk.Mark.TheVariants.{New, Open};
ghost use Rattle.load_plan.specs.declared.walk.Walked.{Walked};
ghost use Rattle.load_plan.specs.declared.graph.Target.TheVariants.{Slot};
ghost use Rattle.load_plan.specs.ForProofs.{AreMarks, IsStep, left_of, mark_at, next_frame, Leads};
ghost use Rattle.load_plan.specs.Graph.{is_within, node_at};
ghost use Rattle.load_plan.specs.Results.{Gives, IsRefusalWithin};
ghost use Rattle.load_plan.specs.Walk.{hard_walk, walk};

use crate::filled::filled;
use crate::graph::{DependencyGraph, MissingName, Phase, Target, target_at};
use crate::refusal::{PlanRefusal, WalkError};
use std::alloc::{AllocError, Global};

/// Where a walk or a visit is with a module.
#[derive(Clone, Copy, Debug, PartialEq, Eq)]
pub(crate) enum Mark {
    New,
    Open,
    Done,
}

/// A module on the way, and how many of its hard dependencies were walked.
#[derive(Clone, Copy)]
pub(crate) struct Frame {
    pub(crate) slot: usize,
    pub(crate) walked: usize,
}

/// What the first dependency that is left and not finished asks of a walk.
#[derive(Clone, Copy)]
enum Step<'g, 'a> {
    Finish,
    Enter(usize, Frame),
    Again(usize),
    Blocked(usize),
    Nowhere(&'g MissingName<'a>),
}

/// What a walk finished, in order, and the marks that it left.
#[derive(Drop)]
pub(crate) struct Walked {
    pub(crate) order: Vec<usize>,
    pub(crate) marks: Vec<Mark>,
}

/// Whether the walk stops at a module for its install line.
fn is_blocked(graph: &DependencyGraph, tests: bool, slot: usize) -> bool
    requires { slot < length graph.now }
    ensures { result ≡ (tests && (node_at graph.now slot).installs) }
{
    tests && graph.installs(slot)
}

/// The first hard dependency that is left, and the frame after it.
pub(crate) fn first_left<'g, 'a>(
    graph: &'g DependencyGraph<'a>,
    frame: Frame,
) -> Option<(&'g Target<'a>, Frame)>
    requires { frame.slot < length graph.now }
    ensures first { MatchOption result (left_of graph.entry.now frame ≡ []) (λ x. Leads graph.entry.now frame x.0.now) }
    ensures within { IfSome result (λ x. is_within (length graph.entry.now) x.0.now ≡ true) }
    ensures next { IfSome result (λ x. x.1 ≡ next_frame frame) }
{
    match target_at(graph.targets(frame.slot, Phase::Hard), frame.walked) {
        Some(target) => {
            let walked = frame.walked + 1;
            Some((target, Frame { walked, ..frame }))
        }
        None => None,
    }
}

/// The next step of a walk, past the dependencies that are finished.
fn next_step<'g, 'a>(
    graph: &'g DependencyGraph<'a>,
    tests: bool,
    marks: &[Mark],
    mut frame: Frame,
) -> Step<'g, 'a>
    requires slot { frame.slot < length graph.now }
    requires marks { length marks.now ≡ length graph.now }
    ensures { IsStep graph.entry.now tests marks.now frame result }
{
    'finished: while let Some((target, next)) = first_left(graph, frame) {
        match target {
            Target::Missing(name) => return Step::Nowhere(name),
            Target::Slot(slot) => match marks[*slot] {
                Mark::Done => frame = next,
                Mark::Open => return Step::Again(*slot),
                Mark::New if is_blocked(graph, tests, *slot) => return Step::Blocked(*slot),
                Mark::New => return Step::Enter(*slot, next),
            },
        }
    }
    Step::Finish
}

/// Whether a module is marked Open.
pub(crate) fn is_open(marks: &[Mark], slot: usize) -> bool
    ensures { result ≡ true → (slot < length marks.now) × (mark_at marks.now slot ≡ Open) }
{
    slot < marks.len() && matches!(marks[slot], Mark::Open)
}

/// A mark for each module, all New.
pub(crate) fn new_marks(alloc: Global, count: usize) -> Result<Vec<Mark>, AllocError>
    ensures { IfOk result (λ marks. marks.items ≡ replicate count New) }
{
    filled(alloc, Mark::New, count)
}

/// The walk from a new module, on from marks: the modules that it finishes, in order.
/// Marks that are Open are on the way, marks that are Done are finished.
pub(crate) fn walk(
    alloc: Global,
    graph: &DependencyGraph,
    tests: bool,
    mut marks: Vec<Mark>,
    start: usize,
) -> Result<Walked, WalkError>
    requires start { start < length graph.now }
    requires marks { length marks.items ≡ length graph.now }
    requires new { mark_at marks.items start ≡ New }
    ensures order { (way done : List ℕ) → AreMarks (length graph.now) marks.items way done
        → Gives (λ (walked : Walked). done ++ walked.order.items) result (walk graph.now tests (length graph.now) way done (Slot start)) }
    ensures refusal { IfErr result (IsRefusalWithin (length graph.now)) }
    ensures long { IfOk result (λ walked. length walked.marks.items ≡ length graph.now) }
    ensures marks { (way done : List ℕ) → AreMarks (length graph.now) marks.items way done
        → IfOk result (λ walked. AreMarks (length graph.now) walked.marks.items way (done ++ walked.order.items)) }
{
    if is_blocked(graph, tests, start) {
        return Err(WalkError::Refused(PlanRefusal::Install(start)));
    }
    marks[start] = Mark::Open;
    let mut order = Vec::new(alloc);
    let mut waiting = Vec::new(alloc);
    let mut frame = Frame {
        slot: start,
        walked: 0,
    };
    'walk: loop {
        match next_step(graph, tests, &marks, frame) {
            Step::Finish => {
                marks[frame.slot] = Mark::Done;
                order.push(frame.slot)?;
                match waiting.pop() {
                    Some(next) => frame = next,
                    None => return Ok(Walked { order, marks }),
                }
            }
            Step::Enter(slot, next) => {
                marks[slot] = Mark::Open;
                waiting.push(next)?;
                frame = Frame { slot, walked: 0 };
            }
            Step::Again(slot) => return Err(WalkError::Refused(PlanRefusal::Cycle(slot))),
            Step::Blocked(slot) => return Err(WalkError::Refused(PlanRefusal::Install(slot))),
            Step::Nowhere(name) => {
                let name = name.copy(alloc)?;
                return Err(WalkError::Refused(PlanRefusal::Unknown(name)));
            }
        }
    }
}

/// The hard walk from a module: what it reaches, each dependency before its user.
pub(crate) fn hard_walk(
    alloc: Global,
    graph: &DependencyGraph,
    tests: bool,
    start: usize,
) -> Result<Walked, WalkError>
    requires { start < length graph.now }
    ensures order { Gives (λ (walked : Walked). walked.order.items) result (hard_walk graph.now tests (Slot start)) }
    ensures within { IfOk result (λ walked. All (λ slot. slot < length graph.now) walked.order.items) }
    ensures refusal { IfErr result (IsRefusalWithin (length graph.now)) }
    ensures long { IfOk result (λ walked. length walked.marks.items ≡ length graph.now) }
    ensures marks { IfOk result (λ walked. AreMarks (length graph.now) walked.marks.items [] walked.order.items) }
{
    let marks = new_marks(alloc, graph.len())?;
    walk(alloc, graph, tests, marks, start)
}
