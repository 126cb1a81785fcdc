//! The visit: a module, what it stands on and the soft items that are clean, by marks and a stack of its own.
ghost use Rattle.std.specs.Prelude.{◌≡◌, ◌<◌, ℕ, List, [], length, true, All, MatchOption, IfSome, IfOk, OnOk};
ghost use Rattle.std.specs.List.{list_all};
ghost use Rattle.load_plan.specs.declared.walk.Mark.TheVariants.{New};
ghost use Rattle.load_plan.specs.declared.graph.Target.TheVariants.{Slot};
ghost use Rattle.load_plan.specs.ForProofs.{mark_at, InVisit};
ghost use Rattle.load_plan.specs.declared.walk.Mark.{Mark};
ghost use Rattle.load_plan.specs.VisitSteps.{IsMove, IsTaken, IsUnmet, IsUnmetFirst, is_taken, left_of, Leads, first_stage, next_stage};
ghost use Rattle.load_plan.specs.Graph.{is_within, Node};
ghost use Rattle.load_plan.specs.Learnt.{Knows, StaysKnown};
ghost use Rattle.load_plan.specs.Plan.{is_clean, visit};
ghost use Rattle.load_plan.specs.Walk.{hard_walk};

use crate::graph::{DependencyGraph, Phase, Target, target_at};
use crate::learnt::{Learnt, Told};
use crate::refusal::WalkError;
use crate::trial::learn_from;
use crate::walk::{Mark, new_marks, walk};
use std::alloc::{AllocError, Global};

/// A module whose visit has begun, and how many targets of the phase were visited.
#[derive(Clone, Copy)]
struct Stage {
    slot: usize,
    phase: Phase,
    visited: usize,
}

impl Stage {
    fn first(slot: usize, phase: Phase) -> Stage
        ensures { result ≡ first_stage phase slot }
    {
        Stage {
            slot,
            phase,
            visited: 0,
        }
    }
}

/// What a visit does next.
#[derive(Clone, Copy)]
enum Move {
    Turn(Stage),
    Append(Stage),
    Leave,
    Pass(Stage),
    Enter(usize, Stage),
}

/// Whether a soft item is clean: it is new, and its hard walk, which is made, has no fault and meets no module in
/// progress.
fn walks_clean(
    alloc: Global,
    graph: &DependencyGraph,
    marks: &[Mark],
    slot: usize,
) -> Result<bool, AllocError>
    requires slot { slot < length graph.now }
    requires marks { length marks.now ≡ length graph.now }
    ensures clean { InVisit graph.now marks.now (λ progress done.
        IfOk result (λ clean. clean ≡ is_clean graph.now progress done (Slot slot))) }
    ensures new { IfOk result (λ clean. clean ≡ true → mark_at marks.now slot ≡ New) }
{
    match marks[slot] {
        Mark::Open | Mark::Done => Ok(false),
        Mark::New => {
            let marks = Vec::from_slice(alloc, marks)?;
            match walk(alloc, graph, true, marks, slot) {
                Ok(_) => Ok(true),
                Err(WalkError::Refused(_)) => Ok(false),
                Err(WalkError::Memory) => Err(AllocError),
            }
        }
    }
}

/// Whether a soft item is clean, by what was learnt. A walk is made only if nothing can be learnt.
fn is_clean(
    alloc: Global,
    graph: &DependencyGraph,
    marks: &[Mark],
    learnt: &mut Learnt,
    slot: usize,
) -> Result<bool, AllocError>
    requires slot { slot < length graph.now }
    requires marks { length marks.now ≡ length graph.now }
    requires long { length learnt.old.verdicts.items ≡ length graph.now }
    ensures clean { InVisit graph.now marks.now (λ progress done. Knows graph.now progress done learnt.old
        → IfOk result (λ clean. clean ≡ is_clean graph.now progress done (Slot slot))) }
    ensures new { IfOk result (λ clean. clean ≡ true → mark_at marks.now slot ≡ New) }
    ensures long { OnOk result (length learnt.new.verdicts.items ≡ length graph.now) }
    ensures known { OnOk result (StaysKnown graph.now marks.now learnt.old learnt.new) }
{
    match marks[slot] {
        Mark::Open | Mark::Done => Ok(false),
        Mark::New => {
            learn_from(alloc, graph, marks, learnt, slot)?;
            match learnt.told(marks, slot) {
                Told::Free => Ok(true),
                Told::Meets(_) => Ok(false),
                Told::Faulty => Ok(false),
                Told::Nothing => walks_clean(alloc, graph, marks, slot),
            }
        }
    }
}

/// Whether a visit enters a module: a hard dependency that is new, or a soft item that is clean.
fn enters(
    alloc: Global,
    graph: &DependencyGraph,
    marks: &[Mark],
    learnt: &mut Learnt,
    phase: Phase,
    slot: usize,
) -> Result<bool, AllocError>
    requires slot { slot < length graph.now }
    requires marks { length marks.now ≡ length graph.now }
    requires long { length learnt.old.verdicts.items ≡ length graph.now }
    ensures taken { InVisit graph.now marks.now (λ progress done.
        Knows graph.now progress done learnt.old → IsUnmet progress phase (Slot slot)
        → IfOk result (λ taken. taken ≡ is_taken graph.now progress done phase (Slot slot))) }
    ensures new { IfOk result (λ taken. taken ≡ true → mark_at marks.now slot ≡ New) }
    ensures long { OnOk result (length learnt.new.verdicts.items ≡ length graph.now) }
    ensures known { OnOk result (StaysKnown graph.now marks.now learnt.old learnt.new) }
{
    match phase {
        Phase::Pre | Phase::Post => is_clean(alloc, graph, marks, learnt, slot),
        Phase::Hard => match marks[slot] {
            Mark::New => Ok(true),
            Mark::Open | Mark::Done => Ok(false),
        },
    }
}

/// The first target that is left, and the stage after it.
fn first_left<'g, 'a>(
    graph: &'g DependencyGraph<'a>,
    stage: Stage,
) -> Option<(&'g Target<'a>, Stage)>
    requires { stage.slot < length graph.now }
    ensures first { MatchOption result (left_of graph.entry.now stage ≡ []) (λ x. Leads graph.entry.now stage x.0.now) }
    ensures within { IfSome result (λ x. is_within (length graph.entry.now) x.0.now ≡ true) }
    ensures next { IfSome result (λ x. x.1 ≡ next_stage stage) }
{
    let target = target_at(graph.targets(stage.slot, stage.phase), stage.visited)?;
    let visited = stage.visited + 1;
    Some((target, Stage { visited, ..stage }))
}

/// What comes after the last target of a phase.
fn after(stage: Stage) -> Move
    ensures moves { (graph : List Node) (marks : List Mark) → left_of graph stage ≡ [] → IsMove graph marks stage result }
    ensures taken { (graph : List Node) (progress done : List ℕ) → IsTaken graph progress done stage result }
{
    match stage.phase {
        Phase::Pre => Move::Turn(Stage::first(stage.slot, Phase::Hard)),
        Phase::Hard => Move::Append(Stage::first(stage.slot, Phase::Post)),
        Phase::Post => Move::Leave,
    }
}

fn next_move(
    alloc: Global,
    graph: &DependencyGraph,
    marks: &[Mark],
    learnt: &mut Learnt,
    stage: Stage,
) -> Result<Move, AllocError>
    requires slot { stage.slot < length graph.now }
    requires marks { length marks.now ≡ length graph.now }
    requires long { length learnt.old.verdicts.items ≡ length graph.now }
    ensures moves { IfOk result (IsMove graph.now marks.now stage) }
    ensures taken { InVisit graph.now marks.now (λ progress done.
        Knows graph.now progress done learnt.old → IsUnmetFirst graph.now progress stage
        → IfOk result (IsTaken graph.now progress done stage)) }
    ensures long { OnOk result (length learnt.new.verdicts.items ≡ length graph.now) }
    ensures known { OnOk result (StaysKnown graph.now marks.now learnt.old learnt.new) }
{
    match first_left(graph, stage) {
        None => Ok(after(stage)),
        Some((Target::Missing(_), next)) => Ok(Move::Pass(next)),
        Some((Target::Slot(slot), next)) => {
            if enters(alloc, graph, marks, learnt, stage.phase, *slot)? {
                Ok(Move::Enter(*slot, next))
            } else {
                Ok(Move::Pass(next))
            }
        }
    }
}

/// The visit of a module whose hard walk has no fault: all that is loaded for it, in order.
pub(crate) fn visit(
    alloc: Global,
    graph: &DependencyGraph,
    start: usize,
) -> Result<Vec<usize>, AllocError>
    requires start { start < length graph.now }
    requires walked { (reached : List ℕ) × (hard_walk graph.now true (Slot start) ≡ Ok reached) }
    ensures order { IfOk result (λ order. order.items ≡ visit graph.now (length graph.now) [] [] (Slot start)) }
    ensures within { IfOk result (λ order. All (λ slot. slot < length graph.now) order.items) }
{
    let mut marks = new_marks(alloc, graph.len())?;
    marks[start] = Mark::Open;
    let mut learnt = Learnt::new(alloc, graph.len())?;
    learnt.enter(start, 0);
    let mut order = Vec::new(alloc);
    let mut waiting = Vec::new(alloc);
    let mut stage = Stage::first(start, Phase::Pre);
    'visit: loop {
        match next_move(alloc, graph, &marks, &mut learnt, stage)? {
            Move::Turn(next) => stage = next,
            Move::Pass(next) => stage = next,
            Move::Append(next) => {
                marks[stage.slot] = Mark::Done;
                order.push(stage.slot)?;
                stage = next;
            }
            Move::Leave => match waiting.pop() {
                Some(next) => stage = next,
                None => return Ok(order),
            },
            Move::Enter(slot, next) => {
                marks[slot] = Mark::Open;
                learnt.enter(slot, waiting.len());
                waiting.push(next)?;
                stage = Stage::first(slot, Phase::Pre);
            }
        }
    }
}
