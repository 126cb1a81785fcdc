//! The plan of a module: what is loaded for it, in order, and what is removed with it.
ghost use Rattle.std.specs.Prelude.{◌≡◌, ◌<◌, length, All, IfErr, IfOk};
ghost use Rattle.load_plan.specs.declared.graph.Target.TheVariants.{Slot};
ghost use Rattle.load_plan.specs.declared.walk.Walked.{Walked};
ghost use Rattle.load_plan.specs.ForProofs.{step_of, steps_of};
ghost use Rattle.load_plan.specs.Plan.{plan, removal_plan};
ghost use Rattle.load_plan.specs.Results.{Gives, IsRefusalWithin};

use crate::graph::DependencyGraph;
use crate::refusal::WalkError;
use crate::visit::visit;
use crate::walk::{Mark, Walked, hard_walk};
use std::alloc::Global;

/// A module that a plan loads, and whether only soft items ask for it.
#[derive(Clone, Copy, Debug, PartialEq, Eq)]
pub(crate) struct PlanStep {
    pub(crate) slot: usize,
    pub(crate) soft: bool,
}

/// The module as a step of the plan: it is soft if the hard walk that left these marks did not reach it.
pub(crate) fn step_of(marks: &[Mark], slot: usize) -> PlanStep
    ensures { result ≡ step_of marks.now slot }
{
    PlanStep {
        slot,
        soft: !matches!(marks.get(slot), Some(Mark::Done)),
    }
}

/// The plan of a module of the graph: the modules that are loaded, in order, and the marks that the hard walk left; or
/// why there is none.
pub(crate) fn plan_in(
    alloc: Global,
    graph: &DependencyGraph,
    start: usize,
) -> Result<Walked, WalkError>
    requires { start < length graph.now }
    ensures steps { Gives (λ (planned : Walked). steps_of planned.marks.items planned.order.items) result (plan graph.now (Slot start)) }
    ensures within { IfOk result (λ planned. All (λ slot. slot < length graph.now) planned.order.items) }
    ensures refusal { IfErr result (IsRefusalWithin (length graph.now)) }
{
    let Walked { order, marks } = hard_walk(alloc, graph, true, start)?;
    let order = if graph.has_no_soft_module() {
        order
    } else {
        visit(alloc, graph, start)?
    };
    Ok(Walked { order, marks })
}

/// The removal plan of a module of the graph: the modules that are removed, the module first, or why there is none.
pub(crate) fn removal_plan_in(
    alloc: Global,
    graph: &DependencyGraph,
    start: usize,
) -> Result<Vec<usize>, WalkError>
    requires { start < length graph.now }
    ensures order { Gives (λ order. order.items) result (removal_plan graph.now (Slot start)) }
    ensures within { IfOk result (λ order. All (λ slot. slot < length graph.now) order.items) }
    ensures refusal { IfErr result (IsRefusalWithin (length graph.now)) }
{
    let walked = hard_walk(alloc, graph, false, start)?;
    let mut order = walked.order;
    order.reverse();
    Ok(order)
}
