//! The remembered search for cycles: what the hard walk of a module meets, learnt from the hard dependencies up.
ghost use Rattle.std.specs.Prelude.{◌≡◌, ◌<◌, length, reverse, true, IfOk, IfSome, OnOk};
ghost use Rattle.load_plan.specs.Graph.{is_within};
ghost use Rattle.load_plan.specs.Learnt.{IsHard, IsLesson, IsNew, IsOnWay, IsWay, StaysKnown};

use crate::graph::{DependencyGraph, Phase, Target, target_at};
use crate::learnt::{Learnt, Told, Verdict};
use crate::walk::{Frame, Mark};
use std::alloc::{AllocError, Global};

/// What is next to learn.
#[derive(Clone, Copy)]
enum Lesson {
    /// Of the same module, from the hard dependency before this one on.
    Stay(Frame),
    /// Of one of its hard dependencies.
    Enter(usize),
    /// Of the module that asked for it: there is no more to learn here.
    Back,
}

/// Whether a module is on the way: it is the last one, or stands there where its verdict says.
fn is_on_way(learnt: &Learnt, way: &[Frame], last: usize, slot: usize) -> bool
    requires { slot < length learnt.now.verdicts.items }
    ensures { result ≡ true → IsOnWay way.now last slot }
{
    slot == last
        || match learnt.verdicts[slot] {
            Verdict::Begun(depth) => way.get(depth).is_some_and(|frame| frame.slot == slot),
            _ => false,
        }
}

/// The last hard dependency that is left, and the frame after it. A visit enters the first ones first, and forgets what
/// was learnt later than of the module that it enters: so it forgets the least if the first ones are learnt last.
fn last_left<'g, 'a>(
    graph: &'g DependencyGraph<'a>,
    frame: Frame,
) -> Option<(&'g Target<'a>, Frame)>
    requires { frame.slot < length graph.now }
    ensures hard { IfSome result (λ x. IsHard graph.entry.now frame.slot x.0.now) }
    ensures within { IfSome result (λ x. is_within (length graph.entry.now) x.0.now ≡ true) }
    ensures next { IfSome result (λ x. x.1.slot ≡ frame.slot) }
{
    let hard = graph.targets(frame.slot, Phase::Hard);
    let left = hard.len().checked_sub(frame.walked)?;
    let target = target_at(hard, left.checked_sub(1)?)?;
    let walked = frame.walked + 1;
    Some((target, Frame { walked, ..frame }))
}

/// Learns of a module of which nothing is known what its last hard dependency that is left tells.
fn learn_new(
    graph: &DependencyGraph,
    marks: &[Mark],
    learnt: &mut Learnt,
    way: &[Frame],
    frame: Frame,
) -> Result<Lesson, AllocError>
    requires slot { frame.slot < length graph.now }
    requires marks { length marks.now ≡ length graph.now }
    requires long { length learnt.old.verdicts.items ≡ length graph.now }
    requires way { IsWay graph.now (reverse way.now) frame.slot }
    requires new { IsNew graph.now marks.now learnt.old frame.slot }
    ensures long { OnOk result (length learnt.new.verdicts.items ≡ length graph.now) }
    ensures known { OnOk result (StaysKnown graph.now marks.now learnt.old learnt.new) }
    ensures lesson { IfOk result (IsLesson graph.now frame) }
{
    if graph.installs(frame.slot) {
        learnt.verdicts[frame.slot] = Verdict::Faulty;
        return Ok(Lesson::Back);
    }
    match last_left(graph, frame) {
        None => {
            learnt.settle(graph, marks, frame.slot)?;
            Ok(Lesson::Back)
        }
        Some((Target::Missing(_), _)) => {
            learnt.verdicts[frame.slot] = Verdict::Faulty;
            Ok(Lesson::Back)
        }
        Some((Target::Slot(slot), next)) => match learnt.told(marks, *slot) {
            Told::Free | Told::Meets(_) => Ok(Lesson::Stay(next)),
            Told::Faulty => {
                learnt.verdicts[frame.slot] = Verdict::Faulty;
                Ok(Lesson::Back)
            }
            Told::Nothing => {
                if is_on_way(learnt, way, frame.slot, *slot) {
                    learnt.verdicts[frame.slot] = Verdict::Faulty;
                    return Ok(Lesson::Back);
                }
                learnt.verdicts[frame.slot] = Verdict::Begun(way.len());
                Ok(Lesson::Enter(*slot))
            }
        },
    }
}

/// Learns of a module what its last hard dependency that is left tells. What is known stays true.
fn learn(
    graph: &DependencyGraph,
    marks: &[Mark],
    learnt: &mut Learnt,
    way: &[Frame],
    frame: Frame,
) -> Result<Lesson, AllocError>
    requires slot { frame.slot < length graph.now }
    requires marks { length marks.now ≡ length graph.now }
    requires long { length learnt.old.verdicts.items ≡ length graph.now }
    requires way { IsWay graph.now (reverse way.now) frame.slot }
    ensures long { OnOk result (length learnt.new.verdicts.items ≡ length graph.now) }
    ensures known { OnOk result (StaysKnown graph.now marks.now learnt.old learnt.new) }
    ensures lesson { IfOk result (IsLesson graph.now frame) }
{
    learnt.renew(graph, marks, frame.slot);
    match learnt.told(marks, frame.slot) {
        Told::Free | Told::Meets(_) | Told::Faulty => Ok(Lesson::Back),
        Told::Nothing => learn_new(graph, marks, learnt, way, frame),
    }
}

/// Learns what the hard walk of a module meets.
pub(crate) fn learn_from(
    alloc: Global,
    graph: &DependencyGraph,
    marks: &[Mark],
    learnt: &mut Learnt,
    slot: usize,
) -> Result<(), AllocError>
    requires slot { slot < length graph.now }
    requires marks { length marks.now ≡ length graph.now }
    requires long { length learnt.old.verdicts.items ≡ length graph.now }
    ensures long { OnOk result (length learnt.new.verdicts.items ≡ length graph.now) }
    ensures known { OnOk result (StaysKnown graph.now marks.now learnt.old learnt.new) }
{
    let mut way = Vec::new(alloc);
    let mut frame = Frame { slot, walked: 0 };
    for _ in 0..u64::MAX {
        match learn(graph, marks, learnt, &way, frame)? {
            Lesson::Stay(next) => frame = next,
            Lesson::Enter(slot) => {
                way.push(frame)?;
                frame = Frame { slot, walked: 0 };
            }
            Lesson::Back => match way.pop() {
                Some(next) => frame = next,
                None => return Ok(()),
            },
        }
    }
    Ok(())
}
