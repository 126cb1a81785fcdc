//! A depth-first search for cycles that remembers its results (memoisation): what a visit has learnt of hard walks. Nothing of
//! it is forgotten while it holds.
ghost use Rattle.std.specs.Prelude.{◌≡◌, ◌<◌, ◌⊎◌, ℕ, List, [], ◌∷◌, ◌++◌, length, replicate, set, slice_index_or, true, false, IfSome, IfOk, OnOk};
ghost use Rattle.std.specs.List.{list_all};
ghost use Rattle.load_plan.specs.declared.learnt.Verdict.TheVariants.{Unknown, Meets, Free};
ghost use Rattle.load_plan.specs.declared.walk.Mark.TheVariants.{New};
ghost use Rattle.load_plan.specs.ForProofs.{InVisit, mark_at};
ghost use Rattle.load_plan.specs.Graph.{is_within, node_at, Node};
ghost use Rattle.load_plan.specs.Laws.{is_in};
ghost use Rattle.load_plan.specs.Learnt.{IsMet, IsNew, IsPlaceOf, IsTold, Knows, Needs, StaysKnown, TargetNeeds, verdict_at};
ghost use Rattle.load_plan.specs.Walk.{has};

use crate::filled::filled;
use crate::graph::{DependencyGraph, Phase, Target};
use crate::walk::{Mark, is_open};
use std::alloc::{AllocError, Global};

/// What was learnt of the hard walk of a module.
#[derive(Clone, Copy)]
pub(crate) enum Verdict {
    Unknown,
    /// It is on the way, if the way has it at this depth.
    Begun(usize),
    /// Its visit began when so many others were on the way.
    Entered(usize),
    /// The walk has a fault, whatever is in progress.
    Faulty,
    /// The walk meets this module, which may be in progress or be known to meet one that is, or has a fault.
    Meets(usize),
    /// The walk is free, if the order has the module at this place.
    Free(usize),
}

/// What a verdict tells while some modules are in progress.
#[derive(Clone, Copy)]
pub(crate) enum Told {
    Nothing,
    Faulty,
    Meets(usize),
    Free,
}

/// A module in progress that a walk meets, and the module that a verdict names for it.
#[derive(Clone, Copy)]
pub(crate) struct Meeting {
    pub(crate) met: usize,
    pub(crate) named: usize,
}

/// Verdicts, and the modules whose hard walks are free: each stands after those of its hard dependencies that are not
/// in the list.
#[derive(Drop)]
pub(crate) struct Learnt {
    pub(crate) verdicts: Vec<Verdict>,
    pub(crate) order: Vec<usize>,
}

impl Learnt {
    pub(crate) fn new(alloc: Global, count: usize) -> Result<Learnt, AllocError>
        ensures verdicts { IfOk result (λ learnt. learnt.verdicts.items ≡ replicate count Unknown) }
        ensures order { IfOk result (λ learnt. learnt.order.items ≡ []) }
    {
        Ok(Learnt {
            verdicts: filled(alloc, Verdict::Unknown, count)?,
            order: Vec::new(alloc),
        })
    }

    /// Whether the order has a module at a place.
    fn is_at(&self, place: usize, slot: usize) -> bool
        ensures here { result ≡ true → (place < length self.now.order.items) × (slice_index_or self.now.order.items place 0 ≡ slot) }
        ensures off { result ≡ false → place < length self.now.order.items → slice_index_or self.now.order.items place 0 ≡ slot → ⊥ }
    {
        place < self.order.len() && self.order[place] == slot
    }

    /// Where the order has a module.
    fn place_of(&self, slot: usize) -> Option<usize>
        requires { slot < length self.now.verdicts.items }
        ensures { IsPlaceOf self.now.verdicts.items self.now.order.items slot result }
    {
        match self.verdicts[slot] {
            Verdict::Free(place) => {
                if self.is_at(place, slot) {
                    Some(place)
                } else {
                    None
                }
            }
            _ => None,
        }
    }

    /// The module that the verdict of this one names.
    fn named(&self, slot: usize) -> Option<usize>
        requires { slot < length self.now.verdicts.items }
        ensures named { IfSome result (λ named. verdict_at self.now.verdicts.items slot ≡ Meets named) }
        ensures within { IfSome result (λ named. named < length self.now.verdicts.items) }
    {
        match self.verdicts[slot] {
            Verdict::Meets(named) if named < self.verdicts.len() => Some(named),
            _ => None,
        }
    }

    /// The module in progress that a module is known to meet: the one that its verdict names, or the one that the verdict
    /// of that names.
    fn met_of(&self, marks: &[Mark], slot: usize) -> Option<usize>
        requires slot { slot < length marks.now }
        requires long { length self.now.verdicts.items ≡ length marks.now }
        ensures { (graph : List Node) → length graph ≡ length marks.now → InVisit graph marks.now (λ progress done.
            Knows graph progress done self.now → IfSome result (λ met. (has progress met ≡ true) × Needs graph slot met)) }
    {
        let near = self.named(slot)?;
        if is_open(marks, near) {
            return Some(near);
        }
        let far = self.named(near)?;
        if is_open(marks, far) { Some(far) } else { None }
    }

    /// What a verdict tells of a module that is neither in progress nor in the list.
    fn told_new(&self, marks: &[Mark], slot: usize) -> Told
        requires slot { slot < length marks.now }
        requires long { length self.now.verdicts.items ≡ length marks.now }
        requires new { mark_at marks.now slot ≡ New }
        ensures { (graph : List Node) → length graph ≡ length marks.now → InVisit graph marks.now (λ progress done.
            Knows graph progress done self.now → IsTold graph progress done self.now.order.items slot result) }
    {
        if let Some(met) = self.met_of(marks, slot) {
            return Told::Meets(met);
        }
        match self.verdicts[slot] {
            Verdict::Faulty => Told::Faulty,
            _ => match self.place_of(slot) {
                Some(_) => Told::Free,
                None => Told::Nothing,
            },
        }
    }

    /// What is known of the hard walk of a module.
    pub(crate) fn told(&self, marks: &[Mark], slot: usize) -> Told
        requires slot { slot < length marks.now }
        requires long { length self.now.verdicts.items ≡ length marks.now }
        ensures { (graph : List Node) → length graph ≡ length marks.now → InVisit graph marks.now (λ progress done.
            Knows graph progress done self.now → IsTold graph progress done self.now.order.items slot result) }
    {
        match marks[slot] {
            Mark::Done => Told::Free,
            Mark::Open => Told::Meets(slot),
            Mark::New => self.told_new(marks, slot),
        }
    }

    /// What the verdict of a module names that meets one in progress over this one: the module that this one's verdict
    /// names, so that all on one way name the last on it, or else this one.
    fn named_over(&self, slot: usize, met: usize) -> usize
        requires { slot < length self.now.verdicts.items }
        ensures { (graph : List Node) (progress done : List ℕ) → length graph ≡ length self.now.verdicts.items
            → Knows graph progress done self.now → Needs graph slot result }
    {
        match self.named(slot) {
            Some(named) if named != met => named,
            _ => slot,
        }
    }

    /// The module in progress that a target is known to meet.
    fn met_by(&self, marks: &[Mark], target: &Target) -> Option<Meeting>
        requires target { is_within (length marks.now) target.now ≡ true }
        requires long { length self.now.verdicts.items ≡ length marks.now }
        ensures { (graph : List Node) → length graph ≡ length marks.now → InVisit graph marks.now (λ progress done.
            Knows graph progress done self.now
            → IfSome result (λ meeting. (has progress meeting.met ≡ true) × TargetNeeds graph target.now meeting.named)) }
    {
        match target {
            Target::Missing(_) => None,
            Target::Slot(slot) => match self.told(marks, *slot) {
                Told::Meets(met) => Some(Meeting {
                    met,
                    named: self.named_over(*slot, met),
                }),
                Told::Nothing | Told::Faulty | Told::Free => None,
            },
        }
    }

    /// How many visits had begun when that of a module began.
    fn depth_of(&self, slot: usize) -> usize {
        match self.verdicts.get(slot) {
            Some(Verdict::Entered(depth)) => *depth,
            _ => 0,
        }
    }

    /// Of two modules the one that was entered first.
    fn earlier(&self, one: Option<Meeting>, other: Option<Meeting>) -> Option<Meeting>
        ensures { (result ≡ one) ⊎ (result ≡ other) }
    {
        match (one, other) {
            (Some(own), Some(rival)) if self.depth_of(rival.met) < self.depth_of(own.met) => other,
            (Some(_), _) => one,
            (None, _) => other,
        }
    }

    /// Of the modules in progress that these targets are known to meet, the one that was entered first: it will be in
    /// progress longest.
    fn first_met(&self, marks: &[Mark], targets: &[Target]) -> Option<Meeting>
        requires targets { list_all (is_within (length marks.now)) targets.now ≡ true }
        requires long { length self.now.verdicts.items ≡ length marks.now }
        ensures { (graph : List Node) → length graph ≡ length marks.now → InVisit graph marks.now (λ progress done.
            Knows graph progress done self.now → IfSome result (IsMet graph progress targets.now)) }
    {
        let mut first = None;
        for target in targets {
            first = self.earlier(first, self.met_by(marks, target));
        }
        first
    }

    /// Whether the hard walk of a target is known to be free.
    fn is_free(&self, marks: &[Mark], target: &Target) -> bool
        requires target { is_within (length marks.now) target.now ≡ true }
        requires long { length self.now.verdicts.items ≡ length marks.now }
        ensures { (graph : List Node) → length graph ≡ length marks.now → InVisit graph marks.now (λ progress done.
            Knows graph progress done self.now → result ≡ true → is_in (done ++ self.now.order.items) target.now ≡ true) }
    {
        match target {
            Target::Missing(_) => false,
            Target::Slot(slot) => matches!(self.told(marks, *slot), Told::Free),
        }
    }

    /// Whether the hard walks of all these targets are known to be free.
    fn are_free(&self, marks: &[Mark], targets: &[Target]) -> bool
        requires targets { list_all (is_within (length marks.now)) targets.now ≡ true }
        requires long { length self.now.verdicts.items ≡ length marks.now }
        ensures { (graph : List Node) → length graph ≡ length marks.now → InVisit graph marks.now (λ progress done.
            Knows graph progress done self.now → result ≡ true → list_all (is_in (done ++ self.now.order.items)) targets.now ≡ true) }
    {
        for target in targets {
            if !self.is_free(marks, target) {
                return false;
            }
        }
        true
    }

    /// Adds a module whose hard walk is free.
    fn add(&mut self, slot: usize) -> Result<(), AllocError>
        requires { slot < length self.old.verdicts.items }
        ensures verdicts { OnOk result (self.new.verdicts.items ≡ set self.old.verdicts.items slot (Free (length self.old.order.items))) }
        ensures order { OnOk result (self.new.order.items ≡ self.old.order.items ++ slot ∷ []) }
    {
        let place = self.order.len();
        self.order.push(slot)?;
        self.verdicts[slot] = Verdict::Free(place);
        Ok(())
    }

    /// Draws from what is known of all hard dependencies of a module what there is to know of it.
    pub(crate) fn settle(
        &mut self,
        graph: &DependencyGraph,
        marks: &[Mark],
        slot: usize,
    ) -> Result<(), AllocError>
        requires slot { slot < length graph.now }
        requires marks { length marks.now ≡ length graph.now }
        requires long { length self.old.verdicts.items ≡ length graph.now }
        requires new { IsNew graph.now marks.now self.old slot }
        requires passed { (node_at graph.now slot).installs ≡ false }
        ensures long { OnOk result (length self.new.verdicts.items ≡ length graph.now) }
        ensures known { OnOk result (StaysKnown graph.now marks.now self.old self.new) }
    {
        let hard = graph.targets(slot, Phase::Hard);
        if let Some(meeting) = self.first_met(marks, hard) {
            self.verdicts[slot] = Verdict::Meets(meeting.named);
        } else if self.are_free(marks, hard) {
            self.add(slot)?;
        }
        Ok(())
    }

    /// The module that the verdict of this one names, if the one that it met is in progress no longer.
    fn outdated(&self, marks: &[Mark], slot: usize) -> Option<usize>
        requires slot { slot < length marks.now }
        requires long { length self.now.verdicts.items ≡ length marks.now }
        ensures within { IfSome result (λ named. named < length marks.now) }
        ensures new { (graph : List Node) → length graph ≡ length marks.now → IfSome result (IsNew graph marks.now self.now) }
    {
        let named = self.named(slot)?;
        self.named(named)?;
        match self.told(marks, named) {
            Told::Nothing => Some(named),
            Told::Faulty | Told::Meets(_) | Told::Free => None,
        }
    }

    /// Looks again at the module that the verdict of this one names, if the one that it met is in progress no longer.
    /// Its dependencies alone may tell of all whose verdicts name it.
    pub(crate) fn renew(&mut self, graph: &DependencyGraph, marks: &[Mark], slot: usize)
        requires slot { slot < length graph.now }
        requires marks { length marks.now ≡ length graph.now }
        requires long { length self.old.verdicts.items ≡ length graph.now }
        ensures long { length self.new.verdicts.items ≡ length graph.now }
        ensures known { StaysKnown graph.now marks.now self.old self.new }
    {
        if let Some(named) = self.outdated(marks, slot) {
            let verdict = match self.first_met(marks, graph.targets(named, Phase::Hard)) {
                Some(meeting) => Verdict::Meets(meeting.named),
                None => Verdict::Unknown,
            };
            self.verdicts[named] = verdict;
        }
    }

    /// The visit of a module begins. What was learnt of the modules after it in the order is forgotten: their walks may
    /// meet it.
    pub(crate) fn enter(&mut self, slot: usize, depth: usize)
        requires { slot < length self.old.verdicts.items }
        ensures long { length self.new.verdicts.items ≡ length self.old.verdicts.items }
        ensures known { (graph : List Node) (progress done : List ℕ)
            → Knows graph progress done self.old → Knows graph (slot ∷ progress) done self.new }
    {
        if let Some(place) = self.place_of(slot) {
            self.order.truncate(place);
        }
        self.verdicts[slot] = Verdict::Entered(depth);
    }
}
