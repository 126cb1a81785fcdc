//! Plans of several names, over one reading of what they all reach.
ghost use Rattle.std.specs.Prelude.{◌≡◌, ◌<◌, ℕ, List, length, replicate, set, true, false, All, IfErr, IfOk};
ghost use Rattle.text_parts.specs.Text.{texts_of};
ghost use Rattle.load_plan.specs.Items.{Answers, FailsAs, plan_from, removal_plan_from};
ghost use Rattle.load_plan.specs.Outlook.{settled_at, IsSettled};

use crate::filled::filled;
use crate::items::{
    Asked, Item, PlanError, error_of, plan, planned, removal_plan, removal_planned,
};
use crate::kept::is_kept;
use crate::reach::{Part, close, part_of_names};
use crate::refusal::WalkError;
use crate::sources::{Sources, slot_of};
use crate::walk::hard_walk;
use std::alloc::{AllocError, Global};
use std::marker::Model;
use text_parts::Name;

/// What several names reach, read once for the plans of them all, and which modules are settled. Contracts see it as
/// its sources and the flags of all modules.
#[derive(Drop)]
pub struct Planner<'a> {
    sources: Sources<'a>,
    part: Part<'a>,
    settled: Vec<bool>,
    // of the settled modules those that reach no other ones
    closed: Vec<bool>,
}

impl<'a> Model for Planner<'a> {
    ghost use Rattle.load_plan.specs.Outlook as outlook;

    ghost Value = { outlook.Outlook };

    ghost view = { λ p. record { sources = p.sources; settled = p.settled.items } };

    ghost invariant = { λ p. outlook.IsOutlook p.sources p.part p.settled.items p.closed.items };
}

impl<'a> Planner<'a> {
    /// A planner that has read what these names reach. No module is settled.
    pub fn new(
        alloc: Global,
        names: &[Name],
        sources: &Sources<'a>,
    ) -> Result<Planner<'a>, AllocError>
        ensures sources { IfOk result (λ planner. planner.sources ≡ sources.now) }
        ensures settled { IfOk result (λ planner. planner.settled ≡ replicate (length sources.now.catalogue.now) false) }
    {
        let count = sources.catalogue.len();
        Ok(Planner {
            sources: *sources,
            part: part_of_names(alloc, sources, names)?,
            settled: filled(alloc, false, count)?,
            closed: filled(alloc, false, count)?,
        })
    }

    /// The plan of a name, as `plan` makes it. It is the fastest for a name that was read.
    pub fn plan(
        &self,
        alloc: Global,
        name: &Name,
        words: &[&'a [u8]],
    ) -> Result<Vec<Item<'a>>, PlanError>
        ensures items { Answers (λ items. items.items) result (plan_from self.now.sources name.now (texts_of words.now)) }
        ensures within { IfOk result (λ items. All (λ item. item.slot < length self.now.sources.catalogue.now) items.items) }
    {
        name.is_normal();
        match slot_of(self.sources.catalogue, name) {
            Some(slot) if self.part.known[slot] => {
                planned(alloc, &self.sources, &self.part, Asked { slot, words })
            }
            _ => plan(alloc, name.as_bytes(), words, &self.sources),
        }
    }

    /// The removal plan of a name, as `removal_plan` makes it.
    pub fn removal_plan(&self, alloc: Global, name: &Name) -> Result<Vec<usize>, PlanError>
        ensures order { Answers (λ order. order.items) result (removal_plan_from self.now.sources name.now) }
        ensures within { IfOk result (λ order. All (λ slot. slot < length self.now.sources.catalogue.now) order.items) }
    {
        name.is_normal();
        let is_kept = is_kept(self.sources.configuration, name.as_bytes());
        match slot_of(self.sources.catalogue, name) {
            Some(slot) if self.part.known[slot] && !is_kept => {
                removal_planned(alloc, &self.sources, &self.part, slot)
            }
            _ => removal_plan(alloc, name.as_bytes(), &self.sources),
        }
    }

    /// Whether a module is settled. A slot past the last one is not.
    pub fn is_settled(&self, slot: usize) -> bool
        ensures { result ≡ settled_at self.now.settled slot }
    {
        match self.settled.get(slot) {
            Some(settled) => *settled,
            None => false,
        }
    }

    /// From now on a module is settled.
    pub fn settle(&mut self, slot: usize)
        requires { slot < length self.old.sources.catalogue.now }
        ensures sources { self.new.sources ≡ self.old.sources }
        ensures settled { self.new.settled ≡ set self.old.settled slot true }
    {
        self.settled[slot] = true;
    }

    /// Whether a name has a plan, and all that its module reaches is settled. If it answers false, neither is said. The plan
    /// is not made. An error is the one with which `plan` refuses the name.
    ///
    /// What was found settled is not tested again in later calls, but each call that finds all settled makes the hard walk of
    /// its module.
    pub fn has_settled_plan(&mut self, alloc: Global, name: &Name) -> Result<bool, PlanError>
        ensures same { self.new ≡ self.old }
        ensures settled { IfOk result (λ is. is ≡ true → (words : List (List ℕ)) → IsSettled self.old name.now words) }
        ensures refused { IfErr result (λ e. (words : List (List ℕ)) → FailsAs e (plan_from self.old.sources name.now words)) }
    {
        name.is_normal();
        let Some(slot) = slot_of(self.sources.catalogue, name) else {
            return Err(PlanError::Unknown(name.copy(alloc)?));
        };
        if !self.part.known[slot] {
            return Ok(false);
        }
        if !close(
            alloc,
            &self.part.graph,
            &self.settled,
            &mut self.closed,
            slot,
        )? {
            return Ok(false);
        }
        match hard_walk(alloc, &self.part.graph, true, slot) {
            Ok(_) => Ok(true),
            Err(WalkError::Refused(refusal)) => {
                Err(error_of(alloc, self.sources.catalogue, refusal)?)
            }
            Err(WalkError::Memory) => Err(PlanError::Memory),
        }
    }
}
