//! What modprobe(8) removes: each target of a name with the rest of its plan. It takes no memory.
ghost use Rattle.std.specs.Prelude.{◌≡◌, ◌<◌, length, All};
ghost use Rattle.modprobe.specs.Loads.{rest_removal, rest_removals, plan_removal, removals};
ghost use Rattle.modprobe.specs.ForProofs.{refusal_in};
ghost use Rattle.modprobe.specs.Sessions.{Makes, Becomes};

use crate::refusal::SlotRefusal;
use crate::session::Session;
use dep_index::reads::is_absent;
use load_plan::is_kept;
use seq_table::Modules;
use std::marker::Model;

/// The modules that are removed for a target, itself first. Contracts see it as their list.
#[derive(Drop)]
pub(crate) struct RemovalPlan {
    pub(crate) order: Vec<usize>,
}

impl Model for RemovalPlan {
    ghost use Rattle.std.specs.Prelude.{ℕ, List};

    ghost Value = { List ℕ };

    ghost view = { λ p. p.order.items };
}

#[tactic(auto, using(crate::proofs::SlotLemmas::modules_of_length))]
impl<'s, 't, M: Modules> Session<'s, 't, M> {
    /// Removes a module of the rest of a plan, if that can be done.
    fn remove_from_rest(&mut self, slot: usize)
        requires { slot < length self.old.setup.now.catalogue }
        ensures { Becomes self.old self.new (λ s t. rest_removal s slot t) }
    {
        if is_kept(self.setup.configuration(), self.setup.name(slot)) {
            return;
        }
        let _ = self.remove(slot);
    }

    fn remove_rest(&mut self, rest: &[usize])
        requires { All (λ slot. slot < length self.old.setup.now.catalogue) rest.now }
        ensures { Becomes self.old self.new (λ s t. rest_removals s rest.now t) }
    {
        for slot in rest {
            self.remove_from_rest(*slot);
        }
    }

    /// Removes a target, and then the rest of its plan. A target that is absent is skipped with its plan.
    fn remove_plan(&mut self, order: &[usize]) -> Result<(), SlotRefusal>
        requires { All (λ slot. slot < length self.old.setup.now.catalogue) order.now }
        ensures { Makes self.old self.new (refusal_in self.old.setup.now result) (λ s t. plan_removal s order.now t) }
    {
        let Some((target, rest)) = order.split_first() else {
            return Ok(());
        };
        if is_absent(self.table.state(*target)) {
            return Ok(());
        }
        self.remove(*target)?;
        self.remove_rest(rest);
        Ok(())
    }

    /// Removes the targets of the plans in order, each with the rest of its plan, up to the first target that is refused.
    pub(crate) fn remove_plans(&mut self, plans: &[RemovalPlan]) -> Result<(), SlotRefusal>
        requires { All (λ plan. All (λ slot. slot < length self.old.setup.now.catalogue) plan) plans.now }
        ensures { Makes self.old self.new (refusal_in self.old.setup.now result) (λ s t. removals s plans.now t) }
    {
        for plan in plans {
            self.remove_plan(&plan.order)?;
        }
        Ok(())
    }
}
