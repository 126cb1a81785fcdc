//! What is to be loaded for several modules. A plan of modules that are live by then is left out: its loads do nothing.
ghost use Rattle.std.specs.Prelude.{◌≡◌, ◌<◌, ◌++◌, [], List, length, replicate, true, false, All, IfOk};
ghost use Rattle.std.specs.List.{list_all};
ghost use Rattle.text_parts.specs.Text.{texts_of};
ghost use Rattle.load_plan.specs.Outlook.{settled_at};
ghost use Rattle.load_plan.specs.declared.items.Item.{Item};
ghost use Rattle.modprobe.specs.Plans.{items_of_plans};
ghost use Rattle.modprobe.specs.Settling.{AreIn, AreSure, IsSure, LoadsAs, PlansFor};

use crate::request::plan_of;
use crate::session::Session;
use dep_index::ModuleState;
use load_plan::{Item, PlanError, Planner, params_valid};
use seq_table::Modules;
use std::alloc::Global;
use text_parts::Name;

fn are_settled(planner: &Planner<'_>, slots: &[u16]) -> bool
    ensures { result ≡ list_all (settled_at planner.now.settled) slots.now }
{
    slots.iter().all(|slot| planner.is_settled(*slot as usize))
}

#[tactic(auto, using(crate::proofs::SlotLemmas::modules_of_length))]
impl<'s, 't, M: Modules> Session<'s, 't, M> {
    /// Whether an item is sure to be live after its load, if the settled modules are live before it.
    fn is_sure(&self, planner: &Planner<'_>, item: &Item<'_>) -> bool
        requires { item.now.slot < length self.now.setup.now.catalogue }
        ensures { result ≡ true → IsSure self.now.setup.now (M.table self.now.table.now) planner.now.settled item.now }
    {
        let catalogue = self.setup.catalogue();
        match self.table.state(item.slot) {
            ModuleState::Live => true,
            ModuleState::Absent => {
                !catalogue.unknown_symbol(item.slot)
                    && are_settled(planner, catalogue.needs(item.slot))
                    && params_valid(catalogue, item.slot, item.options.words())
            }
            ModuleState::Loading | ModuleState::Draining | ModuleState::Unloading => false,
        }
    }

    /// Settles the modules of these items that are sure to be live after their loads.
    fn settle(&self, planner: &mut Planner<'_>, items: &[Item<'_>])
        requires plans { PlansFor self.now.setup.now planner.old }
        requires within { AreIn self.now.setup.now items.now }
        ensures plans { PlansFor self.now.setup.now planner.new }
        ensures sure { (before : List Item) → AreIn self.now.setup.now before
            → AreSure self.now.setup.now (M.table self.now.table.now) before planner.old.settled
            → AreSure self.now.setup.now (M.table self.now.table.now) (before ++ items.now) planner.new.settled }
    {
        self.table.laws();
        for item in items {
            if self.is_sure(planner, item) {
                planner.settle(item.slot);
            }
        }
    }

    /// The items of the plans of these modules, in order, each with the words, without plans of modules that are all
    /// live by then.
    pub(crate) fn items_to_load<'a>(
        &self,
        alloc: Global,
        planner: &mut Planner<'a>,
        words: &[&'a [u8]],
        targets: &[Name],
    ) -> Result<Vec<Item<'a>>, PlanError>
        requires plans { PlansFor self.now.setup.now planner.old }
        requires settled { planner.old.settled ≡ replicate (length self.now.setup.now.catalogue) false }
        ensures items { LoadsAs self.now.setup.now (M.table self.now.table.now) (λ items. items.items) result
            (items_of_plans self.now.setup.now (texts_of words.now) [] targets.now) }
        ensures within { IfOk result (λ items. AreIn self.now.setup.now items.items) }
    {
        let mut items = Vec::new(alloc);
        for target in targets {
            if planner.has_settled_plan(alloc, target)? {
                continue;
            }
            let mut more = plan_of(alloc, self.setup, planner, words, target)?;
            self.settle(planner, &more);
            items.append(&mut more)?;
        }
        Ok(items)
    }
}
