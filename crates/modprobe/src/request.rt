//! What a request by a name needs: the modules that are found for it, and their plans.
ghost use Rattle.std.specs.Prelude.{◌≡◌, ◌<◌, [], All, IfOk, length};
ghost use Rattle.text_parts.specs.Text.{texts_of};
ghost use Rattle.load_plan.specs.Items.{Answers, plan_of};
ghost use Rattle.modprobe.specs.Plans.{targets_of, whole_plan};
ghost use Rattle.modprobe.specs.Loads.{has_reached, is_there, load_plan, removal_plans_of, removal_plans};
ghost use Rattle.modprobe.specs.Settling.{LoadsAs, PlansFor};

use crate::removal::RemovalPlan;
use crate::session::Session;
use crate::setup::Setup;
use dep_index::ModuleState;
use dep_index::reads::{is_absent, is_live};
use load_plan::{FindError, Item, PlanError, Planner};
use seq_table::Modules;
use std::alloc::Global;
use text_parts::Name;

/// What modprobe(8) makes of the modules that are found.
#[derive(Clone, Copy, Drop)]
pub(crate) enum Aim {
    Live,
    Absent,
}

impl Aim {
    fn has_reached(self, state: ModuleState) -> bool
        ensures { result ≡ has_reached self state }
    {
        match self {
            Aim::Live => is_live(state),
            Aim::Absent => is_absent(state),
        }
    }
}

/// The modules that are found for a name; a name for which none is found is unknown.
fn targets_of(alloc: Global, setup: &Setup, name: Name) -> Result<Vec<Name>, PlanError>
    ensures { Answers (λ names. names.items) result (targets_of setup.now name) }
{
    match setup.find(alloc, name.as_bytes()) {
        Ok(names) => Ok(names),
        Err(FindError::NotFound) => Err(PlanError::Unknown(name)),
        Err(FindError::Memory) => Err(PlanError::Memory),
    }
}

/// The items of the plan of one module, each of a module of the catalogue.
pub(crate) fn plan_of<'a>(
    alloc: Global,
    setup: &Setup,
    planner: &Planner<'a>,
    words: &[&'a [u8]],
    target: &Name,
) -> Result<Vec<Item<'a>>, PlanError>
    requires { PlansFor setup.now planner.now }
    ensures items { Answers (λ items. items.items) result
        (plan_of setup.now.catalogue setup.now.dependencies setup.now.configuration target.now (texts_of words.now)) }
    ensures within { IfOk result (λ items. All (λ item. item.slot < length setup.now.catalogue) items.items) }
{
    planner.plan(alloc, target, words)
}

/// All that is planned for a name without words.
pub(crate) fn whole_plan<'a>(
    alloc: Global,
    setup: &'a Setup,
    name: Name,
) -> Result<Vec<Item<'a>>, PlanError>
    ensures { Answers (λ items. items.items) result (whole_plan setup.now name) }
{
    let targets = targets_of(alloc, setup, name)?;
    let planner = Planner::new(alloc, &targets, &setup.sources())?;
    let mut items = Vec::new(alloc);
    for target in &targets {
        let mut more = plan_of(alloc, setup, &planner, &[], target)?;
        items.append(&mut more)?;
    }
    Ok(items)
}

/// The removal plans of these modules, in order.
fn removal_plans_of(
    alloc: Global,
    setup: &Setup,
    planner: &Planner<'_>,
    targets: &[Name],
) -> Result<Vec<RemovalPlan>, PlanError>
    requires { PlansFor setup.now planner.now }
    ensures plans { Answers (λ plans. plans.items) result (removal_plans_of setup.now [] targets.now) }
    ensures within { IfOk result (λ plans. All (λ plan. All (λ slot. slot < length setup.now.catalogue) plan) plans.items) }
{
    let mut plans = Vec::new(alloc);
    for target in targets {
        let order = planner.removal_plan(alloc, target)?;
        plans.push(RemovalPlan { order })?;
    }
    Ok(plans)
}

#[tactic(auto, using(crate::proofs::SlotLemmas::modules_of_length))]
impl<'s, 't, M: Modules> Session<'s, 't, M> {
    /// Whether the module of a name is there already; one outside the catalogue is not.
    fn is_there(&self, name: &Name, aim: Aim) -> bool
        ensures { result ≡ is_there aim self.now.setup.now (M.table self.now.table.now) name.now }
    {
        match self.setup.catalogue().slot(name.as_bytes()) {
            Some(slot) => aim.has_reached(self.table.state(slot)),
            None => false,
        }
    }

    /// What to load for a name and words: what is planned for each module that is found and not live, without plans of
    /// modules that are all live by then.
    pub(crate) fn load_plan<'a>(
        &self,
        alloc: Global,
        name: Name,
        words: &[&'a [u8]],
    ) -> Result<Vec<Item<'a>>, PlanError>
    where
        's: 'a,
        ensures items { LoadsAs self.now.setup.now (M.table self.now.table.now) (λ items. items.items) result
            (load_plan self.now.setup.now name (texts_of words.now) (M.table self.now.table.now)) }
        ensures within { IfOk result (λ items. All (λ item. item.slot < length self.now.setup.now.catalogue) items.items) }
    {
        let mut targets = targets_of(alloc, self.setup, name)?;
        targets.retain(|name| !self.is_there(name, Aim::Live));
        let mut planner = Planner::new(alloc, &targets, &self.setup.sources())?;
        self.items_to_load(alloc, &mut planner, words, &targets)
    }

    /// The removal plans for a name: of each module that is found and not absent.
    pub(crate) fn removal_plans(
        &self,
        alloc: Global,
        name: Name,
    ) -> Result<Vec<RemovalPlan>, PlanError>
        ensures plans { Answers (λ plans. plans.items) result (removal_plans self.now.setup.now name (M.table self.now.table.now)) }
        ensures within { IfOk result (λ plans. All (λ plan. All (λ slot. slot < length self.now.setup.now.catalogue) plan) plans.items) }
    {
        let mut targets = targets_of(alloc, self.setup, name)?;
        targets.retain(|name| !self.is_there(name, Aim::Absent));
        let planner = Planner::new(alloc, &targets, &self.setup.sources())?;
        removal_plans_of(alloc, self.setup, &planner, &targets)
    }
}
