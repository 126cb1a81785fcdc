//! The order in which modules are loaded and removed.
ghost use Rattle.std.specs.Prelude.{◌<◌, length, All, IfOk};
ghost use Rattle.text_parts.specs.Text.{texts_of};
ghost use Rattle.load_plan.specs.Items.{Answers, plan_from, removal_plan_from};
ghost use Rattle.load_plan.specs.PlanLaws.{item_slots};
ghost use Rattle.load_plan.specs.Sources.{graph_from};
ghost use Rattle.theorems.specs.Plans.{EachOnce, NeedsFirst, UsersFirst};

use load_plan::laws::{graphs_are_bounded, plans_are_lawful};
use load_plan::{Item, PlanError, Sources, plan, removal_plan};
use std::alloc::Global;

/// A load plan is the one that is defined for the name. In it each module is one of the catalogue, no module stands twice, and each
/// stands after all that it needs.
pub fn loads_need_first<'a>(
    alloc: Global,
    name: &[u8],
    words: &[&'a [u8]],
    sources: &Sources<'a>,
) -> Result<Vec<Item<'a>>, PlanError>
    ensures plan { Answers (λ items. items.items) result (plan_from sources.now name.now (texts_of words.now)) }
    ensures known { IfOk result (λ items. All (λ item. item.slot < length sources.now.catalogue.now) items.items) }
    ensures once { IfOk result (λ items. EachOnce (item_slots items.items)) }
    ensures order { IfOk result (λ items. NeedsFirst (graph_from sources.now) (item_slots items.items)) }
{
    plans_are_lawful();
    plan(alloc, name, words, sources)
}

/// A removal plan is the one that is defined for the name. In it each module is one of the catalogue, no module stands twice, and
/// each stands before all that it needs.
pub fn removals_users_first(
    alloc: Global,
    name: &[u8],
    sources: &Sources,
) -> Result<Vec<usize>, PlanError>
    ensures plan { Answers (λ order. order.items) result (removal_plan_from sources.now name.now) }
    ensures known { IfOk result (λ order. All (λ slot. slot < length sources.now.catalogue.now) order.items) }
    ensures once { IfOk result (λ order. EachOnce order.items) }
    ensures order { IfOk result (λ order. UsersFirst (graph_from sources.now) order.items) }
{
    graphs_are_bounded();
    removal_plan(alloc, name, sources)
}
