//! The laws of plans.
ghost use Rattle.load_plan.specs.Laws.{FuelIsEnough, MarksAreRight, PlansAreOrders};
ghost use Rattle.load_plan.specs.PlanLaws.{GraphsAreBounded, PlansAreLawful};

/// In the plan of a name no module stands twice and each hard dependency stands before its user; all that the
/// hard walk reaches is marked hard, all else is marked soft and reached over a soft item; the words of the
/// command stand at the name's own module alone.
pub fn plans_are_lawful()
    ensures { PlansAreLawful }
{}

/// No module of a catalogue's graph names a slot outside.
pub fn graphs_are_bounded()
    ensures { GraphsAreBounded }
{}

/// No module stands twice in the plan of a graph's module, each hard dependency stands before its user, and the
/// module itself is there.
pub fn plans_are_orders()
    ensures { PlansAreOrders }
{}

/// What the hard walk from a module reaches stands in its plan, marked hard. All else in it is marked soft, and
/// is reached over at least one soft item.
pub fn marks_are_right()
    ensures { MarksAreRight }
{}

/// More fuel than there are modules changes no walk, and no visit of a module whose hard walk has no fault.
pub fn fuel_is_enough()
    ensures { FuelIsEnough }
{}
