//! What becomes of the modules of the table.
ghost use Rattle.std.specs.Prelude.{◌≡◌, ◌<◌, ◌++◌, length, reverse, All, IfOk, OnOk};
ghost use Rattle.dep_index.specs.Catalogue.{modules_of, needs_of};
ghost use Rattle.table_adopt.specs.Plans.{is_among, is_needed, is_free, if_listed, with_course, course_at, with_module, no_plan, settled, plan_of};

use crate::course::{Course, course_of};
use crate::kernel::{KernelModule, kernel_state};
use crate::step::Step;
use dep_index::Catalogue;
use seq_table::Modules;
use std::alloc::{AllocError, Global};
use std::marker::Model;

/// What becomes of the modules of a table, the newest first.
#[derive(Drop)]
pub(crate) struct Plan {
    steps: Vec<Step>,
    /// The modules that leave the table.
    gone: Vec<usize>,
    /// Those that stay, though the kernel does not have them.
    lost: Vec<usize>,
}

impl Model for Plan {
    ghost use Rattle.table_adopt.specs.PlanParts.{PlanParts};

    ghost Value = { PlanParts };

    ghost view = { λ p. record { steps = p.steps.items; gone = p.gone.items; lost = p.lost.items } };
}

/// Whether the slot is one of these.
fn is_among(slots: &[usize], slot: usize) -> bool
    ensures { result ≡ is_among slots.now slot }
{
    slots.iter().any(|other| *other == slot)
}

/// Whether the user needs the module.
fn needs(catalogue: &Catalogue, user: usize, slot: usize) -> bool
    requires { user < length catalogue.now }
    ensures { result ≡ is_among (needs_of catalogue.now user) slot }
{
    catalogue
        .needs(user)
        .iter()
        .any(|need| *need as usize == slot)
}

/// Whether one of these modules needs it, and is not gone.
fn is_needed(catalogue: &Catalogue, users: &[usize], gone: &[usize], slot: usize) -> bool
    requires { All (λ user. user < length catalogue.now) users.now }
    ensures { result ≡ is_needed catalogue.now users.now gone.now slot }
{
    for user in users {
        if needs(catalogue, *user, slot) && !is_among(gone, *user) {
            return true;
        }
    }
    false
}

/// Adds the slot, if it is to be listed.
fn push_if(listed: bool, slots: &mut Vec<usize>, slot: usize) -> Result<(), AllocError>
    ensures { OnOk result (slots.new.items ≡ slots.old.items ++ if_listed listed slot) }
{
    if listed {
        slots.push(slot)?;
    }
    Ok(())
}

impl Plan {
    fn new(alloc: Global) -> Plan
        ensures { result ≡ no_plan }
    {
        Plan {
            steps: Vec::new(alloc),
            gone: Vec::new(alloc),
            lost: Vec::new(alloc),
        }
    }

    fn add_course(&mut self, course: Course, slot: usize) -> Result<(), AllocError>
        ensures { OnOk result (self.new ≡ with_course self.old course slot) }
    {
        course.push_steps(&mut self.steps, slot)?;
        push_if(course.leaves(), &mut self.gone, slot)?;
        push_if(course.is_lost(), &mut self.lost, slot)
    }

    /// The steps, and the modules that are lost.
    pub(crate) fn into_parts(self) -> (Vec<Step>, Vec<usize>)
        ensures steps { result.0.items ≡ self.steps }
        ensures lost { result.1.items ≡ self.lost }
    {
        let Plan {
            steps,
            gone: _,
            lost,
        } = self;
        (steps, lost)
    }
}

/// The modules of the table, the newest first.
fn newest_first<M: Modules>(alloc: Global, table: &M) -> Result<Vec<usize>, AllocError>
    ensures order { IfOk result (λ found. found.items ≡ reverse (M.table table.now).book.order) }
    ensures slots { IfOk result (λ found. All (λ slot. slot < length (M.catalogue table.now)) found.items) }
{
    let mut found = Vec::new(alloc);
    for place in 0..table.loaded() {
        found.push(table.loaded_at(place))?;
    }
    found.reverse();
    Ok(found)
}

/// Whether nothing keeps a module in the table, once these are gone.
fn is_free<M: Modules>(
    catalogue: &Catalogue,
    table: &M,
    newest: &[usize],
    gone: &[usize],
    slot: usize,
) -> bool
    requires over { M.catalogue table.now ≡ modules_of catalogue.now }
    requires newest { newest.now ≡ reverse (M.table table.now).book.order }
    requires slots { All (λ user. user < length catalogue.now) newest.now }
    requires slot { slot < length catalogue.now }
    ensures { result ≡ is_free catalogue.now (M.table table.now) gone.now slot }
{
    let kept = table.in_use(slot)
        || catalogue.permanent(slot)
        || is_needed(catalogue, newest, gone, slot);
    !kept
}

/// What becomes of a module of the table, once these are gone.
fn course_at<M: Modules>(
    catalogue: &Catalogue,
    table: &M,
    kernel: &[KernelModule],
    newest: &[usize],
    gone: &[usize],
    slot: usize,
) -> Course
    requires over { M.catalogue table.now ≡ modules_of catalogue.now }
    requires newest { newest.now ≡ reverse (M.table table.now).book.order }
    requires slots { All (λ user. user < length catalogue.now) newest.now }
    requires slot { slot < length catalogue.now }
    ensures { result ≡ course_at catalogue.now (M.table table.now) kernel.now gone.now slot }
{
    let said = kernel_state(kernel, catalogue.name(slot));
    let free = said.is_none() && is_free(catalogue, table, newest, gone, slot);
    course_of(free, table.state(slot), said)
}

impl Plan {
    /// Adds what becomes of a module of the table.
    fn add_module<M: Modules>(
        &mut self,
        catalogue: &Catalogue,
        table: &M,
        kernel: &[KernelModule],
        newest: &[usize],
        slot: usize,
    ) -> Result<(), AllocError>
        requires over { M.catalogue table.now ≡ modules_of catalogue.now }
        requires newest { newest.now ≡ reverse (M.table table.now).book.order }
        requires slots { All (λ user. user < length catalogue.now) newest.now }
        requires slot { slot < length catalogue.now }
        ensures { OnOk result (self.new ≡ with_module catalogue.now (M.table table.now) kernel.now self.old slot) }
    {
        let course = course_at(catalogue, table, kernel, newest, &self.gone, slot);
        self.add_course(course, slot)
    }
}

/// What becomes of the modules of the table, which are these.
fn settled<M: Modules>(
    alloc: Global,
    catalogue: &Catalogue,
    table: &M,
    kernel: &[KernelModule],
    newest: &[usize],
) -> Result<Plan, AllocError>
    requires over { M.catalogue table.now ≡ modules_of catalogue.now }
    requires newest { newest.now ≡ reverse (M.table table.now).book.order }
    requires slots { All (λ slot. slot < length catalogue.now) newest.now }
    ensures { IfOk result (λ plan. plan ≡ settled catalogue.now (M.table table.now) kernel.now no_plan newest.now) }
{
    let mut plan = Plan::new(alloc);
    for slot in newest {
        plan.add_module(catalogue, table, kernel, newest, *slot)?;
    }
    Ok(plan)
}

/// What becomes of the modules of the table.
pub(crate) fn plan_of<M: Modules>(
    alloc: Global,
    catalogue: &Catalogue,
    table: &M,
    kernel: &[KernelModule],
) -> Result<Plan, AllocError>
    requires { M.catalogue table.now ≡ modules_of catalogue.now }
    ensures plan { IfOk result (λ plan. plan ≡ plan_of catalogue.now (M.table table.now) kernel.now) }
    ensures slots { OnOk result (All (λ slot. slot < length catalogue.now) (reverse (M.table table.now).book.order)) }
{
    let newest = newest_first(alloc, table)?;
    let plan = settled(alloc, catalogue, table, kernel, &newest)?;
    Ok(plan)
}
