//! The modules that the kernel has and the table has not.
ghost use Rattle.std.specs.Prelude.{◌≡◌, ◌++◌, OnOk};
ghost use Rattle.dep_index.specs.Catalogue.{modules_of};
ghost use Rattle.table_adopt.specs.Plans.{load_of, loads_of};

use crate::kernel::KernelModule;
use crate::step::Step;
use dep_index::{Catalogue, ModuleState};
use proc_modules::LineState;
use seq_table::Modules;
use std::alloc::AllocError;

/// Adds the steps that load a module of the kernel, if it is live there and not in the table.
fn push_load<M: Modules>(
    steps: &mut Vec<Step>,
    catalogue: &Catalogue,
    table: &M,
    entry: &KernelModule,
) -> Result<(), AllocError>
    requires { M.catalogue table.now ≡ modules_of catalogue.now }
    ensures { OnOk result (steps.new.items ≡ steps.old.items ++ load_of catalogue.now (M.table table.now) entry.now) }
{
    if let Some(slot) = catalogue.slot(entry.name.as_bytes()) {
        if entry.state == LineState::Live && table.state(slot) == ModuleState::Absent {
            steps.extend_from_slice(&[Step::BeginLoad(slot), Step::EndLoad(slot, true)])?;
        }
    }
    Ok(())
}

/// Adds the steps that load the modules of the kernel, the oldest first.
pub(crate) fn push_loads<M: Modules>(
    steps: &mut Vec<Step>,
    catalogue: &Catalogue,
    table: &M,
    kernel: &[KernelModule],
) -> Result<(), AllocError>
    requires { M.catalogue table.now ≡ modules_of catalogue.now }
    ensures { OnOk result (steps.new.items ≡ steps.old.items ++ loads_of catalogue.now (M.table table.now) kernel.now) }
{
    let mut rest = kernel;
    while let Some((oldest, newer)) = rest.split_last() {
        push_load(steps, catalogue, table, oldest)?;
        rest = newer;
    }
    Ok(())
}
