//! The lines that bring a table to the modules of a kernel, and what is reported beside them.
ghost use Rattle.std.specs.Prelude.{◌≡◌, ◌<◌, ◌++◌, length, map, flat_map, All, IfOk, OnOk};
ghost use Rattle.dep_index.specs.Catalogue.{modules_of};
ghost use Rattle.table_adopt.specs.Steps.{line_of, bytes_of};
ghost use Rattle.table_adopt.specs.Plans.{steps_for};
ghost use Rattle.table_adopt.specs.Laws.{LeavesHeldAlone};
ghost use Rattle.table_adopt.specs.Reports.{error_line, unknown_line, lost_line, report_of};

use crate::kernel::KernelModule;
use crate::loads::push_loads;
use crate::plan::plan_of;
use crate::step::lines_of;
use dep_index::Catalogue;
use seq_table::Modules;
use std::alloc::{AllocError, Global};

/// What brings a table to the modules of a kernel.
#[derive(Drop)]
pub struct Adoption {
    /// The lines to be performed one after another, without their ends.
    pub lines: Vec<Vec<u8>>,
    /// What is reported beside them: a line `error UNKNOWN NAME` for each module of the kernel that the catalogue does not
    /// have, and a line `error LOST NAME` for each that the kernel does not have and that stays, each with its end.
    pub report: Vec<u8>,
}

/// Adds `error CODE NAME`.
fn push_error(text: &mut Vec<u8>, code: &[u8], name: &[u8]) -> Result<(), AllocError>
    ensures { OnOk result (text.new.items ≡ text.old.items ++ error_line code.now name.now) }
{
    text.extend_from_slice(b"error ")?;
    text.extend_from_slice(code)?;
    text.push(b' ')?;
    text.extend_from_slice(name)?;
    text.push(b'\n')?;
    Ok(())
}

/// Adds a line of a module of the kernel, if the catalogue does not have it.
fn push_if_unknown(
    text: &mut Vec<u8>,
    catalogue: &Catalogue,
    entry: &KernelModule,
) -> Result<(), AllocError>
    ensures { OnOk result (text.new.items ≡ text.old.items ++ unknown_line catalogue.now entry.now) }
{
    let name = entry.name.as_bytes();
    match catalogue.slot(name) {
        Some(_) => Ok(()),
        None => push_error(text, b"UNKNOWN", name),
    }
}

/// Adds a line for each module of the kernel that the catalogue does not have.
fn push_unknown(
    text: &mut Vec<u8>,
    catalogue: &Catalogue,
    kernel: &[KernelModule],
) -> Result<(), AllocError>
    ensures { OnOk result (text.new.items ≡ text.old.items ++ flat_map (unknown_line catalogue.now) kernel.now) }
{
    for entry in kernel {
        push_if_unknown(text, catalogue, entry)?;
    }
    Ok(())
}

/// Adds a line for each module that is lost.
fn push_lost(text: &mut Vec<u8>, catalogue: &Catalogue, lost: &[usize]) -> Result<(), AllocError>
    requires { All (λ slot. slot < length catalogue.now) lost.now }
    ensures { OnOk result (text.new.items ≡ text.old.items ++ flat_map (lost_line catalogue.now) lost.now) }
{
    for slot in lost {
        push_error(text, b"LOST", catalogue.name(*slot))?;
    }
    Ok(())
}

/// What brings a table over the catalogue to the modules of a kernel, the newest first. Nothing is changed: the lines are to
/// be performed on this very table, one after another. Only memory refuses.
///
/// First each module of the table, the newest first. If its load or removal has ended in the kernel, it ends in the table.
/// If the kernel does not have it, it is removed, if nobody holds it, it is not permanent, and none that stays needs it.
/// Then each live module of the kernel that the table does not have is loaded, the oldest first. No line is of a module
/// that anybody holds.
pub fn adopt<M: Modules>(
    alloc: Global,
    catalogue: &Catalogue,
    table: &M,
    kernel: &[KernelModule],
) -> Result<Adoption, AllocError>
    requires { M.catalogue table.now ≡ modules_of catalogue.now }
    ensures lines { IfOk result (λ a. bytes_of a.lines.items ≡ map (line_of catalogue.now) (steps_for catalogue.now (M.table table.now) kernel.now)) }
    ensures report { IfOk result (λ a. a.report.items ≡ report_of catalogue.now (M.table table.now) kernel.now) }
    ensures held { OnOk result (LeavesHeldAlone (M.table table.now) (steps_for catalogue.now (M.table table.now) kernel.now)) }
{
    table.laws();
    let plan = plan_of(alloc, catalogue, table, kernel)?;
    let (mut steps, lost) = plan.into_parts();
    push_loads(&mut steps, catalogue, table, kernel)?;
    let mut report = Vec::new(alloc);
    push_unknown(&mut report, catalogue, kernel)?;
    push_lost(&mut report, catalogue, &lost)?;
    let lines = lines_of(alloc, catalogue, &steps)?;
    Ok(Adoption { lines, report })
}
