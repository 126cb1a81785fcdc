//! A table is brought to the modules that a kernel has.
ghost use Rattle.std.specs.Prelude.{◌≡◌, ◌⊎◌, ◌<◌, ◌≤◌, ◌++◌, ◌∷◌, [], map, IfOk, IfErr, OnOk, IsErrOf};
ghost use Rattle.line_journal.specs.Device.{AlwaysLeaves};
ghost use Rattle.line_journal.specs.declared.device.DeviceError.TheVariants.{Failed};
ghost use Rattle.line_journal.specs.Lines.{AreLines, bytes_of, lines_of};
ghost use Rattle.line_journal.specs.Journal.{lines_in};
ghost use Rattle.held_lines.specs.Laws.{KeepsHeld};
ghost use Rattle.held_lines.specs.Outcomes.{after};
ghost use Rattle.durable_table.specs.Commands.{StaysOf};
ghost use Rattle.durable_table.specs.Durable.{Stands};
ghost use Rattle.durable_table.specs.Groups.{AfterFirstOf};
ghost use Rattle.table_adopt.specs.Reports.{report_of};
ghost use Rattle.gz_table_drive.specs.Answers.{HasMore};
ghost use Rattle.gz_table_drive.specs.Adopting.{adopting_lines, ending_of_report, refused_of, HasAdopted, HasRefused, HoldsTheSame};

use crate::answering::{GROUP, Replies};
use durable_table::{DurableTable, PerformError};
use held_lines::{HeldReply, HeldSession};
use line_journal::{Device, DeviceError, are_lines};
use seq_table::Modules;
use std::alloc::{AllocError, Global};
use table_adopt::{Adoption, KernelModule, adopt};
use table_folder::ending_of;
use table_words::Ending;
use thiserror::Error;

/// Why a table was not brought to a kernel's modules. Its journal stands for the table after the first of the lines.
#[derive(Clone, Copy, Debug, PartialEq, Eq, Drop, Error)]
pub enum AdoptError {
    /// Out of memory.
    #[error("out of memory")]
    OutOfMemory,
    /// A name of the catalogue is no part of a line. Nothing was done.
    #[error("a name of the catalogue has a line feed")]
    BadName,
    /// The journal could not be written.
    #[error("{0}")]
    Device(DeviceError),
}

impl From<AllocError> for AdoptError {
    ghost use Rattle.std.specs.Prelude.{◌≡◌};
    ghost use Rattle.gz_table_drive.specs.declared.adopting.AdoptError.TheVariants.{OutOfMemory};

    ghost from_gives = { λ _ error. error ≡ OutOfMemory };

    fn from(_: AllocError) -> AdoptError {
        AdoptError::OutOfMemory
    }
}

impl From<PerformError> for AdoptError {
    ghost use Rattle.std.specs.Prelude.{◌≡◌};
    ghost use Rattle.gz_table_drive.specs.Adopting.{adopt_error_of};

    ghost from_gives = { λ why error. error ≡ adopt_error_of why };

    fn from(error: PerformError) -> AdoptError {
        match error {
            PerformError::OutOfMemory => AdoptError::OutOfMemory,
            PerformError::Device(error) => AdoptError::Device(error),
        }
    }
}

/// How a run ends that reports this: as its first line.
fn ending_of_report(report: &[u8]) -> Ending
    ensures { result ≡ ending_of_report report.now }
{
    if report.is_empty() {
        Ending::Done
    } else if report.starts_with(b"error UNKNOWN ") {
        Ending::Absent
    } else {
        Ending::InUse
    }
}

/// Adds a reply, if it refuses.
fn add_refused(answered: &HeldReply, replies: &mut Replies) -> Result<(), AllocError>
    ensures { OnOk result (HasMore (refused_of (answered.now.reply ∷ [])) replies.old replies.new) }
{
    if answered.reply.refusal().is_some() {
        replies.endings.push(ending_of(&answered.reply))?;
        replies.text.extend_from_slice(answered.reply.text())?;
    }
    Ok(())
}

/// Adds those of the replies that refuse.
fn add_all_refused(answered: &[HeldReply], replies: &mut Replies) -> Result<(), AllocError>
    ensures { OnOk result (HasMore (refused_of (map (λ r. r.reply) answered.now)) replies.old replies.new) }
{
    for each in answered {
        add_refused(each, replies)?;
    }
    Ok(())
}

/// Performs lines as one group, and adds the replies to those that are refused.
fn perform_group<D: Device>(
    alloc: Global,
    table: &mut DurableTable<'_, D>,
    group: &[Vec<u8>],
    replies: &mut Replies,
) -> Result<(), PerformError>
    requires stands { Stands D.content D.history table.old.session.setup.now table.old.session.holders.held table.old.journal }
    requires lines { AreLines (bytes_of group.now) }
    ensures refused { OnOk result (HasRefused table.old.session.setup.now table.old.session.holders.held (bytes_of group.now) replies.old replies.new) }
    ensures becomes { OnOk result (table.new.session.holders.held
        ≡ after table.old.session.setup.now table.old.session.holders.held (bytes_of group.now)) }
    ensures stands { OnOk result (Stands D.content D.history table.old.session.setup.now table.new.session.holders.held table.new.journal) }
    ensures any_moment { AlwaysLeaves (D.history table.old.journal.lines.device) (D.history table.new.journal.lines.device)
        (AfterFirstOf table.old.session.setup.now table.old.session.holders.held (bytes_of group.now)) }
    ensures of { OnOk result (StaysOf (lines_in D.content table.old.journal.lines) (lines_in D.content table.new.journal.lines)) }
    ensures any_of { AlwaysLeaves (D.history table.old.journal.lines.device) (D.history table.new.journal.lines.device)
        (λ file. StaysOf (lines_in D.content table.old.journal.lines) (lines_of file)) }
    ensures faults { IsErrOf result (PerformError.Device Failed) → D.faults table.old.journal.lines.device < D.faults table.new.journal.lines.device }
    ensures no_fewer { D.faults table.old.journal.lines.device ≤ D.faults table.new.journal.lines.device }
    ensures setup { table.new.session.setup ≡ table.old.session.setup }
{
    let answered = table.perform_all(alloc, group)?;
    match add_all_refused(&answered, replies) {
        Ok(()) => Ok(()),
        Err(_) => Err(PerformError::OutOfMemory),
    }
}

/// Performs lines, one after another in groups, and adds the replies to those that are refused.
fn perform_lines<D: Device>(
    alloc: Global,
    table: &mut DurableTable<'_, D>,
    lines: &[Vec<u8>],
    replies: &mut Replies,
) -> Result<(), PerformError>
    requires stands { Stands D.content D.history table.old.session.setup.now table.old.session.holders.held table.old.journal }
    requires lines { AreLines (bytes_of lines.now) }
    ensures refused { OnOk result (HasRefused table.old.session.setup.now table.old.session.holders.held (bytes_of lines.now) replies.old replies.new) }
    ensures becomes { OnOk result (table.new.session.holders.held
        ≡ after table.old.session.setup.now table.old.session.holders.held (bytes_of lines.now)) }
    ensures stands { OnOk result (Stands D.content D.history table.old.session.setup.now table.new.session.holders.held table.new.journal) }
    ensures any_moment { AlwaysLeaves (D.history table.old.journal.lines.device) (D.history table.new.journal.lines.device)
        (AfterFirstOf table.old.session.setup.now table.old.session.holders.held (bytes_of lines.now)) }
    ensures of { OnOk result (StaysOf (lines_in D.content table.old.journal.lines) (lines_in D.content table.new.journal.lines)) }
    ensures any_of { AlwaysLeaves (D.history table.old.journal.lines.device) (D.history table.new.journal.lines.device)
        (λ file. StaysOf (lines_in D.content table.old.journal.lines) (lines_of file)) }
    ensures faults { IsErrOf result (PerformError.Device Failed) → D.faults table.old.journal.lines.device < D.faults table.new.journal.lines.device }
    ensures no_fewer { D.faults table.old.journal.lines.device ≤ D.faults table.new.journal.lines.device }
    ensures setup { table.new.session.setup ≡ table.old.session.setup }
{
    let mut start = 0;
    while start < lines.len() {
        let end = lines.len().min(start + GROUP);
        perform_group(alloc, table, &lines[start..end], replies)?;
        start = end;
    }
    Ok(())
}

/// The lines that bring a table to these modules, and what is reported beside them.
fn adoption_of(
    alloc: Global,
    session: &HeldSession<'_>,
    kernel: &[KernelModule],
) -> Result<Adoption, AdoptError>
    ensures lines { IfOk result (λ a. bytes_of a.lines.items ≡ adopting_lines session.now.setup.now session.now.holders.held kernel.now) }
    ensures are_lines { IfOk result (λ a. AreLines (bytes_of a.lines.items)) }
    ensures refused { IfErr result (λ error. (error ≡ AdoptError.OutOfMemory) ⊎ (error ≡ AdoptError.BadName)) }
    ensures bad_name { IsErrOf result AdoptError.BadName → AreLines (adopting_lines session.now.setup.now session.now.holders.held kernel.now) → ⊥ }
    ensures report { IfOk result (λ a. a.report.items ≡ report_of session.now.setup.now.catalogue session.now.holders.held.table kernel.now) }
{
    let found = adopt(
        alloc,
        session.setup().catalogue(),
        session.holders(),
        kernel,
    )?;
    if !are_lines(&found.lines) {
        return Err(AdoptError::BadName);
    }
    Ok(found)
}

/// Adds a report, and how it ends.
fn add_report(report: &[u8], replies: &mut Replies) -> Result<(), AllocError>
    ensures text { OnOk result (replies.new.text.items ≡ replies.old.text.items ++ report.now) }
    ensures endings { OnOk result (replies.new.endings.items ≡ replies.old.endings.items ++ ending_of_report report.now ∷ []) }
{
    replies.endings.push(ending_of_report(report))?;
    replies.text.extend_from_slice(report)?;
    Ok(())
}

/// Brings a table to the modules of a kernel, the newest first, by the lines of `table_adopt::adopt`. What it reports is
/// added, and the replies to the lines that are refused. At `Ok` the journal stands for the table after the lines, on the
/// disk.
///
/// A crash at any moment, or an error, leaves the table after the first of the lines: none, some or all. Each holder holds
/// what it held, and no module that anybody holds is made absent.
pub fn adopt_modules<D: Device>(
    alloc: Global,
    table: &mut DurableTable<'_, D>,
    kernel: &[KernelModule],
    replies: &mut Replies,
) -> Result<(), AdoptError>
    requires { Stands D.content D.history table.old.session.setup.now table.old.session.holders.held table.old.journal }
    ensures adopted { OnOk result (HasAdopted table.old.session.setup.now table.old.session.holders.held kernel.now replies.old replies.new) }
    ensures becomes { OnOk result (table.new.session.holders.held
        ≡ after table.old.session.setup.now table.old.session.holders.held
        (adopting_lines table.old.session.setup.now table.old.session.holders.held kernel.now)) }
    ensures stands { OnOk result (Stands D.content D.history table.old.session.setup.now table.new.session.holders.held table.new.journal) }
    ensures holders { OnOk result (HoldsTheSame table.old.session.holders.held table.new.session.holders.held) }
    ensures held { OnOk result (KeepsHeld table.old.session.holders.held.table table.new.session.holders.held.table) }
    ensures unchanged { IsErrOf result AdoptError.BadName → table.new ≡ table.old }
    ensures silent { IsErrOf result AdoptError.BadName → replies.new ≡ replies.old }
    ensures any_moment { AlwaysLeaves (D.history table.old.journal.lines.device) (D.history table.new.journal.lines.device)
        (AfterFirstOf table.old.session.setup.now table.old.session.holders.held
        (adopting_lines table.old.session.setup.now table.old.session.holders.held kernel.now)) }
    ensures any_of { AlwaysLeaves (D.history table.old.journal.lines.device) (D.history table.new.journal.lines.device)
        (λ file. StaysOf (lines_in D.content table.old.journal.lines) (lines_of file)) }
    ensures bad_name { IsErrOf result AdoptError.BadName → AreLines (adopting_lines table.old.session.setup.now table.old.session.holders.held kernel.now) → ⊥ }
    ensures faults { IsErrOf result (AdoptError.Device Failed) → D.faults table.old.journal.lines.device < D.faults table.new.journal.lines.device }
    ensures no_fewer { D.faults table.old.journal.lines.device ≤ D.faults table.new.journal.lines.device }
    ensures setup { table.new.session.setup ≡ table.old.session.setup }
{
    table.session().holders().laws();
    let found = adoption_of(alloc, table.session(), kernel)?;
    add_report(&found.report, replies)?;
    perform_lines(alloc, table, &found.lines, replies)?;
    table.session().holders().laws();
    Ok(())
}
