//! Reads a report.
ghost use Rattle.std.specs.Prelude.{◌≡◌, ◌==◌, IfOk, IfErr};
ghost use Rattle.std.specs.List.{slice_split};
ghost use Rattle.std.specs.Option.{option_map};
ghost use Rattle.text_parts.specs.Text.{texts_of};
ghost use Rattle.timeline_drive.specs.Entries.{entry_in};
ghost use Rattle.timeline_drive.specs.Reports.{line_at, entries_in, IsReport, Refuses};

use crate::entries::{Entry, entry_of};
use std::alloc::{AllocError, AllocFailed, Global};
use text_parts::whole_lines;
use thiserror::Error;

/// Why a text is no report.
#[derive(Clone, Copy, Debug, PartialEq, Eq, Drop, Error)]
pub enum ReportFault {
    /// This line, from 1, is the first that is none of a report at its place.
    #[error("R1 line {0}")]
    Line(usize),
    /// There was no memory.
    #[error("out of memory")]
    Memory,
}

impl From<AllocError> for ReportFault {
    ghost use Rattle.timeline_drive.specs.declared.reports.ReportFault.TheVariants.{Memory};

    ghost from_gives = { λ _ fault. fault ≡ Memory };

    fn from(_: AllocError) -> ReportFault {
        ReportFault::Memory
    }
}

impl<T: Drop> From<AllocFailed<T>> for ReportFault {
    ghost use Rattle.timeline_drive.specs.declared.reports.ReportFault.TheVariants.{Memory};

    ghost from_gives = { λ _ fault. fault ≡ Memory };

    fn from(_: AllocFailed<T>) -> ReportFault {
        ReportFault::Memory
    }
}

/// The words of a line, which single spaces divide.
pub(crate) fn words<'a>(alloc: Global, line: &'a [u8]) -> Result<Vec<&'a [u8]>, AllocError>
    ensures { IfOk result (λ words. texts_of words.items ≡ slice_split (λ byte. byte == 32) line.now) }
{
    line.split(|byte| *byte == b' ').collect(alloc)
}

/// The call that a line is, if it has this number.
fn line_at<'a>(
    alloc: Global,
    number: usize,
    line: &'a [u8],
) -> Result<Option<Entry<'a>>, AllocError>
    ensures { IfOk result (λ entry. option_map entry_in entry ≡ line_at number line.now) }
{
    let words = words(alloc, line)?;
    match entry_of(&words) {
        Some(entry) if entry.number as usize == number => Ok(Some(entry)),
        _ => Ok(None),
    }
}

/// The calls of a report of `workload`, in the order of its lines. A line ends with a line feed, or with a carriage
/// return and a line feed; the last one may lack its end. `Line` is the first line that is none of a report, or has
/// another number than the calls before it leave; `Memory` says that there was none.
pub fn read_report<'a>(alloc: Global, text: &'a [u8]) -> Result<Vec<Entry<'a>>, ReportFault>
    ensures report { IfOk result (λ entries. IsReport text.entry.now (entries_in entries.items)) }
    ensures refused { IfErr result (Refuses text.entry.now) }
{
    let mut entries = Vec::new(alloc);
    let mut lines = whole_lines(text);
    while let Some(line) = lines.next() {
        let number = entries.len();
        match line_at(alloc, number, line)? {
            Some(entry) => {
                entries.push(entry)?;
            }
            None => return Err(ReportFault::Line(number + 1)),
        }
    }
    Ok(entries)
}
