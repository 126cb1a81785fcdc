//! Why an input is refused.
ghost use Rattle.std.specs.Prelude.{◌≡◌};
ghost use Rattle.workload_drive.specs.Faults.{catalogue_fault, points_fault};
ghost use Rattle.workload_drive.specs.declared.fault.ScheduleFault.TheVariants as faults;

use dep_index::CatError;
use linear_points::PointsError;
use std::alloc::{AllocError, AllocFailed};
use step_core::StepError;
use thiserror::Error;

/// What is wrong with a line.
#[derive(Clone, Copy, Debug, PartialEq, Eq, Drop)]
pub enum LineCode {
    /// A line of the catalogue is none of its forms.
    C1,
    /// A module of the catalogue has the name of an earlier one.
    C2,
    /// A symbol of the catalogue is exported twice.
    C3,
    /// The catalogue has too many modules.
    C4,
    /// The line has no form of a line at its place.
    H1,
    /// The module is not in the catalogue.
    H2,
    /// There are more than 1,000,000 steps.
    H3,
}

/// The first faulty line of an input. For C1 to C4 it counts in the text of the catalogue, else in the whole input.
#[derive(Clone, Copy, Debug, PartialEq, Eq, Drop, Error)]
#[error("{code:?} line {line}")]
pub struct LineFault {
    pub code: LineCode,
    pub line: usize,
}

/// Why an input has no report.
#[derive(Clone, Copy, Debug, PartialEq, Eq, Drop, Error)]
pub enum ScheduleFault {
    /// This line is the first faulty one.
    #[error("{0}")]
    Line(LineFault),
    /// No line is faulty, and the machine refuses the step of this index.
    #[error("{code} at step {index}", code = step_code(*.cause))]
    Step { index: usize, cause: StepError },
    /// There was no memory.
    #[error("out of memory")]
    Memory,
}

fn step_code(cause: StepError) -> &'static str {
    match cause {
        StepError::Thread => "S1",
        StepError::Worker => "S2",
        StepError::Slot => "S3",
        StepError::Calls => "S4",
    }
}

impl From<AllocError> for ScheduleFault {
    ghost from_gives = { λ _ fault. fault ≡ faults.Memory };

    fn from(_: AllocError) -> ScheduleFault {
        ScheduleFault::Memory
    }
}

impl<T: Drop> From<AllocFailed<T>> for ScheduleFault {
    ghost from_gives = { λ _ fault. fault ≡ faults.Memory };

    fn from(_: AllocFailed<T>) -> ScheduleFault {
        ScheduleFault::Memory
    }
}

impl From<CatError> for ScheduleFault {
    ghost from_gives = { λ refusal fault. fault ≡ catalogue_fault refusal };

    fn from(fault: CatError) -> ScheduleFault {
        let (code, line) = match fault {
            CatError::Bad { line } => (LineCode::C1, line),
            CatError::Duplicate { line } => (LineCode::C2, line),
            CatError::TwiceExported { line } => (LineCode::C3, line),
            CatError::TooMany { line } => (LineCode::C4, line),
            CatError::Memory => return ScheduleFault::Memory,
        };
        ScheduleFault::Line(LineFault { code, line })
    }
}

impl From<PointsError> for ScheduleFault {
    ghost from_gives = { λ refusal fault. fault ≡ points_fault refusal };

    fn from(fault: PointsError) -> ScheduleFault {
        match fault {
            PointsError::Step { index, cause } => ScheduleFault::Step { index, cause },
            PointsError::Memory => ScheduleFault::Memory,
        }
    }
}

impl ScheduleFault {
    ghost use Rattle.workload_drive.specs.Faults.{fault_at};

    /// The fault of this code at this line.
    pub(crate) fn at(code: LineCode, line: usize) -> ScheduleFault
        ensures { result ≡ faults.Line (fault_at code line) }
    {
        ScheduleFault::Line(LineFault { code, line })
    }
}
