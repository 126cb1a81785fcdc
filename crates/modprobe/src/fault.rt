//! Why a session did not begin, or stopped.
ghost use Rattle.std.specs.Prelude.{◌≡◌, ◌≢◌, None, Some};
ghost use Rattle.modprobe.specs.declared.fault.SetupCode.TheVariants as setup_codes;
ghost use Rattle.modprobe.specs.declared.fault.RunFault.TheVariants as run_faults;
ghost use Rattle.modprobe.specs.declared.fault.ServeFault.TheVariants as serve_faults;
ghost use Rattle.modprobe.specs.Run.{run_fault_of};
ghost use Rattle.modprobe.specs.ForProofs.{setup_code_of, catalogue_fault, dep_fault};

use crate::device::Failed;
use crate::lines::LineFault;
use dep_index::{CatError, DepError};
use std::alloc::AllocError;
use std::fmt;
use thiserror::Error;

/// What is wrong with the sections of an input, or what stopped their reading.
#[derive(Clone, Copy, Debug, PartialEq, Eq, Drop, Error)]
pub enum SetupCode {
    /// A line of the catalogue is none of its forms.
    #[error("C1")]
    C1,
    /// A module of the catalogue has the name of an earlier one.
    #[error("C2")]
    C2,
    /// A symbol of the catalogue is exported twice.
    #[error("C3")]
    C3,
    /// The catalogue has too many modules.
    #[error("C4")]
    C4,
    /// A line of modules.dep has no colon.
    #[error("M1")]
    M1,
    /// A line of modules.dep has an empty name.
    #[error("M2")]
    M2,
    /// A name has two lines in modules.dep.
    #[error("M3")]
    M3,
    /// A line stands before the first section line.
    #[error("B1")]
    B1,
    #[error("read fault")]
    Read,
    #[error("out of memory")]
    Memory,
    #[error("turn limit")]
    Turns,
    #[error("long line")]
    LongLine,
}

/// Why an input has no setup, and the line if the code has one: of the catalogue text for C1 to C4, of
/// the text of modules.dep for M1 to M3, 1 for B1.
#[derive(Clone, Copy, Debug, PartialEq, Eq, Drop)]
pub struct SetupFault {
    pub code: SetupCode,
    pub line: Option<u64>,
}

/// Why a session stopped.
#[derive(Clone, Copy, Debug, PartialEq, Eq, Drop, Error)]
pub enum RunFault {
    /// The source failed.
    #[error("read fault")]
    Read,
    /// The sink failed.
    #[error("write fault")]
    Write,
    #[error("out of memory")]
    Memory,
    /// The source was read as often as was allowed.
    #[error("turn limit")]
    Turns,
    /// A line is longer than 65,535 bytes.
    #[error("long line")]
    LongLine,
}

/// Why a whole session ended before its input did.
#[derive(Clone, Copy, Debug, PartialEq, Eq, Drop, Error)]
pub enum ServeFault {
    #[error("{0}")]
    Setup(SetupFault),
    #[error("{0}")]
    Run(RunFault),
    /// There is no memory for the lines or for the table.
    #[error("out of memory")]
    Memory,
}

impl fmt::Display for SetupFault {
    fn fmt<W: fmt::Write>(&self, f: &mut fmt::Formatter<W>) -> fmt::Result {
        let code = self.code;
        match self.line {
            Some(line) => write!(f, "{code} line {line}"),
            None => write!(f, "{code}"),
        }
    }
}

impl std::error::Error for SetupFault {}

impl From<AllocError> for SetupFault {
    ghost from_gives = { λ _ fault. fault ≡ record { code = setup_codes.Memory; line = None } };

    fn from(_: AllocError) -> SetupFault {
        SetupFault {
            code: SetupCode::Memory,
            line: None,
        }
    }
}

impl From<CatError> for SetupFault {
    ghost from_gives = { λ refusal fault. fault ≡ catalogue_fault refusal };

    fn from(fault: CatError) -> SetupFault {
        let (code, line) = match fault {
            CatError::Bad { line } => (SetupCode::C1, line),
            CatError::Duplicate { line } => (SetupCode::C2, line),
            CatError::TwiceExported { line } => (SetupCode::C3, line),
            CatError::TooMany { line } => (SetupCode::C4, line),
            CatError::Memory => return SetupFault::from(AllocError),
        };
        SetupFault {
            code,
            line: Some(line as u64),
        }
    }
}

impl From<DepError> for SetupFault {
    ghost from_gives = { λ refusal fault. fault ≡ dep_fault refusal };

    fn from(fault: DepError) -> SetupFault {
        let (code, line) = match fault {
            DepError::NoColon { line } => (SetupCode::M1, line),
            DepError::EmptyName { line } => (SetupCode::M2, line),
            DepError::SecondLine { line } => (SetupCode::M3, line),
            DepError::Memory => return SetupFault::from(AllocError),
        };
        SetupFault {
            code,
            line: Some(line as u64),
        }
    }
}

impl From<LineFault> for SetupFault {
    ghost from_gives = { λ line_fault fault. fault ≡ record { code = setup_code_of line_fault; line = None } };

    fn from(fault: LineFault) -> SetupFault {
        let code = match fault {
            LineFault::Read => SetupCode::Read,
            LineFault::Memory => SetupCode::Memory,
            LineFault::Turns => SetupCode::Turns,
            LineFault::LongLine => SetupCode::LongLine,
        };
        SetupFault { code, line: None }
    }
}

impl From<AllocError> for RunFault {
    ghost from_gives = { λ _ fault. fault ≡ run_faults.Memory };

    fn from(_: AllocError) -> RunFault {
        RunFault::Memory
    }
}

impl From<Failed> for RunFault {
    ghost from_gives = { λ _ fault. fault ≡ run_faults.Write };

    fn from(_: Failed) -> RunFault {
        RunFault::Write
    }
}

impl From<LineFault> for RunFault {
    ghost from_gives = { λ line_fault fault. fault ≡ run_fault_of line_fault };

    fn from(fault: LineFault) -> RunFault {
        match fault {
            LineFault::Read => RunFault::Read,
            LineFault::Memory => RunFault::Memory,
            LineFault::Turns => RunFault::Turns,
            LineFault::LongLine => RunFault::LongLine,
        }
    }
}

impl From<SetupFault> for ServeFault {
    ghost from_gives = { λ setup fault. fault ≡ serve_faults.Setup setup };

    fn from(fault: SetupFault) -> ServeFault {
        ServeFault::Setup(fault)
    }
}

impl From<RunFault> for ServeFault {
    ghost from_gives = { λ run fault. fault ≡ serve_faults.Run run };

    fn from(fault: RunFault) -> ServeFault {
        ServeFault::Run(fault)
    }
}

impl From<AllocError> for ServeFault {
    ghost from_gives = { λ _ fault. fault ≡ serve_faults.Memory };

    fn from(_: AllocError) -> ServeFault {
        ServeFault::Memory
    }
}
