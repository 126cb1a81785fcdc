//! Why a text is refused. What each fault says of a text stands in specs/Faults.antt.
ghost use Rattle.std.specs.Prelude.{◌≡◌};
ghost use Rattle.dep_index.specs.Faults.{fault_at, dep_fault_at};

use std::alloc::{AllocError, AllocFailed};
use thiserror::Error;

/// Why a text is no catalogue: its first fault, with the number of its line, from 1.
#[derive(Clone, Copy, Debug, PartialEq, Eq, Drop, Error)]
pub enum CatError {
    /// The line has no form of a catalogue line, or stands where it may not: before the first module, a second
    /// size, a parameter twice, `softneeds` in version 1, `version` behind another line, `end` with another number than
    /// that of the modules, any line behind `end`.
    #[error("line {line} is no line of a catalogue, or stands where it may not")]
    Bad { line: usize },
    /// A module of the name stands already.
    #[error("line {line}: a module of the name stands already")]
    Duplicate { line: usize },
    /// The symbol is exported already, by whichever module.
    #[error("line {line}: the symbol is exported already")]
    TwiceExported { line: usize },
    /// One module more than the version's limit of 256, 1,024 or 65,535.
    #[error("line {line}: one module more than a catalogue of its version holds")]
    TooMany { line: usize },
    /// There was no memory.
    #[error("out of memory")]
    Memory,
}

/// Why a text is no modules.dep text: its first fault, with the number of its line, from 1.
#[derive(Clone, Copy, Debug, PartialEq, Eq, Drop, Error)]
pub enum DepError {
    /// The line has no colon.
    #[error("line {line} has no colon")]
    NoColon { line: usize },
    /// A path on either side of the colon has an empty name.
    #[error("line {line} has a path with an empty name")]
    EmptyName { line: usize },
    /// The name before the colon has a line already.
    #[error("line {line}: the name has a line already")]
    SecondLine { line: usize },
    /// There was no memory.
    #[error("out of memory")]
    Memory,
}

/// Why a line of a catalogue is refused.
#[derive(Clone, Copy, Debug, PartialEq, Eq, Drop)]
pub(crate) enum Refused {
    Bad,
    Duplicate,
    TwiceExported,
    TooMany,
    Memory,
}

impl Refused {
    /// The fault of a text in which the line of this number is refused.
    pub(crate) fn at(self, line: usize) -> CatError
        ensures { result ≡ fault_at self line }
    {
        match self {
            Refused::Bad => CatError::Bad { line },
            Refused::Duplicate => CatError::Duplicate { line },
            Refused::TwiceExported => CatError::TwiceExported { line },
            Refused::TooMany => CatError::TooMany { line },
            Refused::Memory => CatError::Memory,
        }
    }
}

impl From<AllocError> for Refused {
    ghost use Rattle.dep_index.specs.declared.faults.Refused.TheVariants.{Memory};

    ghost from_gives = { λ _ e. e ≡ Memory };

    fn from(_error: AllocError) -> Refused {
        Refused::Memory
    }
}

impl<T: Drop> From<AllocFailed<T>> for Refused {
    ghost use Rattle.dep_index.specs.declared.faults.Refused.TheVariants.{Memory};

    ghost from_gives = { λ _ e. e ≡ Memory };

    fn from(_error: AllocFailed<T>) -> Refused {
        Refused::Memory
    }
}

impl From<AllocError> for CatError {
    ghost use Rattle.dep_index.specs.declared.faults.CatError.TheVariants.{Memory};

    ghost from_gives = { λ _ e. e ≡ Memory };

    fn from(_error: AllocError) -> CatError {
        CatError::Memory
    }
}

/// Why a line of a modules.dep text is refused.
#[derive(Clone, Copy, Debug, PartialEq, Eq, Drop)]
pub(crate) enum DepRefused {
    NoColon,
    EmptyName,
    SecondLine,
    Memory,
}

impl DepRefused {
    /// The fault of a text in which the line of this number is refused.
    pub(crate) fn at(self, line: usize) -> DepError
        ensures { result ≡ dep_fault_at self line }
    {
        match self {
            DepRefused::NoColon => DepError::NoColon { line },
            DepRefused::EmptyName => DepError::EmptyName { line },
            DepRefused::SecondLine => DepError::SecondLine { line },
            DepRefused::Memory => DepError::Memory,
        }
    }
}

impl From<AllocError> for DepRefused {
    ghost use Rattle.dep_index.specs.declared.faults.DepRefused.TheVariants.{Memory};

    ghost from_gives = { λ _ e. e ≡ Memory };

    fn from(_error: AllocError) -> DepRefused {
        DepRefused::Memory
    }
}

impl<T: Drop> From<AllocFailed<T>> for DepRefused {
    ghost use Rattle.dep_index.specs.declared.faults.DepRefused.TheVariants.{Memory};

    ghost from_gives = { λ _ e. e ≡ Memory };

    fn from(_error: AllocFailed<T>) -> DepRefused {
        DepRefused::Memory
    }
}
