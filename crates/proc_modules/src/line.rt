//! A line of /proc/modules as values.

use crate::names::Names;
use std::alloc::{AllocError, AllocFailed};
use text_parts::Name;
use thiserror::Error;

/// The state that a line of /proc/modules shows.
#[derive(Clone, Copy, Debug, PartialEq, Eq, Drop)]
pub enum LineState {
    Live,
    Loading,
    Unloading,
}

/// A line of /proc/modules (proc(5)), without its address and its taints.
#[derive(Drop)]
pub struct Line {
    /// The module's name, with `_` for each `-`.
    pub name: Name,
    /// How many bytes the module takes.
    pub size: u32,
    /// How many references there are to the module, those of its users counted.
    pub count: u32,
    /// The modules that use it, as they stand in the line.
    pub users: Names,
    /// Whether the module stays once it is loaded.
    pub permanent: bool,
    pub state: LineState,
}

/// Why a text begins with no line of /proc/modules: the first fault from the left.
#[derive(Clone, Copy, Debug, PartialEq, Eq, Drop, Error)]
pub enum LineError {
    /// There are fewer than six fields between single spaces.
    #[error("the line has fewer than six fields")]
    MissingField,
    /// The name is not 1 to 55 letters, digits and `_`.
    #[error("the name is not 1 to 55 letters, digits and _")]
    BadName,
    /// The size or the count is no decimal without leading zeros, or is above 4,294,967,295.
    #[error("the size or the count is no decimal number, or too large")]
    BadNumber,
    /// The users are neither `-` nor names that each end with a comma, with `[permanent],` last at most.
    #[error("the users are no list of names")]
    BadUsers,
    /// The state is none of `Live`, `Loading` and `Unloading`.
    #[error("the state is none of Live, Loading and Unloading")]
    BadState,
    /// The address is not `0x` and 1 to 16 hexadecimal digits, or more than one word of taints stands after it.
    #[error("the address is no hexadecimal number")]
    BadAddress,
    /// There was no memory. This may come before any other refusal.
    #[error("out of memory")]
    Memory,
}

impl From<AllocError> for LineError {
    ghost use Rattle.std.specs.Prelude.{◌≡◌};
    ghost use Rattle.proc_modules.specs.declared.line.LineError.TheVariants.{Memory};

    ghost from_gives = { λ _ e. e ≡ Memory };

    fn from(_error: AllocError) -> LineError {
        LineError::Memory
    }
}
