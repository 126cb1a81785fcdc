//! Why there is no plan.
ghost use Rattle.std.specs.Prelude.{◌≡◌};

use std::alloc::{AllocError, AllocFailed};
use text_parts::Name;

/// Why a module has no plan, by slots of the catalogue and by names that it does not have.
#[derive(Drop)]
pub(crate) enum PlanRefusal {
    /// The module is a hard dependency of itself.
    Cycle(usize),
    /// The module has an install line and no softdep line (modprobe.d(5)).
    Install(usize),
    /// The catalogue has no module of that name.
    Unknown(Name),
}

/// Why a walk ends early: a refusal, or no memory left.
#[derive(Drop)]
pub(crate) enum WalkError {
    Refused(PlanRefusal),
    Memory,
}

impl From<AllocError> for WalkError {
    ghost use Rattle.load_plan.specs.declared.refusal.WalkError.TheVariants.{Memory};

    ghost from_gives = { λ _ e. e ≡ Memory };

    fn from(_error: AllocError) -> WalkError {
        WalkError::Memory
    }
}

impl<T: Drop> From<AllocFailed<T>> for WalkError {
    ghost use Rattle.load_plan.specs.declared.refusal.WalkError.TheVariants.{Memory};

    ghost from_gives = { λ _ e. e ≡ Memory };

    fn from(_error: AllocFailed<T>) -> WalkError {
        WalkError::Memory
    }
}
