//! A call's point, and why there are none.
ghost use Rattle.std.specs.Prelude.{◌≡◌};
ghost use Rattle.linear_points.specs.declared.point.PointsError.TheVariants.{Memory};

use dep_index::Reply;
use std::alloc::{AllocError, AllocFailed};
use step_core::StepError;
use thiserror::Error;

/// The step at which a call takes effect, by its index, and what the call answers there. Calls are numbered from 0
/// in the order in which they were invoked, steps from 0 in their order.
#[derive(Clone, Copy, Debug, PartialEq, Eq, Drop)]
pub struct Point {
    pub call: usize,
    pub index: usize,
    pub reply: Reply,
}

/// Why steps have no points.
#[derive(Clone, Copy, Debug, PartialEq, Eq, Drop, Error)]
pub enum PointsError {
    /// The machine refuses the step of this index, and none before it. The cause is never `Calls`.
    #[error("step {index} is refused: {cause:?}")]
    Step { index: usize, cause: StepError },
    #[error("out of memory")]
    Memory,
}

impl From<AllocError> for PointsError {
    ghost from_gives = { λ _ e. e ≡ Memory };

    fn from(_error: AllocError) -> PointsError {
        PointsError::Memory
    }
}

impl<T: Drop> From<AllocFailed<T>> for PointsError {
    ghost from_gives = { λ _ e. e ≡ Memory };

    fn from(_error: AllocFailed<T>) -> PointsError {
        PointsError::Memory
    }
}
