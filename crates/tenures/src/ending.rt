//! How a process ends.
ghost use Rattle.std.specs.Prelude.{◌≡◌};
ghost use Rattle.tenures.specs.Endings.{stopped_by};

use durable_table::PerformError;
use line_journal::DeviceError;

/// Why a process answers no further line.
#[derive(Clone, Copy, Debug, PartialEq, Eq)]
pub enum Stopped {
    /// It was cut off.
    CutOff,
    /// Out of memory.
    OutOfMemory,
    /// A call of its device failed.
    Failed,
    /// Its file stands for no table of the setup, or more stands behind the lines than may be cut off.
    NoTable,
}

/// Why a process stops whose table gave this error.
pub(crate) fn stopped_by(error: PerformError) -> Stopped
    ensures { result ≡ stopped_by error }
{
    match error {
        PerformError::OutOfMemory | PerformError::Device(DeviceError::OutOfMemory) => {
            Stopped::OutOfMemory
        }
        PerformError::Device(DeviceError::Failed) => Stopped::Failed,
    }
}
