ghost use Rattle.std.specs.Prelude.{◌≡◌, ◌+◌, ◌<◌, ◌≤◌, ◌^◌, List, ℕ, length, take, drop, IfOk, OnOk};
ghost use Rattle.line_journal.specs.declared.device.DeviceError.TheVariants.{OutOfMemory};
ghost use Rattle.line_journal.specs.Device.{History, IsOnDisk, overwritten, Torn, Shortened, Unchanged, UnchangedOr, Goes, AlwaysLeaves, TellsFaults};

use std::alloc::{AllocError, AllocFailed, Global};
use std::fmt;

/// Why a call of a device did not do what it was asked.
#[derive(Clone, Copy, Debug, PartialEq, Eq)]
pub enum DeviceError {
    OutOfMemory,
    Failed,
}

impl fmt::Display for DeviceError {
    fn fmt<W: fmt::Write>(&self, f: &mut fmt::Formatter<W>) -> fmt::Result {
        f.write_str(match self {
            DeviceError::OutOfMemory => "out of memory",
            DeviceError::Failed => "the device failed",
        })
    }
}

impl std::error::Error for DeviceError {}

impl From<AllocError> for DeviceError {
    ghost from_gives = { λ _ error. error ≡ OutOfMemory };

    fn from(_: AllocError) -> Self {
        DeviceError::OutOfMemory
    }
}

impl<T: Drop> From<AllocFailed<T>> for DeviceError {
    ghost from_gives = { λ _ error. error ≡ OutOfMemory };

    fn from(_: AllocFailed<T>) -> Self {
        DeviceError::OutOfMemory
    }
}

/// One file, as a journal uses it. After an error of any call, nothing is said of `content`, and `history` says what a
/// crash may leave: open the file again.
pub trait Device {
    /// What a read returns.
    ghost content: { Self → List ℕ };

    /// What crashes may leave.
    ghost history: { Self → History };

    /// How many calls have failed.
    ghost faults: { Self → ℕ };

    /// How many calls have written, cut or replaced, or were to. No other call changes it.
    ghost writes: { Self → ℕ };

    /// How often it was looked at what others made of the file. None of these calls changes it.
    ghost looks: { Self → ℕ };

    /// The bytes from `place` on.
    fn read_from(&mut self, alloc: Global, place: usize) -> Result<Vec<u8>, DeviceError>
        requires { place ≤ length (content self.old) }
        ensures bytes { IfOk result (λ bytes. bytes.items ≡ drop place (content self.old)) }
        ensures fits { OnOk result (length (content self.old) < 2 ^ 64) }
        ensures content { content self.new ≡ content self.old }
        ensures writes { writes self.new ≡ writes self.old }
        ensures crash { Goes Unchanged (history self.old) (history self.new) }
        ensures looks { looks self.new ≡ looks self.old }
        ensures faults { TellsFaults (faults self.old) (faults self.new) result };

    /// Writes over what is there and past the end. Until the next `sync`, a crash may leave any bytes in the range.
    fn write_at(&mut self, place: usize, bytes: &[u8]) -> Result<(), DeviceError>
        requires { place ≤ length (content self.old) }
        ensures written { OnOk result (content self.new ≡ overwritten (content self.old) place bytes.now) }
        ensures fits { OnOk result (place + length bytes.now < 2 ^ 64) }
        ensures crash { Goes (Torn place (length bytes.now)) (history self.old) (history self.new) }
        ensures looks { looks self.new ≡ looks self.old }
        ensures faults { TellsFaults (faults self.old) (faults self.new) result };

    /// Cuts off what stands behind the first `size` bytes.
    fn cut(&mut self, size: usize) -> Result<(), DeviceError>
        requires { size ≤ length (content self.old) }
        ensures cut { OnOk result (content self.new ≡ take size (content self.old)) }
        ensures crash { Goes (Shortened size) (history self.old) (history self.new) }
        ensures looks { looks self.new ≡ looks self.old }
        ensures faults { TellsFaults (faults self.old) (faults self.new) result };

    /// Waits until what a read returns is on the disk: fsync(2).
    fn sync(&mut self) -> Result<(), DeviceError>
        ensures on_disk { OnOk result (IsOnDisk (content self.old) (history self.new)) }
        ensures content { content self.new ≡ content self.old }
        ensures writes { writes self.new ≡ writes self.old }
        ensures crash { Goes Unchanged (history self.old) (history self.new) }
        ensures looks { looks self.new ≡ looks self.old }
        ensures faults { TellsFaults (faults self.old) (faults self.new) result };

    /// Puts a file of these bytes in the place of this one, all at once: a new file is written and synced, renamed over
    /// this one by rename(2), and its folder synced. Later calls go to the new file.
    fn replace(&mut self, bytes: &[u8]) -> Result<(), DeviceError>
        ensures replaced { OnOk result (content self.new ≡ bytes.now) }
        ensures fits { OnOk result (length bytes.now < 2 ^ 64) }
        ensures on_disk { OnOk result (IsOnDisk bytes.now (history self.new)) }
        ensures crash { Goes (UnchangedOr bytes.now) (history self.old) (history self.new) }
        ensures looks { looks self.new ≡ looks self.old }
        ensures faults { TellsFaults (faults self.old) (faults self.new) result };

    /// A process that is killed leaves what a read returns. A crash may leave that too.
    ghost kill_leaves: { (file : Self) → (history file).leaves (content file) };
}

/// Writes, and waits until it is on the disk.
pub(crate) fn write_through<D: Device>(
    device: &mut D,
    place: usize,
    bytes: &[u8],
) -> Result<(), DeviceError>
    requires within { place ≤ length (D.content device.old) }
    requires on_disk { IsOnDisk (D.content device.old) (D.history device.old) }
    ensures written { OnOk result (D.content device.new ≡ overwritten (D.content device.old) place bytes.now) }
    ensures fits { OnOk result (place + length bytes.now < 2 ^ 64) }
    ensures on_disk { OnOk result (IsOnDisk (D.content device.new) (D.history device.new)) }
    ensures any_moment { AlwaysLeaves (D.history device.old) (D.history device.new) (Torn place (length bytes.now) (D.content device.old)) }
    ensures faults { TellsFaults (D.faults device.old) (D.faults device.new) result }
{
    device.write_at(place, bytes)?;
    device.sync()
}

/// Cuts, and waits until that is on the disk.
pub(crate) fn cut_through<D: Device>(device: &mut D, size: usize) -> Result<(), DeviceError>
    requires within { size ≤ length (D.content device.old) }
    requires on_disk { IsOnDisk (D.content device.old) (D.history device.old) }
    ensures cut { OnOk result (D.content device.new ≡ take size (D.content device.old)) }
    ensures on_disk { OnOk result (IsOnDisk (D.content device.new) (D.history device.new)) }
    ensures any_moment { AlwaysLeaves (D.history device.old) (D.history device.new) (Shortened size (D.content device.old)) }
    ensures faults { TellsFaults (D.faults device.old) (D.faults device.new) result }
{
    device.cut(size)?;
    device.sync()
}
