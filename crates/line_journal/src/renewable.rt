//! A file that other processes write to as well.
ghost use Rattle.std.specs.Prelude.{◌≡◌, ◌<◌, ◌≤◌, length, IfOk, OnOk};
ghost use Rattle.line_journal.specs.Device.{TellsFaults};
ghost use Rattle.line_journal.specs.Renewed.{IsRenewed};

use crate::{Device, DeviceError};

/// What others have made of a file.
#[derive(Clone, Copy, Debug, PartialEq, Eq)]
pub enum Renewed {
    /// It reads as before.
    Same,
    /// Its first bytes read as before. The others may be new.
    Longer,
    /// Its first bytes do not read as before.
    Other,
}

/// A file that other processes write to as well, one process at a time. They add to it, or put another file in its place.
pub trait Renewable: Device {
    /// What a process has while it is its turn, such as a lock.
    type Turn: Drop;

    /// The turn of this process begins: looks at what others have made of the file since it had its turn. The first `kept`
    /// bytes are those that are to stay. What was read anew may not be on the disk yet. Nothing is written. After an error
    /// the device has the turn too.
    fn renew(&mut self, turn: Self::Turn, kept: usize) -> Result<Renewed, DeviceError>
        requires within { kept ≤ length (Self.content self.old) }
        ensures renewed { IfOk result (IsRenewed kept (Self.content self.old) (Self.content self.new)) }
        ensures writes { Self.writes self.new ≡ Self.writes self.old }
        ensures looks { OnOk result (Self.looks self.old < Self.looks self.new) }
        ensures faults { TellsFaults (Self.faults self.old) (Self.faults self.new) result };

    /// The turn of this process is over: what it had is given back. Calls fail until the next one.
    fn rest(&mut self)
        ensures content { Self.content self.new ≡ Self.content self.old }
        ensures writes { Self.writes self.new ≡ Self.writes self.old }
        ensures looks { Self.looks self.new ≡ Self.looks self.old }
        ensures faults { Self.faults self.new ≡ Self.faults self.old };
}
