//! A file in memory whose process ends at a chosen call.
ghost use Rattle.std.specs.Prelude.{◌≡◌};
ghost use Rattle.std.proofs.Common.{refl};
ghost use Rattle.line_journal.specs.Device.{TellsFaults};
ghost use Rattle.line_journal.specs.KillOnly.{held_by, history_of, writes_of};

use line_journal::{Device, DeviceError, KillOnly};
use std::alloc::Global;

/// A file in memory that lets so many calls succeed. Each later call is made too, but says that it failed: so its process ends
/// after the first of them.
pub(crate) struct CutDevice {
    file: KillOnly,
    calls_left: usize,
    faults: usize,
}

// By hand, since a derived drop is written out, and proved, at each place where a value is let go.
impl Drop for CutDevice {
    fn drop(self) {
        let CutDevice {
            file: _,
            calls_left: _,
            faults: _,
        } = self;
    }
}

impl CutDevice {
    /// The file, with no call left.
    pub(crate) fn new(file: KillOnly) -> CutDevice
        ensures { result.file ≡ file }
    {
        CutDevice {
            file,
            calls_left: 0,
            faults: 0,
        }
    }

    /// From now on so many calls are left.
    pub(crate) fn leave(&mut self, calls: usize)
        ensures file { self.new.file ≡ self.old.file }
        ensures faults { self.new.faults ≡ self.old.faults }
    {
        self.calls_left = calls;
    }

    /// What it holds.
    pub(crate) fn bytes(&self) -> &[u8] {
        self.file.bytes()
    }

    /// Counts a call that was made.
    fn count(&mut self) -> Result<(), DeviceError>
        ensures file { self.new.file ≡ self.old.file }
        ensures faults { TellsFaults self.old.faults self.new.faults result }
    {
        if let Some(left) = self.calls_left.checked_sub(1) {
            self.calls_left = left;
            return Ok(());
        }
        match self.faults.checked_add(1) {
            Some(faults) => {
                self.faults = faults;
                Err(DeviceError::Failed)
            }
            None => Err(DeviceError::OutOfMemory),
        }
    }
}

impl Device for CutDevice {
    ghost content = { λ device. held_by device.file };

    ghost history = { λ device. history_of device.file };

    ghost faults = { λ device. device.faults };

    ghost writes = { λ device. writes_of device.file };

    ghost looks = { λ _. 0 };

    ghost kill_leaves = { λ _. refl };

    fn read_from(&mut self, alloc: Global, place: usize) -> Result<Vec<u8>, DeviceError> {
        let bytes = self.file.read_from(alloc, place)?;
        self.count()?;
        Ok(bytes)
    }

    fn write_at(&mut self, place: usize, bytes: &[u8]) -> Result<(), DeviceError> {
        self.file.write_at(place, bytes)?;
        self.count()
    }

    fn cut(&mut self, size: usize) -> Result<(), DeviceError> {
        self.file.cut(size)?;
        self.count()
    }

    fn sync(&mut self) -> Result<(), DeviceError> {
        self.file.sync()?;
        self.count()
    }

    fn replace(&mut self, bytes: &[u8]) -> Result<(), DeviceError> {
        self.file.replace(bytes)?;
        self.count()
    }
}
