ghost use Rattle.std.specs.Prelude.{◌≡◌, ◌++◌, [], ◌∷◌, OnOk};
ghost use Rattle.line_journal.specs.Device.{AlwaysLeaves, TellsFaults};
ghost use Rattle.line_journal.specs.Journal.{lines_in, IsReady};
ghost use Rattle.line_journal.specs.Lines.{bytes_of, IsLine, AreLines, StandsWithOrWithout, StandsWithFirstOf, StandsForEither};

use crate::device::write_through;
use crate::gates::open_gates;
use crate::text::{OPEN, line_waiting, text_at_rest, text_waiting};
use crate::{Device, DeviceError};
use std::alloc::Global;

/// The lines of a file, to which more are added. `open` makes one. After an error, `open` its device again.
#[derive(Drop)]
pub struct Journal<D: Device> {
    pub(crate) device: D,
    pub(crate) end: usize,
}

impl<D: Device> Journal<D> {
    /// A journal over a device whose file is at rest, with its closed gate at `end`, as `recover` or `look` found it.
    pub fn resume(device: D, end: usize) -> Journal<D>
        ensures device { result.device ≡ device }
        ensures end { result.end ≡ end }
    {
        Journal { device, end }
    }

    /// Adds a line. At `Ok` it is on the disk, and each crash from then on leaves a file that has it.
    pub fn put(&mut self, alloc: Global, line: &[u8]) -> Result<(), DeviceError>
        requires ready { IsReady D.content D.history self.old }
        requires line { IsLine line.now }

        ensures acknowledged { OnOk result (IsReady D.content D.history self.new
            × (lines_in D.content self.new ≡ lines_in D.content self.old ++ line.now ∷ [])) }

        // A crash at any moment of the call leaves the lines from before it, with the new one or without.
        ensures any_moment { AlwaysLeaves (D.history self.old.device) (D.history self.new.device)
            (StandsWithOrWithout (lines_in D.content self.old) line.now) }

        ensures faults { TellsFaults (D.faults self.old.device) (D.faults self.new.device) result }
    {
        let bytes = line_waiting(alloc, line)?;
        write_through(&mut self.device, self.end + 1, &bytes)?;
        write_through(&mut self.device, self.end, &[OPEN])?;
        self.end += bytes.len();
        Ok(())
    }

    /// Adds a group of lines, and waits for the disk as often as for one. At `Ok` all of them are there.
    pub fn put_group(&mut self, alloc: Global, lines: &[Vec<u8>]) -> Result<(), DeviceError>
        requires ready { IsReady D.content D.history self.old }
        requires lines { AreLines (bytes_of lines.now) }

        ensures acknowledged { OnOk result (IsReady D.content D.history self.new
            × (lines_in D.content self.new ≡ lines_in D.content self.old ++ bytes_of lines.now)) }

        // A crash at any moment of the call leaves the lines from before it, and the first of the group.
        ensures any_moment { AlwaysLeaves (D.history self.old.device) (D.history self.new.device)
            (StandsWithFirstOf (lines_in D.content self.old) (bytes_of lines.now)) }

        ensures faults { TellsFaults (D.faults self.old.device) (D.faults self.new.device) result }
    {
        let bytes = text_waiting(alloc, lines)?;
        write_through(&mut self.device, self.end + 1, &bytes)?;
        let end = open_gates(&mut self.device, self.end, lines)?;
        self.device.sync()?;
        self.end = end;
        Ok(())
    }

    /// Puts other lines in the place of all that are there, as a snapshot in the place of what led to it.
    pub fn rewrite(&mut self, alloc: Global, lines: &[Vec<u8>]) -> Result<(), DeviceError>
        requires ready { IsReady D.content D.history self.old }
        requires lines { AreLines (bytes_of lines.now) }

        ensures acknowledged { OnOk result (IsReady D.content D.history self.new
            × (lines_in D.content self.new ≡ bytes_of lines.now)) }

        // A crash at any moment of the call leaves the lines from before it, or the new ones, all of them.
        ensures any_moment { AlwaysLeaves (D.history self.old.device) (D.history self.new.device)
            (StandsForEither (lines_in D.content self.old) (bytes_of lines.now)) }

        ensures faults { TellsFaults (D.faults self.old.device) (D.faults self.new.device) result }
    {
        let bytes = text_at_rest(alloc, lines)?;
        self.device.replace(&bytes)?;
        self.end = bytes.len() - 1;
        Ok(())
    }

    /// The size of the lines in bytes: the closed gate behind them stands there.
    pub fn end(&self) -> usize
        ensures { result ≡ self.now.end }
    {
        self.end
    }

    /// The device that it writes to.
    pub fn device(&self) -> &D
        ensures { result.now ≡ self.now.device }
    {
        &self.device
    }

    /// Gives the device back.
    pub fn into_device(self) -> D
        ensures { result ≡ self.device }
    {
        self.device
    }
}
