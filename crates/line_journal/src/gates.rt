ghost use Rattle.std.specs.Prelude.{◌≡◌, ◌+◌, ◌<◌, ◌^◌, ◌++◌, length, IfOk, OnOk};
ghost use Rattle.line_journal.specs.Device.{IsOnDisk, AlwaysLeaves, TellsFaults};
ghost use Rattle.line_journal.specs.Lines.{lines_of, open_text, at_rest, with_waiting, bytes_of, AreLines, StandsWithFirstOf};

use crate::text::OPEN;
use crate::{Device, DeviceError};

/// Opens the gates of a group of lines that waits in the file, the first of which stands at `first`, and returns where
/// the closed gate behind them stands. The gates may reach the disk in any order.
pub(crate) fn open_gates<D: Device>(
    device: &mut D,
    first: usize,
    lines: &[Vec<u8>],
) -> Result<usize, DeviceError>
    requires waiting { D.content device.old ≡ with_waiting (lines_of (D.content device.old)) (bytes_of lines.now) }
    requires first { first ≡ length (open_text (lines_of (D.content device.old))) }
    requires on_disk { IsOnDisk (D.content device.old) (D.history device.old) }
    requires lines { AreLines (bytes_of lines.now) }
    requires fits { length (D.content device.old) < 2 ^ 64 }

    ensures end { IfOk result (λ end. end ≡ length (open_text (lines_of (D.content device.old) ++ bytes_of lines.now))) }
    ensures opened { OnOk result (D.content device.new ≡ at_rest (lines_of (D.content device.old) ++ bytes_of lines.now)) }
    ensures fits_too { OnOk result (length (D.content device.new) < 2 ^ 64) }
    ensures any_moment { AlwaysLeaves (D.history device.old) (D.history device.new)
        (StandsWithFirstOf (lines_of (D.content device.old)) (bytes_of lines.now)) }
    ensures faults { TellsFaults (D.faults device.old) (D.faults device.new) result }
{
    let mut gate = first;
    for line in lines {
        device.write_at(gate, &[OPEN])?;
        gate += line.len() + 2;
    }
    Ok(gate)
}
