ghost use Rattle.std.specs.Prelude.{◌≡◌, ◌⊎◌, ◌↔◌, true, ◌<◌, ◌≤◌, ◌^◌, length, IfOk, IfErr, OnOk};
ghost use Rattle.line_journal.specs.declared.device.DeviceError.TheVariants.{Failed};
ghost use Rattle.line_journal.specs.Device.{IsOnDisk, AlwaysLeaves, TellsFaults};
ghost use Rattle.line_journal.specs.Journal.{IsFound, IsAtRest, IsLeft, IsRested, IsRecovered, MayCut};
ghost use Rattle.line_journal.specs.Opened.{IsOpened, device_after};
ghost use Rattle.line_journal.specs.Lines.{lines_of, open_text, at_rest, behind, StandsFor};

use crate::device::{cut_through, write_through};
use crate::reading::look;
use crate::text::CLOSED;
use crate::{Device, DeviceError, Found, Journal};
use std::alloc::Global;

/// What may be cut off behind the last line that counts.
#[derive(Clone, Copy, Debug, PartialEq, Eq)]
pub enum Repair {
    /// Whatever stands there.
    Cut,
    /// Bytes in which at most so many lines have an open gate. One less than the lines of its largest group is what
    /// a program whose groups are cut short by crashes needs.
    CutAtMost(usize),
}

/// What `recover` made of a file.
#[derive(Drop)]
pub enum Recovered {
    /// The file is at rest. What stood behind the lines is cut off.
    AtRest(Found),
    /// More than may be would be cut off. The file is as it was.
    Damaged(Found),
}

/// Reads the lines of a file, and brings its end to rest if something is torn there. Whoever wants to keep what is cut
/// off takes it from `look` first.
pub fn recover<D: Device>(
    alloc: Global,
    device: &mut D,
    repair: Repair,
) -> Result<Recovered, DeviceError>
    ensures recovered { IfOk result (λ recovered. IsRecovered repair (D.content device.old) (D.content device.new) (D.history device.new) recovered) }

    // A crash at any moment leaves the same lines, or what it might have left before the call.
    ensures any_moment { AlwaysLeaves (D.history device.old) (D.history device.new)
        (λ file. StandsFor (lines_of (D.content device.old)) file ⊎ (D.history device.old).leaves file) }

    // After a restart what is read is on the disk. Then it leaves the same lines.
    ensures after_restart { IsOnDisk (D.content device.old) (D.history device.old)
        → AlwaysLeaves (D.history device.old) (D.history device.new) (StandsFor (lines_of (D.content device.old))) }

    // What is at rest, or refused, is not written to.
    ensures writes { IsLeft repair (behind (D.content device.old)) → D.writes device.new ≡ D.writes device.old }

    ensures faults { TellsFaults (D.faults device.old) (D.faults device.new) result }
{
    let found = look(alloc, device)?;
    if rest(device, &found, repair)? {
        Ok(Recovered::AtRest(found))
    } else {
        Ok(Recovered::Damaged(found))
    }
}

// Brings the end of a file to rest that was looked at, or returns no if more would be cut off than may be.
fn rest<D: Device>(device: &mut D, found: &Found, repair: Repair) -> Result<bool, DeviceError>
    requires found { IsFound (D.content device.old) found.now }
    requires on_disk { IsOnDisk (D.content device.old) (D.history device.old) }
    requires fits { length (D.content device.old) < 2 ^ 64 }
    ensures rests { IfOk result (IsRested repair (D.content device.old) (D.content device.new) (D.history device.new) found.now) }
    ensures any_moment { AlwaysLeaves (D.history device.old) (D.history device.new) (StandsFor (lines_of (D.content device.old))) }
    ensures writes { IsLeft repair found.now.behind.items → D.writes device.new ≡ D.writes device.old }
    ensures faults { TellsFaults (D.faults device.old) (D.faults device.new) result }
{
    if found.is_at_rest() {
        return Ok(true);
    }
    if !may_cut(repair, found) {
        return Ok(false);
    }
    close(device, found.end)?;
    Ok(true)
}

fn may_cut(repair: Repair, found: &Found) -> bool
    ensures { result ≡ true ↔ MayCut repair found.now.behind.items }
{
    match repair {
        Repair::Cut => true,
        Repair::CutAtMost(lines) => found.open_gates_behind() <= lines,
    }
}

// Cuts off what stands behind the lines, and closes the gate there. The cut has to be on the disk first: what stood
// behind a gate that is torn open would count.
fn close<D: Device>(device: &mut D, end: usize) -> Result<(), DeviceError>
    requires end { end ≡ length (open_text (lines_of (D.content device.old))) }
    requires on_disk { IsOnDisk (D.content device.old) (D.history device.old) }
    ensures at_rest { OnOk result (IsAtRest (D.content device.new) (D.history device.new) end
        × StandsFor (lines_of (D.content device.old)) (D.content device.new)) }
    ensures any_moment { AlwaysLeaves (D.history device.old) (D.history device.new) (StandsFor (lines_of (D.content device.old))) }
    ensures faults { TellsFaults (D.faults device.old) (D.faults device.new) result }
{
    cut_through(device, end)?;
    write_through(device, end, &[CLOSED])?;
    Ok(())
}

/// What `open` made of a device.
#[derive(Drop)]
pub enum Opened<D: Device> {
    /// A journal that is ready, and what stood in its file.
    Ready(Journal<D>, Found),
    /// More than may be would be cut off. The file is as it was.
    Damaged(D, Found),
}

/// Makes a journal of a file that a crash may have left, by `recover`. An error hands the device back.
pub fn open<D: Device>(
    alloc: Global,
    mut device: D,
    repair: Repair,
) -> Result<Opened<D>, (DeviceError, D)>
    ensures opened { IfOk result (IsOpened D.content D.history repair device) }
    ensures any_moment { AlwaysLeaves (D.history device) (D.history (device_after result))
        (λ file. StandsFor (lines_of (D.content device)) file ⊎ (D.history device).leaves file) }
    ensures after_restart { IsOnDisk (D.content device) (D.history device)
        → AlwaysLeaves (D.history device) (D.history (device_after result)) (StandsFor (lines_of (D.content device))) }
    ensures writes { IsLeft repair (behind (D.content device)) → D.writes (device_after result) ≡ D.writes device }
    ensures faults { IfErr result (λ error. error.0 ≡ Failed → D.faults device < D.faults error.1) }
    ensures no_fewer { D.faults device ≤ D.faults (device_after result) }
{
    let found = match look(alloc, &mut device) {
        Ok(found) => found,
        Err(error) => return Err((error, device)),
    };
    open_found(device, found, repair)
}

/// Makes a journal of a file that was just looked at, as `open` does. It does not read the file again.
pub fn open_found<D: Device>(
    mut device: D,
    found: Found,
    repair: Repair,
) -> Result<Opened<D>, (DeviceError, D)>
    requires found { IsFound (D.content device) found }
    requires on_disk { IsOnDisk (D.content device) (D.history device) }
    requires fits { length (D.content device) < 2 ^ 64 }
    ensures opened { IfOk result (IsOpened D.content D.history repair device) }
    ensures any_moment { AlwaysLeaves (D.history device) (D.history (device_after result)) (StandsFor (lines_of (D.content device))) }
    ensures writes { IsLeft repair (behind (D.content device)) → D.writes (device_after result) ≡ D.writes device }
    ensures faults { IfErr result (λ error. error.0 ≡ Failed → D.faults device < D.faults error.1) }
    ensures no_fewer { D.faults device ≤ D.faults (device_after result) }
{
    match rest(&mut device, &found, repair) {
        Ok(true) => Ok(Opened::Ready(Journal::resume(device, found.end), found)),
        Ok(false) => Ok(Opened::Damaged(device, found)),
        Err(error) => Err((error, device)),
    }
}
