//! How a journal begins, and how a table is made of one that is there.
ghost use Rattle.std.specs.Prelude.{◌≡◌, ◌⊎◌, ◌<◌, ◌≤◌, [], ◌∷◌, None, Some, true, false, IfOk, IfErr, OnOk};
ghost use Rattle.dep_index.specs.Catalogue.{modules_of};
ghost use Rattle.modprobe.specs.Setup.{Setup as AnySetup};
ghost use Rattle.line_journal.specs.Device.{IsOnDisk, AlwaysLeaves, Goes, Unchanged, UnchangedOr, TellsFaults};
ghost use Rattle.line_journal.specs.declared.device.DeviceError.TheVariants.{Failed};
ghost use Rattle.line_journal.specs.Lines.{lines_of, at_rest, behind, bytes_of, StandsFor};
ghost use Rattle.line_journal.specs.Journal.{IsLeft};
ghost use Rattle.durable_table.specs.Tables.{opening_of, table_of};
ghost use Rattle.durable_table.specs.Commands.{head, is_of};
ghost use Rattle.durable_table.specs.Opened.{IsReadAs, IsOpenedAs, IsTableRead, device_after, device_read};

use crate::chained::{Chained, link_behind};
use crate::durable::DurableTable;
use crate::head::{has_head, head_line, is_of};
use crate::replay::{first_changed, replay};
use held_lines::HeldSession;
use held_table::HeldTable;
use line_journal::{Device, DeviceError, Found, Journal, Opened, Repair, look, open_found, peek};
use modprobe::Setup;
use std::alloc::{AllocError, Global};

/// A journal without commands, of the setup of this name: its first line, and a closed gate.
fn new_journal(alloc: Global, name: &[u8]) -> Result<Vec<u8>, AllocError>
    ensures { IfOk result (λ text. text.items ≡ at_rest (head name.now ∷ [])) }
{
    let mut text = Vec::from_slice(alloc, b"+")?;
    text.extend_from_slice(&head_line(alloc, name)?)?;
    text.extend_from_slice(b"\n ")?;
    Ok(text)
}

/// Writes the journal of a new table of the setup of this name in the place of what the file has. In its table each module is
/// absent, and there is no holder. A crash at any moment leaves the file as it was, or the new journal. Out of memory, nothing
/// was changed.
pub fn create<D: Device>(alloc: Global, device: &mut D, name: &[u8]) -> Result<(), DeviceError>
    ensures created { OnOk result (D.content device.new ≡ at_rest (head name.now ∷ [])) }
    ensures of { OnOk result (is_of name.now (lines_of (D.content device.new)) ≡ true) }
    ensures opens { OnOk result ((s : AnySetup) → table_of s (D.content device.new) ≡ Some (opening_of s)) }
    ensures on_disk { OnOk result (IsOnDisk (D.content device.new) (D.history device.new)) }
    ensures any_moment { Goes (UnchangedOr (at_rest (head name.now ∷ []))) (D.history device.old) (D.history device.new) }
    ensures faults { TellsFaults (D.faults device.old) (D.faults device.new) result }
{
    let Ok(text) = new_journal(alloc, name) else {
        return Err(DeviceError::OutOfMemory);
    };
    device.replace(&text)
}

/// What `open` made of a device.
#[derive(Drop)]
pub enum OpenedTable<'s, D: Device> {
    /// The table that the journal stands for, and what was found behind its lines.
    Ready(DurableTable<'s, D>, Found),
    /// The file does not begin with the first line of a journal. It is as it was.
    Foreign(D),
    /// The journal names another setup. The file is as it was.
    Other(D),
    /// The first line of the journal, from 1, that does not continue the chain of sums. The file is as it was.
    Changed(D, usize),
    /// More would be cut off behind the lines than may be. The file is as it was.
    Damaged(D, Found),
}

/// What the lines of a journal stand for.
enum Read<'s> {
    /// The table, and what the lines tell the next one.
    Table(HeldSession<'s>, Vec<u8>),
    Foreign,
    Other,
    Changed(usize),
}

/// Makes the table that the lines of a journal stand for, by the setup of this name.
#[tactic(auto, using(crate::proofs::CommandLemmas::changed_behind))]
fn read_table<'s>(
    alloc: Global,
    setup: &'s Setup,
    name: &[u8],
    holders: HeldTable,
    lines: &[Vec<u8>],
) -> Result<Read<'s>, AllocError>
    requires over { holders.catalogue ≡ modules_of setup.now.catalogue }
    requires opening { holders.held ≡ opening_of setup.now }
    ensures { IfOk result (IsReadAs setup.now name.now (bytes_of lines.now)) }
{
    if !has_head(lines) {
        return Ok(Read::Foreign);
    }
    if !is_of(name, lines) {
        return Ok(Read::Other);
    }
    let commands = &lines[1..];
    if let Some(number) = first_changed(&lines[0], commands) {
        return Ok(Read::Changed(number));
    }
    let mut session = HeldSession::new(setup, holders);
    replay(alloc, &mut session, commands)?;
    Ok(Read::Table(session, Vec::from_slice(alloc, link_behind(lines))?))
}

/// Makes the table that a journal stands for, by the setup of this name, over holders of which none is there yet. The journal
/// has to name it too, or no setup. The file is read once, and waited for once. If a crash left the journal torn, its end is
/// repaired, as `line_journal::open` says. Nothing else is written, and that only once all lines were read and found whole.
///
/// A crash at any moment leaves the same lines, or what it might have left before the call. An error hands the device back.
pub fn open<'s, D: Device>(
    alloc: Global,
    setup: &'s Setup,
    name: &[u8],
    holders: HeldTable,
    mut device: D,
    repair: Repair,
) -> Result<OpenedTable<'s, D>, (DeviceError, D)>
    requires over { holders.catalogue ≡ modules_of setup.now.catalogue }
    requires opening { holders.held ≡ opening_of setup.now }
    ensures opened { IfOk result (IsOpenedAs D.content D.history setup.now name.now repair (D.content device)) }
    ensures any_moment { AlwaysLeaves (D.history device) (D.history (device_after result))
        (λ file. StandsFor (lines_of (D.content device)) file ⊎ (D.history device).leaves file) }
    ensures unread { table_of setup.now (D.content device) ≡ None → D.writes (device_after result) ≡ D.writes device }
    ensures other { is_of name.now (lines_of (D.content device)) ≡ false → D.writes (device_after result) ≡ D.writes device }
    ensures left { IsLeft repair (behind (D.content device)) → D.writes (device_after result) ≡ D.writes device }
    ensures faults { IfErr result (λ error. error.0 ≡ Failed → D.faults device < D.faults error.1) }
    ensures no_fewer { D.faults device ≤ D.faults (device_after result) }
{
    let found = match look(alloc, &mut device) {
        Ok(found) => found,
        Err(error) => return Err((error, device)),
    };
    match read_table(alloc, setup, name, holders, &found.lines) {
        Err(_) => Err((DeviceError::OutOfMemory, device)),
        Ok(Read::Foreign) => Ok(OpenedTable::Foreign(device)),
        Ok(Read::Other) => Ok(OpenedTable::Other(device)),
        Ok(Read::Changed(number)) => Ok(OpenedTable::Changed(device, number)),
        Ok(Read::Table(session, link)) => match open_found(device, found, repair)? {
            Opened::Ready(lines, found) => {
                let journal = Chained { lines, link };
                Ok(OpenedTable::Ready(DurableTable { session, journal }, found))
            }
            Opened::Damaged(device, found) => Ok(OpenedTable::Damaged(device, found)),
        },
    }
}

/// What `open_reading` made of a device.
#[derive(Drop)]
pub enum ReadTable<'s, D: Device> {
    /// The table that the journal reads as.
    Ready(DurableTable<'s, D>),
    /// The file does not read as a journal at rest, or its lines stand for no table, or are of another setup. `open` says why,
    /// or repairs it.
    Anew(D),
}

/// Makes the table that a journal reads as, by the setup of this name, over holders of which none is there yet, if it is whole
/// and at rest, and names that setup, or none. Nothing is written, and nothing is waited for: what was read may not be on the
/// disk yet. An error hands the device back.
pub fn open_reading<'s, D: Device>(
    alloc: Global,
    setup: &'s Setup,
    name: &[u8],
    holders: HeldTable,
    mut device: D,
) -> Result<ReadTable<'s, D>, (DeviceError, D)>
    requires over { holders.catalogue ≡ modules_of setup.now.catalogue }
    requires opening { holders.held ≡ opening_of setup.now }
    ensures read { IfOk result (IsTableRead D.content setup.now name.now (D.content device)) }
    ensures writes { D.writes (device_read result) ≡ D.writes device }
    ensures crash { Goes Unchanged (D.history device) (D.history (device_read result)) }
    ensures faults { IfErr result (λ error. error.0 ≡ Failed → D.faults device < D.faults error.1) }
    ensures no_fewer { D.faults device ≤ D.faults (device_read result) }
{
    let found = match peek(alloc, &mut device) {
        Ok(found) => found,
        Err(error) => return Err((error, device)),
    };
    if !found.is_at_rest() {
        return Ok(ReadTable::Anew(device));
    }
    match read_table(alloc, setup, name, holders, &found.lines) {
        Err(_) => Err((DeviceError::OutOfMemory, device)),
        Ok(Read::Table(session, link)) => {
            let lines = Journal::resume(device, found.end);
            let journal = Chained { lines, link };
            Ok(ReadTable::Ready(DurableTable { session, journal }))
        }
        Ok(Read::Foreign | Read::Other | Read::Changed(_)) => Ok(ReadTable::Anew(device)),
    }
}
