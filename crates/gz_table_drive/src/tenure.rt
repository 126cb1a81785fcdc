//! One tenure: what a process does from where it takes the lock to where it gives it back.
ghost use Rattle.std.specs.Prelude.{◌≡◌, ◌<◌, ◌≤◌, [], true, length, take, IfOk, OnOk, OnErr};
ghost use Rattle.line_journal.specs.Lines.{AreLines, bytes_of};
ghost use Rattle.durable_table.specs.Durable.{Stands, Reads};
ghost use Rattle.durable_table.specs.Groups.{AreAsking};
ghost use Rattle.file_journal.specs.Belief.{history_of};
ghost use Rattle.file_journal.specs.declared.lock.LockKind.TheVariants.{Exclusive};
ghost use Rattle.gz_table_drive.specs.Answers.{HasAnswered, HasAnsweredFirst, StoppedWithin};
ghost use Rattle.gz_table_drive.specs.Log.{HasBegun, HasBegunOver, HasTold, HasToldFirst, IsJournalOf, IsOf, LeavesAfter, LeavesOf};
ghost use Rattle.gz_table_drive.specs.Turns.{IsTurnFor};
ghost use Rattle.table_folder.specs.declared.folder_setup.FolderSetup.{FolderSetup as AnyFolderSetup};

use crate::answering::{AnswerError, Replies, answer_lines};
use crate::compaction::shorten;
use crate::kept::{Kept, Taken, rested};
use crate::log::Tenures;
use crate::opening::{OpenFault, keep_torn, open_table, read_table};
use crate::reading::{answer_copy, are_reading, ask_lines, copy_of};
use durable_table::{DurableTable, ReadTable};
use file_journal::{Cause, FileDevice, FileFault, FolderLock, LockKind, OpenError};
use line_journal::{Device, DeviceError};
use std::alloc::Global;
use std::fs::File;
use std::io::Write;
use std::rt::Files;
use std::time::Clock;
use table_folder::{
    FolderSetup, Shared, Sight, TableFault, Teller, bytes_of, journal_fault, open_journal,
    read_journal,
};

/// The table over the file of a journal.
pub(crate) type FileTable<'s, R> = DurableTable<'s, FileDevice<R>>;

/// Why the table of a journal's file was not opened.
pub(crate) fn unopened<R: Files + Drop>(fault: OpenFault<FileDevice<R>>) -> TableFault {
    match fault {
        OpenFault::Foreign => TableFault::Foreign,
        OpenFault::Other => TableFault::Other,
        OpenFault::Changed(line) => TableFault::Changed(line),
        OpenFault::Damaged(damage) => TableFault::Damaged(damage),
        OpenFault::Device(DeviceError::Failed, device) => journal_fault(device.fault()),
        _ => TableFault::OutOfMemory,
    }
}

/// The lock of a table that was not opened, if its device still has it.
fn lock_of<R: Files + Drop>(fault: OpenFault<FileDevice<R>>) -> Option<FolderLock> {
    match fault {
        OpenFault::Device(_, device) => device.into_lock(),
        _ => None,
    }
}

/// The file of the journal, under a lock that is shared, if it is to be opened anew. The lock is handed back if it cannot be.
fn reading_device<'r, R: Files<File = File> + Clock + AllocGlobal>(
    shared: &Shared<'r, R>,
    taken: Taken<'_, FileDevice<&'r R>>,
) -> Result<FileDevice<&'r R>, Option<FolderLock>> {
    match taken {
        Taken::Table(table) => Ok(table.into_device()),
        Taken::Anew(device) => Ok(device),
        Taken::Failed(mut device) => match device.read_again() {
            Ok(()) => Ok(device),
            Err(_) => Err(device.into_lock()),
        },
        Taken::Missing(lock) => match open_journal(shared, lock) {
            Ok(device) => Ok(device),
            Err(unopened) => Err(Some(unopened.lock)),
        },
    }
}

/// A tenure begins over the file of a device that has the lock.
pub(crate) fn begin_over<R: Files + Drop>(
    device: &FileDevice<R>,
    log: &mut Tenures,
) -> Result<(), TableFault>
    ensures begun { OnOk result (HasBegun (⟦<FileDevice<R> as Device>⟧.content device.now) log.old log.new) }
    ensures none { OnErr result (log.new.noted.items ≡ log.old.noted.items) }
{
    log.begin(Sight::of(device)?)?;
    Ok(())
}

/// A tenure begins that only asks, over a table that reads as its journal does. The lock is given back. If the tenure cannot
/// begin, the lock is handed back.
fn begun_asking<'s, R: Files + Drop>(
    table: FileTable<'s, R>,
    log: &mut Tenures,
) -> Result<FileTable<'s, R>, Option<FolderLock>>
    requires reads { Reads ⟦<FileDevice<R> as Device>⟧.content table.session.setup.now table.session.holders.held table.journal }
    ensures reads { IfOk result (λ t. Reads ⟦<FileDevice<R> as Device>⟧.content table.entry.session.setup.now t.session.holders.held t.journal) }
    ensures setup { IfOk result (λ t. t.session.setup ≡ table.entry.session.setup) }
    ensures content { IfOk result (λ t. ⟦<FileDevice<R> as Device>⟧.content t.journal.lines.device ≡ ⟦<FileDevice<R> as Device>⟧.content table.entry.journal.lines.device) }
    ensures begun { (f : AnyFolderSetup) → IsJournalOf f table.entry.session.holders.held (⟦<FileDevice<R> as Device>⟧.content table.entry.journal.lines.device)
        → IfOk result (λ t. HasBegunOver f t.session.holders.held log.old log.new) }
    ensures none { OnErr result (log.new.noted.items ≡ log.old.noted.items) }
{
    match begin_over(table.device(), log) {
        Ok(()) => Ok(rested(table)),
        Err(_) => Err(table.into_device().into_lock()),
    }
}

/// The table that the journal reads as, under a lock that is shared, and is given back then: a tenure has begun that only asks.
/// If the journal is not whole and at rest, or cannot be opened, the lock is handed back.
fn reading_table<'s, 'r, R: Files<File = File> + Clock + AllocGlobal>(
    shared: &Shared<'r, R>,
    kept: &mut Kept<'s, FileDevice<&'r R>>,
    log: &mut Tenures,
    lock: FolderLock,
) -> Result<FileTable<'s, &'r R>, Option<FolderLock>>
    ensures of_setup { IfOk result (λ t. t.session.setup.now ≡ kept.old.setup.now.setup) }
    ensures reads { IfOk result (λ t. Reads ⟦<FileDevice<&'r R> as Device>⟧.content kept.old.setup.now.setup t.session.holders.held t.journal) }
    ensures of { IfOk result (λ t. IsOf kept.old.setup.now (⟦<FileDevice<&'r R> as Device>⟧.content t.journal.lines.device)) }
    ensures setup { kept.new.setup.now ≡ kept.old.setup.now }
    ensures begun { IfOk result (λ t. HasBegunOver kept.old.setup.now t.session.holders.held log.old log.new) }
    ensures none { OnErr result (log.new.noted.items ≡ log.old.noted.items) }
{
    let alloc = shared.alloc();
    let taken = match kept.take(alloc, lock) {
        Taken::Table(table) => return begun_asking(table, log),
        taken => taken,
    };
    let device = reading_device(shared, taken)?;
    match read_table(alloc, kept.setup(), device) {
        Ok(ReadTable::Ready(table)) => begun_asking(table, log),
        Ok(ReadTable::Anew(device)) => Err(device.into_lock()),
        Err(fault) => Err(lock_of(fault)),
    }
}

/// Answers lines that ask from a copy of the journal, which need not be at rest.
fn answer_unkept<R: Files<File = File> + Clock + AllocGlobal>(
    shared: &Shared<'_, R>,
    setup: &FolderSetup,
    log: &mut Tenures,
    lock: Option<FolderLock>,
    lines: &[Vec<u8>],
    replies: &mut Replies,
) -> Result<usize, TableFault>
    requires lines { AreLines (bytes_of lines.now) }
    requires asks { AreAsking (bytes_of lines.now) }
    ensures answered { IfOk result (λ count. HasTold setup.now (take count (bytes_of lines.now)) [] log.old log.new replies.old replies.new) }
    ensures stopped { OnErr result (HasToldFirst setup.now (bytes_of lines.now) log.old log.new replies.old replies.new) }
    ensures some { IfOk result (λ count. 0 < length lines.now → 0 < count) }
    ensures within { IfOk result (λ count. count ≤ length lines.now) }
{
    let lock = match lock {
        Some(lock) => lock,
        None => shared.lock(LockKind::Shared)?,
    };
    let (bytes, found) = read_journal(shared, &lock)?;
    lock.release();
    let mut table = copy_of(shared.alloc(), setup, bytes)?;
    log.begin(found)?;
    answer_copy(shared.alloc(), &mut table, lines, replies)
}

/// Answers lines that ask from a table that reads as its journal does, and keeps it.
fn ask_table<'s, R: Files + Drop>(
    alloc: Global,
    kept: &mut Kept<'s, FileDevice<R>>,
    mut table: FileTable<'s, R>,
    lines: &[Vec<u8>],
    replies: &mut Replies,
) -> Result<usize, TableFault>
    requires lines { AreLines (bytes_of lines.now) }
    requires asks { AreAsking (bytes_of lines.now) }
    requires of_setup { table.session.setup.now ≡ kept.old.setup.now.setup }
    requires reads { Reads ⟦<FileDevice<R> as Device>⟧.content kept.old.setup.now.setup table.session.holders.held table.journal }
    requires of { IsOf kept.old.setup.now (⟦<FileDevice<R> as Device>⟧.content table.journal.lines.device) }
    ensures answered { IfOk result (λ count. HasAnswered kept.old.setup.now.setup table.entry.session.holders.held (take count (bytes_of lines.now)) replies.old replies.new) }
    ensures stopped { OnErr result (HasAnsweredFirst kept.old.setup.now.setup table.entry.session.holders.held (bytes_of lines.now) replies.old replies.new) }
    ensures some { IfOk result (λ count. 0 < length lines.now → 0 < count) }
    ensures within { IfOk result (λ count. count ≤ length lines.now) }
    ensures setup { kept.new.setup.now ≡ kept.old.setup.now }
{
    let count = ask_lines(alloc, &mut table, lines, replies)?;
    kept.keep(table);
    Ok(count)
}

/// Answers lines that ask, under a lock. Nothing is written to the folder.
fn answer_reading<'s, 'r, R: Files<File = File> + Clock + AllocGlobal>(
    shared: &Shared<'r, R>,
    kept: &mut Kept<'s, FileDevice<&'r R>>,
    log: &mut Tenures,
    lock: FolderLock,
    lines: &[Vec<u8>],
    replies: &mut Replies,
) -> Result<usize, TableFault>
    requires lines { AreLines (bytes_of lines.now) }
    requires asks { AreAsking (bytes_of lines.now) }
    ensures answered { IfOk result (λ count. HasTold kept.old.setup.now (take count (bytes_of lines.now)) [] log.old log.new replies.old replies.new) }
    ensures stopped { OnErr result (HasToldFirst kept.old.setup.now (bytes_of lines.now) log.old log.new replies.old replies.new) }
    ensures some { IfOk result (λ count. 0 < length lines.now → 0 < count) }
    ensures within { IfOk result (λ count. count ≤ length lines.now) }
    ensures setup { kept.new.setup.now ≡ kept.old.setup.now }
{
    match reading_table(shared, kept, log, lock) {
        Ok(table) => ask_table(shared.alloc(), kept, table, lines, replies),
        Err(lock) => answer_unkept(shared, kept.setup(), log, lock, lines, replies),
    }
}

/// A table that reads as its journal does, once all of that is on the disk.
fn settled<'s, D: Device + Drop>(
    mut table: DurableTable<'s, D>,
) -> Result<DurableTable<'s, D>, OpenFault<D>>
    requires reads { Reads D.content table.session.setup.now table.session.holders.held table.journal }
    ensures of_setup { IfOk result (λ t. t.session.setup.now ≡ table.entry.session.setup.now) }
    ensures content { IfOk result (λ t. D.content t.journal.lines.device ≡ D.content table.entry.journal.lines.device) }
    ensures stands { IfOk result (λ t. Stands D.content D.history table.entry.session.setup.now t.session.holders.held t.journal) }
{
    match table.settle() {
        Ok(()) => Ok(table),
        Err(error) => Err(OpenFault::Device(error, table.into_device())),
    }
}

/// Keeps what a crash left behind the lines of a journal. If no table of this setup can be made of it, which is tried on a copy,
/// nothing is written.
fn keep_tried<R: Files<File = File> + Clock + AllocGlobal, E: Write>(
    shared: &Shared<'_, R>,
    setup: &FolderSetup,
    device: &mut FileDevice<&R>,
    teller: &mut Teller<'_, E>,
) -> Result<(), TableFault> {
    let bytes = bytes_of(shared.alloc(), device)?;
    copy_of(shared.alloc(), setup, bytes)?;
    keep_torn(shared, device, teller)
}

/// Opens the table of a file that does not read as a journal at rest. What a crash left behind its lines is first kept. If no
/// table can be made of it, which is tried on a copy, nothing is written.
fn repaired<'s, 'r, R: Files<File = File> + Clock + AllocGlobal, E: Write>(
    shared: &Shared<'r, R>,
    setup: &'s FolderSetup,
    mut device: FileDevice<&'r R>,
    teller: &mut Teller<'_, E>,
) -> Result<FileTable<'s, &'r R>, TableFault>
    ensures of_setup { IfOk result (λ t. t.session.setup.now ≡ setup.now.setup) }
    ensures of { IfOk result (λ t. IsOf setup.now (⟦<FileDevice<&'r R> as Device>⟧.content t.journal.lines.device)) }
    ensures stands { IfOk result (λ t. Stands ⟦<FileDevice<&'r R> as Device>⟧.content ⟦<FileDevice<&'r R> as Device>⟧.history setup.now.setup t.session.holders.held t.journal) }
{
    keep_tried(shared, setup, &mut device, teller)?;
    match open_table(shared.alloc(), setup, device) {
        Ok(table) => Ok(table),
        Err(fault) => Err(unopened(fault)),
    }
}

/// The file of the journal, under the lock, if it is to be opened anew.
fn changing_device<'r, R: Files<File = File> + Clock + AllocGlobal>(
    shared: &Shared<'r, R>,
    taken: Taken<'_, FileDevice<&'r R>>,
) -> Result<FileDevice<&'r R>, TableFault> {
    match taken {
        Taken::Table(table) => Ok(table.into_device()),
        Taken::Anew(device) => Ok(device),
        Taken::Failed(mut device) => match device.read_again() {
            Ok(()) => Ok(device),
            Err(fault) => Err(TableFault::from(OpenError::from(fault))),
        },
        Taken::Missing(lock) => Ok(open_journal(shared, lock)?),
    }
}

/// The table of the folder, under the lock. The journal stands for it, on the disk.
pub(crate) fn changing_table<'s, 'r, R: Files<File = File> + Clock + AllocGlobal, E: Write>(
    shared: &Shared<'r, R>,
    kept: &mut Kept<'s, FileDevice<&'r R>>,
    lock: FolderLock,
    teller: &mut Teller<'_, E>,
) -> Result<FileTable<'s, &'r R>, TableFault>
    requires { lock.kind ≡ Exclusive }
    ensures of_setup { IfOk result (λ t. t.session.setup.now ≡ kept.old.setup.now.setup) }
    ensures of { IfOk result (λ t. IsOf kept.old.setup.now (⟦<FileDevice<&'r R> as Device>⟧.content t.journal.lines.device)) }
    ensures stands { IfOk result (λ t. Stands ⟦<FileDevice<&'r R> as Device>⟧.content ⟦<FileDevice<&'r R> as Device>⟧.history kept.old.setup.now.setup t.session.holders.held t.journal) }
    ensures setup { kept.new.setup.now ≡ kept.old.setup.now }
{
    let alloc = shared.alloc();
    let taken = match kept.take(alloc, lock) {
        Taken::Table(table) => return settled(table).map_err(unopened),
        taken => taken,
    };
    let device = changing_device(shared, taken)?;
    match read_table(alloc, kept.setup(), device) {
        Ok(ReadTable::Ready(table)) => settled(table).map_err(unopened),
        Ok(ReadTable::Anew(device)) => repaired(shared, kept.setup(), device, teller),
        Err(fault) => Err(unopened(fault)),
    }
}

/// Answers lines over the table of a folder. What they change is on the disk then. A journal that has become long is written
/// anew. Returns how many were answered, and whether the table may be kept.
fn answer_table<R: Files + Drop>(
    alloc: Global,
    setup: &FolderSetup,
    table: &mut FileTable<'_, R>,
    lines: &[Vec<u8>],
    replies: &mut Replies,
) -> Result<(usize, bool), TableFault>
    requires lines { AreLines (bytes_of lines.now) }
    requires of_setup { table.old.session.setup.now ≡ setup.now.setup }
    requires stands { Stands ⟦<FileDevice<R> as Device>⟧.content ⟦<FileDevice<R> as Device>⟧.history setup.now.setup table.old.session.holders.held table.old.journal }
    requires of { IsOf setup.now (⟦<FileDevice<R> as Device>⟧.content table.old.journal.lines.device) }
    ensures answered { IfOk result (λ done. HasAnswered setup.now.setup table.old.session.holders.held (take done.0 (bytes_of lines.now)) replies.old replies.new) }
    ensures left { IfOk result (λ done. LeavesAfter setup.now.setup table.old.session.holders.held (take done.0 (bytes_of lines.now)) table.new.journal.lines.device.belief) }
    ensures left_of { LeavesOf setup.now table.new.journal.lines.device.belief }
    ensures stopped { OnErr result (StoppedWithin setup.now.setup table.old.session.holders.held (bytes_of lines.now)
        (history_of table.new.journal.lines.device.belief).leaves replies.old replies.new) }
    ensures some { IfOk result (λ done. 0 < length lines.now → 0 < done.0) }
    ensures within { IfOk result (λ done. done.0 ≤ length lines.now) }
    ensures reads { IfOk result (λ done. done.1 ≡ true → Reads ⟦<FileDevice<R> as Device>⟧.content setup.now.setup table.new.session.holders.held table.new.journal) }
    ensures of { IfOk result (λ done. done.1 ≡ true → IsOf setup.now (⟦<FileDevice<R> as Device>⟧.content table.new.journal.lines.device)) }
    ensures setup { table.new.session.setup ≡ table.old.session.setup }
{
    match answer_lines(alloc, table, lines, replies) {
        Ok(count) => Ok((count, shorten(alloc, setup, table))),
        Err(AnswerError::Device(DeviceError::Failed)) => Err(journal_fault(table.device().fault())),
        Err(_) => Err(TableFault::OutOfMemory),
    }
}

/// As `answer_table`, in a tenure that is noted.
fn answer_noted<R: Files + Drop>(
    alloc: Global,
    setup: &FolderSetup,
    log: &mut Tenures,
    table: &mut FileTable<'_, R>,
    lines: &[Vec<u8>],
    replies: &mut Replies,
) -> Result<(usize, bool), TableFault>
    requires lines { AreLines (bytes_of lines.now) }
    requires of_setup { table.old.session.setup.now ≡ setup.now.setup }
    requires stands { Stands ⟦<FileDevice<R> as Device>⟧.content ⟦<FileDevice<R> as Device>⟧.history setup.now.setup table.old.session.holders.held table.old.journal }
    requires of { IsOf setup.now (⟦<FileDevice<R> as Device>⟧.content table.old.journal.lines.device) }
    ensures answered { IfOk result (λ done. HasTold setup.now (take done.0 (bytes_of lines.now)) [] log.old log.new replies.old replies.new) }
    ensures stopped { OnErr result (HasToldFirst setup.now (bytes_of lines.now) log.old log.new replies.old replies.new) }
    ensures some { IfOk result (λ done. 0 < length lines.now → 0 < done.0) }
    ensures within { IfOk result (λ done. done.0 ≤ length lines.now) }
    ensures reads { IfOk result (λ done. done.1 ≡ true → Reads ⟦<FileDevice<R> as Device>⟧.content setup.now.setup table.new.session.holders.held table.new.journal) }
    ensures of { IfOk result (λ done. done.1 ≡ true → IsOf setup.now (⟦<FileDevice<R> as Device>⟧.content table.new.journal.lines.device)) }
    ensures setup { table.new.session.setup ≡ table.old.session.setup }
{
    begin_over(table.device(), log)?;
    let answered = answer_table(alloc, setup, table, lines, replies);
    log.end(table.device().believed());
    answered
}

/// If the disk was full, cuts off what was written of lines that have no reply, so that something can be given back. It is this
/// run's own, whose device still has the lock. If that fails too, it is left to the next run.
pub(crate) fn cut_unwritten<R: Files<File = File> + Clock + AllocGlobal>(
    shared: &Shared<'_, R>,
    setup: &FolderSetup,
    fault: &TableFault,
    mut device: FileDevice<&R>,
) {
    let TableFault::File(
        FileFault {
            cause: Cause::Full,
            ..
        },
    ) = fault
    else {
        return;
    };
    if device.read_again().is_ok() {
        let _ = open_table(shared.alloc(), setup, device);
    }
}

/// Answers lines, under a lock that nobody else has. What they change is on the disk before the lock is given back.
fn answer_changing<'s, 'r, R: Files<File = File> + Clock + AllocGlobal, E: Write>(
    shared: &Shared<'r, R>,
    kept: &mut Kept<'s, FileDevice<&'r R>>,
    log: &mut Tenures,
    lock: FolderLock,
    lines: &[Vec<u8>],
    replies: &mut Replies,
    teller: &mut Teller<'_, E>,
) -> Result<usize, TableFault>
    requires lines { AreLines (bytes_of lines.now) }
    requires lock { lock.kind ≡ Exclusive }
    ensures answered { IfOk result (λ count. HasTold kept.old.setup.now (take count (bytes_of lines.now)) [] log.old log.new replies.old replies.new) }
    ensures stopped { OnErr result (HasToldFirst kept.old.setup.now (bytes_of lines.now) log.old log.new replies.old replies.new) }
    ensures some { IfOk result (λ count. 0 < length lines.now → 0 < count) }
    ensures within { IfOk result (λ count. count ≤ length lines.now) }
    ensures setup { kept.new.setup.now ≡ kept.old.setup.now }
{
    let mut table = changing_table(shared, kept, lock, teller)?;
    let setup = kept.setup();
    match answer_noted(shared.alloc(), setup, log, &mut table, lines, replies) {
        Ok((count, may_keep)) => {
            if may_keep {
                kept.keep(table);
            }
            Ok(count)
        }
        Err(fault) => {
            cut_unwritten(shared, setup, &fault, table.into_device());
            Err(fault)
        }
    }
}

/// The lock that lines want: one that is shared, if all of them ask.
#[derive(Drop)]
pub(crate) enum Turn {
    Asking(FolderLock),
    Changing(FolderLock),
}

/// Takes the lock that lines want. `MadeAnew` if another setup lies in the folder once the lock is had.
pub(crate) fn take_turn<R: Files<File = File> + Clock + AllocGlobal>(
    shared: &Shared<'_, R>,
    lines: &[Vec<u8>],
) -> Result<Turn, TableFault>
    ensures { IfOk result (IsTurnFor (bytes_of lines.now)) }
{
    if are_reading(shared.alloc(), lines)? {
        Ok(Turn::Asking(shared.lock(LockKind::Shared)?))
    } else {
        Ok(Turn::Changing(shared.lock(LockKind::Exclusive)?))
    }
}

/// Answers the first of some lines, as `answer_lines` does, in one tenure, under the lock that they want.
pub(crate) fn answer_in_tenure<'s, 'r, R: Files<File = File> + Clock + AllocGlobal, E: Write>(
    shared: &Shared<'r, R>,
    kept: &mut Kept<'s, FileDevice<&'r R>>,
    log: &mut Tenures,
    turn: Turn,
    lines: &[Vec<u8>],
    replies: &mut Replies,
    teller: &mut Teller<'_, E>,
) -> Result<usize, TableFault>
    requires lines { AreLines (bytes_of lines.now) }
    requires turn { IsTurnFor (bytes_of lines.now) turn }
    ensures answered { IfOk result (λ count. HasTold kept.old.setup.now (take count (bytes_of lines.now)) [] log.old log.new replies.old replies.new) }
    ensures stopped { OnErr result (HasToldFirst kept.old.setup.now (bytes_of lines.now) log.old log.new replies.old replies.new) }
    ensures some { IfOk result (λ count. 0 < length lines.now → 0 < count) }
    ensures within { IfOk result (λ count. count ≤ length lines.now) }
    ensures setup { kept.new.setup.now ≡ kept.old.setup.now }
{
    match turn {
        Turn::Asking(lock) => answer_reading(shared, kept, log, lock, lines, replies),
        Turn::Changing(lock) => { answer_changing(shared, kept, log, lock, lines, replies, teller) }
    }
}
