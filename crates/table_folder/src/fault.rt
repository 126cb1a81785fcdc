//! Why a run did not do what was asked.
ghost use Rattle.std.specs.Prelude.{◌≡◌};
ghost use Rattle.std.specs.IoError.{error_kind, raw_os_error};
ghost use Rattle.file_journal.specs.Faults.{cause_of};
ghost use Rattle.table_folder.specs.Faults.{ending_of_fault, fault_of_file, fault_of_write, IsUnlocked, IsUnwritten};

use crate::setup::SectionsFault;
use file_journal::{Action, Cause, FileFault, LockError, OpenError, Target, Unopened};
use std::alloc::AllocError;
use std::io;
use table_words::Ending;

/// Where a line of a journal lost its gate, and what stands behind it.
#[derive(Clone, Copy, Debug)]
pub struct Damage {
    /// The number of that line, from 1.
    pub line: usize,
    /// How many lines with open gates stand behind it.
    pub lost: usize,
}

/// Why a run did not do what was asked.
#[derive(Clone, Copy, Debug, Drop)]
pub enum TableFault {
    OutOfMemory,
    /// The folder has no table.
    NoTable,
    /// The folder has a setup, and no journal.
    NoJournal,
    /// The folder has a table already.
    ThereAlready,
    /// The folder has a journal with commands, and no setup.
    UsedJournal,
    /// The setup does not end with a last line of its length.
    CutSetup,
    /// The setup has another sum than its last line says.
    ChangedSetup,
    /// The sections of the setup say what they may not.
    Sections(SectionsFault),
    /// Since the setup was read, the table was made anew, or taken away.
    MadeAnew,
    /// A file of the folder, of this name, was not read.
    Unread(&'static str, Cause),
    /// The lock was not taken.
    Lock(LockError),
    /// The journal was not opened, read or written.
    File(FileFault),
    /// The journal failed, and nobody knows why.
    Journal,
    /// The journal does not begin with the first line of one.
    Foreign,
    /// The journal names another setup.
    Other,
    /// This line of the journal, from 1, does not continue the chain of sums.
    Changed(usize),
    /// A line of the journal lost its gate, and more lines with open gates stand behind it than a crash leaves.
    Damaged(Damage),
    /// The folder was not made.
    NoFolder(Cause),
    /// A file of the folder, of this name, was not written.
    Unwritten(&'static str, Cause),
    /// Standard input was not read.
    Input,
    /// Standard output was not written.
    Output,
    /// People were told already what there is not of what is asked for.
    Told,
    /// The journal is as it was, since no shorter lines make its table. People were told already.
    Kept,
}

impl TableFault {
    /// How a run ends with this fault.
    pub fn ending(self) -> Ending
        ensures { result ≡ ending_of_fault self }
    {
        match self {
            TableFault::NoTable
            | TableFault::NoJournal
            | TableFault::CutSetup
            | TableFault::ChangedSetup
            | TableFault::Sections(_)
            | TableFault::Foreign
            | TableFault::Other
            | TableFault::Changed(_)
            | TableFault::Damaged(_)
            | TableFault::Told => Ending::Unasked,
            TableFault::ThereAlready | TableFault::UsedJournal => Ending::Exists,
            TableFault::Lock(LockError::Held) => Ending::Locked,
            _ => Ending::Fault,
        }
    }
}

impl From<AllocError> for TableFault {
    ghost use Rattle.table_folder.specs.declared.fault.TableFault.TheVariants.{OutOfMemory};

    ghost from_gives = { λ _ fault. fault ≡ OutOfMemory };

    fn from(_: AllocError) -> TableFault {
        TableFault::OutOfMemory
    }
}

impl From<SectionsFault> for TableFault {
    ghost use Rattle.table_folder.specs.Faults.{fault_of_sections};

    ghost from_gives = { λ why fault. fault ≡ fault_of_sections why };

    fn from(why: SectionsFault) -> TableFault {
        match why {
            SectionsFault::Memory => TableFault::OutOfMemory,
            _ => TableFault::Sections(why),
        }
    }
}

impl From<LockError> for TableFault {
    ghost use Rattle.table_folder.specs.Faults.{fault_of_lock};

    ghost from_gives = { λ error fault. fault ≡ fault_of_lock error };

    fn from(error: LockError) -> TableFault {
        match error {
            LockError::OutOfMemory => TableFault::OutOfMemory,
            _ => TableFault::Lock(error),
        }
    }
}

impl From<OpenError> for TableFault {
    ghost use Rattle.table_folder.specs.Faults.{fault_of_open};

    ghost from_gives = { λ error fault. fault ≡ fault_of_open error };

    fn from(error: OpenError) -> TableFault {
        match error {
            OpenError::OutOfMemory => TableFault::OutOfMemory,
            OpenError::Failed(
                FileFault {
                    target: Target::Journal,
                    cause: Cause::NotThere,
                    ..
                },
            ) => TableFault::NoJournal,
            OpenError::Failed(fault) => TableFault::File(fault),
        }
    }
}

impl From<Unopened> for TableFault {
    ghost use Rattle.table_folder.specs.Faults.{fault_of_open};

    ghost from_gives = { λ unopened fault. fault ≡ fault_of_open unopened.error };

    fn from(unopened: Unopened) -> TableFault {
        TableFault::from(unopened.error)
    }
}

/// A file of the folder was not written.
pub(crate) fn unwritten(name: &'static str, error: &io::Error) -> TableFault
    ensures value { result ≡ fault_of_write name.entry (cause_of (error_kind error.now) (raw_os_error error.now)) }
    ensures named { IsUnwritten name.now result }
{
    match Cause::of(error) {
        Cause::OutOfMemory => TableFault::OutOfMemory,
        cause => TableFault::Unwritten(name, cause),
    }
}

/// The lock's file was not made.
pub(crate) fn unlocked(error: &io::Error) -> TableFault
    ensures { IsUnlocked result }
{
    match FileFault::of(Action::Lock, Target::Lock, error) {
        FileFault {
            cause: Cause::OutOfMemory,
            ..
        } => TableFault::OutOfMemory,
        fault => TableFault::Lock(LockError::Failed(fault)),
    }
}

/// The fault of a run whose journal failed, by the fault of its file, if that is known.
pub fn journal_fault(fault: Option<FileFault>) -> TableFault
    ensures { result ≡ fault_of_file fault }
{
    match fault {
        Some(
            FileFault {
                cause: Cause::OutOfMemory,
                ..
            },
        ) => TableFault::OutOfMemory,
        Some(fault) => TableFault::File(fault),
        None => TableFault::Journal,
    }
}
