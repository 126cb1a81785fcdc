ghost use Rattle.std.specs.Prelude.{◌≡◌, ◌≢◌, ◌+◌, ◌<◌, ◌≤◌, ◌^◌, [], None, Some, length, take, drop, IfOk, IfErr, OnOk, OnErr, IsErrOf};
ghost use Rattle.std.proofs.Common.{inl, refl};
ghost use Rattle.line_journal.specs.Device.{overwritten, Torn, Shortened, Unchanged, UnchangedOr, IsOnDisk, Goes, TellsFaults};
ghost use Rattle.line_journal.specs.declared.device.DeviceError.TheVariants.{Failed};
ghost use Rattle.file_journal.specs.Belief.{history_of, MayBeAnything, IsLooked, IsOpened, IsOpenedAgain, IsReadBack, IsWritten, IsWrittenAgain, IsCut, IsSettled, IsReplaced};
ghost use Rattle.file_journal.specs.Counts.{looks_of, writes_of};
ghost use Rattle.file_journal.specs.Failing.{MayRead, MayWrite, KeepsFault};
ghost use Rattle.file_journal.specs.declared.fault.Cause.TheVariants as cause;
ghost use Rattle.file_journal.specs.declared.lock.LockKind.TheVariants.{Exclusive};

use crate::belief::Belief;
use crate::disk_file::{DiskFile, Paths, Syncs};
use crate::fault::{Action, Cause, FileFault, READS_OTHERWISE, Target};
use crate::lock::{FolderLock, LockKind};
use line_journal::{Device, DeviceError, Renewable, Renewed};
use std::alloc::{AllocError, Global};
use std::fmt;
use std::rt::Files;
use std::snapshot::Snapshot;

/// Why a file was not opened.
#[derive(Clone, Copy, Debug, PartialEq, Eq)]
pub enum OpenError {
    OutOfMemory,
    Failed(FileFault),
}

impl fmt::Display for OpenError {
    fn fmt<W: fmt::Write>(&self, f: &mut fmt::Formatter<W>) -> fmt::Result {
        match self {
            OpenError::OutOfMemory => f.write_str("out of memory"),
            OpenError::Failed(fault) => fmt::Display::fmt(fault, f),
        }
    }
}

impl std::error::Error for OpenError {}

impl From<AllocError> for OpenError {
    ghost use Rattle.file_journal.specs.declared.device.OpenError.TheVariants.{OutOfMemory};

    ghost from_gives = { λ _ error. error ≡ OutOfMemory };

    fn from(_: AllocError) -> Self {
        OpenError::OutOfMemory
    }
}

impl From<FileFault> for OpenError {
    ghost use Rattle.file_journal.specs.Opening.{open_error_of};

    ghost from_gives = { λ fault error. error ≡ open_error_of fault };

    fn from(fault: FileFault) -> Self {
        match fault.cause {
            Cause::OutOfMemory => OpenError::OutOfMemory,
            _ => OpenError::Failed(fault),
        }
    }
}

/// Opens the file of this name in a folder, and reads it.
fn open_disk<R: Files + Drop>(
    rt: R,
    alloc: Global,
    belief: &mut Belief,
    lock: &FolderLock,
    folder: &str,
    name: &str,
    syncs: Syncs,
) -> Result<DiskFile<R>, OpenError>
    ensures syncs { IfOk result (λ disk. disk.syncs ≡ syncs) }
    ensures looked { OnOk result (looks_of belief.new ≡ looks_of belief.old + 1) }
    ensures believed { OnOk result (IsLooked 0 belief.old belief.new) }
    ensures unknown { OnOk result (MayBeAnything (history_of belief.new)) }
{
    let paths = Paths::new(alloc, folder, name)?;
    let mut disk = DiskFile::open(rt, paths, syncs)?;
    disk.look(belief, lock, alloc, 0)?;
    Ok(disk)
}

/// A file was not opened. The lock is handed back.
#[derive(Drop)]
pub struct Unopened {
    pub error: OpenError,
    pub lock: FolderLock,
}

/// The fault of a call without the lock that it needs.
const NOT_LOCKED: FileFault = FileFault {
    action: Action::Lock,
    target: Target::Lock,
    cause: Cause::NotLocked,
};

/// The lock, of either kind, unless a call has failed before: then each further one fails.
fn some_lock(lock: &Option<FolderLock>, fault: Option<FileFault>) -> Result<&FolderLock, FileFault>
    ensures lock { IfOk result (λ own. lock.now ≡ Some own.now) }
    ensures works { OnOk result (fault ≡ None) }
    ensures fails { OnErr result (MayRead lock.now fault → ⊥) }
{
    match (lock, fault) {
        (_, Some(fault)) => Err(fault),
        (None, None) => Err(NOT_LOCKED),
        (Some(lock), None) => Ok(lock),
    }
}

/// The lock, if nobody else has it, unless a call has failed before.
fn own_lock(lock: &Option<FolderLock>, fault: Option<FileFault>) -> Result<&FolderLock, FileFault>
    ensures lock { IfOk result (λ own. own.now.kind ≡ Exclusive) }
    ensures works { OnOk result (MayWrite lock.now fault) }
    ensures fails { OnErr result (MayWrite lock.now fault → ⊥) }
{
    let lock = some_lock(lock, fault)?;
    if lock.kind == LockKind::Exclusive {
        Ok(lock)
    } else {
        Err(NOT_LOCKED)
    }
}

/// A file of the system, as a journal uses it. It has the lock of its folder from where a turn begins until `rest`: without it,
/// or with one that others share if it is to write, a call fails. A call that failed leaves it failing: open the file again.
#[derive(Drop)]
pub struct FileDevice<R: Files + Drop> {
    alloc: Global,
    lock: Option<FolderLock>,
    disk: DiskFile<R>,
    belief: Belief,
    /// How many calls have failed.
    faults: u64,
    /// Why the first of them failed.
    fault: Option<FileFault>,
}

impl<R: Files + Drop> FileDevice<R> {
    /// Opens the file of this name in a folder, which has to be there, under the folder's lock, and reads it.
    pub fn open(
        rt: R,
        alloc: Global,
        lock: FolderLock,
        folder: &str,
        name: &str,
        syncs: Syncs,
    ) -> Result<Self, Unopened>
        ensures unknown { IfOk result (λ device. MayBeAnything (history_of device.belief)) }
        ensures no_fault { IfOk result (λ device. device.fault ≡ None) }
        ensures looked { IfOk result (λ device. looks_of device.belief ≡ 1) }
        ensures believed { IfOk result (λ device. IsOpened device.belief) }
        ensures lock { IfOk result (λ device. device.lock ≡ Some lock) }
        ensures syncs { IfOk result (λ device. device.disk.syncs ≡ syncs) }
        ensures handed_back { IfErr result (λ unopened. unopened.lock ≡ lock) }
    {
        let mut belief = Belief::new(alloc);
        match open_disk(rt, alloc, &mut belief, &lock, folder, name, syncs) {
            Ok(disk) => Ok(FileDevice::new(alloc, lock, disk, belief)),
            Err(error) => Err(Unopened { error, lock }),
        }
    }

    fn new(alloc: Global, lock: FolderLock, disk: DiskFile<R>, belief: Belief) -> Self
        ensures belief { result.belief ≡ belief }
        ensures no_fault { result.fault ≡ None }
        ensures lock { result.lock ≡ Some lock }
        ensures disk { result.disk ≡ disk }
    {
        FileDevice {
            alloc,
            lock: Some(lock),
            disk,
            belief,
            faults: 0,
            fault: None,
        }
    }

    /// After a call that failed, reads the file anew that has the journal's path now, under the lock that this device has. If
    /// it fails too, each further call does.
    pub fn read_again(&mut self) -> Result<(), FileFault>
        ensures unknown { OnOk result (MayBeAnything (history_of self.new.belief)) }
        ensures no_fault { OnOk result (self.new.fault ≡ None) }
        ensures fails { OnErr result (MayRead self.new.lock self.new.fault → ⊥) }
        ensures looked { OnOk result (looks_of self.old.belief < looks_of self.new.belief) }
        ensures believed { OnOk result (IsLooked 0 self.old.belief self.new.belief) }
        ensures lock { self.new.lock ≡ self.old.lock }
        ensures syncs { self.new.disk.syncs ≡ self.old.disk.syncs }
    {
        let lock = some_lock(&self.lock, None)?;
        match self.disk.look(&mut self.belief, lock, self.alloc, 0) {
            Ok(_) => {
                self.fault = None;
                Ok(())
            }
            Err(fault) => {
                self.fault = Some(fault);
                Err(fault)
            }
        }
    }

    /// Opens the file that has the journal's path once more, as the next process that uses it does, and reads all of it, under
    /// the lock that this device has. If it is this file, and has the bytes that are believed, later calls go to what was
    /// opened, and calls that failed before are forgotten. What a crash may leave stays known: nobody else had the lock. After an
    /// error each further call fails, until one of this method, of `renew` or of `read_again` is `Ok`.
    pub fn open_again(&mut self) -> Result<(), DeviceError>
        ensures opened { OnOk result (IsOpenedAgain self.old.belief self.new.belief) }
        ensures bytes { self.new.belief.bytes ≡ self.old.belief.bytes }
        ensures crash { Goes Unchanged (history_of self.old.belief) (history_of self.new.belief) }
        ensures looks { looks_of self.new.belief ≡ looks_of self.old.belief }
        ensures writes { writes_of self.new.belief ≡ writes_of self.old.belief }
        ensures works { OnOk result (MayRead self.new.lock self.new.fault) }
        ensures fails { OnErr result (self.new.fault ≢ None) }
        ensures faults { TellsFaults self.old.faults self.new.faults result }
        ensures lock { self.new.lock ≡ self.old.lock }
        ensures syncs { self.new.disk.syncs ≡ self.old.disk.syncs }
    {
        let lock = match some_lock(&self.lock, None) {
            Ok(lock) => lock,
            Err(fault) => return Err(self.fail(fault)),
        };
        if let Err(fault) = self.disk.open_again(&mut self.belief, lock, self.alloc) {
            return Err(self.fail(fault));
        }
        self.fault = None;
        Ok(())
    }

    /// Gives the lock that it has to the caller.
    pub fn into_lock(self) -> Option<FolderLock>
        ensures { result ≡ self.lock }
    {
        self.lock
    }

    /// Why the first call that failed did so.
    pub fn fault(&self) -> Option<FileFault>
        ensures { result ≡ self.now.fault }
    {
        self.fault
    }

    /// What the file reads as, if this device has the lock and no call has failed since the last look. Only clauses read it.
    pub fn seen(&self) -> Result<Snapshot<Vec<u8>>, FileFault>
        ensures bytes { IfOk result (λ seen. seen.value ≡ self.now.belief.bytes) }
        ensures works { OnOk result (MayRead self.now.lock self.now.fault) }
        ensures fails { OnErr result (MayRead self.now.lock self.now.fault → ⊥) }
    {
        some_lock(&self.lock, self.fault)?;
        Ok(Snapshot::of(&self.belief.bytes))
    }

    /// What is believed of the file, whatever failed. Only clauses read it.
    pub fn believed(&self) -> Snapshot<Belief>
        ensures { result.value ≡ self.now.belief }
    {
        Snapshot::of(&self.belief)
    }

    /// Notes that a call failed.
    fn fail(&mut self, fault: FileFault) -> DeviceError
        ensures belief { self.new.belief ≡ self.old.belief }
        ensures lock { self.new.lock ≡ self.old.lock }
        ensures disk { self.new.disk ≡ self.old.disk }
        ensures later { self.old.faults ≤ self.new.faults }
        ensures counted { result ≡ Failed → self.old.faults < self.new.faults }
        ensures fails { self.new.fault ≢ None }
        ensures first { self.old.fault ≢ None → self.new.fault ≡ self.old.fault }
    {
        self.fault = Some(self.fault.unwrap_or(fault));
        match self.faults.checked_add(1) {
            Some(faults) => {
                self.faults = faults;
                DeviceError::Failed
            }
            None => DeviceError::OutOfMemory,
        }
    }

    /// Notes that a call failed, unless memory ran out.
    fn report(&mut self, fault: FileFault) -> DeviceError
        ensures belief { self.new.belief ≡ self.old.belief }
        ensures lock { self.new.lock ≡ self.old.lock }
        ensures disk { self.new.disk ≡ self.old.disk }
        ensures later { self.old.faults ≤ self.new.faults }
        ensures counted { result ≡ Failed → self.old.faults < self.new.faults }
        ensures fails { result ≡ Failed → self.new.fault ≢ None }
        ensures first { self.old.fault ≢ None → self.new.fault ≡ self.old.fault }
        ensures memory { result ≡ Failed → fault.cause ≢ cause.OutOfMemory }
    {
        match fault.cause {
            Cause::OutOfMemory => DeviceError::OutOfMemory,
            _ => self.fail(fault),
        }
    }
}

impl<R: Files + Drop> Device for FileDevice<R> {
    ghost content = { λ file. file.belief.bytes.items };

    ghost history = { λ file. history_of file.belief };

    ghost faults = { λ file. file.faults };

    ghost writes = { λ file. writes_of file.belief };

    ghost looks = { λ file. looks_of file.belief };

    ghost kill_leaves = { λ file. inl refl };

    fn read_from(&mut self, alloc: Global, place: usize) -> Result<Vec<u8>, DeviceError>
        requires { place ≤ length self.old.belief.bytes.items }
        ensures bytes { IfOk result (λ bytes. bytes.items ≡ drop place self.old.belief.bytes.items) }
        ensures read { IfOk result (λ bytes. IsReadBack place bytes.items self.old.belief self.new.belief) }
        ensures fits { OnOk result (length self.old.belief.bytes.items < 2 ^ 64) }
        ensures content { self.new.belief.bytes.items ≡ self.old.belief.bytes.items }
        ensures writes { writes_of self.new.belief ≡ writes_of self.old.belief }
        ensures crash { Goes Unchanged (history_of self.old.belief) (history_of self.new.belief) }
        ensures looks { looks_of self.new.belief ≡ looks_of self.old.belief }
        ensures faults { TellsFaults self.old.faults self.new.faults result }
        ensures works { OnOk result (MayRead self.old.lock self.old.fault) }
        ensures fault { KeepsFault self.old.fault self.new.fault result }
        ensures lock { self.new.lock ≡ self.old.lock }
        ensures syncs { self.new.disk.syncs ≡ self.old.disk.syncs }
    {
        let lock = match some_lock(&self.lock, self.fault) {
            Ok(lock) => lock,
            Err(fault) => return Err(self.report(fault)),
        };
        match self.belief.read(&mut self.disk.file, lock, alloc, place) {
            Ok(Some(bytes)) => Ok(bytes),
            Ok(None) => Err(self.fail(READS_OTHERWISE)),
            Err(fault) => Err(self.report(fault)),
        }
    }

    fn write_at(&mut self, place: usize, bytes: &[u8]) -> Result<(), DeviceError>
        requires { place ≤ length self.old.belief.bytes.items }
        ensures written { OnOk result (self.new.belief.bytes.items ≡ overwritten self.old.belief.bytes.items place bytes.now) }
        ensures noted { OnOk result (IsWritten place bytes.now self.old.belief self.new.belief) }
        ensures fits { OnOk result (place + length bytes.now < 2 ^ 64) }
        ensures crash { Goes (Torn place (length bytes.now)) (history_of self.old.belief) (history_of self.new.belief) }
        ensures looks { looks_of self.new.belief ≡ looks_of self.old.belief }
        ensures faults { TellsFaults self.old.faults self.new.faults result }
        ensures works { OnOk result (MayWrite self.old.lock self.old.fault) }
        ensures fault { KeepsFault self.old.fault self.new.fault result }
        ensures lock { self.new.lock ≡ self.old.lock }
        ensures syncs { self.new.disk.syncs ≡ self.old.disk.syncs }
    {
        let bytes = bytes.to_vec(self.alloc)?;
        let lock = match own_lock(&self.lock, self.fault) {
            Ok(lock) => lock,
            Err(fault) => return Err(self.report(fault)),
        };
        match self.belief.write(&mut self.disk.file, lock, place, &bytes) {
            Ok(()) => Ok(()),
            Err(fault) => Err(self.report(fault)),
        }
    }

    fn cut(&mut self, size: usize) -> Result<(), DeviceError>
        requires { size ≤ length self.old.belief.bytes.items }
        ensures cut { OnOk result (self.new.belief.bytes.items ≡ take size self.old.belief.bytes.items) }
        ensures noted { OnOk result (IsCut size self.old.belief self.new.belief) }
        ensures crash { Goes (Shortened size) (history_of self.old.belief) (history_of self.new.belief) }
        ensures looks { looks_of self.new.belief ≡ looks_of self.old.belief }
        ensures faults { TellsFaults self.old.faults self.new.faults result }
        ensures works { OnOk result (MayWrite self.old.lock self.old.fault) }
        ensures fault { KeepsFault self.old.fault self.new.fault result }
        ensures lock { self.new.lock ≡ self.old.lock }
        ensures syncs { self.new.disk.syncs ≡ self.old.disk.syncs }
    {
        let lock = match own_lock(&self.lock, self.fault) {
            Ok(lock) => lock,
            Err(fault) => return Err(self.report(fault)),
        };
        match self.belief.cut(&self.disk.file, lock, size) {
            Ok(()) => Ok(()),
            Err(fault) => Err(self.report(fault)),
        }
    }

    fn sync(&mut self) -> Result<(), DeviceError>
        ensures on_disk { OnOk result (IsOnDisk self.old.belief.bytes.items (history_of self.new.belief)) }
        ensures settled { OnOk result (IsSettled self.old.disk.syncs self.old.belief self.new.belief) }
        ensures content { self.new.belief.bytes.items ≡ self.old.belief.bytes.items }
        ensures writes { writes_of self.new.belief ≡ writes_of self.old.belief }
        ensures crash { Goes Unchanged (history_of self.old.belief) (history_of self.new.belief) }
        ensures looks { looks_of self.new.belief ≡ looks_of self.old.belief }
        ensures faults { TellsFaults self.old.faults self.new.faults result }
        ensures works { OnOk result (MayWrite self.old.lock self.old.fault) }
        ensures fault { KeepsFault self.old.fault self.new.fault result }
        ensures again { IsErrOf result Failed → MayWrite self.old.lock self.old.fault → IsWrittenAgain self.old.belief self.new.belief }
        ensures lock { self.new.lock ≡ self.old.lock }
        ensures syncs { self.new.disk.syncs ≡ self.old.disk.syncs }
    {
        let syncs = self.disk.syncs;
        let lock = match own_lock(&self.lock, self.fault) {
            Ok(lock) => lock,
            Err(fault) => return Err(self.report(fault)),
        };
        match self.belief.settle(&mut self.disk.file, lock, syncs) {
            Ok(()) => Ok(()),
            Err(fault) => Err(self.report(fault)),
        }
    }

    fn replace(&mut self, bytes: &[u8]) -> Result<(), DeviceError>
        ensures replaced { OnOk result (self.new.belief.bytes.items ≡ bytes.now) }
        ensures settled { OnOk result (IsReplaced self.old.disk.syncs bytes.now self.old.belief self.new.belief) }
        ensures fits { OnOk result (length bytes.now < 2 ^ 64) }
        ensures on_disk { OnOk result (IsOnDisk bytes.now (history_of self.new.belief)) }
        ensures crash { Goes (UnchangedOr bytes.now) (history_of self.old.belief) (history_of self.new.belief) }
        ensures looks { looks_of self.new.belief ≡ looks_of self.old.belief }
        ensures faults { TellsFaults self.old.faults self.new.faults result }
        ensures works { OnOk result (MayWrite self.old.lock self.old.fault) }
        ensures fault { KeepsFault self.old.fault self.new.fault result }
        ensures lock { self.new.lock ≡ self.old.lock }
        ensures syncs { self.new.disk.syncs ≡ self.old.disk.syncs }
    {
        let next = bytes.to_vec(self.alloc)?;
        let lock = match own_lock(&self.lock, self.fault) {
            Ok(lock) => lock,
            Err(fault) => return Err(self.report(fault)),
        };
        match self.disk.replace(&mut self.belief, lock, self.alloc, next) {
            Ok(()) => Ok(()),
            Err(fault) => Err(self.report(fault)),
        }
    }
}

impl<R: Files + Drop> Renewable for FileDevice<R> {
    ghost use Rattle.file_journal.specs.Renewed.{IsRenewedTo};

    type Turn = FolderLock;

    /// Reads the bytes behind the first `kept` ones, if the file that has the journal's path now is this one. If it is
    /// another, that one is read and compared, and later calls go to it. Calls that failed before are forgotten. After an
    /// error each further call fails, until one of this method is `Ok`.
    fn renew(&mut self, turn: FolderLock, kept: usize) -> Result<Renewed, DeviceError>
        requires within { kept ≤ length self.old.belief.bytes.items }
        ensures renewed { IfOk result (IsRenewedTo kept self.old.belief self.new.belief) }
        ensures believed { OnOk result (IsLooked kept self.old.belief self.new.belief) }
        ensures lock { self.new.lock ≡ Some turn }
        ensures syncs { self.new.disk.syncs ≡ self.old.disk.syncs }
        ensures works { OnOk result (self.new.fault ≡ None) }
        ensures fails { OnErr result (self.new.fault ≢ None) }
        ensures writes { writes_of self.new.belief ≡ writes_of self.old.belief }
        ensures looks { OnOk result (looks_of self.old.belief < looks_of self.new.belief) }
        ensures faults { TellsFaults self.old.faults self.new.faults result }
    {
        let looked = self.disk.look(&mut self.belief, &turn, self.alloc, kept);
        self.lock = Some(turn);
        match looked {
            Ok(renewed) => {
                self.fault = None;
                Ok(renewed)
            }
            Err(fault) => Err(self.fail(fault)),
        }
    }

    fn rest(&mut self)
        ensures belief { self.new.belief ≡ self.old.belief }
        ensures lock { self.new.lock ≡ None }
        ensures disk { self.new.disk ≡ self.old.disk }
        ensures faults { self.new.faults ≡ self.old.faults }
        ensures fault { self.new.fault ≡ self.old.fault }
    {
        self.lock = None;
    }
}
