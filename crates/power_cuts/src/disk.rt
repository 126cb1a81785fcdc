//! A file in memory of which a cut of the power loses what was not synced.
ghost use Rattle.std.specs.Prelude.{◌≡◌, ◌+◌, ◌<◌, ◌≤◌, ◌^◌, [], ◌∷◌, ◌++◌, length, take, drop, IfOk, OnOk};
ghost use Rattle.std.proofs.Common.{inl, refl};
ghost use Rattle.line_journal.specs.Device.{overwritten, Torn, Shortened, Unchanged, UnchangedOr, IsOnDisk, Goes, TellsFaults};
ghost use Rattle.power_cuts.specs.Log.{noted};

use crate::log::Log;
use crate::state::{Call, State};
use line_journal::{Device, DeviceError};
use std::alloc::{AllocError, Global};

/// A file in memory. A write or a cut changes what a read returns, and comes to the disk with the next `sync`. So many calls
/// succeed as `let_succeed` says; each later one fails, and does nothing.
#[derive(Drop)]
pub struct MemoryDisk {
    alloc: Global,
    state: State,
    /// What it held before each call that changed that.
    past: Log<State>,
    calls_left: usize,
    /// A note for each call that failed.
    faults: Log<()>,
    /// A note for each call that wrote, cut or replaced.
    writes: Log<()>,
}

fn overwrite(alloc: Global, file: &[u8], place: usize, bytes: &[u8]) -> Result<Vec<u8>, AllocError>
    requires { place ≤ length file.now }
    ensures { IfOk result (λ next. next.items ≡ overwritten file.now place bytes.now) }
{
    let mut next = file[..place].to_vec(alloc)?;
    next.extend_from_slice(bytes)?;
    if bytes.len() < file.len() - place {
        next.extend_from_slice(&file[place + bytes.len()..])?;
    }
    Ok(next)
}

impl MemoryDisk {
    ghost use Rattle.power_cuts.specs.Disk.{content_of, disk_of, history_of, writes_of, faults_of};

    /// An empty file. Each call succeeds as long as there is memory.
    pub fn new(alloc: Global) -> Self
        ensures content { content_of result ≡ [] }
        ensures disk { disk_of result ≡ [] }
    {
        MemoryDisk {
            alloc,
            state: State {
                disk: Vec::new(alloc),
                cache: None,
                unsynced: Log::new(),
            },
            past: Log::new(),
            calls_left: usize::MAX,
            faults: Log::new(),
            writes: Log::new(),
        }
    }

    /// What a read returns.
    pub fn bytes(&self) -> &[u8]
        ensures { result.now ≡ content_of self.now }
    {
        self.state.read()
    }

    /// What is on the disk.
    pub fn bytes_on_disk(&self) -> &[u8]
        ensures { result.now ≡ disk_of self.now }
    {
        &self.state.disk
    }

    /// From now on so many calls succeed.
    pub fn let_succeed(&mut self, calls: usize)
        ensures state { self.new.state ≡ self.old.state }
        ensures past { self.new.past ≡ self.old.past }
        ensures faults { self.new.faults ≡ self.old.faults }
        ensures writes { self.new.writes ≡ self.old.writes }
    {
        self.calls_left = calls;
    }

    /// The power is cut: what a read returned beyond what was on the disk is lost. What is there then is one of the files that a
    /// crash may have left.
    pub fn cut_power(&mut self)
        ensures content { content_of self.new ≡ disk_of self.old }
        ensures disk { disk_of self.new ≡ disk_of self.old }
        ensures nothing_else { IsOnDisk (disk_of self.old) (history_of self.new) }
        ensures left { (history_of self.old).leaves (disk_of self.old) }
        ensures faults { faults_of self.new ≡ faults_of self.old }
        ensures writes { writes_of self.new ≡ writes_of self.old }
    {
        self.past.note(&self.state);
        self.state.lose();
    }

    /// Counts a call, which fails if none is left to succeed.
    fn count(&mut self) -> Result<(), DeviceError>
        ensures state { self.new.state ≡ self.old.state }
        ensures past { self.new.past ≡ self.old.past }
        ensures writes { self.new.writes ≡ self.old.writes }
        ensures faults { TellsFaults (faults_of self.old) (faults_of self.new) result }
    {
        match self.calls_left.checked_sub(1) {
            Some(left) => {
                self.calls_left = left;
                Ok(())
            }
            None => {
                self.faults.note(&());
                Err(DeviceError::Failed)
            }
        }
    }

    /// A call that was not synced changes what a read returns.
    fn change(&mut self, call: Call, next: Vec<u8>)
        ensures content { content_of self.new ≡ next.items }
        ensures disk { self.new.state.disk ≡ self.old.state.disk }
        ensures past { noted self.new.past ≡ noted self.old.past ++ self.old.state ∷ [] }
        ensures unsynced { noted self.new.state.unsynced ≡ noted self.old.state.unsynced ++ call ∷ [] }
        ensures faults { self.new.faults ≡ self.old.faults }
    {
        self.past.note(&self.state);
        self.writes.note(&());
        self.state.cache = Some(next);
        self.state.unsynced.note(&call);
    }
}

impl Device for MemoryDisk {
    ghost use Rattle.power_cuts.specs.Disk.{content_of, disk_of, history_of, writes_of, faults_of};

    ghost content = { content_of };

    ghost history = { history_of };

    ghost faults = { faults_of };

    ghost writes = { writes_of };

    ghost looks = { λ _. 0 };

    ghost kill_leaves = { λ _. inl refl };

    fn read_from(&mut self, alloc: Global, place: usize) -> Result<Vec<u8>, DeviceError>
        requires { place ≤ length (content_of self.old) }
        ensures bytes { IfOk result (λ bytes. bytes.items ≡ drop place (content_of self.old)) }
        ensures fits { OnOk result (length (content_of self.old) < 2 ^ 64) }
        ensures content { content_of self.new ≡ content_of self.old }
        ensures disk { disk_of self.new ≡ disk_of self.old }
        ensures writes { writes_of self.new ≡ writes_of self.old }
        ensures crash { Goes Unchanged (history_of self.old) (history_of self.new) }
        ensures faults { TellsFaults (faults_of self.old) (faults_of self.new) result }
    {
        self.count()?;
        Ok(self.state.read()[place..].to_vec(alloc)?)
    }

    /// The disk stays as it is.
    fn write_at(&mut self, place: usize, bytes: &[u8]) -> Result<(), DeviceError>
        requires { place ≤ length (content_of self.old) }
        ensures written { OnOk result (content_of self.new ≡ overwritten (content_of self.old) place bytes.now) }
        ensures disk { disk_of self.new ≡ disk_of self.old }
        ensures fits { OnOk result (place + length bytes.now < 2 ^ 64) }
        ensures crash { Goes (Torn place (length bytes.now)) (history_of self.old) (history_of self.new) }
        ensures faults { TellsFaults (faults_of self.old) (faults_of self.new) result }
    {
        self.count()?;
        let next = overwrite(self.alloc, self.state.read(), place, bytes)?;
        self.change(Call::Write(place, bytes.len()), next);
        Ok(())
    }

    /// The disk stays as it is.
    fn cut(&mut self, size: usize) -> Result<(), DeviceError>
        requires { size ≤ length (content_of self.old) }
        ensures cut { OnOk result (content_of self.new ≡ take size (content_of self.old)) }
        ensures disk { disk_of self.new ≡ disk_of self.old }
        ensures crash { Goes (Shortened size) (history_of self.old) (history_of self.new) }
        ensures faults { TellsFaults (faults_of self.old) (faults_of self.new) result }
    {
        self.count()?;
        let next = self.state.read()[..size].to_vec(self.alloc)?;
        self.change(Call::Cut(size), next);
        Ok(())
    }

    /// Brings what a read returns to the disk.
    fn sync(&mut self) -> Result<(), DeviceError>
        ensures on_disk { OnOk result (IsOnDisk (content_of self.old) (history_of self.new)) }
        ensures disk { OnOk result (disk_of self.new ≡ content_of self.old) }
        ensures content { content_of self.new ≡ content_of self.old }
        ensures writes { writes_of self.new ≡ writes_of self.old }
        ensures crash { Goes Unchanged (history_of self.old) (history_of self.new) }
        ensures faults { TellsFaults (faults_of self.old) (faults_of self.new) result }
    {
        self.count()?;
        self.past.note(&self.state);
        self.state.settle();
        Ok(())
    }

    /// Brings these bytes to the disk, in the place of all that was there.
    fn replace(&mut self, bytes: &[u8]) -> Result<(), DeviceError>
        ensures replaced { OnOk result (content_of self.new ≡ bytes.now) }
        ensures disk { OnOk result (disk_of self.new ≡ bytes.now) }
        ensures fits { OnOk result (length bytes.now < 2 ^ 64) }
        ensures on_disk { OnOk result (IsOnDisk bytes.now (history_of self.new)) }
        ensures crash { Goes (UnchangedOr bytes.now) (history_of self.old) (history_of self.new) }
        ensures faults { TellsFaults (faults_of self.old) (faults_of self.new) result }
    {
        self.count()?;
        let next = bytes.to_vec(self.alloc)?;
        self.past.note(&self.state);
        self.writes.note(&());
        self.state.disk = next;
        self.state.lose();
        Ok(())
    }
}
