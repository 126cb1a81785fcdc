ghost use Rattle.std.specs.Prelude.{◌≡◌, ◌≢◌, ◌↔◌, ◌+◌, ◌<◌, ◌≤◌, ◌^◌, [], length, take, drop, IsTrue, IfOk, IfErr, IfSome, OnOk};
ghost use Rattle.line_journal.specs.Device.{overwritten, Torn, Shortened, Unchanged, UnchangedOr, IsOnDisk, Goes};
ghost use Rattle.line_journal.specs.Renewed.{IsRenewed};
ghost use Rattle.file_journal.specs.Belief.{history_of};
ghost use Rattle.file_journal.specs.Calls.{IsSynced};
ghost use Rattle.file_journal.specs.declared.fault.Cause.TheVariants.{OutOfMemory};
ghost use Rattle.file_journal.specs.declared.lock.LockKind.TheVariants.{Exclusive};

use crate::calls::Calls;
use crate::disk_file::{Paths, Syncs};
use crate::fault::{FileFault, READS_OTHERWISE};
use crate::folder_names::FolderNames;
use crate::lock::FolderLock;
use crate::new_file::NewFile;
use crate::overwrite::overwrite;
use line_journal::Renewed;
use std::alloc::Global;
use std::fs::OpenFile;
use std::io::{Read, Seek, Write};
use std::rt::Files;

/// What a file is believed to hold, and the calls by which it came to that.
#[derive(Drop)]
pub struct Belief {
    pub(crate) bytes: Vec<u8>,
    calls: Calls,
}

/// What the bytes of a file are beside those that were believed.
fn compare(believed: &[u8], kept: usize, bytes: &[u8]) -> Renewed
    requires { kept ≤ length believed.now }
    ensures renewed { IsRenewed kept believed.now bytes.now result }
    ensures same { result ≡ Renewed.Same ↔ bytes.now ≡ believed.now }
{
    if bytes == believed {
        Renewed::Same
    } else if bytes.starts_with(&believed[..kept]) {
        Renewed::Longer
    } else {
        Renewed::Other
    }
}

impl Belief {
    ghost use Rattle.file_journal.specs.Belief.{MayBeAnything, IsLooked, IsReadBack, IsOpenedAgain, IsWritten, IsWrittenAgain, IsCut, IsSettled, IsReplaced};
    ghost use Rattle.file_journal.specs.Counts.{looks_of, writes_of};
    ghost use Rattle.file_journal.specs.Renewed.{IsRenewedTo};

    /// Of an empty file, of which nobody knows what a crash leaves.
    pub(crate) fn new(alloc: Global) -> Self
        ensures bytes { result.bytes.items ≡ [] }
        ensures unknown { MayBeAnything (history_of result) }
        ensures calls { result.calls.noted.items ≡ [] }
        ensures looks { looks_of result ≡ 0 }
    {
        Belief {
            bytes: Vec::new(alloc),
            calls: Calls::new(alloc),
        }
    }

    /// Whether the file is believed to have these bytes from a place on.
    fn agrees(&self, place: usize, bytes: &[u8]) -> bool
        requires { place ≤ length self.now.bytes.items }
        ensures { IsTrue result ↔ (bytes.now ≡ drop place self.now.bytes.items) }
    {
        bytes == &self.bytes[place..]
    }

    /// Reads the file behind its first `kept` bytes, which it has still. What is read is believed from then on.
    pub(crate) fn look<F: Read + Seek>(
        &mut self,
        file: &mut F,
        lock: &FolderLock,
        alloc: Global,
        kept: usize,
    ) -> Result<Renewed, FileFault>
        requires { kept ≤ length self.old.bytes.items }
        ensures renewed { IfOk result (IsRenewedTo kept self.old self.new) }
        ensures believed { OnOk result (IsLooked kept self.old self.new) }
        ensures looks { OnOk result (looks_of self.new ≡ looks_of self.old + 1) }
        ensures writes { writes_of self.new ≡ writes_of self.old }
    {
        let read = self.calls.look(file, lock, alloc, kept, &self.bytes)?;
        if self.agrees(kept, &read) {
            return Ok(Renewed::Same);
        }
        self.bytes.truncate(kept);
        self.bytes.extend_from_slice(&read)?;
        Ok(Renewed::Longer)
    }

    /// Reads another file, which has come to the place of the one that is believed. It is believed from then on.
    pub(crate) fn look_at_other<F: Read + Seek>(
        &mut self,
        file: &mut F,
        lock: &FolderLock,
        alloc: Global,
        kept: usize,
    ) -> Result<Renewed, FileFault>
        requires { kept ≤ length self.old.bytes.items }
        ensures renewed { IfOk result (IsRenewedTo kept self.old self.new) }
        ensures believed { OnOk result (IsLooked 0 self.old self.new) }
        ensures looks { OnOk result (looks_of self.new ≡ looks_of self.old + 1) }
        ensures writes { writes_of self.new ≡ writes_of self.old }
    {
        let read = self.calls.look(file, lock, alloc, 0, &self.bytes)?;
        let renewed = compare(&self.bytes, kept, &read);
        self.bytes = read;
        Ok(renewed)
    }

    /// Reads the file from a place on once more. None if it has other bytes than are believed.
    pub(crate) fn read<F: Read + Seek>(
        &mut self,
        file: &mut F,
        lock: &FolderLock,
        alloc: Global,
        place: usize,
    ) -> Result<Option<Vec<u8>>, FileFault>
        requires { place ≤ length self.old.bytes.items }
        ensures read { IfOk result (λ read. IfSome read (λ bytes. bytes.items ≡ drop place self.old.bytes.items)) }
        ensures noted { IfOk result (λ read. IfSome read (λ bytes. IsReadBack place bytes.items self.old self.new)) }
        ensures bytes { self.new.bytes ≡ self.old.bytes }
        ensures crash { Goes Unchanged (history_of self.old) (history_of self.new) }
        ensures looks { looks_of self.new ≡ looks_of self.old }
        ensures writes { writes_of self.new ≡ writes_of self.old }
    {
        let read = self.calls.read(file, lock, alloc, place, &self.bytes)?;
        if self.agrees(place, &read) {
            Ok(Some(read))
        } else {
            Ok(None)
        }
    }

    /// Opens once more the file that has a path, and reads all of it. An error if it is another one than this, or has other bytes
    /// than are believed.
    pub(crate) fn open_again<R: Files>(
        &mut self,
        rt: &R,
        path: &str,
        file: &R::File,
        lock: &FolderLock,
        alloc: Global,
    ) -> Result<R::File, FileFault>
        ensures opened { OnOk result (IsOpenedAgain self.old self.new) }
        ensures bytes { self.new.bytes ≡ self.old.bytes }
        ensures crash { Goes Unchanged (history_of self.old) (history_of self.new) }
        ensures looks { looks_of self.new ≡ looks_of self.old }
        ensures writes { writes_of self.new ≡ writes_of self.old }
    {
        let opened = self
            .calls
            .open_again(rt, path, file, lock, alloc, &self.bytes);
        let (file, read) = opened?;
        if self.agrees(0, &read) {
            Ok(file)
        } else {
            Err(READS_OTHERWISE)
        }
    }

    /// Writes over what is there and past the end.
    pub(crate) fn write<F: Write + Seek>(
        &mut self,
        file: &mut F,
        lock: &FolderLock,
        place: usize,
        bytes: &Vec<u8>,
    ) -> Result<(), FileFault>
        requires within { place ≤ length self.old.bytes.items }
        requires lock { lock.now.kind ≡ Exclusive }
        ensures written { OnOk result (self.new.bytes.items ≡ overwritten self.old.bytes.items place bytes.now.items) }
        ensures noted { OnOk result (IsWritten place bytes.now.items self.old self.new) }
        ensures fits { OnOk result (place + length bytes.now.items < 2 ^ 64) }
        ensures crash { Goes (Torn place (length bytes.now.items)) (history_of self.old) (history_of self.new) }
        ensures looks { looks_of self.new ≡ looks_of self.old }
    {
        self.calls.write(file, lock, place, bytes, &self.bytes)?;
        overwrite(&mut self.bytes, place, bytes)?;
        Ok(())
    }

    /// Cuts off what stands behind the first `size` bytes.
    pub(crate) fn cut<F: OpenFile>(
        &mut self,
        file: &F,
        lock: &FolderLock,
        size: usize,
    ) -> Result<(), FileFault>
        requires within { size ≤ length self.old.bytes.items }
        requires lock { lock.now.kind ≡ Exclusive }
        ensures cut { OnOk result (self.new.bytes.items ≡ take size self.old.bytes.items) }
        ensures noted { OnOk result (IsCut size self.old self.new) }
        ensures crash { Goes (Shortened size) (history_of self.old) (history_of self.new) }
        ensures looks { looks_of self.new ≡ looks_of self.old }
    {
        self.calls.cut(file, lock, size, &self.bytes)?;
        self.bytes.truncate(size);
        Ok(())
    }

    /// Waits until the file is on the disk as it reads, unless `syncs` leaves that out. If it does not come there, all of it
    /// is written again.
    pub(crate) fn settle<F: OpenFile + Write + Seek>(
        &mut self,
        file: &mut F,
        lock: &FolderLock,
        syncs: Syncs,
    ) -> Result<(), FileFault>
        requires { lock.now.kind ≡ Exclusive }
        ensures on_disk { OnOk result (IsOnDisk self.old.bytes.items (history_of self.new)) }
        ensures settled { OnOk result (IsSettled syncs self.old self.new) }
        ensures again { IfErr result (λ fault. fault.cause ≢ OutOfMemory → IsWrittenAgain self.old self.new) }
        ensures bytes { self.new.bytes ≡ self.old.bytes }
        ensures crash { Goes Unchanged (history_of self.old) (history_of self.new) }
        ensures looks { looks_of self.new ≡ looks_of self.old }
        ensures writes { writes_of self.new ≡ writes_of self.old }
    {
        match self.calls.settle(file, lock, syncs, &self.bytes) {
            Ok(()) => Ok(()),
            Err(fault) => {
                self.calls.write_again(file, lock, &self.bytes)?;
                Err(fault)
            }
        }
    }

    /// A new file, which is on the disk, takes the place of this one.
    pub(crate) fn replace<R: Files>(
        &mut self,
        rt: &R,
        lock: &FolderLock,
        names: &FolderNames<R::File>,
        new: NewFile<R::File>,
        paths: &Paths,
    ) -> Result<R::File, FileFault>
        requires lock { lock.now.kind ≡ Exclusive }
        requires synced { IsSynced new.bytes.items new.calls.noted.items }
        ensures replaced { OnOk result (self.new.bytes.items ≡ new.bytes.items) }
        ensures settled { OnOk result (IsReplaced names.now.syncs new.bytes.items self.old self.new) }
        ensures on_disk { OnOk result (IsOnDisk new.bytes.items (history_of self.new)) }
        ensures crash { Goes (UnchangedOr new.bytes.items) (history_of self.old) (history_of self.new) }
        ensures looks { looks_of self.new ≡ looks_of self.old }
    {
        self.calls
            .replace(rt, lock, names, &new, paths, &self.bytes)?;
        self.bytes = new.bytes;
        Ok(new.file)
    }
}
