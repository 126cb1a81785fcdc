//! The calls of the system that a journal's file gets, or a new one for its place, a method each. That a method makes the call
//! that it notes is trusted.
ghost use Rattle.std.specs.Prelude.{◌≡◌, ◌≤◌, [], length, IfOk, OnOk, OnErr};
ghost use Rattle.file_journal.specs.Calls.{IsNoted, IsNotedOrNot, IsSynced};
ghost use Rattle.file_journal.specs.declared.calls.kinds.Call.TheVariants.{Look, Read, OpenAgain, Write, Again, Cut, Settle, Replaced, NotReplaced};
ghost use Rattle.file_journal.specs.declared.lock.LockKind.TheVariants.{Exclusive};
ghost use Rattle.file_journal.specs.declared.disk_file.Syncs.TheVariants.{Kept, LeftOut};

pub(crate) use self::kinds::{Call, Noted};
use crate::disk_file::{Paths, Syncs, is_same_file, open_file};
use crate::fault::{Action, FileFault, READS_OTHERWISE, Target};
use crate::folder_names::FolderNames;
use crate::lock::FolderLock;
use crate::new_file::NewFile;
use std::alloc::{AllocError, Global};
use std::fs::{self, OpenFile};
use std::io::{self, Read, Seek, SeekFrom, Write};
use std::rt::Files;
use std::snapshot::Snapshot;

mod kinds {
    use crate::disk_file::Syncs;
    use std::snapshot::Snapshot;

    /// What was asked of a file.
    #[derive(Clone, Copy)]
    pub enum Call {
        /// To read all from a place on, as it is now. It was done.
        Look(usize),
        /// To read all from a place on once more. It was done.
        Read(usize),
        /// To be opened once more by its path, and to read all of it. It was done, and it was the same file.
        OpenAgain,
        /// To write bytes from a place on.
        Write(usize),
        /// To write all bytes again, as they are, after a sync that failed. Whether it was done is not told.
        Again,
        /// To end after so many bytes.
        Cut(usize),
        /// To be on the disk as it reads then, or to be left to the system. It was done.
        Settle(Syncs),
        /// To hold other bytes, all at once, which are on the disk then, or are left to the system. It was done.
        Replaced(Syncs),
        /// The same. It failed.
        NotReplaced,
    }

    /// A call, what a read returned before it, and the bytes that were read or written, if any were. Only clauses read it.
    #[derive(Drop)]
    pub struct Noted {
        pub call: Call,
        pub before: Snapshot<Vec<u8>>,
        pub bytes: Snapshot<Vec<u8>>,
    }
}

/// The calls that a file got, oldest first.
#[derive(Drop)]
pub struct Calls {
    noted: Vec<Snapshot<Noted>>,
}

/// All bytes of a file from a place on, with room for so many.
fn read_bytes<F: Read + Seek>(
    alloc: Global,
    file: &mut F,
    place: usize,
    room: usize,
) -> io::Result<Vec<u8>> {
    file.seek(SeekFrom::Start(place as u64))?;
    let mut bytes = Vec::with_capacity(alloc, room)?;
    file.read_to_end(&mut bytes)?;
    Ok(bytes)
}

/// What a journal's file has from a place on. It is likely as much as it had there before.
fn fetch<F: Read + Seek>(
    alloc: Global,
    file: &mut F,
    place: usize,
    before: &[u8],
) -> Result<Vec<u8>, FileFault>
    requires { place ≤ length before.now }
{
    let room = (before.len() - place).saturating_add(64);
    let read = read_bytes(alloc, file, place, room);
    read.map_err(|error| failed(Action::Read, &error))
}

fn write_bytes<F: Write + Seek>(file: &mut F, place: usize, bytes: &[u8]) -> io::Result<()> {
    file.seek(SeekFrom::Start(place as u64))?;
    file.write_all(bytes)
}

/// The fault of a call of the journal's file.
fn failed(action: Action, error: &io::Error) -> FileFault {
    FileFault::of(action, Target::Journal, error)
}

/// Gives the path of a journal to the new file beside it, and waits until that is on the disk.
fn put_in_place<R: Files>(
    rt: &R,
    names: &FolderNames<R::File>,
    paths: &Paths,
) -> Result<(), FileFault> {
    let renamed = fs::rename(rt, paths.new_journal.as_str(), paths.journal.as_str());
    renamed.map_err(|error| FileFault::of(Action::Rename, Target::NewJournal, &error))?;
    let synced = names.sync();
    synced.map_err(|error| FileFault::of(Action::Sync, Target::Folder, &error))
}

impl Calls {
    /// None yet.
    pub(crate) fn new(alloc: Global) -> Self
        ensures { result.noted.items ≡ [] }
    {
        Calls {
            noted: Vec::new(alloc),
        }
    }

    /// Adds a call, which takes no memory.
    fn note(
        &mut self,
        call: Call,
        before: Snapshot<Vec<u8>>,
        bytes: Snapshot<Vec<u8>>,
    ) -> Result<(), AllocError>
        ensures ok { OnOk result (IsNoted call before.value.items bytes.value.items self.old.noted.items self.new.noted.items) }
        ensures err { OnErr result (self.new.noted.items ≡ self.old.noted.items) }
    {
        let noted = Noted {
            call,
            before,
            bytes,
        };
        self.noted.push(Snapshot::of(&noted))?;
        Ok(())
    }

    /// Reads what the file has from a place on, which is what it is believed to have from then on.
    pub(crate) fn look<F: Read + Seek>(
        &mut self,
        file: &mut F,
        _lock: &FolderLock,
        alloc: Global,
        place: usize,
        before: &Vec<u8>,
    ) -> Result<Vec<u8>, FileFault>
        requires { place ≤ length before.now.items }
        ensures ok { IfOk result (λ read. IsNoted (Look place) before.now.items read.items self.old.noted.items self.new.noted.items) }
        ensures err { OnErr result (self.new.noted.items ≡ self.old.noted.items) }
    {
        let read = fetch(alloc, file, place, before)?;
        self.note(Call::Look(place), Snapshot::of(before), Snapshot::of(&read))?;
        Ok(read)
    }

    /// Reads what the file has from a place on once more.
    pub(crate) fn read<F: Read + Seek>(
        &mut self,
        file: &mut F,
        _lock: &FolderLock,
        alloc: Global,
        place: usize,
        before: &Vec<u8>,
    ) -> Result<Vec<u8>, FileFault>
        requires { place ≤ length before.now.items }
        ensures ok { IfOk result (λ read. IsNoted (Read place) before.now.items read.items self.old.noted.items self.new.noted.items) }
        ensures err { OnErr result (self.new.noted.items ≡ self.old.noted.items) }
    {
        let read = fetch(alloc, file, place, before)?;
        self.note(Call::Read(place), Snapshot::of(before), Snapshot::of(&read))?;
        Ok(read)
    }

    /// Opens once more the file that has a path, and reads all of it. An error if it is another one than this.
    pub(crate) fn open_again<R: Files>(
        &mut self,
        rt: &R,
        path: &str,
        file: &R::File,
        _lock: &FolderLock,
        alloc: Global,
        before: &Vec<u8>,
    ) -> Result<(R::File, Vec<u8>), FileFault>
        ensures ok { IfOk result (λ opened. IsNoted OpenAgain before.now.items opened.1.items self.old.noted.items self.new.noted.items) }
        ensures err { OnErr result (self.new.noted.items ≡ self.old.noted.items) }
    {
        let mut opened = open_file(rt, path)?;
        if !is_same_file(&opened, file)? {
            return Err(READS_OTHERWISE);
        }
        let read = fetch(alloc, &mut opened, 0, before)?;
        self.note(Call::OpenAgain, Snapshot::of(before), Snapshot::of(&read))?;
        Ok((opened, read))
    }

    /// Writes bytes from a place on. It is noted first, since a call that fails may have written some of them.
    pub(crate) fn write<F: Write + Seek>(
        &mut self,
        file: &mut F,
        lock: &FolderLock,
        place: usize,
        bytes: &Vec<u8>,
        before: &Vec<u8>,
    ) -> Result<(), FileFault>
        requires lock { lock.now.kind ≡ Exclusive }
        ensures ok { OnOk result (IsNoted (Write place) before.now.items bytes.now.items self.old.noted.items self.new.noted.items) }
        ensures err { OnErr result (IsNotedOrNot (Write place) before.now.items bytes.now.items self.old.noted.items self.new.noted.items) }
    {
        self.note(
            Call::Write(place),
            Snapshot::of(before),
            Snapshot::of(bytes),
        )?;
        let written = write_bytes(file, place, bytes);
        written.map_err(|error| failed(Action::Write, &error))
    }

    /// Cuts off what stands behind the first `size` bytes. It is noted first.
    pub(crate) fn cut<F: OpenFile>(
        &mut self,
        file: &F,
        lock: &FolderLock,
        size: usize,
        before: &Vec<u8>,
    ) -> Result<(), FileFault>
        requires lock { lock.now.kind ≡ Exclusive }
        ensures ok { OnOk result (IsNoted (Cut size) before.now.items before.now.items self.old.noted.items self.new.noted.items) }
        ensures err { OnErr result (IsNotedOrNot (Cut size) before.now.items before.now.items self.old.noted.items self.new.noted.items) }
    {
        self.note(Call::Cut(size), Snapshot::of(before), Snapshot::of(before))?;
        let cut = file.set_len(size as u64);
        cut.map_err(|error| failed(Action::Cut, &error))
    }

    /// Waits until the file is on the disk: fsync(2).
    fn sync<F: OpenFile>(
        &mut self,
        file: &F,
        lock: &FolderLock,
        before: &Vec<u8>,
    ) -> Result<(), FileFault>
        requires lock { lock.now.kind ≡ Exclusive }
        ensures ok { OnOk result (IsNoted (Settle Kept) before.now.items before.now.items self.old.noted.items self.new.noted.items) }
        ensures err { OnErr result (self.new.noted.items ≡ self.old.noted.items) }
    {
        let synced = file.sync_all();
        synced.map_err(|error| failed(Action::Sync, &error))?;
        self.note(
            Call::Settle(Syncs::Kept),
            Snapshot::of(before),
            Snapshot::of(before),
        )?;
        Ok(())
    }

    /// Leaves it to the system when the file comes to the disk.
    fn leave(&mut self, before: &Vec<u8>) -> Result<(), FileFault>
        ensures ok { OnOk result (IsNoted (Settle LeftOut) before.now.items before.now.items self.old.noted.items self.new.noted.items) }
        ensures err { OnErr result (self.new.noted.items ≡ self.old.noted.items) }
    {
        self.note(
            Call::Settle(Syncs::LeftOut),
            Snapshot::of(before),
            Snapshot::of(before),
        )?;
        Ok(())
    }

    /// Waits until the file is on the disk, unless `syncs` leaves that out.
    pub(crate) fn settle<F: OpenFile>(
        &mut self,
        file: &F,
        lock: &FolderLock,
        syncs: Syncs,
        before: &Vec<u8>,
    ) -> Result<(), FileFault>
        requires lock { lock.now.kind ≡ Exclusive }
        ensures ok { OnOk result (IsNoted (Settle syncs) before.now.items before.now.items self.old.noted.items self.new.noted.items) }
        ensures err { OnErr result (self.new.noted.items ≡ self.old.noted.items) }
    {
        match syncs {
            Syncs::Kept => self.sync(file, lock, before),
            Syncs::LeftOut => self.leave(before),
        }
    }

    /// Writes all bytes of a file again, as they are, after a sync that failed: the system may take for written what did not
    /// come to the disk, and then the next sync, whoever makes it, would write nothing, and succeed.
    pub(crate) fn write_again<F: Write + Seek>(
        &mut self,
        file: &mut F,
        lock: &FolderLock,
        before: &Vec<u8>,
    ) -> Result<(), AllocError>
        requires lock { lock.now.kind ≡ Exclusive }
        ensures ok { OnOk result (IsNoted Again before.now.items before.now.items self.old.noted.items self.new.noted.items) }
        ensures err { OnErr result (self.new.noted.items ≡ self.old.noted.items) }
    {
        let _ = write_bytes(file, 0, before);
        self.note(Call::Again, Snapshot::of(before), Snapshot::of(before))
    }

    /// Gives a journal's path to a new file, and waits until that is on the disk, unless `names` leaves it out. It is noted as a
    /// failed replacement if either failed: then a crash leaves the one file or the other. The new file is on the disk before.
    pub(crate) fn replace<R: Files>(
        &mut self,
        rt: &R,
        lock: &FolderLock,
        names: &FolderNames<R::File>,
        new: &NewFile<R::File>,
        paths: &Paths,
        before: &Vec<u8>,
    ) -> Result<(), FileFault>
        requires lock { lock.now.kind ≡ Exclusive }
        requires synced { IsSynced new.now.bytes.items new.now.calls.noted.items }
        ensures ok { OnOk result (IsNoted (Replaced names.now.syncs) before.now.items new.now.bytes.items self.old.noted.items self.new.noted.items) }
        ensures err { OnErr result (IsNotedOrNot NotReplaced before.now.items new.now.bytes.items self.old.noted.items self.new.noted.items) }
    {
        match put_in_place(rt, names, paths) {
            Ok(()) => {
                let call = Call::Replaced(names.syncs());
                self.note(call, Snapshot::of(before), Snapshot::of(&new.bytes))?;
                Ok(())
            }
            Err(fault) => {
                self.note(
                    Call::NotReplaced,
                    Snapshot::of(before),
                    Snapshot::of(&new.bytes),
                )?;
                Err(fault)
            }
        }
    }
}
