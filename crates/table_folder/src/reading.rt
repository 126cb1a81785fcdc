//! How the files of a folder are read.
ghost use Rattle.std.specs.Prelude.{◌≡◌, ℕ, List, codes, IfOk, IfErr};
ghost use Rattle.table_folder.specs.Faults.{IsNoSetup, IsUnread};
ghost use Rattle.table_folder.specs.Setups.{IsReadFrom};

use crate::alias_form::form_for;
use crate::fault::TableFault;
use crate::folder_setup::FolderSetup;
use crate::mark::FileMark;
use crate::shared::{JOURNAL, SETUP, Shared};
use crate::sight::Sight;
use file_journal::{Cause, FolderLock};
use modprobe::AliasForm;
use std::fs::{File, OpenFile};
use std::io::{self, ErrorKind, Read};
use std::mem::ManuallyDrop;
use std::rt::Files;
use std::time::Clock;

/// How many bytes of a file are read at a time.
const PIECE: usize = 65_536;

/// All bytes of a file, and which one it was.
#[derive(Drop)]
struct ReadFile {
    bytes: Vec<u8>,
    mark: FileMark,
}

/// All bytes of the file of a path. Room for what it has is taken at once, and it is read in pieces, which takes less time than
/// `read_to_end`.
fn read_path<R: Files<File = File> + AllocGlobal>(rt: &R, path: &str) -> io::Result<ReadFile> {
    let mut file = File::open(rt, path)?;
    let known = file.metadata()?;
    let room = usize::try_from(known.len()).unwrap_or(0);
    let mut bytes = Vec::with_capacity(rt.alloc(), room)?;
    let mut piece = vec![in rt.alloc(); 0; PIECE]?;
    for _ in 0..u64::MAX {
        match file.read(&mut piece) {
            Ok(0) => break,
            Ok(count) => bytes.extend_from_slice(&piece[..count])?,
            Err(error) if error.kind() == ErrorKind::Interrupted => {}
            Err(error) => return Err(error),
        }
    }
    let mark = FileMark::of(&known);
    Ok(ReadFile { bytes, mark })
}

/// Whether a file is not there, for this cause: also if something else than a folder stands before it.
fn is_missing(cause: Cause) -> bool {
    matches!(
        cause,
        Cause::NotThere | Cause::Other(ErrorKind::NotADirectory, _)
    )
}

/// All bytes of a file of the folder.
fn read_file<R: Files<File = File> + Clock + AllocGlobal>(
    shared: &Shared<'_, R>,
    name: &'static str,
) -> Result<ReadFile, TableFault>
    ensures { IfErr result (IsUnread name.now) }
{
    let path = shared.path(name)?;
    match read_path(shared.rt, &path) {
        Ok(read) => Ok(read),
        Err(error) => match Cause::of(&error) {
            Cause::OutOfMemory => Err(TableFault::OutOfMemory),
            why if is_missing(why) && name == SETUP => Err(TableFault::NoTable),
            why if is_missing(why) && name == JOURNAL => Err(TableFault::NoJournal),
            why => Err(TableFault::Unread(name, why)),
        },
    }
}

/// All bytes of the folder's journal, as they are now: others may be writing to it. `NoJournal` if there is none, and `Unread`
/// with the cause if it cannot be read.
pub(crate) fn journal_now<R: Files<File = File> + Clock + AllocGlobal>(
    shared: &Shared<'_, R>,
) -> Result<Vec<u8>, TableFault>
    ensures { IfErr result (IsUnread (codes "journal")) }
{
    let read = read_file(shared, JOURNAL)?;
    Ok(read.bytes)
}

/// All bytes of the folder's journal, under the folder's lock, and the sight of them. `NoJournal` if there is none, and `Unread`
/// with the cause if it cannot be read.
pub fn read_journal<R: Files<File = File> + Clock + AllocGlobal>(
    shared: &Shared<'_, R>,
    lock: &FolderLock,
) -> Result<(Vec<u8>, Sight), TableFault>
    ensures sight { IfOk result (λ read. read.1.bytes.value ≡ read.0) }
    ensures fault { IfErr result (IsUnread (codes "journal")) }
{
    let bytes = journal_now(shared)?;
    let sight = Sight::of_copy(&bytes, lock);
    Ok((bytes, sight))
}

/// What the table of the folder was made of, for many lines. It is kept until the process ends, which takes less time than to
/// give back each part of it.
///
/// `NoTable` if the folder has no setup, `CutSetup` if it does not end with a last line of its length, `ChangedSetup` if it has
/// another sum than that line says, `Sections` if its text is no setup, and `Unread` with the cause if it cannot be read.
pub fn read_setup<R: Files<File = File> + Clock + AllocGlobal>(
    shared: &Shared<'_, R>,
) -> Result<ManuallyDrop<FolderSetup>, TableFault>
    ensures found { IfOk result (λ found. (bytes : List ℕ) × IsReadFrom bytes found.value) }
    ensures fault { IfErr result IsNoSetup }
{
    let read = read_file(shared, SETUP)?;
    let setup = FolderSetup::read(shared.alloc(), read.bytes, read.mark, AliasForm::Table)?;
    Ok(ManuallyDrop::new(setup))
}

/// What the table of the folder was made of, for a command of these words: as `read_setup`, but its aliases may be kept as
/// text, if few names are to be looked up among them.
pub fn read_setup_for_command<R: Files<File = File> + Clock + AllocGlobal>(
    shared: &Shared<'_, R>,
    words: &[&[u8]],
) -> Result<ManuallyDrop<FolderSetup>, TableFault>
    ensures found { IfOk result (λ found. (bytes : List ℕ) × IsReadFrom bytes found.value) }
    ensures fault { IfErr result IsNoSetup }
{
    let alloc = shared.alloc();
    let read = read_file(shared, SETUP)?;
    let found = FolderSetup::read(alloc, read.bytes, read.mark, AliasForm::Text)?;
    match form_for(shared, &found.setup, words)? {
        AliasForm::Text => Ok(ManuallyDrop::new(found)),
        AliasForm::Table => Ok(ManuallyDrop::new(found.in_form(alloc, AliasForm::Table)?)),
    }
}
