//! Where people are told why a run ends, and how it ends then.
ghost use Rattle.std.specs.Prelude.{◌≡◌, false};
ghost use Rattle.table_folder.specs.declared.fault.TableFault.TheVariants.{Told, Kept};
ghost use Rattle.table_folder.specs.Faults.{ending_of_fault, IsTold};

use crate::causes::{Unread, Unwritten};
use crate::fault::{Damage, TableFault};
use crate::locker::Locker;
use crate::notices::Otherwise;
use crate::pair::Pair;
use crate::setup::SectionsFault;
use crate::shared::CUT;
use crate::uses::Names;
use file_journal::{Cause, FileFault, LockError, Target};
use line_journal::Found;
use program_frame::{PathFault, Shown};
use std::io::{self, Write};
use table_adopt::KernelFault;
use table_words::Ending;

/// The stream for errors. If it fails, nobody is told.
#[derive(Drop)]
pub struct Teller<'e, E> {
    errors: &'e mut E,
}

/// Who may do what was not allowed.
fn advice_on_rights(target: Target) -> &'static str {
    match target {
        Target::Journal => "; run it as one who may write to the journal and to the folder",
        Target::NewJournal =>
            "; run it as root, or as the journal's owner, who may write to the folder",
        Target::Folder => "; run it as one who may list the folder, and write to it",
        Target::Lock => "; run it as one who may read the lock, and make it in the folder",
    }
}

/// What may be done about a fault.
fn advice_on(fault: FileFault) -> &'static str {
    match fault.cause {
        Cause::NotAllowed => advice_on_rights(fault.target),
        Cause::ReadOnly => "; mount it for writing, or make the table in another folder",
        Cause::Full => "; free some room and ask again: what was answered is kept",
        Cause::NotThere => "; restore it, or make the table in another folder",
        Cause::ReadsOtherwise => "; another program writes to it: check says what stands there",
        _ => "",
    }
}

impl<'e, E: Write> Teller<'e, E> {
    /// Tells people on this stream.
    pub fn new(errors: &'e mut E) -> Teller<'e, E>
        ensures same_stream { result.errors.ghost_name ≡ errors.entry.ghost_name }
        ensures stream { result.errors.now ≡ errors.old }
    {
        Teller { errors }
    }

    /// The stream itself.
    pub fn errors(&mut self) -> &mut E
        ensures { result.now ≡ self.old.errors.now }
    {
        self.errors
    }

    /// What is said of some bytes that the words have.
    pub fn say(&mut self, what: &str, bytes: &[u8], advice: &str) -> TableFault
        ensures { result ≡ Told }
    {
        let bytes = Shown(bytes);
        let _ = writeln!(self.errors, "gz-table: {what} {bytes}: {advice}");
        TableFault::Told
    }

    /// A path that the words name is not read.
    pub(crate) fn unread(&mut self, path: &str, why: PathFault) -> TableFault
        ensures { IsTold result }
    {
        if why == PathFault::Memory {
            return TableFault::OutOfMemory;
        }
        let _ = writeln!(self.errors, "gz-table: cannot read {path}: {why}");
        TableFault::Told
    }

    /// The same, by the error of the system.
    pub(crate) fn unread_for(&mut self, path: &str, error: &io::Error) -> TableFault
        ensures { IsTold result }
    {
        match Cause::of(error) {
            Cause::OutOfMemory => TableFault::OutOfMemory,
            cause => {
                let why = Unread(cause);
                let _ = writeln!(self.errors, "gz-table: cannot read {path}: {why}");
                TableFault::Told
            }
        }
    }

    /// A path that the words name is no regular file.
    pub(crate) fn no_file(&mut self, path: &str) -> TableFault
        ensures { result ≡ Told }
    {
        let _ = writeln!(
            self.errors,
            "gz-table: {path} is no regular file: name one, or give its lines on standard input, for -"
        );
        TableFault::Told
    }

    /// A file does not list a kernel's modules.
    pub(crate) fn no_listing(&mut self, fault: KernelFault) -> TableFault
        ensures { result ≡ Told }
    {
        let _ = writeln!(
            self.errors,
            "gz-table: these are no lines of /proc/modules: {fault}; nothing was done"
        );
        TableFault::Told
    }

    /// The folder has something else in the place of one of its files.
    pub(crate) fn other_than_file(&mut self, folder: &str, name: &str) -> TableFault
        ensures { result ≡ Told }
    {
        let advice = if name.ends_with(".new") || name == CUT {
            "remove it"
        } else {
            "restore it, or make the table in another folder"
        };
        let _ = writeln!(
            self.errors,
            "gz-table: {folder}/{name} is no regular file, and nothing was done: {advice}"
        );
        TableFault::Told
    }

    /// What stood behind the journal's lines is cut off.
    pub fn repaired(&mut self, folder: &str, cut: &Found)
        ensures { self.new.errors.ghost_name ≡ self.old.errors.ghost_name }
    {
        let (lines, bytes) = (cut.open_gates_behind(), cut.behind.len());
        let _ = writeln!(
            self.errors,
            "gz-table: {folder}/journal: {bytes} bytes after its lines are cut off and kept in {folder}/journal.cut; {lines} lines that counted are undone: see lsmod and held"
        );
    }

    /// So many bytes behind the journal's lines are cut off. If there are none, nothing is told.
    pub fn cut(&mut self, folder: &str, bytes: usize)
        ensures same_stream { self.new.errors.ghost_name ≡ self.old.errors.ghost_name }
        ensures silent { bytes ≡ 0 → self.new ≡ self.old }
    {
        if bytes > 0 {
            let _ = writeln!(
                self.errors,
                "gz-table: {folder}/journal: a crash left {bytes} bytes after its lines, which are cut off and kept in {folder}/journal.cut"
            );
        }
    }

    /// So many bytes behind the journal's lines are cut off, and there was no room to keep them.
    pub fn cut_unkept(&mut self, folder: &str, bytes: usize)
        ensures { self.new.errors.ghost_name ≡ self.old.errors.ghost_name }
    {
        let _ = writeln!(
            self.errors,
            "gz-table: {folder}/journal: a crash left {bytes} bytes after its lines, which are cut off; {folder}/journal.cut has no room for them, since the disk is full"
        );
    }

    /// The journal is not written anew, and is as it was.
    pub fn kept(&mut self, folder: &str) -> TableFault
        ensures { result ≡ Kept }
    {
        let _ = writeln!(
            self.errors,
            "gz-table: {folder}/journal is as it was: no shorter lines were found that make its table; go on with it"
        );
        TableFault::Kept
    }

    /// The table does not get another setup: its modules would be others by that.
    pub fn not_renewed(&mut self, folder: &str) -> TableFault
        ensures { result ≡ Told }
    {
        let _ = writeln!(
            self.errors,
            "gz-table: {folder}: by the new setup the modules of the table would be others: one of them is not in it, or needs a module there that is not live, or came later; nothing was changed"
        );
        TableFault::Told
    }

    /// So many lines were too long. If none was, nothing is told.
    pub fn too_long(&mut self, lines: u64)
        ensures same_stream { self.new.errors.ghost_name ≡ self.old.errors.ghost_name }
        ensures silent { lines ≡ 0 → self.new ≡ self.old }
    {
        if lines > 0 {
            let _ = writeln!(
                self.errors,
                "gz-table: {lines} lines have more than 65,535 bytes, and were refused: write shorter ones"
            );
        }
    }

    /// The last line was refused, since it has no end. If it was not, nothing is told.
    pub fn unended(&mut self, refused: bool)
        ensures same_stream { self.new.errors.ghost_name ≡ self.old.errors.ghost_name }
        ensures silent { refused ≡ false → self.new ≡ self.old }
    {
        if refused {
            let _ = writeln!(
                self.errors,
                "gz-table: the last line has no line feed, and was refused, since it may be half of one: end it with a line feed"
            );
        }
    }

    /// The sections of a new table are refused.
    pub(crate) fn refused_sections(&mut self, fault: SectionsFault) -> TableFault
        ensures { IsTold result }
    {
        match fault {
            SectionsFault::Memory => return TableFault::OutOfMemory,
            SectionsFault::Setup(fault) => {
                let _ = writeln!(
                    self.errors,
                    "gz-table: the sections are refused: {fault}; modsh --lint says more of them"
                );
            }
            SectionsFault::Session => {
                let _ = writeln!(
                    self.errors,
                    "gz-table: the sections are refused: a line %session stands among them"
                );
            }
        }
        TableFault::Told
    }

    /// A line of modprobe.d is read otherwise than modprobe(8) reads it.
    pub(crate) fn otherwise(&mut self, path: &[u8], number: usize, line: &[u8], why: Otherwise) {
        let (path, line) = (Shown(path), Shown(line));
        let _ = writeln!(
            self.errors,
            "gz-table: NOTICE: {path}, line {number}: {line}: {why}"
        );
    }

    /// So many lines more are read otherwise. If there are none, nothing is told.
    pub(crate) fn more_otherwise(&mut self, count: usize)
        ensures { count ≡ 0 → self.new ≡ self.old }
    {
        if count > 0 {
            let _ = writeln!(
                self.errors,
                "gz-table: NOTICE: {count} more lines are read otherwise than modprobe reads them: see gz-table(8)"
            );
        }
    }

    /// A module is in use: who holds it, and which modules need it. If nobody does, nothing is told.
    pub fn in_use(&mut self, name: &[u8], holders: &[&[u8]], users: &[&[u8]])
        ensures same_stream { self.new.errors.ghost_name ≡ self.old.errors.ghost_name }
    {
        let name = Shown(name);
        if !holders.is_empty() {
            let names = Names(holders);
            let _ = writeln!(self.errors, "gz-table: {name} is held by {names}");
        }
        if !users.is_empty() {
            let names = Names(users);
            let _ = writeln!(self.errors, "gz-table: {name} is needed by {names}");
        }
    }

    /// Another process has had the lock for all the time that was waited, in seconds.
    pub(crate) fn locked(&mut self, folder: &str, wait: u32, locker: &Locker) -> Ending
        ensures { result ≡ Ending.Locked }
    {
        let _ = writeln!(
            self.errors,
            "gz-table: {folder}: another process has held the table for {wait} seconds: {locker}; ask again, or wait longer with --wait"
        );
        Ending::Locked
    }

    /// The journal names another setup than the folder has.
    pub(crate) fn other(&mut self, folder: &str, pair: &Pair) -> Ending
        ensures { result ≡ Ending.Unasked }
    {
        let (named, found) = (Shown(&pair.named), Shown(&pair.found));
        let _ = writeln!(
            self.errors,
            "gz-table: {folder}/journal is of the setup {named}, and {folder}/setup is {found}: one of the two is of another table, or older; nothing was done: restore the one that goes with the other, or make the table in another folder"
        );
        Ending::Unasked
    }

    fn tell_lock(&mut self, folder: &str, wait: u32, error: LockError) {
        let _ = match error {
            LockError::Held => writeln!(
                self.errors,
                "gz-table: {folder}: another process has held the table for {wait} seconds; ask again, or wait longer with --wait"
            ),
            LockError::Failed(fault) => return self.tell_file(folder, fault),
            LockError::OutOfMemory => writeln!(self.errors, "gz-table: out of memory"),
        };
    }

    fn tell_file(&mut self, folder: &str, fault: FileFault) {
        let advice = advice_on(fault);
        let _ = writeln!(self.errors, "gz-table: {folder}: {fault}{advice}");
    }

    /// What is wrong with the files of a folder, and what to do.
    fn tell_folder(&mut self, folder: &str, fault: &TableFault) {
        let _ = match fault {
            TableFault::NoTable => writeln!(
                self.errors,
                "gz-table: there is no table in {folder}: make one with create --host, or restore the setup of one that was there; if GZ_TABLE is set, it names the folder, and no word does"
            ),
            TableFault::NoJournal => writeln!(
                self.errors,
                "gz-table: {folder}/journal is missing, and nothing was done: restore it, or make the table in another folder"
            ),
            TableFault::ThereAlready => writeln!(
                self.errors,
                "gz-table: {folder} has a table already: name another folder, or remove its files first"
            ),
            TableFault::UsedJournal => writeln!(
                self.errors,
                "gz-table: {folder}/journal has commands, but there is no setup, and nothing was done: restore {folder}/setup, or name another folder"
            ),
            TableFault::CutSetup => writeln!(
                self.errors,
                "gz-table: {folder}/setup was cut or changed; restore it, or make the table in another folder"
            ),
            TableFault::ChangedSetup => writeln!(
                self.errors,
                "gz-table: {folder}/setup was changed: its text has another sum than its last line says; restore it, or make the table in another folder"
            ),
            TableFault::MadeAnew => writeln!(
                self.errors,
                "gz-table: {folder}: the table was made anew, or taken away, since this run read its setup; what has no reply was not done: ask again"
            ),
            TableFault::Foreign => writeln!(
                self.errors,
                "gz-table: {folder}/journal has another first line than `gourzhiel journal 2`: it was changed, or it is no journal; nothing was done: restore that line, or make the table in another folder; if it is `gourzhiel journal 1`, tools/journal-2 brings the journal to version 2"
            ),
            TableFault::Other => writeln!(
                self.errors,
                "gz-table: {folder}/journal is of another setup than {folder}/setup; nothing was done: restore the one that goes with the other, or make the table in another folder"
            ),
            TableFault::Changed(line) => writeln!(
                self.errors,
                "gz-table: {folder}/journal, line {line}: it was changed, since its sum is another; nothing was done: restore the line, or make the table in another folder"
            ),
            TableFault::Damaged(Damage { line, lost }) => writeln!(
                self.errors,
                "gz-table: {folder}/journal, line {line}: its first byte was changed, and {lost} lines after it would be lost; nothing was done: restore the byte, or have check --repair keep them in journal.cut and go on without them"
            ),
            _ => Ok(()),
        };
    }

    /// Tells a fault, and answers how the run ends.
    pub fn end(&mut self, folder: &str, wait: u32, fault: TableFault) -> Ending
        ensures { result ≡ ending_of_fault fault }
    {
        let _ = match fault {
            TableFault::OutOfMemory => writeln!(self.errors, "gz-table: out of memory"),
            TableFault::Sections(why) => writeln!(
                self.errors,
                "gz-table: {folder}/setup is refused: {why}; restore it, or make the table in another folder"
            ),
            TableFault::Unread(name, why) => {
                let why = Unread(why);
                writeln!(self.errors, "gz-table: cannot read {folder}/{name}: {why}")
            }
            TableFault::NoFolder(why) => {
                let why = Unwritten(why);
                writeln!(
                    self.errors,
                    "gz-table: cannot make the folder {folder}: {why}"
                )
            }
            TableFault::Unwritten(name, why) => {
                let why = Unwritten(why);
                writeln!(self.errors, "gz-table: cannot write {folder}/{name}: {why}")
            }
            TableFault::Journal => writeln!(self.errors, "gz-table: {folder}/journal failed"),
            TableFault::Input => writeln!(self.errors, "gz-table: standard input was not read"),
            TableFault::Output => writeln!(
                self.errors,
                "gz-table: standard output was not written; changes until then are made: see lsmod and held"
            ),
            _ => Ok(()),
        };
        match fault {
            TableFault::Lock(error) => self.tell_lock(folder, wait, error),
            TableFault::File(fault) => self.tell_file(folder, fault),
            _ => self.tell_folder(folder, &fault),
        }
        fault.ending()
    }
}
