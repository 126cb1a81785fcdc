//! A new table: how its setup is made, and how its folder, its lock and its setup are written.
ghost use Rattle.std.specs.Prelude.{codes, IfOk, IfErr};
ghost use Rattle.table_folder.specs.Faults.{IsNoFolder, IsTold, IsUnlocked, IsUnwritten};
ghost use Rattle.table_folder.specs.Setups.{IsNewSetup};

use crate::fault::{TableFault, unlocked, unwritten};
use crate::machine::sections_of_machine;
use crate::notices::tell_otherwise;
use crate::rights::{create_file, create_folder, set_rights};
use crate::sections::named_sections;
use crate::setup::setup_of;
use crate::shared::{LOCK, SETUP, Shared};
use crate::teller::Teller;
use file_journal::{Cause, Syncs, create_private};
use kmod_version::Kmod;
use modprobe::AliasForm;
use modprobe_files::TextFile;
use program_frame::is_folder;
use std::env::Env;
use std::fs::{self, File, OpenFile};
use std::io::{self, ErrorKind, Write};
use std::rt::Files;
use std::time::Clock;
use table_setup::seal;
use table_words::{Machine, Origin};

/// The version of kmod as which a machine's files are read: the newest, if none is named.
fn kmod_of<E: Write>(machine: Machine<'_>, teller: &mut Teller<'_, E>) -> Result<Kmod, TableFault>
    ensures { IfErr result IsTold }
{
    let Some(number) = machine.kmod else {
        return Ok(Kmod::Version34);
    };
    match Kmod::of(number) {
        Some(kmod) => Ok(kmod),
        None => Err(teller.say("bad --as", number, "give 30 or 34")),
    }
}

/// The sections of a new table. The files of a machine's configuration are put into `files`.
fn sections_of<R: Files + Env + AllocGlobal, E: Write>(
    rt: &R,
    origin: Origin<'_, '_>,
    files: &mut Vec<TextFile>,
    teller: &mut Teller<'_, E>,
) -> Result<Vec<u8>, TableFault>
    ensures { IfErr result IsTold }
{
    match origin {
        Origin::Sections(words) => named_sections(rt, words, teller),
        Origin::Host(machine) => {
            let kmod = kmod_of(machine, teller)?;
            match sections_of_machine(rt, machine, kmod, files, teller.errors())? {
                Some(text) => Ok(text),
                None => Err(TableFault::Told),
            }
        }
    }
}

/// The bytes of the setup of a new table: the sections that words name, or a machine's, and a last line with their length and
/// their sum. Words that name none, files that cannot be read, and sections that say what they may not are told, and refused.
/// Lines of a machine's modprobe.d that the table reads otherwise than modprobe(8) are told.
pub fn new_setup<R: Files + Env + AllocGlobal, E: Write>(
    rt: &R,
    origin: Origin<'_, '_>,
    teller: &mut Teller<'_, E>,
) -> Result<Vec<u8>, TableFault>
    ensures setup { IfOk result (λ bytes. IsNewSetup bytes.items) }
    ensures fault { IfErr result IsTold }
{
    let mut files = Vec::new(rt.alloc());
    let text = sections_of(rt, origin, &mut files, teller)?;
    match setup_of(rt.alloc(), &text, AliasForm::Text) {
        Ok(setup) => tell_otherwise(rt.alloc(), &setup, &files, teller)?,
        Err(fault) => return Err(teller.refused_sections(fault)),
    }
    Ok(seal(text)?)
}

/// Makes the folder, of this mode. Another process that makes the same table may have made it meanwhile: then it stays as it is.
fn new_folder<R: Files<File = File> + Clock + AllocGlobal>(
    shared: &Shared<'_, R>,
    mode: u32,
) -> io::Result<()> {
    match create_folder(shared.rt, shared.folder, mode) {
        Err(error)
            if error.kind() == ErrorKind::AlreadyExists && is_folder(shared.rt, shared.folder) => {
            Ok(())
        }
        made => made,
    }
}

/// Makes the folder, of this mode, if there is none, and brings its name to the disk: whoever made it may have been killed
/// before that.
fn put_folder<R: Files<File = File> + Clock + AllocGlobal>(
    shared: &Shared<'_, R>,
    mode: u32,
) -> io::Result<()> {
    if !is_folder(shared.rt, shared.folder) {
        new_folder(shared, mode)?;
    }
    shared.sync_names(&shared.path("..")?, Syncs::Kept)
}

/// Makes the folder, of exactly this mode, if there is none of this path; one that is there keeps its mode. It is on the disk
/// then, also if `syncs` leaves the rest out: others may wait for what they write to the table. `NoFolder` with the cause if it
/// cannot be made.
pub fn make_folder<R: Files<File = File> + Clock + AllocGlobal>(
    shared: &Shared<'_, R>,
    mode: u32,
) -> Result<(), TableFault>
    ensures { IfErr result IsNoFolder }
{
    match put_folder(shared, mode) {
        Ok(()) => Ok(()),
        Err(error) => Err(TableFault::NoFolder(Cause::of(&error))),
    }
}

/// Makes the file of the folder's lock for those who may use a folder of this mode, if there is none. It has to be done before
/// it is locked: who has opened a file once may lock it for ever. `Lock` with the cause if it cannot be made.
pub fn make_lock<R: Files<File = File> + Clock + AllocGlobal>(
    shared: &Shared<'_, R>,
    mode: u32,
) -> Result<(), TableFault>
    ensures { IfErr result IsUnlocked }
{
    match create_file(shared.rt, &shared.path(LOCK)?, mode) {
        Err(error) if error.kind() != ErrorKind::AlreadyExists => Err(unlocked(&error)),
        _ => Ok(()),
    }
}

/// Writes a file anew, for those who may use a folder of this mode, and waits until it is on the disk.
fn write_file<R: Files>(rt: &R, path: &str, bytes: &[u8], mode: u32) -> io::Result<()> {
    let mut file = create_private(rt, path)?;
    set_rights(&file, mode)?;
    file.write_all(bytes)?;
    file.sync_all()
}

/// Writes the file of the setup, all at once.
fn put_setup<R: Files<File = File> + Clock + AllocGlobal>(
    shared: &Shared<'_, R>,
    bytes: &[u8],
    mode: u32,
) -> io::Result<()> {
    let early = shared.path("setup.new")?;
    write_file(shared.rt, &early, bytes, mode)?;
    fs::rename(shared.rt, &early, &shared.path(SETUP)?)?;
    shared.sync_names(shared.folder, Syncs::Kept)
}

/// Writes the setup of the folder, all at once, for those who may use a folder of this mode: a crash leaves the whole of it, or
/// none. It is on the disk then, also if `syncs` leaves the rest out. `Unwritten` with the cause if it cannot be written.
pub fn write_setup<R: Files<File = File> + Clock + AllocGlobal>(
    shared: &Shared<'_, R>,
    bytes: &[u8],
    mode: u32,
) -> Result<(), TableFault>
    ensures { IfErr result (IsUnwritten (codes "setup")) }
{
    match put_setup(shared, bytes, mode) {
        Ok(()) => Ok(()),
        Err(error) => Err(unwritten(SETUP, &error)),
    }
}
