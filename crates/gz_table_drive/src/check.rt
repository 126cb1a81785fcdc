//! What stands in a folder.
ghost use Rattle.std.specs.Prelude.{◌≡◌, ◌++◌, IfOk, OnOk};
ghost use Rattle.durable_table.specs.Tables.{table_of};
ghost use Rattle.gz_table_drive.specs.Counted.{count_line, counts_text, AreCounted};

use crate::reading::copy_of;
use file_journal::LockKind;
use itoa::Buffer;
use line_journal::{Found, KillOnly, look};
use seq_table::Modules;
use std::alloc::{AllocError, Global};
use std::fs::File;
use std::rt::Files;
use std::time::Clock;
use table_folder::{FolderSetup, Shared, TableFault, cut_length, read_journal, read_setup};

/// What `check` counts.
#[derive(Clone, Copy, Default)]
pub(crate) struct Counts {
    /// Modules of the catalogue.
    modules: usize,
    /// Modules in the table.
    loaded: usize,
    holders: usize,
    /// Lines of the journal, with the first.
    lines: usize,
    /// Bytes behind them which a crash left.
    torn: usize,
    /// Bytes in the file of what was cut off.
    cut: u64,
}

/// Adds a line of a word and a number.
fn push_count(text: &mut Vec<u8>, word: &[u8], count: u64) -> Result<(), AllocError>
    ensures { OnOk result (text.new.items ≡ text.old.items ++ count_line word.now count) }
{
    text.extend_from_slice(word)?;
    text.push(b' ')?;
    text.extend_from_slice(Buffer::new().format(count).as_bytes())?;
    text.push(b'\n')?;
    Ok(())
}

impl Counts {
    /// What is written of them, a word and a number each line.
    pub(crate) fn text(&self, alloc: Global) -> Result<Vec<u8>, AllocError>
        ensures { IfOk result (λ text. text.items ≡ counts_text self.now) }
    {
        let mut text = Vec::new(alloc);
        push_count(&mut text, b"modules", self.modules as u64)?;
        push_count(&mut text, b"loaded", self.loaded as u64)?;
        push_count(&mut text, b"holders", self.holders as u64)?;
        push_count(&mut text, b"lines", self.lines as u64)?;
        push_count(&mut text, b"torn", self.torn as u64)?;
        push_count(&mut text, b"cut", self.cut)?;
        Ok(text)
    }
}

/// How many modules, and how many holders, the table has that a journal's bytes stand for.
fn count_table(
    alloc: Global,
    setup: &FolderSetup,
    bytes: Vec<u8>,
) -> Result<(usize, usize), TableFault>
    ensures { IfOk result (AreCounted (table_of setup.now.setup bytes.items)) }
{
    let table = copy_of(alloc, setup, bytes)?;
    let holders = table.session().holders();
    Ok((holders.loaded(), holders.holders()))
}

/// What stands in the journal's file.
fn found_in(alloc: Global, bytes: &[u8]) -> Result<Found, TableFault> {
    let mut device = KillOnly::new(alloc, bytes.to_vec(alloc)?);
    match look(alloc, &mut device) {
        Ok(found) => Ok(found),
        Err(_) => Err(TableFault::OutOfMemory),
    }
}

/// Reads all files of a folder, with their sums, and counts what stands there. Nothing is written.
pub(crate) fn check<R: Files<File = File> + Clock + AllocGlobal>(
    shared: &Shared<'_, R>,
) -> Result<Counts, TableFault> {
    let alloc = shared.alloc();
    let setup = read_setup(shared)?;
    let lock = shared.with_setup(&setup).lock(LockKind::Shared)?;
    let (bytes, _) = read_journal(shared, &lock)?;
    let cut = cut_length(shared)?;
    lock.release();
    let (loaded, holders) = count_table(alloc, &setup, bytes.to_vec(alloc)?)?;
    let found = found_in(alloc, &bytes)?;
    Ok(Counts {
        modules: setup.setup.catalogue().len(),
        loaded,
        holders,
        lines: found.lines.len(),
        torn: if found.is_at_rest() {
            0
        } else {
            found.behind.len()
        },
        cut,
    })
}
