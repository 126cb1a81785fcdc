//! A journal and a setup that are not of one table.
ghost use Rattle.std.specs.Prelude.{◌≡◌};
ghost use Rattle.table_folder.specs.declared.fault.TableFault.TheVariants.{Other};
ghost use Rattle.table_folder.specs.Faults.{ending_of_fault};

use crate::fault::TableFault;
use crate::folder_setup::name_of_setup;
use crate::reading::journal_now;
use crate::shared::{SETUP, Shared};
use crate::teller::Teller;
use program_frame::read_path;
use std::alloc::Global;
use std::fs::File;
use std::io::Write;
use std::rt::Files;
use std::time::Clock;
use table_words::Ending;
use text_parts::{whole_lines, words};

/// The setup that a journal names, and the one that lies in its folder.
#[derive(Drop)]
pub(crate) struct Pair {
    pub(crate) named: Vec<u8>,
    pub(crate) found: Vec<u8>,
}

/// The setup that the first line of a journal names: the fourth of its words.
pub(crate) fn named_in(alloc: Global, journal: &[u8]) -> Option<Vec<u8>> {
    let line = whole_lines(journal).next()?;
    let words = words(alloc, line).ok()?;
    let name: &[u8] = words.get(3)?;
    name.to_vec(alloc).ok()
}

/// The two names, if both files are read.
fn pair_now<R: Files<File = File> + Clock + AllocGlobal>(shared: &Shared<'_, R>) -> Option<Pair> {
    let alloc = shared.alloc();
    let journal = journal_now(shared).ok()?;
    let setup = read_path(shared.rt, &shared.path(SETUP).ok()?).ok()?;
    Some(Pair {
        named: named_in(alloc, &journal)?,
        found: name_of_setup(alloc, &setup).ok()?,
    })
}

/// Tells that a journal names another setup than the folder has, and which these are, as they are now. Answers how the run ends.
pub(crate) fn tell_pair<R: Files<File = File> + Clock + AllocGlobal, E: Write>(
    shared: &Shared<'_, R>,
    teller: &mut Teller<'_, E>,
) -> Ending
    ensures { result ≡ ending_of_fault Other }
{
    match pair_now(shared) {
        Some(pair) => teller.other(shared.folder, &pair),
        None => teller.end(shared.folder, shared.wait, TableFault::Other),
    }
}
