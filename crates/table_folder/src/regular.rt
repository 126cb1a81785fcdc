//! Files that are read are regular files.

ghost use Rattle.std.specs.Prelude.{◌≡◌, ◌⊎◌, IfErr};
ghost use Rattle.table_folder.specs.declared.fault.TableFault.TheVariants.{OutOfMemory, Told};

use crate::fault::TableFault;
use crate::shared::{CUT, JOURNAL, LOCK, NEXT, SETUP, Shared};
use crate::teller::Teller;
use std::fs::{self, File};
use std::io::Write;
use std::rt::Files;
use std::time::Clock;

/// The files that a run opens. A pipe in the place of one would have it wait for ever.
const FILES: [&str; 7] = [SETUP, NEXT, JOURNAL, CUT, LOCK, "setup.new", "journal.new"];

/// Whether something else than a regular file stands at a path. To read it might take for ever.
pub(crate) fn is_other_than_file<R: Files>(rt: &R, path: &str) -> bool {
    fs::metadata(rt, path).is_ok_and(|found| !found.is_file())
}

/// Refuses a folder that has anything but a regular file in the place of one of its files, which is told. Files that are not
/// there are none.
pub fn refuse_others<R: Files<File = File> + Clock + AllocGlobal, E: Write>(
    shared: &Shared<'_, R>,
    teller: &mut Teller<'_, E>,
) -> Result<(), TableFault>
    ensures { IfErr result (λ fault. (fault ≡ OutOfMemory) ⊎ (fault ≡ Told)) }
{
    for name in &FILES {
        if is_other_than_file(shared.rt, &shared.path(*name)?) {
            return Err(teller.other_than_file(shared.folder, *name));
        }
    }
    Ok(())
}
