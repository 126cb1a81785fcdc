//! Who uses a module that was not removed.
ghost use Rattle.std.specs.Prelude.{◌≡◌};

use crate::answering::Replies;
use crate::kept::Kept;
use crate::log::Tenures;
use crate::tenure::{answer_in_tenure, take_turn};
use file_journal::FileDevice;
use line_journal::is_line;
use std::fs::File;
use std::io::Write;
use std::rt::Files;
use std::time::Clock;
use table_folder::{Shared, Teller, alone, holders_in, module_in_use, users_in};

/// The reply to a line that asks. None, if there is none.
fn asked<'s, 'r, R: Files<File = File> + Clock + AllocGlobal, E: Write>(
    shared: &Shared<'r, R>,
    kept: &mut Kept<'s, FileDevice<&'r R>>,
    line: Vec<u8>,
    teller: &mut Teller<'_, E>,
) -> Option<Vec<u8>>
    ensures setup { kept.new.setup.now ≡ kept.old.setup.now }
{
    let alloc = shared.alloc();
    if !is_line(&line) {
        return None;
    }
    let lines = alone(alloc, line).ok()?;
    let turn = take_turn(shared, &lines).ok()?;
    let mut log = Tenures::new(alloc);
    let mut replies = Replies::new(alloc);
    answer_in_tenure(shared, kept, &mut log, turn, &lines, &mut replies, teller).ok()?;
    Some(replies.text)
}

/// Tells who uses a module now, if the table tells it at once.
fn tell_module<'s, 'r, R: Files<File = File> + Clock + AllocGlobal, E: Write>(
    shared: &Shared<'r, R>,
    kept: &mut Kept<'s, FileDevice<&'r R>>,
    name: &[u8],
    teller: &mut Teller<'_, E>,
) -> Option<()>
    ensures setup { kept.new.setup.now ≡ kept.old.setup.now }
{
    let alloc = shared.alloc();
    let mut line = b"holders ".to_vec(alloc).ok()?;
    line.extend_from_slice(name).ok()?;
    let held = asked(shared, kept, line, teller)?;
    let listed = asked(shared, kept, b"proc".to_vec(alloc).ok()?, teller)?;
    let holders = holders_in(alloc, &held).ok()?;
    let users = users_in(alloc, &listed, name).ok()?;
    teller.in_use(name, &holders, &users);
    Some(())
}

/// If a reply refuses a command since a module is in use, tells who uses it. It is asked after the reply, and nobody is waited
/// for: who gave the module back meanwhile is not told.
pub(crate) fn tell_users<'s, 'r, R: Files<File = File> + Clock + AllocGlobal, E: Write>(
    shared: &Shared<'r, R>,
    kept: &mut Kept<'s, FileDevice<&'r R>>,
    reply: &[u8],
    teller: &mut Teller<'_, E>,
)
    ensures setup { kept.new.setup.now ≡ kept.old.setup.now }
{
    let hasty = Shared {
        rt: shared.rt,
        folder: shared.folder,
        wait: 0,
        syncs: shared.syncs,
        setup: shared.setup,
    };
    if let Some(name) = module_in_use(reply) {
        let _ = tell_module(&hasty, kept, name, teller);
    }
}
