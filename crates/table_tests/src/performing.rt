//! Lines that are performed, one by one and as a group.
ghost use Rattle.std.specs.Prelude.{◌≡◌, OnOk};
ghost use Rattle.durable_table.specs.Durable.{Stands};

use crate::support::{are_answered, is_answered, make, new_table, opened};
use durable_table::DurableTable;
use line_journal::{Device, KillOnly};
use modprobe::Setup;
use std::alloc::Global;
use std::test::Fail;

/// A module is loaded with the one that it needs, and both are held.
fn hold_both<D: Device>(table: &mut DurableTable<'_, D>, alloc: Global) -> Result<(), Fail>
    requires { Stands D.content D.history table.old.session.setup.now table.old.session.holders.held table.old.journal }
{
    make(table, alloc, b"modprobe snd-pcm")?;
    make(table, alloc, b"hold web17 snd-pcm snd")
}

/// What a process leaves that holds two modules.
fn left(alloc: Global, setup: &Setup) -> Result<KillOnly, Fail> {
    let mut table = new_table(alloc, setup)?;
    hold_both(&mut table, alloc)?;
    Ok(table.into_device())
}

/// Whether the next process finds both held.
pub(crate) fn outlives(alloc: Global, setup: &Setup) -> Result<bool, Fail> {
    let mut again = opened(alloc, setup, left(alloc, setup)?)?;
    is_answered(
        &mut again,
        alloc,
        b"held",
        b"web17 snd 1\nweb17 snd_pcm 1\n",
    )
}

const LINES: &[u8] = b"modprobe floppy\nget web17 floppy\nheld\nrmmod floppy\nrelease web17\n";

const REPLIES: &[u8] = b"ok\nok\nweb17 floppy 1\nerror EWOULDBLOCK floppy\nok\n";

// The sums are those of Python's hashlib.sha256.
const JOURNAL: &[u8] = b"+gourzhiel journal 2 - -
+38cd8a5884cee84d modprobe floppy
+d01b42c86677fd10 get web17 floppy
+f86c4fae52fc09c5 release web17
 ";

/// Whether lines are performed as a group, and the journal has those that change the table.
pub(crate) fn makes_a_group(alloc: Global, setup: &Setup) -> Result<bool, Fail> {
    let mut table = new_table(alloc, setup)?;
    let is_right = are_answered(&mut table, alloc, LINES, REPLIES)?;
    let file = table.into_device();
    Ok(is_right && file.bytes() == JOURNAL)
}
