//! Journals that are rewritten as the lines of their table.
ghost use Rattle.std.specs.Prelude.{◌≡◌, OnOk};
ghost use Rattle.durable_table.specs.Durable.{Stands};

use crate::support::{are_answered, compacted, make, new_table, opened};
use durable_table::{DurableTable, NO_NAME};
use line_journal::{Device, KillOnly};
use modprobe::Setup;
use std::alloc::Global;
use std::test::Fail;

// Modules that are live, drain, unload and load, and holders of which one has gone.
const LINES: &[u8] = b"modprobe snd-pcm
modprobe soundcore
modprobe floppy
hold web18 soundcore
hold web17 snd soundcore
get web17 snd
get web16 snd-pcm
release web18
drain soundcore
begin_remove floppy
begin_load loop
";

// The sums are those of Python's hashlib.sha256.
const COMPACTED: &[u8] = b"+gourzhiel journal 2 - -
+ce7b3400948c17a4 begin_load snd
+6a5457dc2bd40d18 end_load snd ok
+45c0ff20635d8771 begin_load snd_pcm
+91a7bc42506e67e0 end_load snd_pcm ok
+45e8860868903b51 begin_load soundcore
+97ad40a0ac473f0a end_load soundcore ok
+8b2b24966abf27bb begin_load floppy
+deac4a6d07049196 end_load floppy ok
+0666e5c2b8eb0492 begin_load loop
+9740e0d085a05112 get web16 snd_pcm
+39e6fdef2331bb02 get web17 snd
+a17a50072c41cc84 get web17 snd
+cef683ba39b27e5b get web17 soundcore
+f37f76d976abd15a drain soundcore
+fc294dbd436caf83 begin_remove floppy
 ";

const LATER: &[u8] = b"held
rmmod soundcore
end_remove floppy
end_load loop ok
get web19 soundcore
";

const REPLIES: &[u8] = b"web16 snd_pcm 1
web17 snd 2
web17 soundcore 1
error EWOULDBLOCK soundcore
ok
ok
error NOTLIVE soundcore
";

/// Fills a table with all states, and compacts its journal.
fn fill<D: Device>(
    table: &mut DurableTable<'_, D>,
    alloc: Global,
    setup: &Setup,
) -> Result<(), Fail>
    requires stands { Stands D.content D.history table.old.session.setup.now table.old.session.holders.held table.old.journal }
    requires setup { table.old.session.setup.now ≡ setup.now }
{
    are_answered(table, alloc, LINES, b"")?;
    compacted(table, alloc, setup)
}

/// The file of that table.
fn filled(alloc: Global, setup: &Setup) -> Result<KillOnly, Fail> {
    let mut table = new_table(alloc, setup)?;
    fill(&mut table, alloc, setup)?;
    Ok(table.into_device())
}

/// Whether a table of all states is compacted, and the next process goes on from there.
pub(crate) fn is_compacted(alloc: Global, setup: &Setup) -> Result<bool, Fail> {
    let file = filled(alloc, setup)?;
    let is_right = file.bytes() == COMPACTED;
    let mut again = opened(alloc, setup, file)?;
    Ok(are_answered(&mut again, alloc, LATER, REPLIES)? && is_right)
}

/// Makes a line that is as long as many.
fn lengthen<D: Device>(table: &mut DurableTable<'_, D>, alloc: Global) -> Result<(), Fail>
    requires { Stands D.content D.history table.old.session.setup.now table.old.session.holders.held table.old.journal }
    ensures stands { OnOk result (Stands D.content D.history table.new.session.setup.now table.new.session.holders.held table.new.journal) }
    ensures setup { table.new.session.setup ≡ table.old.session.setup }
{
    let mut line = b"insmod loop".to_vec(alloc)?;
    line.resize(65_600, b' ')?;
    make(table, alloc, &line)
}

/// Whether a journal gets long, and is not when it is compacted.
fn shortens<D: Device>(
    table: &mut DurableTable<'_, D>,
    alloc: Global,
    setup: &Setup,
) -> Result<bool, Fail>
    requires stands { Stands D.content D.history table.old.session.setup.now table.old.session.holders.held table.old.journal }
    requires setup { table.old.session.setup.now ≡ setup.now }
{
    lengthen(table, alloc)?;
    let was_long = table.is_long(alloc, NO_NAME)?;
    compacted(table, alloc, setup)?;
    Ok(!table.is_long(alloc, NO_NAME)? && was_long)
}

/// Whether a long journal is compacted.
pub(crate) fn is_shortened(alloc: Global, setup: &Setup) -> Result<bool, Fail> {
    let mut table = new_table(alloc, setup)?;
    let is_short = shortens(&mut table, alloc, setup)?;
    let file = table.into_device();
    Ok(is_short && file.bytes().len() == 95)
}
