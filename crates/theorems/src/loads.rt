//! Which steps the calls of workers make.
ghost use Rattle.std.specs.Prelude.{◌<◌, if◌then◌else◌};
ghost use Rattle.dep_index.specs.declared.table.calls.Reply.TheVariants.{Yes, No};
ghost use Rattle.dep_index.specs.Refusals.{reply_of, get_refusal, put_refusal};
ghost use Rattle.root_row.specs.Steps.{LeafAnswered, ReaderAnswered};
ghost use Rattle.root_row.specs.World.{slots};
ghost use Rattle.root_row.specs.Seats.{IsOf};
ghost use Rattle.root_row.specs.Views.{count_of};
ghost use Rattle.theorems.specs.Loads.{MakesOneLoad};

use dep_index::{GetError, PutError};
use root_row::{LeafCall, Row};
use std::sync::Wait;
use use_indicator::{Leaf, Reader};

/// A get of a module that the worker holds makes one load of the module's word, and writes no word, whatever it answers. It is
/// answered as a get at that load.
///
/// Premises: the leaf is of this row, and the slot is one of its slots.
pub fn gets_of_held_modules_make_one_load<R: Wait>(
    rt: &R,
    leaf: &mut Leaf,
    row: &Row,
    slot: usize,
) -> Result<(), GetError>
    requires own { IsOf row.now leaf.old }
    requires inside { slot < slots row.now.world }
    requires held { 0 < count_of leaf.old.view slot }
    ensures call { LeafAnswered leaf.old.view slot LeafCall.Get (reply_of get_refusal result) leaf.new.view }
    ensures load { MakesOneLoad slot leaf.old.steps leaf.new.steps }
{
    leaf.get(rt, row, slot)
}

/// A put that does not give the last reference back makes one load of the module's word, and writes no word. It is answered as a
/// put at that load. Premises as above.
pub fn puts_of_held_modules_make_one_load(
    leaf: &mut Leaf,
    row: &Row,
    slot: usize,
) -> Result<(), PutError>
    requires own { IsOf row.now leaf.old }
    requires inside { slot < slots row.now.world }
    requires held { 1 < count_of leaf.old.view slot }
    ensures call { LeafAnswered leaf.old.view slot LeafCall.Put (reply_of put_refusal result) leaf.new.view }
    ensures load { MakesOneLoad slot leaf.old.steps leaf.new.steps }
{
    leaf.put(row, slot)
}

/// A query makes one load of the module's word, and writes no word. It is answered as a query at that load. Premises: the reader is
/// of this row, and the slot is one of its slots.
pub fn queries_make_one_load(reader: &mut Reader, row: &Row, slot: usize) -> bool
    requires own { IsOf row.now reader.old }
    requires inside { slot < slots row.now.world }
    ensures call { ReaderAnswered reader.old.view slot (if result then Yes else No) reader.new.view }
    ensures load { MakesOneLoad slot reader.old.steps reader.new.steps }
{
    reader.in_use(row, slot)
}
