//! The calls on the handle of a leaf.
ghost use Rattle.std.specs.Prelude.{◌≡◌, true};
ghost use Rattle.gourzhiel.specs.Ended.{GetEnded, PutEnded, CountTold};

use crate::handles::GzLeaf;
use crate::numbers::{BUSY, DONE, NOT_HELD, NOT_LIVE, OUT_OF_RANGE, TOO_MANY};
use dep_index::{GetError, PutError};
use module_table::OwnLeaf;

#[inline(always)]
fn get(leaf: &mut OwnLeaf, slot: usize, tries: u32) -> u32
    ensures { GetEnded leaf.old slot tries result leaf.new }
{
    match leaf.try_get(slot, tries) {
        None => OUT_OF_RANGE,
        Some(None) => BUSY,
        Some(Some(Err(GetError::NotLive))) => NOT_LIVE,
        Some(Some(Err(GetError::TooMany))) => TOO_MANY,
        Some(Some(Ok(()))) => DONE,
    }
}

// Whatever is not the common case has a call of its own, so that the common case saves no registers. Its arguments stand in
// another order than those of the export: so the jump to it is short, and crosses no 32 bytes, which many processors punish.
#[inline(never)]
fn other_get(slot: usize, tries: u32, leaf: &mut OwnLeaf) -> u32
    ensures { GetEnded leaf.old slot tries result leaf.new }
{
    get(leaf, slot, tries)
}

/// Takes one reference, in at most so many tries.
///
/// BUSY: each try was missed, and nothing changed. NOT_LIVE: the module is not live. TOO_MANY: the leaf holds it
/// 65,535 times. OUT_OF_RANGE: the slot is none of the table.
#[unsafe(no_mangle)]
pub extern "C" fn gz_leaf_get(leaf: &mut GzLeaf, slot: usize, tries: u32) -> u32
    requires full { leaf.old.full ≡ true }
    ensures full { leaf.new.full ≡ true }
    ensures call { GetEnded leaf.old.held slot tries result leaf.new.held }
{
    let leaf = leaf.lend();
    match leaf.held(slot) {
        Some(count) if count > 0 => get(leaf, slot, tries),
        _ => other_get(slot, tries, leaf),
    }
}

#[inline(always)]
fn put(leaf: &mut OwnLeaf, slot: usize) -> u32
    ensures { PutEnded leaf.old slot result leaf.new }
{
    match leaf.put(slot) {
        None => OUT_OF_RANGE,
        Some(Err(PutError::NotHeld)) => NOT_HELD,
        Some(Ok(())) => DONE,
    }
}

// As other_get.
#[inline(never)]
fn other_put(slot: usize, leaf: &mut OwnLeaf) -> u32
    ensures { PutEnded leaf.old slot result leaf.new }
{
    put(leaf, slot)
}

/// Gives one reference back.
///
/// NOT_HELD: the leaf holds no reference to the module. OUT_OF_RANGE: the slot is none of the table.
#[unsafe(no_mangle)]
pub extern "C" fn gz_leaf_put(leaf: &mut GzLeaf, slot: usize) -> u32
    requires full { leaf.old.full ≡ true }
    ensures full { leaf.new.full ≡ true }
    ensures call { PutEnded leaf.old.held slot result leaf.new.held }
{
    let leaf = leaf.lend();
    match leaf.held(slot) {
        Some(count) if count > 1 => put(leaf, slot),
        _ => other_put(slot, leaf),
    }
}

/// How often the leaf holds the module. It is no call of the history.
///
/// OUT_OF_RANGE: the slot is none of the table, and the count is left as it is.
#[unsafe(no_mangle)]
pub extern "C" fn gz_leaf_held(leaf: &mut GzLeaf, slot: usize, count: &mut u32) -> u32
    requires full { leaf.old.full ≡ true }
    ensures kept { (leaf.new.full ≡ true) × (leaf.new.held ≡ leaf.old.held) }
    ensures count { CountTold leaf.old.held slot count.old result count.new }
{
    match leaf.lend().held(slot) {
        None => OUT_OF_RANGE,
        Some(found) => {
            *count = found;
            DONE
        }
    }
}

/// Frees a leaf. References that it still holds stay counted, so their modules are never removed.
#[unsafe(no_mangle)]
pub extern "C" fn gz_leaf_free(leaf: GzLeaf)
    requires full { leaf.full ≡ true }
{
    drop(leaf.into_parts().into_box());
}
