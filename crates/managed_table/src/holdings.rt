//! What one worker holds, of all slots.
ghost use Rattle.std.specs.Prelude.{◌≡◌, ◌≢◌, ℕ, ◌<◌, replicate};
ghost use Rattle.root_row.specs.World.{slots};
ghost use Rattle.root_row.specs.Seats.{IsOf};
ghost use Rattle.root_row.specs.Views.{worker_of, count_of, counts_of};
ghost use Rattle.managed_table.specs.Kept.{leaf_fits};
ghost use Rattle.managed_table.specs.Holdings.{put_done, puts_below, MadeInOrder, HasNone, HasFirst};

use root_row::Row;
use use_indicator::Leaf;

/// A slot that a worker holds, and how often.
#[derive(Clone, Copy, Debug, PartialEq, Eq)]
pub struct Holding {
    pub slot: usize,
    pub count: u32,
}

// The leaf gives back each reference to the slot.
pub(crate) fn put_slot(row: &Row, leaf: &mut Leaf, slot: usize)
    requires fits { leaf_fits row.now (worker_of leaf.old.view) leaf.old }
    requires inside { slot < slots row.now.world }
    ensures fits { leaf_fits row.now (worker_of leaf.old.view) leaf.new }
    ensures made { MadeInOrder (replicate (count_of leaf.old.view slot) (put_done (worker_of leaf.old.view) slot)) leaf.old leaf.new }
    ensures none { count_of leaf.new.view slot ≡ 0 }
    ensures others { (m : ℕ) → m ≢ slot → count_of leaf.new.view m ≡ count_of leaf.old.view m }
{
    for _ in 0..leaf.held(slot) {
        let _ = leaf.put(row, slot);
    }
}

// The leaf gives back all its references.
pub(crate) fn put_slots(row: &Row, leaf: &mut Leaf)
    requires fits { leaf_fits row.now (worker_of leaf.old.view) leaf.old }
    ensures fits { leaf_fits row.now (worker_of leaf.old.view) leaf.new }
    ensures made { MadeInOrder (puts_below (worker_of leaf.old.view) (counts_of leaf.old.view) (slots row.now.world)) leaf.old leaf.new }
    ensures none { HasNone leaf.new 0 (slots row.now.world) }
{
    for slot in 0..row.slots() {
        put_slot(row, leaf, slot);
    }
}

// The first slot from a place on that the leaf holds.
pub(crate) fn first_held(row: &Row, leaf: &Leaf, place: usize) -> Option<Holding>
    requires own { IsOf row.now leaf.now }
    ensures { HasFirst row.now leaf.now place result }
{
    for slot in place..row.slots() {
        let count = leaf.held(slot);
        if count > 0 {
            return Some(Holding { slot, count });
        }
    }
    None
}
