//! Gets that guess that nobody holds the module.
ghost use Rattle.std.specs.Prelude.{◌<◌};
ghost use Rattle.root_row.specs.World.{slots};
ghost use Rattle.root_row.specs.Seats.{IsOf};

use super::Users;
use Reply::{Done, NotLive};
use dep_index::Reply;
use root_row::Row;
use use_indicator::Leaf;

/// What such a get of so many tries answers; None if it gave up.
fn guess(row: &Row, leaf: &mut Leaf, slot: usize, tries: u32) -> Option<Reply>
    requires inside { slot < slots row.now.world }
    requires leaf { IsOf row.now leaf.old }
    ensures leaf { IsOf row.now leaf.new }
{
    Some(Reply::of(leaf.try_get_unused(row, slot, tries)?))
}

/// The first leaf's guess holds, so it needs no try.
fn needs_no_try(row: &Row, leaf: &mut Leaf) -> bool
    requires inside { 0 < slots row.now.world }
    requires leaf { IsOf row.now leaf.old }
{
    let first = guess(row, leaf, 0, 0);
    let second = guess(row, leaf, 0, 0);
    first == Some(Done) && second == Some(Done) && leaf.held(0) == 2
}

/// The other's does not, so it needs one. In a module that was never loaded the guess is wrong, and a look says why.
fn needs_a_try(row: &Row, leaf: &mut Leaf) -> bool
    requires inside { 1 < slots row.now.world }
    requires leaf { IsOf row.now leaf.old }
{
    let missed = guess(row, leaf, 0, 0);
    let before = leaf.held(0);
    let taken = guess(row, leaf, 0, 1);
    let after = leaf.held(0);
    let absent = guess(row, leaf, 1, 0);
    let refused = guess(row, leaf, 1, 1);
    [missed, taken, absent, refused] == [None, Some(Done), None, Some(NotLive)]
        && (before, after) == (0, 1)
}

pub(super) fn are_guesses_right(row: &Row, users: &mut Users) -> bool
    requires inside { 1 < slots row.now.world }
    requires leaf { IsOf row.now users.old.leaf }
    requires other { IsOf row.now users.old.other }
{
    needs_no_try(row, &mut users.leaf) && needs_a_try(row, &mut users.other)
}
