//! Leaves in threads of their own.
ghost use Rattle.std.specs.Prelude.{◌≡◌, ◌<◌};
ghost use Rattle.root_row.specs.World.{slots};
ghost use Rattle.root_row.specs.Seats.{IsOf};

use super::{Users, live_row};
use root_row::Row;
use std::sync::Wait;
use std::test::Fail;
use std::thread::{Threads, join_mut};
use use_indicator::{Leaf, meet};

/// How many gets and how many puts were Ok.
pub(crate) type Counts = (u32, u32);

/// So many gets, each with a put behind it.
fn take_and_give<R: Wait>(rt: &R, row: &Row, rounds: u32, leaf: &mut Leaf) -> Counts
    requires inside { 0 < slots row.now.world }
    requires leaf { IsOf row.now leaf.old }
    ensures leaf { IsOf row.now leaf.new }
{
    let mut taken = 0;
    let mut given = 0;
    for _round in 0..rounds {
        if leaf.get(rt, row, 0).is_ok() {
            taken += 1;
        }
        if leaf.put(row, 0).is_ok() {
            given += 1;
        }
    }
    (taken, given)
}

/// Each leaf takes and gives so often on a thread of its own.
pub(crate) fn take_and_give_at_once<R: Threads + Wait + Sync>(
    rt: &R,
    row: &Row,
    rounds: u32,
    one: &mut Leaf,
    other: &mut Leaf,
) -> (Counts, Counts)
    requires inside { 0 < slots row.now.world }
    requires one { IsOf row.now one.old }
    requires other { IsOf row.now other.old }
    ensures one { IsOf row.now one.new }
    ensures other { IsOf row.now other.new }
{
    join_mut(
        rt,
        &mut || take_and_give(rt, row, rounds, one),
        &mut || take_and_give(rt, row, rounds, other),
    )
}

/// Two leaves meet, and neither holds the first module.
pub(crate) fn meet_with_none(row: &Row, one: Leaf, other: Leaf) -> bool
    requires inside { 0 < slots row.now.world }
    requires one { IsOf row.now one }
    requires other { IsOf row.now other }
{
    let (one, other) = meet(one, other, row);
    (one.held(0), other.held(0)) == (0, 0)
}

/// Each get and each put is Ok, and neither leaf holds anything when they meet.
fn each_is_ok<R: Threads + Wait + Sync>(rt: &R, row: &Row, users: Users) -> bool
    requires inside { 0 < slots row.now.world }
    requires leaf { IsOf row.now users.leaf }
    requires other { IsOf row.now users.other }
{
    let Users {
        leaf: mut one,
        mut other,
        reader: _,
    } = users;
    let counts = take_and_give_at_once(rt, row, 1000, &mut one, &mut other);
    meet_with_none(row, one, other) && counts == ((1000, 1000), (1000, 1000))
}

#[test]
fn two_threads_meet(rt: HostRuntime) -> Result<(), Fail> {
    let (row, mut book, users) = live_row(rt.alloc())?;
    assert!(rt; each_is_ok(&rt, &row, users) && row.try_close(&mut book, 0));
    Ok(())
}
