//! A leaf, another, a reader and the book, by turns.
ghost use Rattle.std.specs.Prelude.{◌≡◌, ◌<◌, length};
ghost use Rattle.root_row.specs.World.{slots};
ghost use Rattle.root_row.specs.Seats.{IsOf};
ghost use Rattle.root_row.specs.Views.{book_of, state_in};
ghost use Rattle.root_row.specs.BookSteps.{MayLeave};

use super::Users;
use super::steps::{close_and_reopen, drain, finish, remove, undrain};
use Call::{Get, InUse, Put};
use Reply::{Done, No, NotHeld, NotLive, Yes};
use dep_index::words::{CLOSED, DRAINED};
use dep_index::{Call, ModuleState, Reply};
use root_row::{BookSeat, Row};
use std::sync::Wait;

/// A leaf takes two references, and the other has none to give back.
static TAKEN: [(Call, Reply); 4] = [
    (Get(0, 0), Done),
    (Get(0, 0), Done),
    (Put(1, 0), NotHeld),
    (InUse(0), Yes),
];

/// The module drains, so no get comes in: neither of the leaf that holds it nor of the other.
static DRAINING: [(Call, Reply); 3] = [(Get(0, 0), NotLive), (Get(1, 0), NotLive), (InUse(0), Yes)];

/// The leaf gives its two references back, and has no third.
static GIVEN: [(Call, Reply); 4] = [
    (Put(0, 0), Done),
    (Put(0, 0), Done),
    (Put(0, 0), NotHeld),
    (InUse(0), No),
];

/// The other leaf takes one reference.
static ENTERED: [(Call, Reply); 1] = [(Get(1, 0), Done)];

/// The module drains, and the other leaf gives its reference back.
static DEPARTED: [(Call, Reply); 3] = [(Get(1, 0), NotLive), (Put(1, 0), Done), (InUse(0), Yes)];

/// The drain is called off, so the other leaf gets the module again.
static AGAIN: [(Call, Reply); 4] = [
    (Get(1, 0), Done),
    (Put(1, 0), Done),
    (Put(1, 0), NotHeld),
    (InUse(0), Yes),
];

/// The module is gone.
static GONE: [(Call, Reply); 2] = [(Get(1, 0), NotLive), (InUse(0), No)];

/// What a call of leaf 0, of leaf 1 or of the reader answers; None if it is none of these, or the slot is out of range.
fn reply_to<R: Wait>(rt: &R, row: &Row, users: &mut Users, call: Call) -> Option<Reply>
    requires leaf { IsOf row.now users.old.leaf }
    requires other { IsOf row.now users.old.other }
    requires reader { IsOf row.now users.old.reader }
    ensures leaf { IsOf row.now users.new.leaf }
    ensures other { IsOf row.now users.new.other }
    ensures reader { IsOf row.now users.new.reader }
{
    if call.slot() >= row.slots() {
        return None;
    }
    match call {
        Get(0, slot) => Some(Reply::of(users.leaf.get(rt, row, slot))),
        Get(1, slot) => Some(Reply::of(users.other.get(rt, row, slot))),
        Put(0, slot) => Some(Reply::of(users.leaf.put(row, slot))),
        Put(1, slot) => Some(Reply::of(users.other.put(row, slot))),
        InUse(slot) => Some(Reply::of_query(users.reader.in_use(row, slot))),
        _ => None,
    }
}

/// Makes the calls in order, and says whether each answers as it ought to.
fn answers<R: Wait>(rt: &R, row: &Row, users: &mut Users, calls: &[(Call, Reply)]) -> bool
    requires leaf { IsOf row.now users.old.leaf }
    requires other { IsOf row.now users.old.other }
    requires reader { IsOf row.now users.old.reader }
    ensures leaf { IsOf row.now users.new.leaf }
    ensures other { IsOf row.now users.new.other }
    ensures reader { IsOf row.now users.new.reader }
{
    for (call, wanted) in calls {
        if reply_to(rt, row, users, *call) != Some(*wanted) {
            return false;
        }
    }
    true
}

/// A live module is held, and is not removed; it is given back, and is removed.
pub(super) fn is_held_and_removed<R: Wait>(
    rt: &R,
    row: &Row,
    book: &mut BookSeat,
    users: &mut Users,
) -> bool
    requires inside { 0 < slots row.now.world }
    requires book { IsOf row.now book.old }
    requires may { MayLeave book.old.view 0 }
    requires leaf { IsOf row.now users.old.leaf }
    requires other { IsOf row.now users.old.other }
    requires reader { IsOf row.now users.old.reader }
{
    let taken = answers(rt, row, users, &TAKEN);
    let held = users.leaf.held(0);
    let (word, closed) = remove(row, book);
    if closed {
        return false;
    }
    let given = answers(rt, row, users, &GIVEN);
    let gone = row.try_close(book, 0);
    let shut = answers(rt, row, users, &GONE);
    [taken, given, gone, shut] == [true, true, true, true] && held == 2 && word == 1
}

/// A live module is held and drained, so that no get comes in; it leaves when it is given back.
pub(super) fn is_held_and_drained<R: Wait>(
    rt: &R,
    row: &Row,
    book: &mut BookSeat,
    users: &mut Users,
) -> bool
    requires inside { 0 < slots row.now.world }
    requires book { IsOf row.now book.old }
    requires may { MayLeave book.old.view 0 }
    requires wide { 0 < length (book_of book.old.view).states }
    requires leaf { IsOf row.now users.old.leaf }
    requires other { IsOf row.now users.old.other }
    requires reader { IsOf row.now users.old.reader }
{
    let taken = answers(rt, row, users, &TAKEN);
    let held = users.leaf.held(0);
    let found = drain(row, book);
    let refused = answers(rt, row, users, &DRAINING);
    let (word, closed) = finish(row, book);
    if closed {
        return false;
    }
    let given = answers(rt, row, users, &GIVEN);
    let (end, gone) = finish(row, book);
    let shut = answers(rt, row, users, &GONE);
    [taken, refused, given, gone, shut] == [true, true, true, true, true]
        && held == 2
        && [found, word, end] == [1, DRAINED + 1, DRAINED]
}

/// A live module is drained while both leaves hold it. One departs, and the drain is called off: the first holds it.
pub(super) fn is_held_and_undrained<R: Wait>(
    rt: &R,
    row: &Row,
    book: &mut BookSeat,
    users: &mut Users,
) -> bool
    requires inside { 0 < slots row.now.world }
    requires book { IsOf row.now book.old }
    requires may { MayLeave book.old.view 0 }
    requires wide { 0 < length (book_of book.old.view).states }
    requires leaf { IsOf row.now users.old.leaf }
    requires other { IsOf row.now users.old.other }
    requires reader { IsOf row.now users.old.reader }
{
    let taken = answers(rt, row, users, &TAKEN);
    let entered = answers(rt, row, users, &ENTERED);
    let found = drain(row, book);
    let departed = answers(rt, row, users, &DEPARTED);
    let word = undrain(row, book);
    let held = users.leaf.held(0);
    let again = answers(rt, row, users, &AGAIN);
    let given = answers(rt, row, users, &GIVEN);
    [taken, entered, departed, again, given] == [true, true, true, true, true]
        && held == 2
        && [found, word] == [2, DRAINED + 1]
}

/// A removal of a live module begins and is called off: gets come in again.
pub(super) fn is_closed_and_reopened<R: Wait>(
    rt: &R,
    row: &Row,
    book: &mut BookSeat,
    users: &mut Users,
) -> bool
    requires inside { 0 < slots row.now.world }
    requires book { IsOf row.now book.old }
    requires may { MayLeave book.old.view 0 }
    requires live { state_in book.old.view 0 ≡ ModuleState.Live }
    requires wide { 0 < length (book_of book.old.view).states }
    requires leaf { IsOf row.now users.old.leaf }
    requires other { IsOf row.now users.old.other }
    requires reader { IsOf row.now users.old.reader }
{
    let word = close_and_reopen(row, book);
    let taken = answers(rt, row, users, &TAKEN);
    let given = answers(rt, row, users, &GIVEN);
    taken && given && word == Some(CLOSED)
}
