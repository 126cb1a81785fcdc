//! Leaves, readers and the book at one row.
ghost use Rattle.std.specs.Prelude.{◌≡◌, ◌<◌, true, length, All, IfOk};
ghost use Rattle.dep_index.specs.Table.{module_at, no_module};
ghost use Rattle.root_row.specs.World.{slots};
ghost use Rattle.root_row.specs.Views.{worker_of, reader_of, book_of, state_in};
ghost use Rattle.root_row.specs.Made.{new_leaf, new_reader, new_book};
ghost use Rattle.root_row.specs.Seats.{IsOf};
ghost use Rattle.root_row.specs.BookSteps.{MayLeave};

use crate::sound::sound;
use dep_index::{ModuleState, Slots};
use one_thread::{
    is_closed_and_reopened, is_held_and_drained, is_held_and_removed, is_held_and_undrained,
};
use root_row::{BookSeat, LeafSeat, ReadSeat, Row};
use std::alloc::Global;
use std::sync::Wait;
use std::test::Fail;
use steps::{load, one_reader, two_leaves};
use unused::are_guesses_right;
use use_indicator::{Leaf, Reader};

mod one_thread;
mod owned;
pub(crate) mod steps;
pub(crate) mod threads;
mod unused;
mod words;

/// Whether the first of two modules needs nothing and may be removed.
fn first_is_free(modules: &Slots) -> bool
    ensures { result ≡ true → (length modules.now ≡ 2) × (module_at modules.now 0 ≡ no_module) }
{
    modules.len() == 2
        && modules.needs(0).is_empty()
        && !modules.unknown_symbol(0)
        && !modules.permanent(0)
}

/// A row over snd and snd_pcm for two workers and a reader.
fn new_row(alloc: Global) -> Result<(Row, Vec<LeafSeat>, BookSeat, Vec<ReadSeat>), Fail>
    ensures wide { IfOk result (λ r. slots r.0.world ≡ 2) }
    ensures free { IfOk result (λ r. module_at r.0.world.catalogue 0 ≡ no_module) }
    ensures leaves { IfOk result (λ r. All (λ s. s ≡ new_leaf r.0.id r.0.world (worker_of s.view)) r.1.items) }
    ensures book { IfOk result (λ r. r.2 ≡ new_book r.0.id r.0.world) }
    ensures readers { IfOk result (λ r. All (λ s. s ≡ new_reader r.0.id r.0.world (reader_of s.view)) r.3.items) }
{
    let modules = sound(alloc)?.slots(alloc)?;
    if !first_is_free(&modules) {
        return Err("the first module is not free".into());
    }
    Ok(Row::over(alloc, &modules, 2, 1)?)
}

/// Whoever uses the modules of a row.
#[derive(Drop)]
struct Users {
    leaf: Leaf,
    other: Leaf,
    reader: Reader,
}

/// The users of these seats.
fn users_of(
    alloc: Global,
    row: &Row,
    leaves: Vec<LeafSeat>,
    readers: Vec<ReadSeat>,
) -> Result<Users, Fail>
    requires leaves { All (λ s. s ≡ new_leaf row.now.id row.now.world (worker_of s.view)) leaves.items }
    requires readers { All (λ s. s ≡ new_reader row.now.id row.now.world (reader_of s.view)) readers.items }
    ensures leaves { IfOk result (λ u. IsOf row.now u.leaf × IsOf row.now u.other) }
    ensures reader { IfOk result (λ u. IsOf row.now u.reader) }
{
    let reader = one_reader(row, readers)?;
    let (leaf, other) = two_leaves(alloc, row, leaves)?;
    Ok(Users {
        leaf,
        other,
        reader,
    })
}

/// A new row whose first module is live, its book and its users.
fn live_row(alloc: Global) -> Result<(Row, BookSeat, Users), Fail>
    ensures wide { IfOk result (λ s. slots s.0.world ≡ 2) }
    ensures book { IfOk result (λ s. IsOf s.0 s.1) }
    ensures may { IfOk result (λ s. MayLeave s.1.view 0) }
    ensures live { IfOk result (λ s. state_in s.1.view 0 ≡ ModuleState.Live) }
    ensures states { IfOk result (λ s. 0 < length (book_of s.1.view).states) }
    ensures leaves { IfOk result (λ s. IsOf s.0 s.2.leaf × IsOf s.0 s.2.other) }
    ensures reader { IfOk result (λ s. IsOf s.0 s.2.reader) }
{
    let (row, leaves, mut book, readers) = new_row(alloc)?;
    let users = users_of(alloc, &row, leaves, readers)?;
    load(&row, &mut book);
    Ok((row, book, users))
}

/// What is done on a live row.
enum Course {
    Removal,
    Drain,
    DrainCalledOff,
    RemovalCalledOff,
    Guesses,
}

/// Whether it goes as it ought to, on a row of its own.
fn goes_well<R: AllocGlobal + Wait>(rt: &R, course: &Course) -> Result<bool, Fail> {
    let (row, mut book, mut users) = live_row(rt.alloc())?;
    Ok(match course {
        Course::Removal => is_held_and_removed(rt, &row, &mut book, &mut users),
        Course::Drain => is_held_and_drained(rt, &row, &mut book, &mut users),
        Course::DrainCalledOff => is_held_and_undrained(rt, &row, &mut book, &mut users),
        Course::RemovalCalledOff => is_closed_and_reopened(rt, &row, &mut book, &mut users),
        Course::Guesses => are_guesses_right(&row, &mut users),
    })
}

/// What is done, and what that shows.
static COURSES: [(&str, Course); 5] = [
    ("loads, holds and removes", Course::Removal),
    ("drains", Course::Drain),
    ("calls a drain off", Course::DrainCalledOff),
    ("calls a removal off", Course::RemovalCalledOff),
    ("guesses hold where nobody holds it", Course::Guesses),
];

#[test]
fn courses_go_well(rt: HostRuntime) -> Result<(), Fail> {
    for (shows, course) in &COURSES {
        assert!(rt; goes_well(&rt, course)?, "{shows}");
    }
    Ok(())
}
