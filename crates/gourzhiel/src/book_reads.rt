//! What the handle of a book shows: the states, and the loaded modules in their order.
ghost use Rattle.std.specs.Prelude.{◌≡◌, true, length};
ghost use Rattle.root_row.specs.Views.{book_of};
ghost use Rattle.gourzhiel.specs.Ended.{StateTold, PlaceTold};

use crate::endings::ended_state_number;
use crate::handles::GzBook;
use crate::numbers::{DONE, OUT_OF_RANGE};
use managed_table::attempted;

/// The state of the module: ABSENT, LOADING, LIVE, DRAINING or UNLOADING.
///
/// OUT_OF_RANGE: the slot is none of the table.
#[unsafe(no_mangle)]
pub extern "C" fn gz_book_state(book: &mut GzBook, slot: usize) -> u32
    requires full { book.old.full ≡ true }
    ensures kept { (book.new.full ≡ true) × (book.new.held ≡ book.old.held) }
    ensures state { StateTold book.old.held slot result }
{
    ended_state_number(attempted(book.lend().state(slot)))
}

/// How many modules are loaded, in any state but absent.
#[unsafe(no_mangle)]
pub extern "C" fn gz_book_loaded(book: &mut GzBook) -> usize
    requires full { book.old.full ≡ true }
    ensures kept { (book.new.full ≡ true) × (book.new.held ≡ book.old.held) }
    ensures count { result ≡ length (book_of book.old.held.view).order }
{
    book.lend().loaded()
}

/// The slot of the loaded module at this place, the oldest first.
///
/// OUT_OF_RANGE: fewer are loaded, and the slot is left as it is.
#[unsafe(no_mangle)]
pub extern "C" fn gz_book_loaded_at(book: &mut GzBook, place: usize, slot: &mut usize) -> u32
    requires full { book.old.full ≡ true }
    ensures kept { (book.new.full ≡ true) × (book.new.held ≡ book.old.held) }
    ensures place { PlaceTold book.old.held place slot.old result slot.new }
{
    match book.lend().loaded_at(place) {
        None => OUT_OF_RANGE,
        Some(found) => {
            *slot = found;
            DONE
        }
    }
}
