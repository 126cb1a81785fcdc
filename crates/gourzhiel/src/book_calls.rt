//! The calls on the handle of a book.
ghost use Rattle.std.specs.Prelude.{◌≡◌, true};
ghost use Rattle.dep_index.specs.Refusals.{begin_drain_refusal, begin_remove_refusal, cancel_remove_refusal, end_load_refusal, end_remove_refusal};
ghost use Rattle.gourzhiel.specs.Ended.{BeginLoadEnded, BookEnded};

use crate::endings::{ended_number, tell_need};
use crate::handles::GzBook;
use managed_table::attempted;
use root_row::BookCall;

/// Begins a load: the module is then loading, and the newest.
///
/// EXISTS: it is not absent. UNKNOWN_SYMBOL: it needs a symbol that no module exports. NEED_NOT_LIVE: a module that
/// it needs is not live, and its slot is written to `need`. OUT_OF_RANGE: the slot is none of the table.
#[unsafe(no_mangle)]
pub extern "C" fn gz_book_begin_load(book: &mut GzBook, slot: usize, need: &mut usize) -> u32
    requires full { book.old.full ≡ true }
    ensures full { book.new.full ≡ true }
    ensures call { BeginLoadEnded book.old.held slot need.old result need.new book.new.held }
{
    let ended = attempted(book.lend().begin_load(slot));
    tell_need(&ended, need);
    ended_number(ended)
}

/// Ends a load: the module is then live if it went well, else absent.
///
/// NOT_LOADING: its load has not begun. OUT_OF_RANGE: the slot is none of the table.
#[unsafe(no_mangle)]
pub extern "C" fn gz_book_end_load(book: &mut GzBook, slot: usize, ok: bool) -> u32
    requires full { book.old.full ≡ true }
    ensures full { book.new.full ≡ true }
    ensures call { BookEnded end_load_refusal book.old.held slot (BookCall.EndLoad ok) result book.new.held }
{
    ended_number(attempted(book.lend().end_load(slot, ok)))
}

/// Begins a drain: no further get is let in, and the references stay.
///
/// NO_ENTRY: the module is absent. NEEDED_BY: a loaded module needs it. NOT_LIVE: it is not live. PERMANENT: it stays
/// once it is loaded. OUT_OF_RANGE: the slot is none of the table.
#[unsafe(no_mangle)]
pub extern "C" fn gz_book_begin_drain(book: &mut GzBook, slot: usize) -> u32
    requires full { book.old.full ≡ true }
    ensures full { book.new.full ≡ true }
    ensures call { BookEnded begin_drain_refusal book.old.held slot BookCall.BeginDrain result book.new.held }
{
    ended_number(attempted(book.lend().begin_drain(slot)))
}

/// Begins a removal of a module that nobody holds: from then on no get succeeds.
///
/// NO_ENTRY, NEEDED_BY, NOT_LIVE, PERMANENT: as for a drain. IN_USE: some leaf holds it. OUT_OF_RANGE: the slot is
/// none of the table.
#[unsafe(no_mangle)]
pub extern "C" fn gz_book_begin_remove(book: &mut GzBook, slot: usize) -> u32
    requires full { book.old.full ≡ true }
    ensures full { book.new.full ≡ true }
    ensures call { BookEnded begin_remove_refusal book.old.held slot BookCall.BeginRemove result book.new.held }
{
    ended_number(attempted(book.lend().begin_remove(slot)))
}

/// Ends a removal, or a drain once no reference is left: the module is then absent.
///
/// NOT_UNLOADING: neither has begun. IN_USE: it drains and some leaf holds it. OUT_OF_RANGE: the slot is none of the
/// table.
#[unsafe(no_mangle)]
pub extern "C" fn gz_book_end_remove(book: &mut GzBook, slot: usize) -> u32
    requires full { book.old.full ≡ true }
    ensures full { book.new.full ≡ true }
    ensures call { BookEnded end_remove_refusal book.old.held slot BookCall.EndRemove result book.new.held }
{
    ended_number(attempted(book.lend().end_remove(slot)))
}

/// Calls off a removal or a drain: the module is live again, and the references stay.
///
/// NOT_UNLOADING: neither has begun. OUT_OF_RANGE: the slot is none of the table.
#[unsafe(no_mangle)]
pub extern "C" fn gz_book_cancel_remove(book: &mut GzBook, slot: usize) -> u32
    requires full { book.old.full ≡ true }
    ensures full { book.new.full ≡ true }
    ensures call { BookEnded cancel_remove_refusal book.old.held slot BookCall.CancelRemove result book.new.held }
{
    ended_number(attempted(book.lend().cancel_remove(slot)))
}

/// Frees a book. Its leaves and readers go on, and no module is loaded or removed any more.
#[unsafe(no_mangle)]
pub extern "C" fn gz_book_free(book: GzBook)
    requires full { book.full ≡ true }
{
    drop(book.into_parts().into_box());
}
