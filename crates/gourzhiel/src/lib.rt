//! The module table for programs in other languages: handles of a catalogue, a book, leaves, readers and callers.
#![tactic(auto)]

mod book_calls;
mod book_reads;
mod caller_all_or_none;
mod caller_book_calls;
mod caller_book_reads;
mod caller_calls;
mod caller_holdings;
mod caller_meetings;
mod catalogue_calls;
mod endings;
mod handles;
mod leaf_calls;
mod making;
mod managed_calls;
mod numbers;
mod parts;
mod reader_calls;
mod table_calls;
mod teller_making;
mod version;

pub use book_calls::{
    gz_book_begin_drain, gz_book_begin_load, gz_book_begin_remove, gz_book_cancel_remove,
    gz_book_end_load, gz_book_end_remove, gz_book_free,
};
pub use book_reads::{gz_book_loaded, gz_book_loaded_at, gz_book_state};
pub use caller_all_or_none::gz_caller_get_all;
pub use caller_book_calls::{
    gz_caller_begin_drain, gz_caller_begin_load, gz_caller_begin_remove, gz_caller_cancel_remove,
    gz_caller_end_load, gz_caller_end_remove,
};
pub use caller_book_reads::{gz_caller_loaded, gz_caller_loaded_at, gz_caller_state};
pub use caller_calls::{
    gz_caller_free, gz_caller_get, gz_caller_held, gz_caller_put, gz_caller_workers,
};
pub use caller_holdings::{gz_caller_held_by, gz_caller_put_all};
pub use caller_meetings::{gz_caller_meet_book, gz_caller_meet_leaf, gz_teller_free};
pub use catalogue_calls::{
    gz_catalogue_free, gz_catalogue_len, gz_catalogue_name, gz_catalogue_need, gz_catalogue_read,
    gz_catalogue_slot,
};
pub use handles::{GzBook, GzCaller, GzCatalogue, GzLeaf, GzReader, GzTeller};
pub use leaf_calls::{gz_leaf_free, gz_leaf_get, gz_leaf_held, gz_leaf_put};
pub use managed_calls::{gz_caller_new, gz_managed_new};
pub use reader_calls::{gz_reader_free, gz_reader_in_use};
pub use table_calls::gz_table_new;
pub use teller_making::{gz_managed_new_with_tellers, gz_managed_tellers_new};
pub use version::gz_version;
