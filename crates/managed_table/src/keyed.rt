//! What lies behind a lock.
use module_table::Book;
use use_indicator::Leaf;

/// What holds of the value behind each lock of a row, the value as contracts see it, and the name of its seat.
pub trait Keyed {
    ghost use Rattle.std.specs.Prelude.{ℕ};
    ghost use Rattle.root_row.specs.Seats.{RowIs, Seated};
    ghost use Rattle.root_row.specs.History.{SeatName};

    ghost by: { ℕ → SeatName };

    ghost fits: { RowIs → ℕ → Self → Type 0 };

    ghost shown: { Self → Seated };
}

impl Keyed for Leaf {
    ghost use Rattle.managed_table.specs.Kept.{leaf_name, leaf_fits, shown};

    ghost by = { leaf_name };

    ghost fits = { leaf_fits };

    ghost shown = { shown };
}

impl Keyed for Book {
    ghost use Rattle.managed_table.specs.Kept.{book_name, book_fits, shown};

    ghost by = { book_name };

    ghost fits = { book_fits };

    ghost shown = { shown };
}
