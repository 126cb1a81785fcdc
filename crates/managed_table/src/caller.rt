//! Who makes managed calls.
use crate::view::Passes;
use atomic_table::Seat;
use module_table::Book;
use std::marker::Model;
use use_indicator::Leaf;

/// What a thread makes managed calls with: a pass for the locks of the leaves, and one for the lock of the book. It has no
/// bytes. Contracts see what each pass has done.
#[derive(Drop)]
pub struct Caller {
    pub(crate) leaves: Seat<Leaf, Passes>,
    pub(crate) book: Seat<Book, Passes>,
}

impl Model for Caller {
    ghost use Rattle.managed_table.specs.Callers.{CallerIs, pass_is};
    ghost use Rattle.managed_table.specs.Passes.{IsIdle};

    ghost Value = { CallerIs };

    ghost view = { λ c. record { leaves = pass_is c.leaves; book = pass_is c.book } };

    ghost invariant = { λ c. IsIdle c.leaves × IsIdle c.book };
}
