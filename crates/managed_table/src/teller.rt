//! A reader that lies still.
ghost use Rattle.std.specs.Prelude.{◌≡◌, IfOk};

use std::alloc::{AllocError, Global};
use std::marker::Model;
use use_indicator::Reader;

/// A reader in a place of its own, which own callers meet: a call borrows it, and gives it back. Contracts see the reader.
#[derive(Drop)]
pub struct Teller {
    // None only within a call.
    pub(crate) reader: Option<Reader>,
}

impl Model for Teller {
    ghost use Rattle.std.specs.Prelude.{◌≡◌, Some};
    ghost use Rattle.root_row.specs.Seats.{Seated};
    ghost use Rattle.managed_table.specs.Owned.{reader_in};

    ghost Value = { Seated };

    ghost view = { λ t. reader_in t.reader };

    ghost invariant = { λ t. t.reader ≡ Some (reader_in t.reader) };
}

impl Teller {
    pub fn new(reader: Reader) -> Teller
        ensures { result ≡ reader }
    {
        Teller {
            reader: Some(reader),
        }
    }
}

/// A teller for each reader.
pub(crate) fn tellers_of(alloc: Global, readers: Vec<Reader>) -> Result<Vec<Teller>, AllocError>
    ensures { IfOk result (λ tellers. tellers.items ≡ readers.items) }
{
    let mut tellers = Vec::with_capacity(alloc, readers.len())?;
    for reader in readers {
        tellers.push(Teller::new(reader))?;
    }
    Ok(tellers)
}
