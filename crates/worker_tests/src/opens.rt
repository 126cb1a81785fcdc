//! What is new: in tables, machines, rows, leaves, books and managers nothing is loaded, held or called.
ghost use Rattle.std.specs.Prelude.{◌≡◌};
ghost use Rattle.root_row.specs.World.{slots};

use crate::sound::sound;
use dep_index::{Catalogue, ModuleState};
use module_table::{Book, Manager};
use root_row::{BookSeat, LeafSeat, ReadSeat, Row};
use seq_table::{Modules, Table};
use std::alloc::{AllocError, Global};
use std::test::Fail;
use step_core::{Call, Event, Machine, Reply, Step};
use use_indicator::{Leaf, Reader};

fn is_table(made: Result<Table, AllocError>) -> Result<bool, AllocError> {
    let table = made?;
    Ok(
        table.workers() == 2
            && table.slots() == 2
            && table.loaded() == 0
            && table.state(1) == ModuleState::Absent
            && table.held(1, 1) == 0,
    )
}

/// Makes a call, and says whether it is answered.
fn is_machine(made: Result<Machine, AllocError>) -> Result<bool, AllocError> {
    let mut machine = made?;
    Ok(
        machine.step(Step::Invoke(0, Call::InUse(1))) == Ok(Event::Invoked(0))
            && machine.step(Step::Go(0)) == Ok(Event::Point(0, Reply::No)),
    )
}

/// A row, and the seats of its leaves, its book and its readers.
type Seated = (Row, Vec<LeafSeat>, BookSeat, Vec<ReadSeat>);

fn is_row(made: Result<Seated, AllocError>) -> Result<bool, AllocError> {
    let (row, leaves, _, readers) = made?;
    Ok(row.slots() == 2 && leaves.len() == 2 && readers.len() == 1)
}

fn is_manager(made: Result<(Manager, Vec<Reader>), AllocError>) -> Result<bool, AllocError> {
    let (manager, readers) = made?;
    Ok(manager.workers() == 2 && manager.slots() == 2 && readers.len() == 2)
}

/// Whether a leaf of two slots holds nothing.
fn holds_nothing(leaf: &Leaf) -> bool
    requires { slots leaf.now.view.world ≡ 2 }
{
    leaf.held(0) == 0 && leaf.held(1) == 0
}

/// Whether the leaf of the last seat holds nothing.
fn is_leaf(alloc: Global, catalogue: &Catalogue) -> Result<bool, AllocError> {
    let (row, mut seats, _, _) = Row::new(alloc, catalogue, 2, 0)?;
    let Some(seat) = seats.pop() else {
        return Ok(false);
    };
    let leaf = Leaf::new(alloc, seat, row.slots())?;
    Ok(row.slots() == 2 && holds_nothing(&leaf))
}

/// Whether the book has two modules, of which none is loaded.
fn is_book(alloc: Global, catalogue: &Catalogue) -> Result<bool, AllocError> {
    let (row, _, seat, _) = Row::new(alloc, catalogue, 2, 0)?;
    let book = Book::new(alloc, seat, catalogue)?;
    Ok(row.slots() == 2 && book.loaded() == 0 && book.state(1) == ModuleState::Absent)
}

/// What is made over a catalogue.
fn are_made(alloc: Global, catalogue: &Catalogue) -> Result<bool, AllocError> {
    Ok(
        is_table(Table::new(alloc, catalogue, 2))?
            && is_machine(Machine::new(alloc, catalogue, 2, 1, 1))?
            && is_row(Row::new(alloc, catalogue, 2, 1))?
            && is_leaf(alloc, catalogue)?
            && is_book(alloc, catalogue)?
            && is_manager(Manager::new(alloc, catalogue, 2))?,
    )
}

/// What is made over its slots.
fn are_over(alloc: Global, catalogue: &Catalogue) -> Result<bool, AllocError> {
    Ok(
        is_table(Table::over(alloc, catalogue.slots(alloc)?, 2))?
            && is_machine(Machine::over(alloc, catalogue.slots(alloc)?, 2, 1, 1))?
            && is_row(Row::over(alloc, &catalogue.slots(alloc)?, 2, 1))?,
    )
}

#[test]
fn what_is_new(rt: HostRuntime) -> Result<(), Fail> {
    let catalogue = sound(rt.alloc())?;
    assert!(rt; are_made(rt.alloc(), &catalogue)?);
    assert!(rt; are_over(rt.alloc(), &catalogue)?);
    Ok(())
}
