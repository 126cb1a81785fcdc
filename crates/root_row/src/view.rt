//! What a seat knows, as plain data. No value of these types is made. Contracts see a `LinkedList` as its list.
use dep_index::{Call, ModuleState, Reply, Slots};
use std::collections::LinkedList;
use std::marker::Model;

/// What a row is over: the catalogue by slot, and the number of workers.
pub struct World {
    pub catalogue: Slots,
    pub workers: usize,
}

/// Who makes a call.
#[derive(Clone, Copy, Drop)]
pub enum SeatName {
    Leaf(usize),
    Reader(usize),
    Book,
}

/// One answered call of the history.
#[derive(Clone, Copy, Drop)]
pub struct SeatAnswer {
    pub by: SeatName,
    pub call: Call,
    pub reply: Reply,
}

/// The states by slot and the order of loading.
pub struct Book {
    states: LinkedList<ModuleState>,
    order: LinkedList<usize>,
}

impl Model for Book {
    ghost use Rattle.dep_index.specs.Table.{Book};

    ghost Value = { Book };

    ghost view = { λ b. record { states = b.states; order = b.order } };
}

/// A part of the row that a seat stands for: a leaf with its row of counts, a reader, or the book.
pub enum Part {
    Leaf(usize, LinkedList<usize>),
    Reader(usize),
    Book(Book),
}

/// A part with the history that it has seen.
pub struct Member {
    pub part: Part,
    pub seen: LinkedList<SeatAnswer>,
}

/// A seat's view. A leaf's, the book's and a reader's have one member, a pair's has two, a spent one's has none.
pub struct View {
    pub world: World,
    pub members: LinkedList<Member>,
}

/// One atomic step on the root word of a slot, or on the spare word, which is only ever loaded.
pub enum AtomicStep {
    /// The word of a slot was loaded, and this was found.
    Load(usize, u64),
    /// An exchange of the first of these words by the second, and whether it was made.
    Exchange(usize, u64, u64, bool),
    /// So much was added to the word of a slot.
    Add(usize, u64),
    /// So much was subtracted from the word of a slot.
    Subtract(usize, u64),
    LoadSpare,
}

/// A seat's view, with the steps that the seat has made, the oldest first.
pub struct Trail {
    pub view: View,
    pub steps: LinkedList<AtomicStep>,
}
