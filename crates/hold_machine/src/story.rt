//! What happened, as tests see it.

use std::alloc::Global;

/// What happened to the kernel or a call. A module goes by its slot, a call by its number.
#[derive(Clone, Copy, Debug, PartialEq, Eq, Drop)]
pub enum Happened {
    Loaded(usize),
    Removed(usize),
    /// A get was asked.
    Asked(usize),
    /// The reply to a get was begun.
    Begun(usize),
    /// A put was about to give back.
    GivesBack,
}

/// What happened, oldest first, as far as there was memory for it.
#[derive(Drop)]
pub(crate) struct Story {
    happened: Vec<Happened>,
    is_whole: bool,
}

impl Story {
    pub(crate) fn new(alloc: Global) -> Story {
        Story {
            happened: Vec::new(alloc),
            is_whole: true,
        }
    }

    pub(crate) fn tell(&mut self, what: Happened) {
        if self.happened.push(what).is_err() {
            self.is_whole = false;
        }
    }

    /// None if there was no memory for some of it.
    pub(crate) fn told(&self) -> Option<&[Happened]> {
        if self.is_whole {
            return Some(&self.happened);
        }
        None
    }
}
