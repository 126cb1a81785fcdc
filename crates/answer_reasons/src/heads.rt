//! Lines of one kind by the very names that they have.

use kmod_conf::{NameLine, SoftdepLine, TextLine};
use kmod_names::{AliasEntry, KeyPlaces, Place};
use std::alloc::{AllocError, Global};

/// The name of a line, and where the line stands.
#[derive(Clone, Copy)]
pub(crate) struct Head<'a> {
    pub(crate) name: &'a [u8],
    pub(crate) place: Place,
}

/// The heads of lines, in the order of the texts.
pub(crate) struct Heads<'a> {
    all: Vec<Head<'a>>,
    numbers: KeyPlaces,
}

// By hand, since a derived drop is written out, and proved, at each place where a value is let go.
impl Drop for Heads<'_> {
    fn drop(self) {
        let Heads { all: _, numbers: _ } = self;
    }
}

impl<'a> Heads<'a> {
    pub(crate) fn new(alloc: Global) -> Heads<'a> {
        Heads {
            all: Vec::new(alloc),
            numbers: KeyPlaces::new(alloc),
        }
    }

    fn push(&mut self, alloc: Global, name: &'a [u8], place: Place) -> Result<(), AllocError> {
        self.numbers.add(alloc, name, self.all.len())?;
        self.all.push(Head { name, place })?;
        Ok(())
    }

    pub(crate) fn add_names(
        &mut self,
        alloc: Global,
        lines: &'a [NameLine],
    ) -> Result<(), AllocError> {
        for line in lines {
            self.push(alloc, line.name.as_bytes(), line.place)?;
        }
        Ok(())
    }

    pub(crate) fn add_texts(
        &mut self,
        alloc: Global,
        lines: &'a [TextLine],
    ) -> Result<(), AllocError> {
        for line in lines {
            self.push(alloc, line.name.as_bytes(), line.place)?;
        }
        Ok(())
    }

    pub(crate) fn add_softdeps(
        &mut self,
        alloc: Global,
        lines: &'a [SoftdepLine],
    ) -> Result<(), AllocError> {
        for line in lines {
            self.push(alloc, line.name.as_bytes(), line.place)?;
        }
        Ok(())
    }

    pub(crate) fn add_aliases(
        &mut self,
        alloc: Global,
        lines: &'a [AliasEntry],
    ) -> Result<(), AllocError> {
        for line in lines {
            self.push(alloc, line.pattern.as_bytes(), line.place)?;
        }
        Ok(())
    }

    /// The heads, in the order of their numbers, from 0.
    pub(crate) fn all(&self) -> &[Head<'a>] {
        &self.all
    }

    /// The numbers of the lines of a name.
    pub(crate) fn numbers(&self, name: &[u8]) -> &[usize] {
        self.numbers.of(name)
    }
}
