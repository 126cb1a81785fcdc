//! Facts of an answer: of whom, what, and where it stands.

use crate::file_facts::{add_hidden, add_unread};
use crate::heads::Heads;
use crate::kept::kept;
use crate::known::Known;
use crate::line_ends::first_cr_line;
use answer_facts::{Fact, FileFact, Spot, What};
use bumpalo::Bump;
use indexmap::IndexSet;
use kmod_names::Place;
use kmod_query::Taken;
use std::alloc::{AllocError, Global};
use std::mem::replace;

/// For how many words near names are looked for.
const SEARCHES: usize = 8;

/// A line of a file.
pub(crate) fn line_spot(file: &[u8], number: usize) -> Spot<'_> {
    Spot::Line(file, number as u64)
}

/// Facts about what is known, one after another.
pub(crate) struct Told<'k, 'a> {
    pub(crate) alloc: Global,
    /// Where texts stay that are made for the facts.
    pub(crate) texts: &'a Bump,
    pub(crate) known: &'k Known<'k, 'a>,
    facts: Vec<Fact<'a>>,
    /// What a removal takes by now, if it is made and not only shown.
    pub(crate) taken: Vec<Taken>,
    /// For how many words near names may still be looked for.
    pub(crate) searches: usize,
    /// The names of which it was told that blacklist lines do not hold for an alias, and those that blacklist lines have with
    /// `-` for `_`.
    unheld: IndexSet<&'a [u8]>,
}

// By hand, since a derived drop is written out, and proved, at each place where a value is let go.
impl Drop for Told<'_, '_> {
    fn drop(self) {
        let Told {
            alloc: _,
            texts: _,
            known: _,
            facts: _,
            taken: _,
            searches: _,
            unheld: _,
        } = self;
    }
}

impl<'k, 'a> Told<'k, 'a> {
    /// No facts yet.
    pub(crate) fn new(alloc: Global, known: &'k Known<'k, 'a>) -> Told<'k, 'a> {
        Told {
            alloc,
            texts: known.sources.texts,
            known,
            facts: Vec::new(alloc),
            taken: Vec::new(alloc),
            searches: SEARCHES,
            unheld: IndexSet::new(alloc),
        }
    }

    /// Whether it is to be told that blacklist lines of a name do not hold; from now on it was.
    pub(crate) fn begin_unheld(&mut self, name: &'a [u8]) -> Result<bool, AllocError> {
        let is_new = self.unheld.insert(name)?;
        Ok(is_new)
    }

    /// Takes all that was told out.
    pub(crate) fn take_facts(&mut self) -> Vec<Fact<'a>> {
        replace(&mut self.facts, Vec::new(self.alloc))
    }

    /// A copy of a text, which lasts as long as the facts.
    pub(crate) fn kept(&self, bytes: &[u8]) -> Result<&'a [u8], AllocError> {
        kept(self.texts, bytes)
    }

    /// Adds a fact: of whom, what is said, and where that stands.
    pub(crate) fn say(
        &mut self,
        whom: &'a [u8],
        what: What<'a>,
        spot: Spot<'a>,
    ) -> Result<(), AllocError> {
        self.facts.push(Fact { whom, what, spot })?;
        Ok(())
    }

    /// Adds a fact of what stands in the configuration.
    pub(crate) fn say_of(
        &mut self,
        whom: &'a [u8],
        what: What<'a>,
        place: Place,
    ) -> Result<(), AllocError> {
        let path = self.known.sources.path(place.source);
        self.say(whom, what, line_spot(path, place.line))
    }

    /// Adds a fact for each line of a name, but for the one that counts. A list of the kernel's command line that has the name
    /// twice is one.
    pub(crate) fn say_of_each(
        &mut self,
        name: &'a [u8],
        what: What<'a>,
        lines: &Heads<'_>,
        counting: Option<Place>,
    ) -> Result<(), AllocError> {
        let mut last = None;
        for number in lines.numbers(name) {
            match lines.all().get(*number) {
                Some(head) if counting != Some(head.place) && last != Some(head.place) => {
                    self.say_of(name, what, head.place)?;
                    last = Some(head.place);
                }
                _ => {}
            }
        }
        Ok(())
    }

    /// Tells the files of the configuration that are hidden by others of their names.
    pub(crate) fn say_hidden(&mut self) -> Result<(), AllocError> {
        add_hidden(self.known.sources.hidden, &mut self.facts)
    }

    /// Tells the files of the configuration whose lines end with a carriage return.
    pub(crate) fn say_line_ends(&mut self) -> Result<(), AllocError> {
        for file in self.known.sources.files {
            if let Some(number) = first_cr_line(&file.text) {
                let path = file.path.as_slice();
                let what = What::File(FileFact::CarriageReturn);
                self.say(path, what, line_spot(path, number))?;
            }
        }
        Ok(())
    }

    /// Tells the files beside the configuration that are not read.
    pub(crate) fn say_unread(&mut self) -> Result<(), AllocError> {
        add_unread(self.known.sources.unread, &mut self.facts)
    }
}
