//! Where the lines of an input stand, by file and number.

use crate::files::File;
use modprobe::Section;
use program_frame::Shown;
use std::alloc::{AllocError, Global};
use std::fmt;

/// Where a line stands: its file, or none for standard input, and its number there, from 1.
#[derive(Clone, Copy, Drop)]
pub(crate) struct Place<'a> {
    pub(crate) path: Option<&'a str>,
    pub(crate) number: u64,
}

impl fmt::Display for Place<'_> {
    fn fmt<W: fmt::Write>(&self, f: &mut fmt::Formatter<W>) -> fmt::Result {
        let path = Shown(self.path.unwrap_or("standard input").as_bytes());
        let number = self.number;
        write!(f, "{path}, line {number}")
    }
}

/// A section, and the number of its section line among the lines of the input.
#[derive(Clone, Copy, Drop)]
struct Begun {
    section: Section,
    number: u64,
}

/// The files of an input, and where its sections begin.
#[derive(Drop)]
pub(crate) struct Places<'a> {
    files: &'a [File<'a>],
    sections: Vec<Begun>,
}

impl<'a> Places<'a> {
    /// Those of an input that begins with these files, and of which nothing else is known.
    pub(crate) fn new(alloc: Global, files: &'a [File<'_>]) -> Places<'a> {
        Places {
            files,
            sections: Vec::new(alloc),
        }
    }

    /// Adds a section whose section line has this number.
    pub(crate) fn begin(&mut self, section: Section, number: u64) -> Result<(), AllocError> {
        self.sections.push(Begun { section, number })?;
        Ok(())
    }

    /// Where the line of this number stands. The section line of a file is its line 0.
    pub(crate) fn of_line(&self, number: u64) -> Place<'a> {
        let mut left = number;
        for file in self.files {
            if left <= file.lines {
                return Place {
                    path: Some(file.path.as_str()),
                    number: left.saturating_sub(1),
                };
            }
            left = left.saturating_sub(file.lines);
        }
        Place {
            path: None,
            number: left,
        }
    }

    /// Where the line of this number, from 1, of a section's joined text stands.
    pub(crate) fn in_section(&self, section: Section, number: u64) -> Place<'a> {
        let mut left = number;
        for (i, begun) in self.sections.iter().enumerate() {
            let next = self.sections.get(i.saturating_add(1));
            let count = lines_between(begun, next);
            if begun.section == section {
                if left <= count {
                    return self.of_line(begun.number.saturating_add(left));
                }
                left = left.saturating_sub(count);
            }
        }
        self.of_line(number)
    }

    /// The number, from 1, that the line of this number of the input has in the joined text of a section.
    fn number_in(&self, section: Section, line: u64) -> Option<u64> {
        let mut before: u64 = 0;
        for (i, begun) in self.sections.iter().enumerate() {
            let next = self.sections.get(i.saturating_add(1));
            let count = lines_between(begun, next);
            let within = line.saturating_sub(begun.number);
            if begun.section == section {
                if within > 0 && within <= count {
                    return Some(before.saturating_add(within));
                }
                before = before.saturating_add(count);
            }
        }
        None
    }

    /// The number, in the joined text of a section, of the first line there that is the last of a file and lacks a line
    /// feed in it.
    pub(crate) fn unended_in(&self, section: Section) -> Option<u64> {
        let mut last: u64 = 0;
        for file in self.files {
            last = last.saturating_add(file.lines);
            if file.is_unended {
                let number = self.number_in(section, last);
                if number.is_some() {
                    return number;
                }
            }
        }
        None
    }
}

/// How many lines a section has before the next one; the last has as many as there are.
fn lines_between(begun: &Begun, next: Option<&Begun>) -> u64 {
    match next {
        Some(next) => next.number.saturating_sub(begun.number).saturating_sub(1),
        None => u64::MAX,
    }
}
