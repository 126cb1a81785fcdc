//! All lines that are found by their very names.

use crate::heads::Heads;
use kmod_conf::Conf;
use kmod_names::{KeyPlaces, name_of_path};
use std::alloc::{AllocError, Global};
use text_parts::whole_lines;

/// The lines of a configuration by kinds, and those of modules.builtin by their numbers, from 1.
pub(crate) struct NamedLines<'a> {
    /// Those of aliases, by the texts of their patterns.
    pub(crate) aliases: Heads<'a>,
    pub(crate) blacklist: Heads<'a>,
    pub(crate) installs: Heads<'a>,
    pub(crate) removes: Heads<'a>,
    pub(crate) softdeps: Heads<'a>,
    pub(crate) builtins: KeyPlaces,
}

// By hand, since a derived drop is written out, and proved, at each place where a value is let go.
impl Drop for NamedLines<'_> {
    fn drop(self) {
        let NamedLines {
            aliases: _,
            blacklist: _,
            installs: _,
            removes: _,
            softdeps: _,
            builtins: _,
        } = self;
    }
}

/// Adds the number of a line of modules.builtin, if it names a module.
fn add_file(
    alloc: Global,
    numbers: &mut KeyPlaces,
    number: usize,
    line: &[u8],
) -> Result<(), AllocError> {
    match line.first() {
        Some(byte) if byte.is_ascii_alphabetic() => {
            let name = name_of_path(alloc, line)?;
            numbers.add(alloc, name.as_bytes(), number)
        }
        _ => Ok(()),
    }
}

/// Adds the numbers of the lines of modules.builtin, by the names of modules.
fn add_files(alloc: Global, numbers: &mut KeyPlaces, text: &[u8]) -> Result<(), AllocError> {
    let mut lines = whole_lines(text);
    let mut number = 1usize;
    'lines: while let Some(line) = lines.next() {
        add_file(alloc, numbers, number, line)?;
        number += 1;
    }
    Ok(())
}

impl<'a> NamedLines<'a> {
    /// No lines yet.
    pub(crate) fn new(alloc: Global) -> NamedLines<'a> {
        NamedLines {
            aliases: Heads::new(alloc),
            blacklist: Heads::new(alloc),
            installs: Heads::new(alloc),
            removes: Heads::new(alloc),
            softdeps: Heads::new(alloc),
            builtins: KeyPlaces::new(alloc),
        }
    }

    /// Adds the lines of a configuration and of a text of modules.builtin.
    pub(crate) fn add(
        &mut self,
        alloc: Global,
        conf: &'a Conf,
        builtin: &[u8],
    ) -> Result<(), AllocError> {
        self.aliases.add_aliases(alloc, conf.aliases())?;
        self.blacklist.add_names(alloc, conf.blacklist())?;
        self.installs.add_texts(alloc, conf.installs())?;
        self.removes.add_texts(alloc, conf.removes())?;
        self.softdeps.add_softdeps(alloc, conf.softdeps())?;
        add_files(alloc, &mut self.builtins, builtin)
    }
}
