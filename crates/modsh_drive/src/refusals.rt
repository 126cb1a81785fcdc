//! What people are told of a refused command: its line, its code and why.

use crate::causes::Cause;
use crate::texts::{setting_line, unknown_symbol};
use crate::ways::{Dependencies, cycle_from};
use crate::witness::Kept;
use dep_index::read_dep;
use modprobe::{Refused, Section};
use program_frame::Shown;
use seq_table::Modules;
use std::alloc::AllocError;
use std::io::Write;
use text_parts::{Name, is_same, words};

impl<M: Modules> Cause<'_, M> {
    /// Whether one of the words of the command is its name, or the normal form is.
    fn has_name(&self) -> Result<bool, AllocError> {
        for word in self.words {
            let name = Name::new(self.alloc, word)?;
            if is_same(word, self.refusal.name) || is_same(name.as_bytes(), self.refusal.name) {
                return Ok(true);
            }
        }
        Ok(false)
    }

    /// Tells where the install or remove line of the module stands.
    pub(crate) fn tell_setting<E: Write>(
        &self,
        word: &[u8],
        kept: &Kept<'_>,
        errors: &mut E,
    ) -> Result<(), AllocError> {
        let text = kept.text(Section::Conf);
        if let Some(number) = setting_line(self.alloc, text, word, self.refusal.name)? {
            let place = kept.places.in_section(Section::Conf, number);
            let word = Shown(word);
            let _ = write!(errors, ": its {word} line stands in {place}");
        }
        Ok(())
    }

    /// Tells the way of a cycle of hard dependencies, whose modules are in these slots.
    fn tell_way<E: Write>(&self, way: &[usize], errors: &mut E) {
        let Some(rest) = way.get(1..) else {
            return;
        };
        let (catalogue, name) = (self.setup.catalogue(), Shown(self.refusal.name));
        let _ = write!(errors, ": {name}");
        for slot in rest {
            if *slot < catalogue.len() {
                let next = Shown(catalogue.name(*slot));
                let _ = write!(errors, " needs {next}, which");
            }
        }
        let _ = write!(errors, " needs {name}");
    }

    /// Tells the way of a cycle of hard dependencies from the module.
    pub(crate) fn tell_cycle<E: Write>(
        &self,
        kept: &Kept<'_>,
        errors: &mut E,
    ) -> Result<(), AllocError> {
        let (alloc, catalogue) = (self.alloc, self.setup.catalogue());
        let lines = read_dep(alloc, kept.text(Section::Dep));
        if let (Some(slot), Ok(lines)) = (self.slot(), &lines) {
            let way = cycle_from(alloc, &Dependencies { catalogue, lines }, slot)?;
            self.tell_way(&way, errors);
        }
        Ok(())
    }

    /// Tells the symbol that the module needs and no module exports.
    pub(crate) fn tell_symbol<E: Write>(
        &self,
        kept: &Kept<'_>,
        errors: &mut E,
    ) -> Result<(), AllocError> {
        let text = kept.text(Section::Catalogue);
        if let Some(symbol) = unknown_symbol(self.alloc, text, self.refusal.name)? {
            let symbol = Shown(symbol);
            let _ = write!(errors, ": no module exports {symbol}");
        }
        Ok(())
    }

    /// Tells the code of the refusal, with its name if the command has not that name, and why.
    fn tell_code<E: Write>(&self, kept: &Kept<'_>, errors: &mut E) -> Result<(), AllocError> {
        let (code, name) = (Shown(self.refusal.code.text()), Shown(self.refusal.name));
        let _ = write!(errors, ": {code}");
        if !self.has_name()? {
            let _ = write!(errors, " {name}");
        }
        self.tell(kept, errors)
    }
}

/// Tells a refused command, and why it is refused.
pub(crate) fn tell_refusal<M: Modules, E: Write>(
    refused: &Refused<'_, M>,
    kept: &Kept<'_>,
    errors: &mut E,
) -> Result<(), AllocError> {
    let words = words(kept.alloc, refused.line)?;
    let cause = Cause {
        alloc: kept.alloc,
        setup: refused.setup,
        table: refused.table,
        words: &words,
        refusal: refused.refusal,
    };
    let (place, line) = (kept.places.of_line(kept.lines), Shown(refused.line));
    // A line of a session mostly stands in standard input.
    let _ = match (place.path, place.number) {
        (Some(_), _) => write!(errors, "modsh: {place}: {line}"),
        (None, number) => write!(errors, "modsh: line {number}: {line}"),
    };
    let told = cause.tell_code(kept, errors);
    let _ = writeln!(errors);
    told
}
