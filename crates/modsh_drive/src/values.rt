//! Words of parameters that are refused.

use crate::causes::Cause;
use crate::parameters::kind_of;
use load_plan::params_valid;
use proc_modules::push_kind;
use program_frame::Shown;
use seq_table::Modules;
use std::alloc::AllocError;
use std::io::Write;

impl<M: Modules> Cause<'_, M> {
    /// Tells a word that the module does not take, and the kind of its parameter. It answers whether the word is one.
    fn tell_if_refused<E: Write>(&self, word: &[u8], errors: &mut E) -> Result<bool, AllocError> {
        let catalogue = self.setup.catalogue();
        let Some(slot) = self.slot() else {
            return Ok(false);
        };
        if params_valid(catalogue, slot, &[word]) {
            return Ok(false);
        }
        let shown = Shown(word);
        let _ = write!(errors, ": {shown}");
        if let Some(kind) = kind_of(self.alloc, catalogue.params(slot), word)? {
            let mut text = Vec::new(self.alloc);
            push_kind(&mut text, kind)?;
            let kind = Shown(&text);
            let _ = write!(errors, ": the parameter is of type {kind}");
        }
        Ok(true)
    }

    /// Tells the first word of the options lines of its name that the module does not take, and whether there is one.
    fn tell_option<E: Write>(&self, errors: &mut E) -> Result<bool, AllocError> {
        let setup = self.setup;
        for word in setup.configuration().options(self.refusal.name) {
            if self.tell_if_refused(word.as_bytes(), errors)? {
                let _ = write!(errors, ", in an options line");
                return Ok(true);
            }
        }
        Ok(false)
    }

    /// Tells the first word that the module does not take: of the options lines of its name, which insmod leaves out, or
    /// else of the command.
    pub(crate) fn tell_value<E: Write>(&self, errors: &mut E) -> Result<(), AllocError> {
        if !self.is_command(b"insmod") && self.tell_option(errors)? {
            return Ok(());
        }
        let words = self.words;
        for word in words.get(2..).unwrap_or(&[]) {
            if self.tell_if_refused(word, errors)? {
                return Ok(());
            }
        }
        Ok(())
    }
}
