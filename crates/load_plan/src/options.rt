//! The words that a module is loaded with.
ghost use Rattle.std.specs.Prelude.{◌≡◌, [], ◌++◌, OnOk};
ghost use Rattle.text_parts.specs.Text.{texts_of};

use modprobe_conf::Word;
use std::alloc::{AllocError, Global};
use std::marker::Model;

/// The words that a module is loaded with. Contracts see it as their list.
#[derive(Drop)]
pub struct Options<'a> {
    words: Vec<&'a [u8]>,
}

impl<'a> Model for Options<'a> {
    ghost use Rattle.std.specs.Prelude.{ℕ, List};
    ghost use Rattle.text_parts.specs.Text.{texts_of};

    ghost Value = { List (List ℕ) };

    ghost view = { λ o. texts_of o.words.items };
}

impl<'a> Options<'a> {
    pub(crate) fn new(alloc: Global) -> Options<'a>
        ensures { result ≡ [] }
    {
        Options {
            words: Vec::new(alloc),
        }
    }

    /// Adds the words of options lines.
    pub(crate) fn add_options(&mut self, words: &'a [Word]) -> Result<(), AllocError>
        ensures { OnOk result (self.new ≡ self.old ++ words.now) }
    {
        for word in words {
            self.words.push(word.as_bytes())?;
        }
        Ok(())
    }

    pub(crate) fn add_words(&mut self, words: &[&'a [u8]]) -> Result<(), AllocError>
        ensures { OnOk result (self.new ≡ self.old ++ texts_of words.now) }
    {
        for word in words {
            self.words.push(word)?;
        }
        Ok(())
    }

    /// The words, in order.
    pub fn words(&self) -> &[&'a [u8]]
        ensures { texts_of result.now ≡ self.now }
    {
        &self.words
    }
}
