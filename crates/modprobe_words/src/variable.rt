//! The words of MODPROBE_OPTIONS.
ghost use Rattle.std.specs.Prelude.{◌≡◌, ℕ, List, ◌∷◌, ◌++◌, [], IfOk, OnOk};
ghost use Rattle.modprobe_words.specs.Variable.{behind_quotes, bytes_of, closed, quote_of, words_from, words_of};

use std::alloc::{AllocError, Global};
use std::mem;

/// A quote that is open, with what stands behind it.
#[derive(Drop)]
enum Quote {
    Closed,
    Opened(u8, Vec<u8>),
}

/// The words that were read, and what is read of the next one.
#[derive(Drop)]
struct Reading {
    words: Vec<Vec<u8>>,
    word: Vec<u8>,
    quote: Quote,
}

impl Reading {
    ghost use Rattle.modprobe_words.specs.Readings.{whole};

    /// A byte outside quotes.
    fn take_plain(&mut self, alloc: Global, byte: u8) -> Result<(), AllocError>
        requires { quote_of self.old.quote ≡ closed }
        ensures { OnOk result ((rest : List ℕ) → whole self.new rest ≡ bytes_of self.old.words.items ++ words_from closed self.old.word.items (byte ∷ rest)) }
    {
        match byte {
            b' ' => {
                let word = mem::replace(&mut self.word, Vec::new(alloc));
                self.words.push(word)?;
            }
            b'"' | b'\'' => self.quote = Quote::Opened(byte, Vec::new(alloc)),
            _ => self.word.push(byte)?,
        }
        Ok(())
    }

    /// What stood in quotes, if they end.
    fn take_quoted(&mut self, text: Vec<u8>) -> Result<(), AllocError>
        requires { quote_of self.old.quote ≡ closed }
        ensures { OnOk result ((rest : List ℕ) → whole self.new rest ≡ bytes_of self.old.words.items ++ behind_quotes self.old.word.items text.items rest) }
    {
        if self.word.is_empty() {
            self.words.push(text)?;
        } else {
            self.word.extend_from_slice(&text)?;
        }
        Ok(())
    }

    fn take(&mut self, alloc: Global, byte: u8) -> Result<(), AllocError>
        ensures { OnOk result ((rest : List ℕ) → whole self.new rest ≡ whole self.old (byte ∷ rest)) }
    {
        match mem::replace(&mut self.quote, Quote::Closed) {
            Quote::Closed => self.take_plain(alloc, byte),
            Quote::Opened(mark, text) if mark == byte => self.take_quoted(text),
            Quote::Opened(mark, mut text) => {
                text.push(byte)?;
                self.quote = Quote::Opened(mark, text);
                Ok(())
            }
        }
    }

    /// What is left at the end of the text is a word too, unless it is empty.
    fn finish(self) -> Result<Vec<Vec<u8>>, AllocError>
        ensures { IfOk result (λ words. bytes_of words.items ≡ whole self []) }
    {
        let Reading {
            mut words,
            mut word,
            quote,
        } = self;
        if let Quote::Opened(mark, text) = quote {
            word.push(mark)?;
            word.extend_from_slice(&text)?;
        }
        if !word.is_empty() {
            words.push(word)?;
        }
        Ok(words)
    }
}

/// The words of a text of MODPROBE_OPTIONS. It fails only out of memory.
pub fn variable_words(alloc: Global, text: &[u8]) -> Result<Vec<Vec<u8>>, AllocError>
    ensures { IfOk result (λ words. bytes_of words.items ≡ words_of text.now) }
{
    let mut reading = Reading {
        words: Vec::new(alloc),
        word: Vec::new(alloc),
        quote: Quote::Closed,
    };
    for byte in text {
        reading.take(alloc, *byte)?;
    }
    reading.finish()
}
