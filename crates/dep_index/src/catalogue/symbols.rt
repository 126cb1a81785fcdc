//! Symbols one behind another, in one buffer.
ghost use Rattle.std.specs.Prelude.{◌≡◌, ◌∷◌, ◌++◌, [], OnOk, MatchOption};
ghost use Rattle.text_parts.specs.Text.{texts_of};

use std::alloc::{AllocError, Global};
use std::marker::Model;

/// Symbols in order. They are in one buffer, since a catalogue has tens of thousands, of which each would else take
/// memory of its own.
#[derive(Drop)]
pub(crate) struct Symbols {
    bytes: Vec<u8>,
    lengths: Vec<usize>,
}

impl Model for Symbols {
    ghost use Rattle.std.specs.Prelude.{List, ℕ, ◌≡◌, length};
    ghost use Rattle.dep_index.specs.Catalogue.Pieces.{pieces, total};

    ghost Value = { List (List ℕ) };

    ghost view = { λ s. pieces s.lengths.items s.bytes.items };

    ghost invariant = { λ s. total s.lengths.items ≡ length s.bytes.items };
}

impl Symbols {
    pub fn new(alloc: Global) -> Symbols
        ensures { result ≡ [] }
    {
        Symbols {
            bytes: Vec::new(alloc),
            lengths: Vec::new(alloc),
        }
    }

    /// Makes room for copies of the symbols.
    pub fn reserve(&mut self, symbols: &[&[u8]]) -> Result<(), AllocError>
        ensures { self.new ≡ self.old }
    {
        let mut count = 0usize;
        for symbol in symbols {
            count = count.saturating_add(symbol.len());
        }
        self.lengths.reserve(symbols.len())?;
        self.bytes.reserve(count)
    }

    /// Adds a copy of the symbol.
    pub fn push(&mut self, symbol: &[u8]) -> Result<(), AllocError>
        ensures { OnOk result (self.new ≡ self.old ++ symbol.now ∷ []) }
    {
        self.lengths.push(symbol.len())?;
        match self.bytes.extend_from_slice(symbol) {
            Ok(()) => Ok(()),
            Err(error) => {
                self.lengths.pop();
                Err(error)
            }
        }
    }

    /// Adds copies of the symbols.
    pub fn push_all(&mut self, symbols: &[&[u8]]) -> Result<(), AllocError>
        ensures { OnOk result (self.new ≡ self.old ++ texts_of symbols.now) }
    {
        self.reserve(symbols)?;
        for symbol in symbols {
            self.push(symbol)?;
        }
        Ok(())
    }

    /// The symbols, from the first on.
    pub fn iter(&self) -> SymbolsLeft<'_>
        ensures { result ≡ self.now }
    {
        SymbolsLeft {
            bytes: &self.bytes,
            lengths: &self.lengths,
        }
    }
}

/// The symbols that are still to be read.
#[derive(Drop)]
pub(crate) struct SymbolsLeft<'a> {
    bytes: &'a [u8],
    lengths: &'a [usize],
}

impl<'a> Model for SymbolsLeft<'a> {
    ghost use Rattle.std.specs.Prelude.{List, ℕ, ◌≡◌, length};
    ghost use Rattle.dep_index.specs.Catalogue.Pieces.{pieces, total};

    ghost Value = { List (List ℕ) };

    ghost view = { λ s. pieces s.lengths.now s.bytes.now };

    ghost invariant = { λ s. total s.lengths.now ≡ length s.bytes.now };
}

impl<'a> SymbolsLeft<'a> {
    /// The first symbol, and those that follow it.
    pub fn split_first(self) -> Option<(&'a [u8], SymbolsLeft<'a>)>
        ensures { MatchOption result (self.entry ≡ []) (λ x. self.entry ≡ x.0.now ∷ x.1) }
    {
        let (length, lengths) = self.lengths.split_first()?;
        let (symbol, bytes) = self.bytes.split_at(*length);
        Some((symbol, SymbolsLeft { bytes, lengths }))
    }
}
