//! Words of options lines.
ghost use Rattle.std.specs.Prelude.{◌≡◌, IfOk};

use std::alloc::{AllocError, Global};
use std::marker::Model;

/// A word of an options line, as it stands there. Contracts see it as its bytes.
#[derive(Drop)]
pub struct Word {
    bytes: Vec<u8>,
}

impl Model for Word {
    ghost use Rattle.std.specs.Prelude.{ℕ, List};

    ghost Value = { List ℕ };

    ghost view = { λ w. w.bytes.items };
}

impl Word {
    /// A word with these bytes. It fails only if memory runs out.
    pub fn new(alloc: Global, word: &[u8]) -> Result<Word, AllocError>
        ensures { IfOk result (λ own. own ≡ word.now) }
    {
        let bytes = Vec::from_slice(alloc, word)?;
        Ok(Word { bytes })
    }

    pub fn as_bytes(&self) -> &[u8]
        ensures { result.now ≡ self.now }
    {
        &self.bytes
    }
}
