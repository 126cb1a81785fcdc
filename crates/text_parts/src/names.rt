//! Names of modules and parameters.
ghost use Rattle.std.specs.Prelude.{◌≡◌, IfOk};
ghost use Rattle.text_parts.specs.Text.{normal_form};

use memchr::memchr;
use std::alloc::{AllocError, Global};
use std::marker::Model;

/// A name in normal form, with `_` for each `-` (modprobe(8) takes both for the same).
/// Contracts see it as its bytes.
#[derive(Drop)]
pub struct Name {
    bytes: Vec<u8>,
}

impl Model for Name {
    ghost use Rattle.std.specs.Prelude.{ℕ, List, ◌≡◌};
    ghost use Rattle.text_parts.specs.Text.{normal_form};

    ghost Value = { List ℕ };

    ghost view = { λ n. n.bytes.items };

    ghost invariant = { λ n. normal_form n.bytes.items ≡ n.bytes.items };
}

fn normal(alloc: Global, word: &[u8]) -> Result<Vec<u8>, AllocError>
    ensures { IfOk result (λ bytes. bytes.items ≡ normal_form word.now) }
{
    match memchr(b'-', word) {
        // It is in normal form as it stands, as most words are.
        None => Vec::from_slice(alloc, word),
        Some(_) => word
            .iter()
            .map(|byte| if *byte == b'-' { b'_' } else { *byte })
            .collect(alloc),
    }
}

impl Name {
    /// The normal form of a word. It fails only out of memory.
    pub fn new(alloc: Global, word: &[u8]) -> Result<Name, AllocError>
        ensures { IfOk result (λ name. name ≡ normal_form word.now) }
    {
        let bytes = normal(alloc, word)?;
        Ok(Name { bytes })
    }

    /// The same name, for another owner. It fails only out of memory.
    pub fn copy(&self, alloc: Global) -> Result<Name, AllocError>
        ensures { IfOk result (λ copied. copied ≡ self.now) }
    {
        let bytes = Vec::from_slice(alloc, &self.bytes)?;
        Ok(Name { bytes })
    }

    /// The bytes of the name, which are in normal form.
    pub fn as_bytes(&self) -> &[u8]
        ensures { result.now ≡ self.now }
    {
        self.bytes.as_slice()
    }

    /// The bytes of the name, which are in normal form.
    pub fn into_bytes(self) -> Vec<u8>
        ensures { result.items ≡ self }
    {
        let Name { bytes } = self;
        bytes
    }

    /// Every name is in normal form. It does nothing, and is there for its contract.
    pub fn is_normal(&self)
        ensures { normal_form self.now ≡ self.now }
    {
        let _ = &self.bytes;
    }
}
