//! The name of a holder.
ghost use Rattle.std.specs.Prelude.{◌≡◌, ◌&&◌, nat_lt, nat_le, true, false, Err, IfOk};
ghost use Rattle.std.specs.List.{list_all};
ghost use Rattle.held_table.specs.Names.{is_name_byte, is_holder_name};
ghost use Rattle.held_table.specs.declared.name.NameError.TheVariants.{Memory};

use std::alloc::{AllocError, Global};
use thiserror::Error;

/// Why bytes are no name of a holder.
#[derive(Clone, Copy, Debug, PartialEq, Eq, Drop, Error)]
pub enum NameError {
    #[error("no name of a holder")]
    NotAName,
    #[error("out of memory")]
    Memory,
}

impl From<AllocError> for NameError {
    ghost from_gives = { λ _ e. e ≡ Memory };

    fn from(_error: AllocError) -> NameError {
        NameError::Memory
    }
}

/// The name of a holder: 1 to 255 bytes, none of them a space, a control byte or DEL.
#[derive(PartialEq, Eq, Hash, Drop)]
pub struct HolderName {
    bytes: Vec<u8>,
}

/// Whether a byte may stand in a name.
fn is_name_byte(byte: u8) -> bool
    ensures { result ≡ is_name_byte byte }
{
    byte > b' ' && byte != 0x7f
}

/// Whether each byte may stand in a name.
fn are_name_bytes(bytes: &[u8]) -> bool
    ensures { result ≡ list_all is_name_byte bytes.now }
{
    bytes.iter().all(|byte| is_name_byte(*byte))
}

/// Whether a name may have so many bytes.
fn fits(len: usize) -> bool
    ensures { result ≡ (nat_lt 0 len && nat_le len 255) }
{
    0 < len && len <= 255
}

/// Whether the bytes are the name of a holder.
fn is_holder_name(bytes: &[u8]) -> bool
    ensures { result ≡ is_holder_name bytes.now }
{
    fits(bytes.len()) && are_name_bytes(bytes)
}

impl HolderName {
    /// The name of these bytes. `NotAName`: they are none, as the type says. `Memory`: out of memory.
    pub fn parse(alloc: Global, bytes: &[u8]) -> Result<HolderName, NameError>
        ensures name { IfOk result (λ name. (name.bytes.items ≡ bytes.now) × (is_holder_name bytes.now ≡ true)) }
        ensures none { is_holder_name bytes.now ≡ false → result ≡ Err NameError.NotAName }
        ensures some { result ≡ Err NameError.NotAName → is_holder_name bytes.now ≡ false }
    {
        if !is_holder_name(bytes) {
            return Err(NameError::NotAName);
        }
        let bytes = Vec::from_slice(alloc, bytes)?;
        Ok(HolderName { bytes })
    }

    /// The bytes of the name.
    pub fn as_bytes(&self) -> &[u8]
        ensures { result.now ≡ self.now.bytes.items }
    {
        self.bytes.as_slice()
    }
}
