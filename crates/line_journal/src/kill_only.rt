ghost use Rattle.std.specs.Prelude.{◌≡◌, [], ◌∷◌, ◌++◌, ◌≤◌, length, IfOk, OnOk, OnErr};
ghost use Rattle.line_journal.specs.Device.{overwritten};
ghost use Rattle.std.proofs.Common.{refl};
ghost use Rattle.line_journal.specs.Past.{kill_history};
ghost use Rattle.line_journal.specs.KillOnly.{writes_of};

use crate::{Device, DeviceError};
use std::alloc::{AllocError, Global};

/// A file in memory that loses nothing but by the end of its process: each call is done at once, and `sync` does
/// nothing. So is a file whose program leaves fsync(2) out, if processes are killed and the machine goes on.
#[derive(Drop)]
pub struct KillOnly {
    alloc: Global,
    bytes: Vec<u8>,
    /// What it held before, oldest first.
    past: Vec<Vec<u8>>,
}

impl KillOnly {
    ghost use Rattle.line_journal.specs.KillOnly.{held_by};

    /// A file that holds these bytes.
    pub fn new(alloc: Global, bytes: Vec<u8>) -> Self
        ensures { held_by result ≡ bytes.items }
    {
        KillOnly {
            alloc,
            bytes,
            past: Vec::new(alloc),
        }
    }

    /// What it holds now.
    pub fn bytes(&self) -> &[u8]
        ensures { result.now ≡ held_by self.now }
    {
        &self.bytes
    }

    fn hold(&mut self, next: Vec<u8>) -> Result<(), AllocError>
        ensures ok { OnOk result (self.new.bytes.items ≡ next.items) }
        ensures past { OnOk result ((old : _) × (old.items ≡ self.old.bytes.items) × (self.new.past.items ≡ self.old.past.items ++ old ∷ [])) }
        ensures err { OnErr result (self.new.bytes.items ≡ self.old.bytes.items) }
        ensures past_err { OnErr result (self.new.past.items ≡ self.old.past.items) }
    {
        self.past.push(self.bytes.to_vec(self.alloc)?)?;
        self.bytes = next;
        Ok(())
    }
}

fn overwrite(alloc: Global, file: &[u8], place: usize, bytes: &[u8]) -> Result<Vec<u8>, AllocError>
    requires { place ≤ length file.now }
    ensures { IfOk result (λ next. next.items ≡ overwritten file.now place bytes.now) }
{
    let mut next = file[..place].to_vec(alloc)?;
    next.extend_from_slice(bytes)?;
    if bytes.len() < file.len() - place {
        next.extend_from_slice(&file[place + bytes.len()..])?;
    }
    Ok(next)
}

impl Device for KillOnly {
    ghost content = { λ file. file.bytes.items };

    ghost history = { λ file. kill_history file.past.items file.bytes.items };

    ghost faults = { λ _. 0 };

    ghost writes = { writes_of };

    ghost looks = { λ _. 0 };

    ghost kill_leaves = { λ _. refl };

    fn read_from(&mut self, alloc: Global, place: usize) -> Result<Vec<u8>, DeviceError> {
        Ok(self.bytes[place..].to_vec(alloc)?)
    }

    fn write_at(&mut self, place: usize, bytes: &[u8]) -> Result<(), DeviceError> {
        let next = overwrite(self.alloc, &self.bytes, place, bytes)?;
        Ok(self.hold(next)?)
    }

    fn cut(&mut self, size: usize) -> Result<(), DeviceError> {
        let next = self.bytes[..size].to_vec(self.alloc)?;
        Ok(self.hold(next)?)
    }

    fn sync(&mut self) -> Result<(), DeviceError> {
        Ok(())
    }

    fn replace(&mut self, bytes: &[u8]) -> Result<(), DeviceError> {
        let next = bytes.to_vec(self.alloc)?;
        Ok(self.hold(next)?)
    }
}
