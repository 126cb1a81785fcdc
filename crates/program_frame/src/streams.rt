//! The input of a program whole, and its output whole.
ghost use Rattle.std.specs.Prelude.{◌≡◌, ◌≢◌, IfOk, IfErr, OnOk, IfSome};
ghost use Rattle.std.specs.Io.KnownBytes.{Appends};
ghost use Rattle.program_frame.specs.declared.streams.StreamFault.TheVariants as faults;

use std::alloc::Global;
use std::io;
use std::io::{Read, Write};
use thiserror::Error;

/// Why a text was not read, or not written.
#[derive(Clone, Copy, Debug, Drop, Error)]
pub enum StreamFault {
    #[error("read fault")]
    Read,
    #[error("write fault")]
    Write,
    #[error("out of memory")]
    Memory,
}

/// All bytes that a reader has left.
pub fn read_input<I: Read>(alloc: Global, reader: &mut I) -> Result<Vec<u8>, StreamFault>
    ensures bytes { IfOk result (λ input. IfSome (I.remaining reader.old) (λ bytes. input.items ≡ bytes)) }
    ensures fault { IfErr result (λ fault. fault ≢ faults.Write) }
{
    let mut input = Vec::new(alloc);
    match reader.read_to_end(&mut input) {
        Ok(_) => Ok(input),
        Err(error) if error.kind() == io::ErrorKind::OutOfMemory => Err(StreamFault::Memory),
        Err(_) => Err(StreamFault::Read),
    }
}

/// Writes a text to its end.
pub fn write_text<O: Write>(text: &[u8], writer: &mut O) -> Result<(), StreamFault>
    ensures bytes { OnOk result (Appends (O.contents writer.old) (O.contents writer.new) text.now) }
    ensures fault { IfErr result (λ fault. fault ≡ faults.Write) }
{
    writer.write_all(text).map_err(|_| StreamFault::Write)
}
