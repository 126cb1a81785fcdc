//! What a session reads from and writes to.
ghost use Rattle.std.specs.Prelude.{◌≡◌, ℕ, ◌+◌, ◌≤◌, Bool, false, true, if◌then◌else◌, List, length, IfOk, is_err, Option};
ghost use Rattle.std.specs.Io.{ReadsAtMost, WritesAtMost};
ghost use Rattle.std.specs.Io.KnownBytes.{ReadConsumes, WriteAppends};
ghost use Rattle.modprobe.specs.Device.{write_failed};

use std::io::{Read, Write};
use thiserror::Error;

/// A device refused a call.
#[derive(Clone, Copy, Debug, PartialEq, Eq, Error)]
#[error("the device failed")]
pub struct Failed;

/// A device that gives bytes.
pub trait Source {
    // The bytes that it has left to give, or `None` if it does not tell them.
    ghost remaining: { Self → Option (List ℕ) };

    // How often it was read.
    ghost read_count: { Self → ℕ };

    // A read has failed.
    ghost has_failed: { Self → Bool };

    /// Reads some bytes to the front of `buffer`: none only at the end, or if there is no room.
    /// A read that fails takes no byte.
    fn read(&mut self, buffer: &mut [u8]) -> Result<usize, Failed>
        requires { has_failed self.old ≡ false }
        ensures bound { ReadsAtMost result buffer.new }
        ensures bytes { ReadConsumes (remaining self.old) (remaining self.new) result buffer.new }
        ensures counted { read_count self.new ≡ read_count self.old + 1 }
        ensures failed { has_failed self.new ≡ is_err result };

    /// Whether a read has failed.
    fn failed(&self) -> bool
        ensures { result ≡ has_failed self.now };
}

/// A device that takes bytes.
pub trait Sink {
    // The bytes that it has taken, or `None` if it does not tell them.
    ghost contents: { Self → Option (List ℕ) };

    // A write has failed, or has taken none of some bytes.
    ghost has_failed: { Self → Bool };

    /// Takes some bytes from the front of `bytes`. A write that fails takes none.
    fn write(&mut self, bytes: &[u8]) -> Result<usize, Failed>
        requires { has_failed self.old ≡ false }
        ensures bound { WritesAtMost result bytes.now }
        ensures bytes { WriteAppends (contents self.old) (contents self.new) result bytes.now }
        ensures failed { has_failed self.new ≡ write_failed result bytes.now };

    /// Whether a write has failed, or has taken none of some bytes.
    fn failed(&self) -> bool
        ensures { result ≡ has_failed self.now };
}

/// A reader of std's. It tells what the reader tells, and each error of the reader is a failure. It counts its reads, and
/// fails once it has answered 2^64 - 1 of them.
#[derive(Drop)]
pub struct FromRead<R> {
    pub reader: R,
    pub answered: u64,
    pub failed: bool,
}

impl<R: Read> FromRead<R> {
    pub fn new(reader: R) -> FromRead<R>
        ensures { (result.reader ≡ reader) × (result.answered ≡ 0) × (result.failed ≡ false) }
    {
        FromRead {
            reader,
            answered: 0,
            failed: false,
        }
    }
}

impl<R: Read> Source for FromRead<R> {
    ghost remaining = { λ s. R.remaining s.reader };

    ghost read_count = { λ s. s.answered + (if s.failed then 1 else 0) };

    ghost has_failed = { λ s. s.failed };

    fn read(&mut self, buffer: &mut [u8]) -> Result<usize, Failed> {
        let Some(answered) = self.answered.checked_add(1) else {
            self.failed = true;
            return Err(Failed);
        };
        match self.reader.read(buffer) {
            Ok(count) => {
                self.answered = answered;
                Ok(count)
            }
            Err(_) => {
                self.failed = true;
                Err(Failed)
            }
        }
    }

    fn failed(&self) -> bool {
        self.failed
    }
}

/// A writer of std's. It tells what the writer tells, and each error of the writer is a failure.
#[derive(Drop)]
pub struct FromWrite<W> {
    pub writer: W,
    pub failed: bool,
}

impl<W: Write> FromWrite<W> {
    pub fn new(writer: W) -> FromWrite<W>
        ensures { (result.writer ≡ writer) × (result.failed ≡ false) }
    {
        FromWrite {
            writer,
            failed: false,
        }
    }
}

impl<W: Write> Sink for FromWrite<W> {
    ghost contents = { λ s. W.contents s.writer };

    ghost has_failed = { λ s. s.failed };

    fn write(&mut self, bytes: &[u8]) -> Result<usize, Failed> {
        match self.writer.write(bytes) {
            Ok(count) => {
                if count == 0 && !bytes.is_empty() {
                    self.failed = true;
                }
                Ok(count)
            }
            Err(_) => {
                self.failed = true;
                Err(Failed)
            }
        }
    }

    fn failed(&self) -> bool {
        self.failed
    }
}
