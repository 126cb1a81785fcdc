//! The bytes of a source that were read last.
ghost use Rattle.std.specs.Prelude.{◌≡◌, ◌+◌, ◌<◌, ◌≤◌, ◌==◌, true, false, [], take, drop, length, slice_index, not, is_err, IfOk, OnOk, OnErr};
ghost use Rattle.std.specs.Io.KnownBytes.{Consumes, Keeps, IsAtEnd};

use crate::device::{Failed, Source};
use memchr::memchr;
use std::alloc::{AllocError, Global};
use std::marker::Model;

/// How many bytes are read at a time, at most.
const PIECE: usize = 4096;

/// The memory that a source is read into. Contracts see it as the number of bytes that it has room for.
#[derive(Drop)]
pub struct Buffer {
    bytes: Vec<u8>,
}

impl Model for Buffer {
    ghost use Rattle.std.specs.Prelude.{◌≡◌, ℕ, vec_len};

    ghost Value = { ℕ };

    ghost view = { λ b. vec_len b.bytes };

    ghost invariant = { λ b. vec_len b.bytes ≡ 4096 };
}

impl Buffer {
    /// Takes the memory. It fails only if there is none.
    pub fn new(alloc: Global) -> Result<Buffer, AllocError>
        ensures { IfOk result (λ room. room ≡ 4096) }
    {
        let bytes = vec![in alloc; 0; PIECE]?;
        Ok(Buffer { bytes })
    }
}

/// The bytes that were read last and are not used yet. Contracts see it as their list.
#[derive(Drop)]
pub(crate) struct Piece {
    bytes: Vec<u8>,
    start: usize,
    end: usize,
}

impl Model for Piece {
    ghost use Rattle.std.specs.Prelude.{◌≡◌, ◌≤◌, ℕ, List, slice_range, vec_len};

    ghost Value = { List ℕ };

    ghost view = { λ p. slice_range p.bytes.items p.start p.end };

    ghost invariant = { λ p. (p.start ≤ p.end) × (p.end ≤ 4096) × (vec_len p.bytes ≡ 4096) };
}

impl Piece {
    ghost use Rattle.modprobe.specs.Lines.{HasNoFeed};

    pub(crate) fn new(buffer: Buffer) -> Piece
        ensures { result ≡ [] }
    {
        let Buffer { bytes } = buffer;
        Piece {
            bytes,
            start: 0,
            end: 0,
        }
    }

    /// The bytes that are not used yet.
    pub(crate) fn unused(&self) -> &[u8]
        ensures bytes { result.now ≡ self.now }
        ensures bound { length self.now ≤ 4096 }
    {
        &self.bytes[self.start..self.end]
    }

    /// How many bytes stand before the first line feed, and whether there is one.
    pub(crate) fn before_feed(&self) -> (usize, bool)
        ensures within { result.0 ≤ length self.now }
        ensures no_feed { HasNoFeed (take result.0 self.now) }
        ensures feed { result.1 ≡ true → (result.0 < length self.now) × (slice_index self.now result.0 ≡ 10) }
        ensures all { result.1 ≡ false → result.0 ≡ length self.now }
    {
        let unused = self.unused();
        match memchr(b'\n', unused) {
            Some(count) => (count, true),
            None => (unused.len(), false),
        }
    }

    /// Reads further bytes in place of those, and answers whether there are any.
    pub(crate) fn fill<R: Source>(&mut self, reader: &mut R) -> Result<bool, Failed>
        requires { R.has_failed reader.old ≡ false }
        ensures bytes { OnOk result (Consumes (R.remaining reader.old) (R.remaining reader.new) self.new) }
        ensures some { IfOk result (λ some. some ≡ not (length self.new == 0)) }
        ensures none { result ≡ Ok false → IsAtEnd (R.remaining reader.new) }
        ensures kept { OnErr result (Keeps (R.remaining reader.old) (R.remaining reader.new)) }
        ensures empty { OnErr result (self.new ≡ []) }
        ensures bound { length self.new ≤ 4096 }
        ensures counted { R.read_count reader.new ≡ R.read_count reader.old + 1 }
        ensures failed { R.has_failed reader.new ≡ is_err result }
    {
        self.start = 0;
        self.end = 0;
        self.end = reader.read(&mut self.bytes)?;
        Ok(self.end != 0)
    }

    /// Uses the first bytes.
    pub(crate) fn skip(&mut self, count: usize)
        requires { count ≤ length self.old }
        ensures { self.new ≡ drop count self.old }
    {
        self.start += count;
    }
}
