//! Readers and writers that fail, give or take one byte at a time, or never end.

use std::io;
use std::io::{Read, Write};

/// Fails at each read.
#[derive(Drop)]
pub(crate) struct Broken;

impl Read for Broken {
    fn read(&mut self, _buffer: &mut [u8]) -> io::Result<usize> {
        Err(io::Error::from(io::ErrorKind::Other))
    }
}

/// Gives a line feed a call, and never ends.
#[derive(Drop)]
pub(crate) struct Dripping;

impl Read for Dripping {
    fn read(&mut self, buffer: &mut [u8]) -> io::Result<usize> {
        if buffer.is_empty() {
            return Ok(0);
        }
        buffer[0] = b'\n';
        Ok(1)
    }
}

/// Gives its bytes, one a call.
#[derive(Drop)]
pub(crate) struct Trickling<'a> {
    bytes: &'a [u8],
}

impl<'a> Trickling<'a> {
    pub(crate) fn new(bytes: &'a [u8]) -> Trickling<'a> {
        Trickling { bytes }
    }
}

impl Read for Trickling<'_> {
    fn read(&mut self, buffer: &mut [u8]) -> io::Result<usize> {
        let Some((first, rest)) = self.bytes.split_first() else {
            return Ok(0);
        };
        if buffer.is_empty() {
            return Ok(0);
        }
        buffer[0] = *first;
        self.bytes = rest;
        Ok(1)
    }
}

/// Takes one byte a call, as long as it has room, and then fails, or takes none.
#[derive(Drop)]
pub(crate) struct Narrow {
    taken: [u8; 1024],
    len: usize,
    room: usize,
    fails: bool,
}

impl Narrow {
    pub(crate) fn new(room: usize, fails: bool) -> Narrow {
        Narrow {
            taken: [0; 1024],
            len: 0,
            room,
            fails,
        }
    }

    pub(crate) fn text(&self) -> &[u8] {
        self.taken.get(..self.len).unwrap_or(&[])
    }
}

impl Write for Narrow {
    fn write(&mut self, bytes: &[u8]) -> io::Result<usize> {
        let Some(first) = bytes.first() else {
            return Ok(0);
        };
        if self.len >= self.room || self.len >= self.taken.len() {
            return if self.fails {
                Err(io::Error::from(io::ErrorKind::Other))
            } else {
                Ok(0)
            };
        }
        self.taken[self.len] = *first;
        self.len += 1;
        Ok(1)
    }

    fn flush(&mut self) -> io::Result<()> {
        Ok(())
    }
}

/// Takes all that it is given, and fails if it is flushed.
#[derive(Drop)]
pub(crate) struct Unflushed;

impl Write for Unflushed {
    fn write(&mut self, bytes: &[u8]) -> io::Result<usize> {
        Ok(bytes.len())
    }

    fn flush(&mut self) -> io::Result<()> {
        Err(io::Error::from(io::ErrorKind::Other))
    }
}
