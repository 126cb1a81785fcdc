//! What people are told on standard error, in the form of kmod.

use std::io::Write;

/// How grave a message is.
#[derive(Clone, Copy)]
pub enum Level {
    Fatal,
    Error,
    Warning,
    Notice,
}

impl Level {
    fn word(self) -> &'static [u8] {
        match self {
            Level::Fatal => b"FATAL: ",
            Level::Error => b"ERROR: ",
            Level::Warning => b"WARNING: ",
            Level::Notice => b"NOTICE: ",
        }
    }

    /// The least verbosity at which such a message is shown.
    fn verbosity(self) -> u64 {
        match self {
            Level::Fatal => 2,
            Level::Error => 3,
            Level::Warning | Level::Notice => 4,
        }
    }
}

/// Writes three parts, one after another. If the stream fails, nobody is told.
pub fn write_parts<E: Write>(errors: &mut E, first: &[u8], second: &[u8], third: &[u8]) {
    let _ = errors.write_all(first);
    let _ = errors.write_all(second);
    let _ = errors.write_all(third);
}

/// Tells a line of three parts.
pub fn tell_line<E: Write>(errors: &mut E, first: &[u8], second: &[u8], third: &[u8]) {
    let _ = errors.write_all(b"gz-modprobe: ");
    write_parts(errors, first, second, third);
    let _ = errors.write_all(b"\n");
}

/// Where messages go, and which are shown.
#[derive(Drop)]
pub struct Messages<'a, E> {
    pub errors: &'a mut E,
    /// The name of the program, before each message.
    pub program: &'a [u8],
    pub verbosity: u64,
    /// Whether it is told why an answer is as it is.
    pub explains: bool,
}

impl<E: Write> Messages<'_, E> {
    /// Tells a line of this level, of four parts, if it is shown.
    pub fn tell(&mut self, level: Level, first: &[u8], second: &[u8], third: &[u8], fourth: &[u8]) {
        if level.verbosity() <= self.verbosity {
            self.tell_always(level, first, second, third, fourth);
        }
    }

    /// Tells a line of this level, of four parts.
    pub fn tell_always(
        &mut self,
        level: Level,
        first: &[u8],
        second: &[u8],
        third: &[u8],
        fourth: &[u8],
    ) {
        write_parts(self.errors, self.program, b": ", level.word());
        let _ = self.errors.write_all(first);
        write_parts(self.errors, second, third, fourth);
        let _ = self.errors.write_all(b"\n");
    }
}
