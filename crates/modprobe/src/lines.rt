//! The lines of a source, one at a time.
ghost use Rattle.std.specs.Prelude.{◌≡◌, ◌≢◌, ◌+◌, ◌<◌, ◌≤◌, ◌++◌, ◌∷◌, [], false, true, vec_len, length, IfErr, OnOk};
ghost use Rattle.modprobe.specs.declared.lines.LineFault.TheVariants.{Memory};
ghost use Rattle.std.specs.Io.KnownBytes.{Keeps};

use crate::device::Source;
use crate::piece::{Buffer, Piece};
use std::alloc::{AllocError, Global};
use thiserror::Error;

/// The longest line, without its end.
pub const LONGEST_LINE: usize = 65_535;

/// Why there is no next line.
#[derive(Clone, Copy, Debug, PartialEq, Eq, Error)]
pub enum LineFault {
    /// The source failed.
    #[error("read fault")]
    Read,
    /// Memory ran out.
    #[error("out of memory")]
    Memory,
    /// The source was read as often as was allowed, and more reads are needed.
    #[error("the source was read as often as was allowed")]
    Turns,
    /// The line is longer than `LONGEST_LINE` bytes.
    #[error("the line is longer than 65,535 bytes")]
    LongLine,
}

/// How a line ends.
#[derive(Clone, Copy, Drop)]
pub(crate) enum Ending {
    /// At the end of the input.
    Absent,
    Feed,
    ReturnFeed,
}

impl From<AllocError> for LineFault {
    ghost from_gives = { λ _ fault. fault ≡ Memory };

    fn from(_: AllocError) -> LineFault {
        LineFault::Memory
    }
}

/// The lines of a source. It keeps one line and one piece of the bytes that were read.
#[derive(Drop)]
pub struct Lines<'a, R> {
    reader: &'a mut R,
    turns: u64,
    piece: Piece,
    at_end: bool,
    line: Vec<u8>,
    ending: Ending,
}

impl<'a, R: Source> Lines<'a, R> {
    ghost use Rattle.std.specs.Str.Lines.{strip_carriage_return};
    ghost use Rattle.text_parts.specs.Text.{ended};
    ghost use Rattle.modprobe.specs.Lines.{bytes_left, text_left, ending_bytes, HasNoFeed, EndsLine, steps_left, is_read_fault};
    ghost use Rattle.modprobe.specs.Lines.{SpendsTurns, HasTrueEnd, source_of, SameReader, turns_of, IsGoing, line_of};
    ghost use Rattle.modprobe.specs.Lines.{Fetched, SameSource, StoppedTaking, GaveLine, FoundEnd, StoppedReading};

    /// The lines of what `reader` has left, over at most `turns` reads. It reads nothing, and can't fail: the buffer was
    /// made before.
    pub fn new(alloc: Global, buffer: Buffer, reader: &'a mut R, turns: u64) -> Lines<'a, R>
        requires { R.has_failed reader.old ≡ false }
        ensures same_reader { result.reader.ghost_name ≡ reader.entry.ghost_name }
        ensures works { R.has_failed (source_of result) ≡ false }
        ensures bytes { bytes_left R.remaining result ≡ R.remaining reader.old }
        ensures value { source_of result ≡ reader.old }
        ensures going { IsGoing result }
        ensures turns { turns_of result ≡ turns }
    {
        Lines {
            reader,
            turns,
            piece: Piece::new(buffer),
            at_end: false,
            line: Vec::new(alloc),
            ending: Ending::Absent,
        }
    }

    /// Gives the source back.
    pub(crate) fn into_reader(self) -> &'a mut R
        ensures same_reader { result.ghost_name ≡ self.entry.reader.ghost_name }
        ensures value { result.now ≡ self.entry.reader.now }
    {
        self.reader
    }

    /// The line that was read last.
    pub fn line(&self) -> &[u8]
        ensures { result.now ≡ line_of self.now }
    {
        self.line.as_slice()
    }

    /// How that line ends.
    pub fn ending(&self) -> &'static [u8]
        ensures { result.now ≡ ending_bytes self.now.ending }
    {
        match self.ending {
            Ending::Absent => b"",
            Ending::Feed => b"\n",
            Ending::ReturnFeed => b"\r\n",
        }
    }

    // Reads a piece if none is left of the last one. It answers whether there is one.
    fn fetch(&mut self) -> Result<bool, LineFault>
        requires { R.has_failed (source_of self.old) ≡ false }
        ensures same_reader { SameReader self.old self.new }
        ensures failed { R.has_failed (source_of self.new) ≡ is_read_fault result }
        ensures fetched { Fetched R.remaining self.old self.new result }
        ensures counted { SpendsTurns R.read_count self.old self.new }
        ensures end { HasTrueEnd R.remaining self.old → HasTrueEnd R.remaining self.new }
    {
        if self.at_end || !self.piece.unused().is_empty() {
            return Ok(!self.at_end);
        }
        if self.turns == 0 {
            return Err(LineFault::Turns);
        }
        self.turns -= 1;
        match self.piece.fill(self.reader) {
            Ok(some) => {
                self.at_end = !some;
                Ok(some)
            }
            Err(_) => Err(LineFault::Read),
        }
    }

    // Moves the piece to the line, up to a line feed. It answers whether that came, and uses it too.
    fn take(&mut self) -> Result<bool, LineFault>
        requires going { self.old.at_end ≡ false }
        requires some { 0 < length self.old.piece }
        requires line { HasNoFeed self.old.line.items }
        ensures source { SameSource self.old self.new }
        ensures no_feed { HasNoFeed self.new.line.items }
        ensures ended { result ≡ Ok true → EndsLine (text_left R.remaining self.old) (bytes_left R.remaining self.new) self.new.line.items }
        ensures going_on { result ≢ Ok true → Keeps (text_left R.remaining self.old) (text_left R.remaining self.new) }
        ensures stopped { IfErr result (λ fault. StoppedTaking fault (text_left R.remaining self.old)) }
        ensures falls { OnOk result (steps_left self.new < steps_left self.old) }
        ensures spent { OnOk result (steps_left self.new + vec_len self.new.line ≤ steps_left self.old + vec_len self.old.line) }
    {
        let (count, ends) = self.piece.before_feed();
        // A line's end may have a carriage return, which is no part of the line.
        if self.line.len().saturating_add(count) > LONGEST_LINE + 1 {
            return Err(LineFault::LongLine);
        }
        self.line.extend_from_slice(&self.piece.unused()[..count])?;
        self.piece.skip(count);
        if !ends {
            return Ok(false);
        }
        self.piece.skip(1);
        Ok(true)
    }

    // Ends the line in hand at a line feed, with the carriage return before it, if there is one.
    fn end_line(&mut self)
        ensures line { self.new.line.items ≡ strip_carriage_return self.old.line.items }
        ensures cut { record { text = self.new.line.items; ending = ending_bytes self.new.ending } ≡ ended self.old.line.items }
        ensures whole { self.new.line.items ++ ending_bytes self.new.ending ≡ self.old.line.items ++ 10 ∷ [] }
        ensures some { 0 < length (ending_bytes self.new.ending) }
        ensures source { (self.new.reader ≡ self.old.reader) × (self.new.turns ≡ self.old.turns) }
        ensures left { (self.new.piece ≡ self.old.piece) × (self.new.at_end ≡ self.old.at_end) }
    {
        if self.line.last() == Some(&b'\r') {
            self.line.pop();
            self.ending = Ending::ReturnFeed;
        } else {
            self.ending = Ending::Feed;
        }
    }

    /// Reads the next line, and answers whether there is one; `line` and `ending` then lend it. Each read of the source takes
    /// one turn. Read: the source failed.
    /// Turns: a further read is needed, and none is left. LongLine: the line has more than 65,535 bytes without its end.
    /// Memory: there is none for the line. After a fault the lines are not to be used again.
    pub fn next_line(&mut self) -> Result<bool, LineFault>
        requires { R.has_failed (source_of self.old) ≡ false }
        ensures same_reader { SameReader self.old self.new }
        ensures failed { R.has_failed (source_of self.new) ≡ is_read_fault result }
        ensures gave { result ≡ Ok true → GaveLine R.remaining self.old self.new }
        ensures ended { result ≡ Ok false → FoundEnd R.remaining self.old self.new }
        ensures stopped { IfErr result (λ fault. StoppedReading fault R.remaining self.old self.new) }
        ensures counted { SpendsTurns R.read_count self.old self.new }
        ensures end { HasTrueEnd R.remaining self.old → HasTrueEnd R.remaining self.new }
    {
        self.line.clear();
        self.ending = Ending::Absent;
        while self.fetch()? {
            if self.take()? {
                self.end_line();
                return if self.line.len() > LONGEST_LINE {
                    Err(LineFault::LongLine)
                } else {
                    Ok(true)
                };
            }
        }
        if self.line.len() > LONGEST_LINE {
            return Err(LineFault::LongLine);
        }
        Ok(!self.line.is_empty())
    }
}
