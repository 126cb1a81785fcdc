//! The lines of an input, as reads bring them.
ghost use Rattle.std.specs.Prelude.{◌≡◌, ◌≢◌, ℕ, ◌+◌, ◌-◌, ◌<◌, ◌≤◌, if◌then◌else◌, true, List, [], ◌∷◌, ◌++◌, length, slice_index, take, Ok, Err, IfOk, IfErr, IfSome, IfNone, OnOk, OnErr};
ghost use Rattle.std.specs.Io.KnownBytes.{Consumes, IsAtEnd, Keeps};
ghost use Rattle.line_journal.specs.Lines.{IsLine, AreLines, bytes_of};
ghost use Rattle.table_folder.specs.declared.input.InputFault.TheVariants.{OutOfMemory, Failed};

use crate::asking::is_reading;
use memchr::memchr;
use std::alloc::{AllocError, Global};
use std::io::{self, Read};

/// The longest line, without its end.
const LONGEST: usize = 65_535;

/// What stands for a line that is longer. It is no command.
const TOO_LONG: &[u8] = b"too-long";

/// What stands for a last line that has no end and does not ask. It is no command.
const UNENDED: &[u8] = b"unended";

/// How many bytes a read asks for.
const PIECE: usize = 65_536;

/// Why an input brings no lines.
#[derive(Clone, Copy, Debug)]
pub enum InputFault {
    OutOfMemory,
    Failed,
}

impl From<AllocError> for InputFault {
    ghost from_gives = { λ _ fault. fault ≡ OutOfMemory };

    fn from(_: AllocError) -> InputFault {
        InputFault::OutOfMemory
    }
}

/// A line alone. Fails only out of memory.
pub fn alone(alloc: Global, line: Vec<u8>) -> Result<Vec<Vec<u8>>, AllocError>
    requires { IsLine line.items }
    ensures lines { IfOk result (λ lines. AreLines (bytes_of lines.items)) }
    ensures one { IfOk result (λ lines. bytes_of lines.items ≡ line.items ∷ []) }
{
    let mut lines = Vec::new(alloc);
    lines.push(line)?;
    Ok(lines)
}

/// Room for what a read brings.
fn room(alloc: Global) -> Result<Vec<u8>, AllocError>
    ensures { IfOk result (λ room. 0 < length room.items) }
{
    vec![in alloc; 0u8; PIECE]
}

/// Where the first line feed stands.
fn line_end(bytes: &[u8]) -> Option<usize>
    ensures line { IfSome result (λ len. IsLine (take len bytes.now)) }
    ensures within { IfSome result (λ len. len < length bytes.now) }
    ensures feed { IfSome result (λ len. slice_index bytes.now len ≡ 10) }
    ensures none { IfNone result (IsLine bytes.now) }
{
    memchr(b'\n', bytes)
}

/// The lines of an input. One that is too long is no command, nor is a last one that has no end and does not ask.
#[derive(Drop)]
pub struct InputLines<'i, I> {
    alloc: Global,
    input: &'i mut I,
    /// What was read of a line that has not ended, as far as it counts: up to one byte more than the longest line has.
    begun: Vec<u8>,
    /// How many lines were too long.
    too_long: u64,
    /// Whether the last line was refused, since it has no end.
    unended: bool,
}

impl<'i, I: Read> InputLines<'i, I> {
    ghost use Rattle.table_folder.specs.InputLines.{brought, brought_unended, is_too_long, text_left, SameInput, IfTold, GoesOn, BringsLines, counted, Counts, CountsTooLong};

    /// The lines of this input, of which none was read.
    pub fn new(alloc: Global, input: &'i mut I) -> InputLines<'i, I>
        ensures begun { IsLine result.begun.items }
        ensures same_input { result.input.ghost_name ≡ input.entry.ghost_name }
        ensures text { text_left I.remaining result ≡ I.remaining input.old }
        ensures too_long { result.too_long ≡ 0 }
    {
        InputLines {
            alloc,
            input,
            begun: Vec::new(alloc),
            too_long: 0,
            unended: false,
        }
    }

    /// How many lines were too long so far, as far as 64 bits count.
    pub fn too_long(&self) -> u64
        ensures { result ≡ self.now.too_long }
    {
        self.too_long
    }

    /// Whether the last line was refused, since it has no end.
    pub fn is_unended(&self) -> bool
        ensures { result ≡ self.now.unended }
    {
        self.unended
    }

    /// Adds bytes to the line that has not ended.
    fn go_on(&mut self, bytes: &[u8]) -> Result<(), AllocError>
        requires begun { IsLine self.old.begun.items }
        requires more { IsLine bytes.now }
        ensures begun { IsLine self.new.begun.items }
        ensures added { OnOk result (self.new.begun.items ≡ self.old.begun.items ++ take (65536 - length self.old.begun.items) bytes.now) }
        ensures input { self.new.input ≡ self.old.input }
        ensures too_long { self.new.too_long ≡ self.old.too_long }
    {
        let room = (LONGEST + 1).saturating_sub(self.begun.len());
        let count = bytes.len().min(room);
        self.begun.extend_from_slice(&bytes[..count])
    }

    /// The line that ends.
    fn ended(&mut self) -> Result<Vec<u8>, AllocError>
        requires { IsLine self.old.begun.items }
        ensures line { IfOk result (λ line. IsLine line.items) }
        ensures value { IfOk result (λ line. line.items ≡ brought self.old.begun.items) }
        ensures begun { OnOk result (self.new.begun.items ≡ []) }
        ensures kept { OnErr result (self.new.begun ≡ self.old.begun) }
        ensures counted { counted self.new.too_long ≡ counted (self.old.too_long + (if is_too_long self.old.begun.items then 1 else 0)) }
        ensures input { self.new.input ≡ self.old.input }
    {
        let line = if self.begun.len() > LONGEST {
            self.too_long = self.too_long.saturating_add(1);
            Vec::from_slice(self.alloc, TOO_LONG)?
        } else {
            self.begun.to_vec(self.alloc)?
        };
        self.begun.clear();
        Ok(line)
    }

    /// Ends the line, and adds it.
    fn end_line(&mut self, lines: &mut Vec<Vec<u8>>) -> Result<(), AllocError>
        requires begun { IsLine self.old.begun.items }
        requires lines { AreLines (bytes_of lines.old.items) }
        ensures line { IsLine self.new.begun.items }
        ensures begun { OnOk result (self.new.begun.items ≡ []) }
        ensures lines { OnOk result (AreLines (bytes_of lines.new.items)) }
        ensures added { OnOk result (bytes_of lines.new.items ≡ bytes_of lines.old.items ++ brought self.old.begun.items ∷ []) }
        ensures counted { counted self.new.too_long ≡ counted (self.old.too_long + (if is_too_long self.old.begun.items then 1 else 0)) }
        ensures input { self.new.input ≡ self.old.input }
    {
        let line = self.ended()?;
        lines.push(line)?;
        Ok(())
    }

    /// Ends the last line, for which the input has no end, and adds it. It may be half of a line: it is refused, unless it asks.
    fn end_last(&mut self, lines: &mut Vec<Vec<u8>>) -> Result<(), AllocError>
        requires begun { IsLine self.old.begun.items }
        requires lines { AreLines (bytes_of lines.old.items) }
        ensures line { IsLine self.new.begun.items }
        ensures begun { OnOk result (self.new.begun.items ≡ []) }
        ensures lines { OnOk result (AreLines (bytes_of lines.new.items)) }
        ensures added { OnOk result (bytes_of lines.new.items ≡ bytes_of lines.old.items ++ brought_unended self.old.begun.items ∷ []) }
        ensures counted { counted self.new.too_long ≡ counted (self.old.too_long + (if is_too_long self.old.begun.items then 1 else 0)) }
        ensures input { self.new.input ≡ self.old.input }
    {
        if self.begun.len() > LONGEST || is_reading(self.alloc, &self.begun)? {
            return self.end_line(lines);
        }
        lines.push(Vec::from_slice(self.alloc, UNENDED)?)?;
        self.begun.clear();
        self.unended = true;
        Ok(())
    }

    /// Adds the lines that end within these bytes.
    fn take(&mut self, bytes: &[u8], lines: &mut Vec<Vec<u8>>) -> Result<(), AllocError>
        requires begun { IsLine self.old.begun.items }
        requires lines { AreLines (bytes_of lines.old.items) }
        ensures begun { IsLine self.new.begun.items }
        ensures lines { OnOk result (AreLines (bytes_of lines.new.items)) }
        ensures goes_on { OnOk result ((rest : List ℕ) → GoesOn (bytes_of lines.old.items) (bytes_of lines.new.items)
            (self.old.begun.items ++ (bytes.now ++ rest)) (self.new.begun.items ++ rest)) }
        ensures counted { OnOk result ((rest : List ℕ) → Counts self.old.too_long self.new.too_long
            (self.old.begun.items ++ (bytes.now ++ rest)) (self.new.begun.items ++ rest)) }
        ensures input { self.new.input ≡ self.old.input }
    {
        let mut rest = bytes;
        while let Some(at) = line_end(rest) {
            let (line, behind) = rest.split_at(at);
            self.go_on(line)?;
            self.end_line(lines)?;
            rest = &behind[1..];
        }
        self.go_on(rest)
    }

    /// Reads once. An interrupted read is made again.
    fn read_piece(&mut self, piece: &mut [u8]) -> Result<usize, InputFault>
        requires begun { IsLine self.old.begun.items }
        requires room { 0 < length piece.old }
        ensures within { IfOk result (λ count. count ≤ length piece.new) }
        ensures room { length piece.new ≡ length piece.old }
        ensures begun { self.new.begun ≡ self.old.begun }
        ensures too_long { self.new.too_long ≡ self.old.too_long }
        ensures same_input { SameInput self.old self.new }
        ensures bytes { IfOk result (λ count. Consumes (I.remaining self.old.input.now) (I.remaining self.new.input.now) (take count piece.new)) }
        ensures end { result ≡ Ok 0 → IsAtEnd (I.remaining self.new.input.now) }
        ensures kept { OnErr result (Keeps (I.remaining self.old.input.now) (I.remaining self.new.input.now)) }
        ensures failed { IfErr result (λ fault. fault ≡ Failed) }
    {
        for _ in 0..u64::MAX {
            match self.input.read(piece) {
                Ok(count) => return Ok(count),
                Err(error) if error.kind() == io::ErrorKind::Interrupted => {}
                Err(_) => break,
            }
        }
        Err(InputFault::Failed)
    }

    /// Reads once, and adds the lines that end. Returns whether the input has ended.
    fn read_lines(&mut self, piece: &mut [u8], lines: &mut Vec<Vec<u8>>) -> Result<bool, InputFault>
        requires begun { IsLine self.old.begun.items }
        requires lines { AreLines (bytes_of lines.old.items) }
        requires room { 0 < length piece.old }
        ensures begun { IsLine self.new.begun.items }
        ensures lines { OnOk result (AreLines (bytes_of lines.new.items)) }
        ensures room { length piece.new ≡ length piece.old }
        ensures same_input { SameInput self.old self.new }
        ensures goes_on { OnOk result (IfTold (text_left I.remaining self.old) (text_left I.remaining self.new)
            (GoesOn (bytes_of lines.old.items) (bytes_of lines.new.items))) }
        ensures counted { OnOk result (CountsTooLong (text_left I.remaining self.old) (text_left I.remaining self.new) self.old.too_long self.new.too_long) }
        ensures end { result ≡ Ok true → IsAtEnd (text_left I.remaining self.new) }
        ensures failed { result ≡ Err Failed → Keeps (text_left I.remaining self.old) (text_left I.remaining self.new) }
        ensures failed_count { result ≡ Err Failed → self.new.too_long ≡ self.old.too_long }
    {
        let count = self.read_piece(piece)?;
        if count > 0 {
            self.take(&piece[..count], lines)?;
            return Ok(false);
        }
        if !self.begun.is_empty() {
            self.end_last(lines)?;
        }
        Ok(true)
    }

    /// The lines that the next reads bring, or none at the end of the input. A line that is too long stands there as `too-long`,
    /// and a last line that has no end as `unended`, unless it asks. `Failed` if the input cannot be read: what was read of a
    /// line is kept. After `OutOfMemory` nothing is said of the lines that are to come.
    pub fn next_lines(&mut self) -> Result<Vec<Vec<u8>>, InputFault>
        requires { IsLine self.old.begun.items }
        ensures begun { IsLine self.new.begun.items }
        ensures same_input { SameInput self.old self.new }
        ensures lines { IfOk result (λ lines. AreLines (bytes_of lines.items)) }

        // They are the next lines of the input, in order. There are none only if none is left.
        ensures brings { IfOk result (λ lines. BringsLines (text_left I.remaining self.old) (text_left I.remaining self.new) (bytes_of lines.items)) }
        ensures end { IfOk result (λ lines. lines.items ≡ [] → IsAtEnd (text_left I.remaining self.new)) }

        // If the input fails, all lines are still to come.
        ensures failed { result ≡ Err Failed → BringsLines (text_left I.remaining self.old) (text_left I.remaining self.new) [] }
        ensures counted { result ≢ Err OutOfMemory →
            CountsTooLong (text_left I.remaining self.old) (text_left I.remaining self.new) self.old.too_long self.new.too_long }
    {
        let mut lines = Vec::new(self.alloc);
        let mut piece = room(self.alloc)?;
        for _ in 0..u64::MAX {
            let has_ended = self.read_lines(&mut piece, &mut lines)?;
            if has_ended || !lines.is_empty() {
                return Ok(lines);
            }
        }
        Err(InputFault::Failed)
    }
}
