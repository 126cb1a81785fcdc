ghost use Rattle.std.specs.Prelude.{◌≡◌, ◌≢◌, ◌↔◌, true, ◌+◌, ◌≤◌, ◌<◌, ◌^◌, ◌++◌, [], ◌∷◌, List, ℕ, length, take, drop, All, IfOk, IfSome, IfNone, OnOk};
ghost use Rattle.line_journal.specs.Device.{IsOnDisk, Unchanged, Goes, AlwaysLeaves, TellsFaults};
ghost use Rattle.line_journal.specs.Journal.{IsFound, IsAtRest};
ghost use Rattle.line_journal.specs.Lines.{lines_of, open_text, behind, bytes_of, IsLine, IsWhole, open_gates};

use crate::text::{CLOSED, NEWLINE, OPEN};
use crate::{Device, DeviceError};
use memchr::memchr;
use std::alloc::{AllocError, Global};

/// What stands in a file.
#[derive(Drop)]
pub struct Found {
    pub lines: Vec<Vec<u8>>,
    /// The size of these lines in bytes.
    pub end: usize,
    /// What stands behind them: one closed gate at rest, else what a crash or damage left, which `recover` cuts off.
    pub behind: Vec<u8>,
}

impl Found {
    /// Nothing stands behind the lines but a closed gate.
    pub fn is_at_rest(&self) -> bool
        ensures { result ≡ true ↔ self.now.behind.items ≡ 32 ∷ [] }
    {
        matches!(self.behind.as_slice(), [CLOSED])
    }

    /// How many lines behind those that count have an open gate. A crash within a group of n lines leaves at most
    /// n - 1 of them, so more are a sign of damage. Gates alone tell no more.
    pub fn open_gates_behind(&self) -> usize
        ensures { result ≡ open_gates self.now.behind.items }
    {
        count_open_gates(&self.behind)
    }
}

/// Reads the lines of a file, and writes nothing. It syncs first: what a killed process wrote may be read, and still
/// be lost in a crash.
pub fn look<D: Device>(alloc: Global, device: &mut D) -> Result<Found, DeviceError>
    ensures found { IfOk result (λ found. IsFound (D.content device.old) found) }
    ensures content { D.content device.new ≡ D.content device.old }
    ensures on_disk { OnOk result (IsOnDisk (D.content device.old) (D.history device.new)) }
    ensures fits { OnOk result (length (D.content device.old) < 2 ^ 64) }

    ensures writes { D.writes device.new ≡ D.writes device.old }

    // A crash at any moment leaves what it might have left before the call.
    ensures any_moment { AlwaysLeaves (D.history device.old) (D.history device.new) (D.history device.old).leaves }

    ensures faults { TellsFaults (D.faults device.old) (D.faults device.new) result }
{
    device.sync()?;
    let found = peek(alloc, device)?;
    Ok(found)
}

/// Reads the lines of a file, as `look` does, but waits for nothing: what it reads may not be on the disk yet.
pub fn peek<D: Device>(alloc: Global, device: &mut D) -> Result<Found, DeviceError>
    ensures found { IfOk result (λ found. IsFound (D.content device.old) found) }
    ensures fits { OnOk result (length (D.content device.old) < 2 ^ 64) }
    ensures content { D.content device.new ≡ D.content device.old }
    ensures writes { D.writes device.new ≡ D.writes device.old }
    ensures crash { Goes Unchanged (D.history device.old) (D.history device.new) }
    ensures faults { TellsFaults (D.faults device.old) (D.faults device.new) result }
{
    let bytes = device.read_from(alloc, 0)?;
    Ok(read_lines(alloc, &bytes)?)
}

/// Reads the lines behind the first `from` bytes, which are lines that were read before. It is otherwise as `peek`.
pub fn peek_from<D: Device>(
    alloc: Global,
    device: &mut D,
    from: usize,
) -> Result<Found, DeviceError>
    requires within { from ≤ length (D.content device.old) }
    requires whole { IsWhole (take from (D.content device.old)) }
    ensures lines { IfOk result (λ found. lines_of (D.content device.old) ≡ lines_of (take from (D.content device.old)) ++ bytes_of found.lines.items) }
    ensures end { IfOk result (λ found. found.end ≡ length (open_text (lines_of (D.content device.old)))) }
    ensures behind { IfOk result (λ found. found.behind.items ≡ behind (D.content device.old)) }
    ensures fits { OnOk result (length (D.content device.old) < 2 ^ 64) }
    ensures content { D.content device.new ≡ D.content device.old }
    ensures writes { D.writes device.new ≡ D.writes device.old }
    ensures looks { D.looks device.new ≡ D.looks device.old }
    ensures crash { Goes Unchanged (D.history device.old) (D.history device.new) }
    ensures faults { TellsFaults (D.faults device.old) (D.faults device.new) result }
{
    let bytes = device.read_from(alloc, from)?;
    let mut found = read_lines(alloc, &bytes)?;
    found.end += from;
    Ok(found)
}

fn read_lines(alloc: Global, bytes: &[u8]) -> Result<Found, AllocError>
    ensures { IfOk result (λ found. IsFound bytes.now found) }
{
    let mut lines = Vec::new(alloc);
    let mut end = 0;
    while let Some(len) = first_line(&bytes[end..]) {
        lines.push(bytes[end + 1..end + 1 + len].to_vec(alloc)?)?;
        end += len + 2;
    }
    let behind = bytes[end..].to_vec(alloc)?;
    Ok(Found { lines, end, behind })
}

// The length of the line at the front, if that one counts.
fn first_line(bytes: &[u8]) -> Option<usize>
    ensures line { IfSome result (λ len. IsLine (take len (drop 1 bytes.now))
        × (bytes.now ≡ 43 ∷ take len (drop 1 bytes.now) ++ 10 ∷ drop (len + 2) bytes.now)) }
    ensures within { IfSome result (λ len. len + 2 ≤ length bytes.now) }
    ensures none { IfNone result (lines_of bytes.now ≡ []) }
{
    match bytes {
        [OPEN, after @ ..] => line_end(after),
        _ => None,
    }
}

/// Where the first newline stands.
pub(crate) fn line_end(bytes: &[u8]) -> Option<usize>
    ensures line { IfSome result (λ len. IsLine (take len bytes.now)) }
    ensures newline { IfSome result (λ len. bytes.now ≡ take len bytes.now ++ 10 ∷ drop (len + 1) bytes.now) }
    ensures within { IfSome result (λ len. len < length bytes.now) }
    ensures none { IfNone result (IsLine bytes.now) }
{
    memchr(NEWLINE, bytes)
}

fn count_open_gates(bytes: &[u8]) -> usize
    ensures { result ≡ open_gates bytes.now }
{
    let mut count = 0;
    let mut before = NEWLINE;
    for byte in bytes {
        if before == NEWLINE && *byte == OPEN {
            count += 1;
        }
        before = *byte;
    }
    count
}
