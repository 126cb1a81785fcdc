ghost use Rattle.std.specs.Prelude.{◌≡◌, [], ◌∷◌, IfOk};
ghost use Rattle.line_journal.specs.Lines.{at_rest, with_gates, bytes_of};

use std::alloc::{AllocError, Global};

/// The gate of a line that counts.
pub(crate) const OPEN: u8 = b'+';

/// The gate of a line that does not count yet, and what stands behind the last line.
pub(crate) const CLOSED: u8 = b' ';

pub(crate) const NEWLINE: u8 = b'\n';

/// A whole file: the lines, their gates open, and a closed gate behind them.
pub(crate) fn text_at_rest(alloc: Global, lines: &[Vec<u8>]) -> Result<Vec<u8>, AllocError>
    ensures { IfOk result (λ bytes. bytes.items ≡ at_rest (bytes_of lines.now)) }
{
    let mut bytes = Vec::new(alloc);
    for line in lines {
        bytes.push(OPEN)?;
        bytes.extend_from_slice(line)?;
        bytes.push(NEWLINE)?;
    }
    bytes.push(CLOSED)?;
    Ok(bytes)
}

/// What goes behind the closed gate for a group of lines: their gates are closed, and one stands behind the last.
pub(crate) fn text_waiting(alloc: Global, lines: &[Vec<u8>]) -> Result<Vec<u8>, AllocError>
    ensures { IfOk result (λ bytes. 32 ∷ bytes.items ≡ with_gates [] (bytes_of lines.now)) }
{
    let mut bytes = Vec::new(alloc);
    for line in lines {
        bytes.extend_from_slice(line)?;
        bytes.extend_from_slice(&[NEWLINE, CLOSED])?;
    }
    Ok(bytes)
}

/// The same for one line.
pub(crate) fn line_waiting(alloc: Global, line: &[u8]) -> Result<Vec<u8>, AllocError>
    ensures { IfOk result (λ bytes. 32 ∷ bytes.items ≡ with_gates [] (line.now ∷ [])) }
{
    let mut bytes = Vec::with_capacity(alloc, line.len())?;
    bytes.extend_from_slice(line)?;
    bytes.extend_from_slice(&[NEWLINE, CLOSED])?;
    Ok(bytes)
}
