//! How the output of a program was written.
ghost use Rattle.std.specs.Prelude.{◌≡◌, ◌≤◌, IfOk, OnErr, OnOk, length, take};
ghost use Rattle.std.specs.Io.KnownBytes.{Appends, Keeps};
ghost use Rattle.modprobe_words.specs.Begun.{IsBegun};
ghost use Rattle.modprobe_words.specs.declared.written.Written.TheVariants.{Whole};

use std::io;
use std::io::{ErrorKind, Write};

/// How a text was written.
#[derive(Clone, Copy)]
pub enum Written {
    /// To its end, and the stream was flushed.
    Whole,
    /// The reader of the stream is gone, as `head` is once it has its lines.
    Closed,
    /// A write or the flush failed.
    Failed,
}

/// Writes what one write takes of a text, which is not empty. A signal may interrupt it before it takes anything.
fn write_some<O: Write>(output: &mut O, text: &[u8]) -> io::Result<usize>
    ensures within { IfOk result (λ count. count ≤ length text.now) }
    ensures taken { IfOk result (λ count. Appends (O.contents output.old) (O.contents output.new) (take count text.now)) }
    ensures kept { OnErr result (Keeps (O.contents output.old) (O.contents output.new)) }
{
    match output.write(text) {
        Ok(0) => Err(io::Error::from(ErrorKind::WriteZero)),
        Ok(count) => Ok(count),
        Err(error) if error.kind() == ErrorKind::Interrupted => Ok(0),
        Err(error) => Err(error),
    }
}

/// Writes a text to its end. At an error a beginning of it was written.
fn write_all<O: Write>(output: &mut O, text: &[u8]) -> io::Result<()>
    ensures whole { OnOk result (Appends (O.contents output.old) (O.contents output.new) text.now) }
    ensures begun { IsBegun (O.contents output.old) (O.contents output.new) text.now }
{
    let mut done = 0;
    for _turn in 0..usize::MAX {
        if done >= text.len() {
            return Ok(());
        }
        done += write_some(output, &text[done..])?;
    }
    Err(io::Error::from(ErrorKind::TimedOut))
}

/// Writes a text to its end, and flushes the stream. If a write fails, a beginning of the text was written.
pub fn write_whole<O: Write>(output: &mut O, text: &[u8]) -> Written
    ensures whole { result ≡ Whole → Appends (O.contents output.old) (O.contents output.new) text.now }
    ensures begun { IsBegun (O.contents output.old) (O.contents output.new) text.now }
{
    let written = match write_all(output, text) {
        Ok(()) => output.flush(),
        Err(error) => Err(error),
    };
    match written {
        Ok(()) => Written::Whole,
        Err(error) if error.kind() == ErrorKind::BrokenPipe => Written::Closed,
        Err(_) => Written::Failed,
    }
}
