//! How a run ends whose words end it before a query is answered.
ghost use Rattle.std.specs.Prelude.{◌≡◌, ◌≤◌};
ghost use Rattle.modprobe_words.specs.Endings.{IsEnded, IsShownPart, seen, shown_by};

use crate::answering::tell_unwritten;
use modprobe_words::{Ending, Messages, Written, end_early, tell_line, write_whole};
use std::alloc::Global;
use std::io::Write;

/// Ends a run as its words say, and tells if what they ask for cannot be written. Returns the exit status. The help or the
/// version is put together first, since it is the write of a whole text that tells how it went.
pub(crate) fn end_words<O: Write, E: Write>(
    alloc: Global,
    ending: Ending<'_>,
    output: &mut O,
    errors: &mut E,
) -> u8
    ensures status { result ≤ 1 }
    ensures end { IsEnded (seen ending.entry) (O.contents output.old) (O.contents output.new) result }
    ensures part { IsShownPart (shown_by (seen ending.entry)) (O.contents output.old) (O.contents output.new) }
{
    let mut text = Vec::new(alloc);
    if end_early(ending, &mut text, errors) != 0 {
        if matches!(ending, Ending::Version | Ending::Help) {
            tell_line(errors, b"FATAL: ", b"out of memory", b"");
        }
        return 1;
    }
    let written = write_whole(output, &text);
    let mut messages = Messages {
        errors,
        program: b"gz-modprobe",
        verbosity: 4,
        explains: false,
    };
    tell_unwritten(written, &mut messages);
    match written {
        Written::Whole => 0,
        Written::Closed | Written::Failed => 1,
    }
}
