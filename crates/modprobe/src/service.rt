//! A whole session: the sections of the input, and the session over an opening table.
ghost use Rattle.std.specs.Prelude.{◌≡◌, ◌+◌, ◌≤◌, false, true, OnOk, IfOk, IfErr};
ghost use Rattle.std.specs.Io.KnownBytes.{IsAtEnd};
ghost use Rattle.modprobe.specs.Lines.{bytes_left, IfTold, GaveAtLeast, SpendsTurns, HasTrueEnd, source_of, SameReader, turns_of};
ghost use Rattle.modprobe.specs.Serve.{AnswersInput, CountsErrors, ServeStands, failed_reading, failed_writing, ran_out_of_turns};

use crate::device::{Sink, Source};
use crate::fault::ServeFault;
use crate::lines::Lines;
use crate::piece::Buffer;
use crate::runs::run_watched;
use crate::setup::read_setup_watched;
use crate::watch::Watch;
use seq_table::Table;
use std::alloc::Global;

/// How often a session may read.
pub const TURNS: u64 = 16_777_216;

/// Reads the sections, and answers the session over a table in which every module is absent.
fn serve_lines<R: Source, W: Sink, T: Watch>(
    alloc: Global,
    workers: usize,
    lines: &mut Lines<'_, R>,
    writer: &mut W,
    watch: &mut T,
) -> Result<u64, ServeFault>
    requires workers { workers ≤ 64 }
    requires reader_works { R.has_failed (source_of lines.old) ≡ false }
    requires writer_works { W.has_failed writer.old ≡ false }
    ensures answered { OnOk result (IfTold (bytes_left R.remaining lines.old) (λ input.
        AnswersInput workers input (W.contents writer.old) (W.contents writer.new))) }
    ensures errors { IfOk result (λ errors. IfTold (bytes_left R.remaining lines.old) (λ input. CountsErrors workers input errors)) }
    ensures all_read { OnOk result (HasTrueEnd R.remaining lines.old → IsAtEnd (R.remaining (source_of lines.new))) }
    ensures stands { IfErr result (λ fault. ServeStands workers fault (bytes_left R.remaining lines.old)
        (R.remaining (source_of lines.new)) (W.contents writer.old) (W.contents writer.new)) }
    ensures read { R.has_failed (source_of lines.new) ≡ failed_reading result }
    ensures write { W.has_failed writer.new ≡ failed_writing result }
    ensures turns { ran_out_of_turns result ≡ true →
        (turns_of lines.new ≡ 0) × GaveAtLeast (turns_of lines.old) (R.remaining (source_of lines.old)) (R.remaining (source_of lines.new)) }
    ensures counted { SpendsTurns R.read_count lines.old lines.new }
    ensures same_reader { SameReader lines.old lines.new }
{
    let setup = read_setup_watched(alloc, lines, watch)?;
    let mut table = Table::new(alloc, setup.catalogue(), workers)?;
    let errors = run_watched(alloc, &setup, lines, writer, &mut table, watch)?;
    Ok(errors)
}

/// Tells the watch of the line that is in hand at a fault.
fn tell_stop<T: Watch>(answer: &Result<u64, ServeFault>, line: &[u8], watch: &mut T) {
    if answer.is_err() {
        watch.stop(line);
    }
}

/// Answers a whole input: reads its sections, makes a table of `workers` workers in which every module is absent, and answers
/// the lines of its session. It answers how many replies were errors, 2^64 - 1 at most, and tells the watch what `Watch`
/// lists.
///
/// - `Setup`: the input has no setup, or could not be read up to its session (`read_setup_watched`). Nothing was written.
/// - `Run`: the session stopped (`run_watched`).
/// - `Memory`: there is none for the lines or the table. Nothing was written.
///
/// It reads at most 16,777,216 times, and exactly so often if the fault is `Turns`.
pub fn serve_watched<R: Source, W: Sink, T: Watch>(
    alloc: Global,
    workers: usize,
    reader: &mut R,
    writer: &mut W,
    watch: &mut T,
) -> Result<u64, ServeFault>
    requires workers { workers ≤ 64 }
    requires reader_works { R.has_failed reader.old ≡ false }
    requires writer_works { W.has_failed writer.old ≡ false }

    // At the end of the input: the answer to its session, and nothing else. The source is at its end.
    ensures answered { OnOk result (IfTold (R.remaining reader.old) (λ input.
        AnswersInput workers input (W.contents writer.old) (W.contents writer.new))) }
    ensures errors { IfOk result (λ errors. IfTold (R.remaining reader.old) (λ input. CountsErrors workers input errors)) }
    ensures all_read { OnOk result (IsAtEnd (R.remaining reader.new)) }

    // What stands after each fault.
    ensures stands { IfErr result (λ fault. ServeStands workers fault (R.remaining reader.old) (R.remaining reader.new)
        (W.contents writer.old) (W.contents writer.new)) }

    // When each fault comes.
    ensures read { R.has_failed reader.new ≡ failed_reading result }
    ensures write { W.has_failed writer.new ≡ failed_writing result }
    ensures turns { ran_out_of_turns result ≡ true →
        (R.read_count reader.new ≡ R.read_count reader.old + 16777216)
        × GaveAtLeast 16777216 (R.remaining reader.old) (R.remaining reader.new) }

    // How often it reads.
    ensures counted { R.read_count reader.new ≤ R.read_count reader.old + 16777216 }
{
    let buffer = Buffer::new(alloc)?;
    let mut lines = Lines::new(alloc, buffer, reader, TURNS);
    let result = serve_lines(alloc, workers, &mut lines, writer, watch);
    tell_stop(&result, lines.line(), watch);
    let reader = lines.into_reader();
    // No effect at run time. The proof reads what the reader is left as from this use.
    let _ = &*reader;
    result
}
