//! Sessions.
ghost use Rattle.std.specs.Prelude.{◌≡◌, ◌+◌, ◌≤◌, false, true, Some, OnOk, IfErr, List, ℕ};
ghost use Rattle.std.specs.Io.KnownBytes.{Appends, IsAtEnd};
ghost use Rattle.std.specs.Str.Lines.{lines as lines_of};
ghost use Rattle.dep_index.specs.Catalogue.{modules_of};
ghost use Rattle.dep_index.specs.Laws.{IsLawful};
ghost use Rattle.modprobe.specs.Lines.{bytes_left, hand_of, IfTold, source_of};
ghost use Rattle.modprobe.specs.Run.{StandsAfter, is_read, is_write};
ghost use Rattle.modprobe.specs.Serve.{ServeStands, failed_reading, failed_writing, ran_out_of_turns};
ghost use Rattle.modprobe.specs.Session.{answer};
ghost use Rattle.theorems.specs.Sessions.{output, WritesBeginning, SessionsMakeCalls, SessionsAreLawful};

use dep_index::laws::always_lawful;
use modprobe::{Lines, RunFault, ServeFault, Setup, Sink, Source, run, serve};
use seq_table::Modules;
use std::alloc::Global;

/// A session is a function of its input: if it is answered Ok, what was written is the output that belongs to the
/// input and the number of workers, and nothing else, and the reader is at its end. After a fault it is said what stands.
/// A fault of the reader or of the writer comes exactly if that one failed. The reader is read 16,777,216 times at
/// most, and as often if a fault of turns comes.
///
/// Premises: the reader and the writer tell their bytes, and have not failed before; there are at most 64 workers.
pub fn sessions_are_functions_of_their_input<R: Source, W: Sink>(
    alloc: Global,
    workers: usize,
    reader: &mut R,
    writer: &mut W,
) -> Result<(), ServeFault>
    requires workers { workers ≤ 64 }
    requires reader_works { R.has_failed reader.old ≡ false }
    requires writer_works { W.has_failed writer.old ≡ false }
    ensures output { OnOk result (IfTold (R.remaining reader.old) (λ input.
        (bytes : List ℕ) × (output workers input ≡ Some bytes) × Appends (W.contents writer.old) (W.contents writer.new) bytes)) }
    ensures all_read { OnOk result (IsAtEnd (R.remaining reader.new)) }
    ensures counted { R.read_count reader.new ≤ R.read_count reader.old + 16777216 }
    ensures stands { IfErr result (λ fault. ServeStands workers fault (R.remaining reader.old) (R.remaining reader.new)
        (W.contents writer.old) (W.contents writer.new)) }
    ensures read { R.has_failed reader.new ≡ failed_reading result }
    ensures write { W.has_failed writer.new ≡ failed_writing result }
    ensures turns { ran_out_of_turns result ≡ true → R.read_count reader.new ≡ R.read_count reader.old + 16777216 }
{
    serve(alloc, workers, reader, writer)
}

/// However a session stops before the end of its input, what was written is a beginning of the output that belongs to the
/// input. So no fault has it write anything else, and if the input has no setup nothing is written. A fault of the setup, of
/// the reader or of the writer that it returns is there. One that does not stop has read all, and written all of it.
///
/// Premises: those of the sentence above.
pub fn stopped_sessions_wrote_a_beginning<R: Source, W: Sink>(
    alloc: Global,
    workers: usize,
    reader: &mut R,
    writer: &mut W,
) -> Result<(), ServeFault>
    requires workers { workers ≤ 64 }
    requires reader_works { R.has_failed reader.old ≡ false }
    requires writer_works { W.has_failed writer.old ≡ false }
    ensures beginning { IfErr result (λ fault. IfTold (R.remaining reader.old) (λ input.
        WritesBeginning workers input (W.contents writer.old) (W.contents writer.new))) }
    ensures output { OnOk result (IfTold (R.remaining reader.old) (λ input.
        (bytes : List ℕ) × (output workers input ≡ Some bytes) × Appends (W.contents writer.old) (W.contents writer.new) bytes)) }
    ensures all_read { OnOk result (IsAtEnd (R.remaining reader.new)) }
    ensures stands { IfErr result (λ fault. ServeStands workers fault (R.remaining reader.old) (R.remaining reader.new)
        (W.contents writer.old) (W.contents writer.new)) }
    ensures read { R.has_failed reader.new ≡ failed_reading result }
    ensures write { W.has_failed writer.new ≡ failed_writing result }
{
    sessions_are_functions_of_their_input(alloc, workers, reader, writer)
}

/// Over whatever table, a session that is answered Ok has read all lines that were left, written the answer to them and
/// nothing else, and left the table of that answer. After a fault it is said what stands, and the table is lawful. A fault of
/// the reader or of the writer comes exactly if that one failed.
///
/// Premises: those of the sentence above, and the table is over the catalogue of the setup.
pub fn sessions_answer_each_line<R: Source, W: Sink, M: Modules>(
    alloc: Global,
    setup: &Setup,
    lines: &mut Lines<'_, R>,
    writer: &mut W,
    table: &mut M,
) -> Result<(), RunFault>
    requires reader_works { R.has_failed lines.old.reader.now ≡ false }
    requires writer_works { W.has_failed writer.old ≡ false }
    requires over { M.catalogue table.old ≡ modules_of setup.now.catalogue }
    ensures written { OnOk result (IfTold (bytes_left R.remaining lines.old) (λ text.
        Appends (W.contents writer.old) (W.contents writer.new) (answer setup.now (M.table table.old) (lines_of text)).0)) }
    ensures table { OnOk result (IfTold (bytes_left R.remaining lines.old) (λ text.
        M.table table.new ≡ (answer setup.now (M.table table.old) (lines_of text)).1)) }
    ensures all_read { OnOk result (IsAtEnd (bytes_left R.remaining lines.new)) }
    ensures stands { IfErr result (λ fault. StandsAfter fault setup.now (M.table table.old) (bytes_left R.remaining lines.old)
        (hand_of R.remaining lines.new) (W.contents writer.old) (W.contents writer.new) (M.table table.new)) }
    ensures read { R.has_failed (source_of lines.new) ≡ is_read result }
    ensures write { W.has_failed writer.new ≡ is_write result }
    ensures lawful { IsLawful (M.catalogue table.new) (M.table table.new) }
{
    let result = run(alloc, setup, lines, writer, table);
    table.laws();
    result
}

/// The table after each session is reached from the opening table by calls in range: commands make calls, and nothing
/// else changes the table.
pub fn sessions_make_calls()
    ensures { SessionsMakeCalls }
{}

/// So the laws of the one-thread table hold of the table after each session.
pub fn sessions_are_lawful()
    ensures { SessionsAreLawful }
{
    sessions_make_calls();
    always_lawful();
}
