//! Sessions of which nobody is told anything.
ghost use Rattle.std.specs.Prelude.{◌≡◌, ◌+◌, ◌≤◌, false, true, OnOk, IfOk, IfErr};
ghost use Rattle.std.specs.Io.KnownBytes.{Appends, IsAtEnd};
ghost use Rattle.std.specs.Str.Lines.{lines as lines_of};
ghost use Rattle.dep_index.specs.Catalogue.{modules_of};
ghost use Rattle.modprobe.specs.Lines.{bytes_left, hand_of, IfTold, IsPaid, GaveAtLeast, StopsForTurns, SpendsTurns, HasTrueEnd, source_of, SameReader, line_of};
ghost use Rattle.modprobe.specs.Session.{answer};
ghost use Rattle.modprobe.specs.SetupInput.{setup_of, GivesSetup, Refuses, SetupStops};
ghost use Rattle.modprobe.specs.Run.{AllShort, StandsAfter, is_read, is_write};
ghost use Rattle.modprobe.specs.Serve.{AnswersInput, ServeStands, failed_reading, failed_writing, ran_out_of_turns};
ghost use Rattle.modprobe.specs.ForProofs.{is_setup_read};

use crate::device::{Sink, Source};
use crate::fault::{RunFault, ServeFault, SetupCode, SetupFault};
use crate::lines::Lines;
use crate::runs::run_watched;
use crate::service::serve_watched;
use crate::setup::{Setup, read_setup_watched};
use crate::watch::Watch;
use seq_table::Modules;
use std::alloc::Global;

/// Takes no note of anything.
#[derive(Clone, Copy, Debug, Drop)]
pub struct Unwatched;

impl Watch for Unwatched {}

/// Reads the sections of an input as `read_setup_watched` does, without a watch.
pub fn read_setup<R: Source>(alloc: Global, lines: &mut Lines<'_, R>) -> Result<Setup, SetupFault>
    requires { R.has_failed (source_of lines.old) ≡ false }
    ensures setup { IfOk result (λ s.
        GivesSetup (bytes_left R.remaining lines.old) (bytes_left R.remaining lines.new) s) }
    ensures refused { IfErr result (λ fault.
        IfTold (bytes_left R.remaining lines.old) (λ input. Refuses fault (setup_of input))) }
    ensures stops { IfErr result (λ fault. SetupStops fault.code (bytes_left R.remaining lines.old)
        (R.remaining (source_of lines.new)) (line_of lines.new)) }
    ensures read { R.has_failed (source_of lines.new) ≡ is_setup_read result }
    ensures turns { IfErr result (λ fault.
        fault.code ≡ SetupCode.Turns → StopsForTurns R.remaining lines.old lines.new) }
    ensures paid { OnOk result (IsPaid R.remaining lines.old lines.new) }
    ensures counted { SpendsTurns R.read_count lines.old lines.new }
    ensures end { HasTrueEnd R.remaining lines.old → HasTrueEnd R.remaining lines.new }
    ensures same_reader { SameReader lines.old lines.new }
{
    read_setup_watched(alloc, lines, &mut Unwatched)
}

/// Answers each line that is left as `run_watched` does, without a watch and a count.
pub fn run<R: Source, W: Sink, M: Modules>(
    alloc: Global,
    setup: &Setup,
    lines: &mut Lines<'_, R>,
    writer: &mut W,
    table: &mut M,
) -> Result<(), RunFault>
    requires reader_works { R.has_failed (source_of lines.old) ≡ false }
    requires writer_works { W.has_failed writer.old ≡ false }
    requires over { M.catalogue table.old ≡ modules_of setup.now.catalogue }

    // At the end of the input: the answer to all lines that were left, and nothing else.
    ensures answered { OnOk result (IfTold (bytes_left R.remaining lines.old) (λ text.
        Appends (W.contents writer.old) (W.contents writer.new) (answer setup.now (M.table table.old) (lines_of text)).0)) }
    ensures table { OnOk result (IfTold (bytes_left R.remaining lines.old) (λ text.
        M.table table.new ≡ (answer setup.now (M.table table.old) (lines_of text)).1)) }
    ensures short { OnOk result (IfTold (bytes_left R.remaining lines.old) (λ text. AllShort (lines_of text))) }
    ensures all_read { OnOk result (IsAtEnd (bytes_left R.remaining lines.new)) }
    ensures end { HasTrueEnd R.remaining lines.old → HasTrueEnd R.remaining lines.new }

    // What stands after each fault.
    ensures stands { IfErr result (λ fault. StandsAfter fault setup.now (M.table table.old) (bytes_left R.remaining lines.old)
        (hand_of R.remaining lines.new) (W.contents writer.old) (W.contents writer.new) (M.table table.new)) }

    // When each fault comes.
    ensures read { R.has_failed (source_of lines.new) ≡ is_read result }
    ensures write { W.has_failed writer.new ≡ is_write result }
    ensures turns { result ≡ Err RunFault.Turns → StopsForTurns R.remaining lines.old lines.new }

    // Each turn is one read.
    ensures counted { SpendsTurns R.read_count lines.old lines.new }

    ensures same_reader { SameReader lines.old lines.new }
    ensures over { M.catalogue table.new ≡ M.catalogue table.old }
{
    match run_watched(alloc, setup, lines, writer, table, &mut Unwatched) {
        Ok(_) => Ok(()),
        Err(fault) => Err(fault),
    }
}

/// Answers a whole input as `serve_watched` does, without a watch and a count.
pub fn serve<R: Source, W: Sink>(
    alloc: Global,
    workers: usize,
    reader: &mut R,
    writer: &mut W,
) -> Result<(), ServeFault>
    requires workers { workers ≤ 64 }
    requires reader_works { R.has_failed reader.old ≡ false }
    requires writer_works { W.has_failed writer.old ≡ false }

    // At the end of the input: the answer to its session, and nothing else. The source is at its end.
    ensures answered { OnOk result (IfTold (R.remaining reader.old) (λ input.
        AnswersInput workers input (W.contents writer.old) (W.contents writer.new))) }
    ensures all_read { OnOk result (IsAtEnd (R.remaining reader.new)) }

    // What stands after each fault.
    ensures stands { IfErr result (λ fault. ServeStands workers fault (R.remaining reader.old) (R.remaining reader.new)
        (W.contents writer.old) (W.contents writer.new)) }

    // When each fault comes.
    ensures read { R.has_failed reader.new ≡ failed_reading result }
    ensures write { W.has_failed writer.new ≡ failed_writing result }
    ensures turns { ran_out_of_turns result ≡ true →
        (R.read_count reader.new ≡ R.read_count reader.old + 16777216)
        × GaveAtLeast 16777216 (R.remaining reader.old) (R.remaining reader.new) }

    // How often it reads.
    ensures counted { R.read_count reader.new ≤ R.read_count reader.old + 16777216 }
{
    match serve_watched(alloc, workers, reader, writer, &mut Unwatched) {
        Ok(_) => Ok(()),
        Err(fault) => Err(fault),
    }
}
