//! A session: each line is read and answered, and its reply is written.
ghost use Rattle.std.specs.Prelude.{◌≡◌, ◌+◌, ◌-◌, ◌^◌, min, false, IfOk, IfErr, OnOk, OnErr, is_err};
ghost use Rattle.std.specs.Io.KnownBytes.{Appends, IsAtEnd};
ghost use Rattle.std.specs.Str.Lines.{lines as lines_of};
ghost use Rattle.dep_index.specs.Catalogue.{modules_of};
ghost use Rattle.modprobe.specs.Lines.{bytes_left, hand_of, IfTold, StopsForTurns, SpendsTurns, HasTrueEnd, source_of, SameReader};
ghost use Rattle.modprobe.specs.Session.{answer, error_count};
ghost use Rattle.modprobe.specs.Outcomes.{errors_of};
ghost use Rattle.modprobe.specs.Run.{AllShort, WritesPart, StandsAfter, is_read, is_write};

use crate::device::{Failed, Sink, Source};
use crate::fault::RunFault;
use crate::lines::Lines;
use crate::reply::Reply;
use crate::session::Session;
use crate::setup::Setup;
use crate::watch::{Refused, Watch};
use seq_table::Modules;
use std::alloc::Global;

/// Writes all bytes. If that fails, a front part of them was written.
fn write_all<W: Sink>(writer: &mut W, bytes: &[u8]) -> Result<(), Failed>
    requires { W.has_failed writer.old ≡ false }
    ensures ok { OnOk result (Appends (W.contents writer.old) (W.contents writer.new) bytes.now) }
    ensures err { OnErr result (WritesPart (W.contents writer.old) (W.contents writer.new) bytes.now) }
    ensures failed { W.has_failed writer.new ≡ is_err result }
{
    let mut written = 0;
    while written < bytes.len() {
        let count = writer.write(&bytes[written..])?;
        if count == 0 {
            return Err(Failed);
        }
        written += count;
    }
    Ok(())
}

/// How many errors there are with this reply to a line. The watch is told of the line if it is refused.
fn count_reply<'a, M: Modules, T: Watch>(
    errors: u64,
    session: &'a Session<'_, '_, M>,
    line: &'a [u8],
    reply: &'a Reply,
    watch: &mut T,
) -> u64
    ensures { result ≡ min (errors + errors_of reply.now) (2 ^ 64 - 1) }
{
    let Some(refusal) = reply.refusal() else {
        return errors;
    };
    watch.refusal(&Refused {
        setup: session.setup,
        table: session.table,
        line,
        refusal,
    });
    errors.saturating_add(1)
}

/// Answers each line that is left, up to the end of the input or a fault. Each read of the source takes one turn of `lines`.
///
/// - `Read`, `Write`: the device failed in this call. `Memory`: there is none.
/// - `Turns`: the source was read as often as `lines` may. `LongLine`: a line has more than 65,535 bytes.
///
/// After a fault all lines before the one in hand are answered. `Write` comes after the line in hand has had its effect on
/// the table, and a front part of its reply is written. After any other fault it has no effect and no reply.
///
/// It answers how many lines were refused, 2^64 - 1 at most, and tells the watch of each line and of each refusal.
pub fn run_watched<R: Source, W: Sink, M: Modules, T: Watch>(
    alloc: Global,
    setup: &Setup,
    lines: &mut Lines<'_, R>,
    writer: &mut W,
    table: &mut M,
    watch: &mut T,
) -> Result<u64, RunFault>
    requires reader_works { R.has_failed (source_of lines.old) ≡ false }
    requires writer_works { W.has_failed writer.old ≡ false }
    requires over { M.catalogue table.old ≡ modules_of setup.now.catalogue }

    // At the end of the input: the answer to all lines that were left, and nothing else.
    ensures answered { OnOk result (IfTold (bytes_left R.remaining lines.old) (λ text.
        Appends (W.contents writer.old) (W.contents writer.new) (answer setup.now (M.table table.old) (lines_of text)).0)) }
    ensures table { OnOk result (IfTold (bytes_left R.remaining lines.old) (λ text.
        M.table table.new ≡ (answer setup.now (M.table table.old) (lines_of text)).1)) }
    ensures errors { IfOk result (λ errors. IfTold (bytes_left R.remaining lines.old) (λ text.
        errors ≡ min (error_count setup.now (M.table table.old) (lines_of text)) (2 ^ 64 - 1))) }
    ensures short { OnOk result (IfTold (bytes_left R.remaining lines.old) (λ text. AllShort (lines_of text))) }
    ensures all_read { OnOk result (IsAtEnd (bytes_left R.remaining lines.new)) }
    ensures end { HasTrueEnd R.remaining lines.old → HasTrueEnd R.remaining lines.new }

    // What stands after each fault.
    ensures stands { IfErr result (λ fault. StandsAfter fault setup.now (M.table table.old) (bytes_left R.remaining lines.old)
        (hand_of R.remaining lines.new) (W.contents writer.old) (W.contents writer.new) (M.table table.new)) }

    // When each fault comes.
    ensures read { R.has_failed (source_of lines.new) ≡ is_read result }
    ensures write { W.has_failed writer.new ≡ is_write result }
    ensures turns { result ≡ Err RunFault.Turns → StopsForTurns R.remaining lines.old lines.new }

    // Each turn is one read.
    ensures counted { SpendsTurns R.read_count lines.old lines.new }

    ensures same_reader { SameReader lines.old lines.new }
    ensures over { M.catalogue table.new ≡ M.catalogue table.old }
{
    let mut session = Session { setup, table };
    let mut errors = 0;
    while lines.next_line()? {
        watch.line();
        let reply = session.reply(alloc, lines.line())?;
        write_all(writer, reply.text())?;
        errors = count_reply(errors, &session, lines.line(), &reply, watch);
    }
    Ok(errors)
}
