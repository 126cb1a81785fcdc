//! The program over any words and streams.
ghost use Rattle.std.specs.Prelude.{◌≡◌, ◌⊎◌, ◌+◌, ◌≤◌, [], ◌∷◌, ◌↔◌, ◌<◌, false, drop, length, take, IfOk, IfErr, IfNone, IfSome, IsNone, IsTrue, OnOk, OnErr, OnSome};
ghost use Rattle.std.specs.Io.KnownBytes.{Appends};
ghost use Rattle.text_parts.specs.Text.{texts_of};
ghost use Rattle.modprobe_words.specs.Begun.{IsBegun};
ghost use Rattle.line_journal.specs.Lines.{AreLines, bytes_of};
ghost use Rattle.table_words.specs.Asked.{asked, asked_view, job_view};
ghost use Rattle.table_words.specs.Endings.{number_of};
ghost use Rattle.table_words.specs.Lines.{line_of};
ghost use Rattle.table_words.specs.Options.{stop_of, text_of};
ghost use Rattle.table_words.specs.declared.ending.Ending.{Ending as AnyEnding};
ghost use Rattle.gz_table_drive.specs.Ended.{HasSecondFolder, HasSlash, IsMisplaced, IsNoFolder, IsPerformed, IsRun, IsRunOf, IsShown, IsCutShort, IsStopped, IsUnasked, IsUndone, IsWork, may_read, reads_input};
ghost use Rattle.gz_table_drive.specs.Log.{HasGrown};
ghost use Rattle.gz_table_drive.specs.Turns.{IsTurnFor};
ghost use Rattle.gz_table_drive.specs.Counted.{AreCountsWritten};
ghost use Rattle.gz_table_drive.specs.Written.{first_ending, AnswersInput, AreFirstSent, AreWritten, IsAdoptionWritten, IsAnswered, IsInputAnswered, IsInputSent, IsUntouched, IsUnwritten, IsWritten, SendsInput};

use crate::adopt::adopt;
use crate::answering::Replies;
use crate::check::check;
use crate::compaction::compact;
use crate::create::create;
use crate::in_use::tell_users;
use crate::kept::Kept;
use crate::log::Tenures;
use crate::renewal::renew;
use crate::repair::repair;
use crate::tenure::{Turn, answer_in_tenure, take_turn};
use durable_table::Compacted;
use file_journal::{FileDevice, Syncs};
use line_journal::is_line;
use memchr::memchr;
use modprobe_words::Written;
use std::alloc::{AllocError, Global};
use std::env::Env;
use std::fs::File;
use std::io::{Read, Write};
use std::rt::Files;
use std::str;
use std::time::Clock;
use table_folder::{
    InputFault, InputLines, Shared, TableFault, Teller, alone, end_renewal, end_run, read_setup,
    read_setup_for_command, refuse_others, tell_fault,
};
use table_words::{Asked, Ending, HELP, Job, Stop, VERSION, line_of, read_words};

/// How often a command is begun, if its table is made anew again and again.
const TRIES: u32 = 3;

/// Writes a text, and waits until the stream has it. If the output fails, it has a beginning of the text.
fn write_whole<O: Write>(text: &[u8], output: &mut O) -> Result<(), TableFault>
    ensures written { OnOk result (Appends (O.contents output.old) (O.contents output.new) text.now) }
    ensures begun { IsBegun (O.contents output.old) (O.contents output.new) text.now }
    ensures failed { IfErr result (λ fault. fault ≡ TableFault.Output) }
{
    match modprobe_words::write_whole(output, text) {
        Written::Whole => Ok(()),
        _ => Err(TableFault::Output),
    }
}

/// The lines behind the first of them.
fn lines_behind(lines: &[Vec<u8>], count: usize) -> &[Vec<u8>]
    requires within { count ≤ length lines.now }
    requires lines { AreLines (bytes_of lines.now) }
    ensures lines { AreLines (bytes_of result.now) }
    ensures fewer { length result.now + count ≡ length lines.entry.now }
    ensures rest { result.now ≡ drop count lines.entry.now }
{
    &lines[count..]
}

/// What was answered of lines in one tenure: how many of them, and their replies.
#[derive(Drop)]
struct Answered {
    count: usize,
    replies: Replies,
}

/// Answers the first of some lines in one tenure, and writes their replies. If a line has none, those to the lines before it
/// are written all the same.
fn answer_turn<'s, 'r, R: Files<File = File> + Clock + AllocGlobal, O: Write, E: Write>(
    shared: &Shared<'r, R>,
    kept: &mut Kept<'s, FileDevice<&'r R>>,
    log: &mut Tenures,
    turn: Turn,
    lines: &[Vec<u8>],
    output: &mut O,
    teller: &mut Teller<'_, E>,
) -> Result<Answered, TableFault>
    requires lines { AreLines (bytes_of lines.now) }
    requires turn { IsTurnFor (bytes_of lines.now) turn }
    ensures answered { IfOk result (λ a. IsAnswered kept.old.setup.now (take a.count (bytes_of lines.now)) log.old log.new a.replies) }
    ensures written { IfOk result (λ a. Appends (O.contents output.old) (O.contents output.new) a.replies.text.items) }
    ensures stopped { IfErr result (AreFirstSent kept.old.setup.now (bytes_of lines.now) log.old log.new (O.contents output.old) (O.contents output.new)) }
    ensures some { IfOk result (λ a. 0 < length lines.now → 0 < a.count) }
    ensures within { IfOk result (λ a. a.count ≤ length lines.now) }
    ensures setup { kept.new.setup.now ≡ kept.old.setup.now }
{
    let mut replies = Replies::new(shared.alloc());
    let answered = answer_in_tenure(shared, kept, log, turn, lines, &mut replies, teller);
    write_whole(&replies.text, output)?;
    let count = answered?;
    Ok(Answered { count, replies })
}

/// Answers lines, in as many tenures as it takes, and writes their replies. Returns how they end together.
fn answer_group<'s, 'r, R: Files<File = File> + Clock + AllocGlobal, O: Write, E: Write>(
    shared: &Shared<'r, R>,
    kept: &mut Kept<'s, FileDevice<&'r R>>,
    log: &mut Tenures,
    lines: &[Vec<u8>],
    output: &mut O,
    teller: &mut Teller<'_, E>,
) -> Result<Ending, TableFault>
    requires { AreLines (bytes_of lines.now) }
    ensures written { IfOk result (AreWritten kept.old.setup.now (bytes_of lines.now) log.old log.new (O.contents output.old) (O.contents output.new)) }
    ensures stopped { IfErr result (AreFirstSent kept.old.setup.now (bytes_of lines.now) log.old log.new (O.contents output.old) (O.contents output.new)) }
    ensures setup { kept.new.setup.now ≡ kept.old.setup.now }
{
    let (mut rest, mut ending) = (lines, Ending::Done);
    while !rest.is_empty() {
        let turn = take_turn(shared, rest)?;
        let answered = answer_turn(shared, kept, log, turn, rest, output, teller)?;
        ending = ending.behind(answered.replies.ending());
        rest = lines_behind(rest, answered.count);
    }
    Ok(ending)
}

/// The line of a command. Its words were read as words of a line.
fn command_line<E: Write>(
    alloc: Global,
    words: &[&[u8]],
    teller: &mut Teller<'_, E>,
) -> Result<Vec<Vec<u8>>, TableFault>
    ensures lines { IfOk result (λ lines. AreLines (bytes_of lines.items)) }
    ensures one { IfOk result (λ lines. bytes_of lines.items ≡ line_of (texts_of words.now) ∷ []) }
{
    let line = line_of(alloc, words)?;
    if !is_line(&line) {
        return Err(teller.say("bad command", &line, "a command is one line"));
    }
    Ok(alone(alloc, line)?)
}

/// How the first line ended that was answered.
fn first_ending(replies: &Replies) -> Ending
    ensures { result ≡ first_ending replies.now.endings.items }
{
    match replies.endings.first() {
        Some(ending) => *ending,
        None => Ending::Done,
    }
}

/// Answers one line by the setup that lies in the folder now, and writes its reply. None if another setup lies there once the
/// lock is had: nothing is done then.
fn answer_once<R: Files<File = File> + Clock + AllocGlobal, O: Write, E: Write>(
    shared: &Shared<'_, R>,
    log: &mut Tenures,
    words: &[&[u8]],
    output: &mut O,
    teller: &mut Teller<'_, E>,
) -> Result<Option<Ending>, TableFault>
    ensures written { IfOk result (λ done. IfSome done (IsWritten (line_of (texts_of words.now)) log.old log.new (O.contents output.old) (O.contents output.new))) }
    ensures anew { IfOk result (λ done. IfNone done (IsUntouched log.old log.new (O.contents output.old) (O.contents output.new))) }
    ensures failed { IfErr result (IsUnwritten (line_of (texts_of words.now)) log.old log.new (O.contents output.old) (O.contents output.new)) }
{
    let alloc = shared.alloc();
    let setup = read_setup_for_command(shared, words)?;
    let lines = command_line(alloc, words, teller)?;
    let shared = shared.with_setup(&setup);
    let turn = match take_turn(&shared, &lines) {
        Ok(turn) => turn,
        Err(TableFault::MadeAnew) => return Ok(None),
        Err(fault) => return Err(fault),
    };
    let mut kept = Kept::new(&setup);
    let answered = answer_turn(&shared, &mut kept, log, turn, &lines, output, teller)?;
    tell_users(&shared, &mut kept, &answered.replies.text, teller);
    Ok(Some(first_ending(&answered.replies)))
}

/// Answers one line, and writes its reply. If the table is made anew while this waits for it, its setup is read anew too.
fn answer_command<R: Files<File = File> + Clock + AllocGlobal, O: Write, E: Write>(
    shared: &Shared<'_, R>,
    log: &mut Tenures,
    words: &[&[u8]],
    output: &mut O,
    teller: &mut Teller<'_, E>,
) -> Result<Ending, TableFault>
    ensures written { IfOk result (IsWritten (line_of (texts_of words.now)) log.old log.new (O.contents output.old) (O.contents output.new)) }
    ensures failed { IfErr result (IsUnwritten (line_of (texts_of words.now)) log.old log.new (O.contents output.old) (O.contents output.new)) }
{
    for _ in 0..TRIES {
        if let Some(ending) = answer_once(shared, log, words, output, teller)? {
            return Ok(ending);
        }
    }
    Err(TableFault::MadeAnew)
}

/// Answers the lines of an input, to its end. The table is kept from one group of them to the next.
fn answer_input<'s, 'r, R: Files<File = File> + Clock + AllocGlobal, I: Read, O: Write, E: Write>(
    shared: &Shared<'r, R>,
    kept: &mut Kept<'s, FileDevice<&'r R>>,
    log: &mut Tenures,
    input: &mut I,
    output: &mut O,
    teller: &mut Teller<'_, E>,
) -> Result<Ending, TableFault>
    ensures written { IfOk result (AnswersInput kept.old.setup.now (I.remaining input.old) log.old log.new (O.contents output.old) (O.contents output.new)) }
    ensures stopped { IfErr result (SendsInput kept.old.setup.now (I.remaining input.old) log.old log.new (O.contents output.old) (O.contents output.new)) }
    ensures setup { kept.new.setup.now ≡ kept.old.setup.now }
{
    let mut reader = InputLines::new(shared.alloc(), input);
    let mut ending = Ending::Done;
    for _ in 0..u64::MAX {
        let lines = match reader.next_lines() {
            Ok(lines) => lines,
            Err(InputFault::OutOfMemory) => return Err(TableFault::OutOfMemory),
            Err(InputFault::Failed) => return Err(TableFault::Input),
        };
        if lines.is_empty() {
            teller.too_long(reader.too_long());
            teller.unended(reader.is_unended());
            return Ok(ending);
        }
        ending = ending.behind(answer_group(shared, kept, log, &lines, output, teller)?);
    }
    Err(TableFault::Input)
}

/// Brings the table to the modules that a file lists, and writes what is not done.
fn answer_adopt<R: Files<File = File> + Clock + AllocGlobal, I: Read, O: Write, E: Write>(
    shared: &Shared<'_, R>,
    log: &mut Tenures,
    file: &[u8],
    input: &mut I,
    output: &mut O,
    teller: &mut Teller<'_, E>,
) -> Result<Ending, TableFault>
    ensures written { IfOk result (IsAdoptionWritten file.now (I.remaining input.old) log.old log.new (O.contents output.old) (O.contents output.new)) }
    ensures failed { IfErr result (IsCutShort (IsAdoptionWritten file.now (I.remaining input.old) log.old log.new) (O.contents output.old) (O.contents output.new)) }
    ensures grown { HasGrown log.old log.new }
{
    let replies = adopt(shared, log, file, input, teller)?;
    write_whole(&replies.text, output)?;
    Ok(replies.ending())
}

/// Writes what stands in the folder.
fn answer_check<R: Files<File = File> + Clock + AllocGlobal, O: Write>(
    shared: &Shared<'_, R>,
    output: &mut O,
) -> Result<Ending, TableFault>
    ensures written { IfOk result (AreCountsWritten (O.contents output.old) (O.contents output.new)) }
    ensures failed { IfErr result (IsCutShort AreCountsWritten (O.contents output.old) (O.contents output.new)) }
{
    let text = check(shared)?.text(shared.alloc())?;
    write_whole(&text, output)?;
    Ok(Ending::Done)
}

/// Answers the lines of an input by the setup of the folder.
fn answer_lines_of<R: Files<File = File> + Clock + AllocGlobal, I: Read, O: Write, E: Write>(
    shared: &Shared<'_, R>,
    log: &mut Tenures,
    input: &mut I,
    output: &mut O,
    teller: &mut Teller<'_, E>,
) -> Result<Ending, TableFault>
    ensures written { IfOk result (IsInputAnswered (I.remaining input.old) log.old log.new (O.contents output.old) (O.contents output.new)) }
    ensures stopped { IfErr result (λ fault. IsUntouched log.old log.new (O.contents output.old) (O.contents output.new)
        ⊎ IsInputSent (I.remaining input.old) log.old log.new (O.contents output.old) (O.contents output.new) fault) }
{
    let setup = read_setup(shared)?;
    let mut kept = Kept::new(&setup);
    let shared = shared.with_setup(&setup);
    answer_input(&shared, &mut kept, log, input, output, teller)
}

/// Does a job.
fn perform<R: Files<File = File> + Env + Clock + AllocGlobal, I: Read, O: Write, E: Write>(
    shared: &Shared<'_, R>,
    log: &mut Tenures,
    job: Job<'_, '_>,
    input: &mut I,
    output: &mut O,
    teller: &mut Teller<'_, E>,
) -> Result<Ending, TableFault>
    ensures performed { IfOk result (IsPerformed (job_view job.entry) (I.remaining input.old) log.old log.new (O.contents output.old) (O.contents output.new)) }
    ensures failed { IfErr result (IsUndone (job_view job.entry) (I.remaining input.old) log.old log.new (O.contents output.old) (O.contents output.new)) }
    ensures input { reads_input (job_view job.entry) ≡ false → input.new ≡ input.old }
{
    refuse_others(shared, teller)?;
    end_renewal(shared)?;
    match job {
        Job::Create(origin, mode) => create(shared, log, origin, mode, teller),
        Job::Renew(origin) => renew(shared, log, origin, teller),
        Job::Command(words) => answer_command(shared, log, words, output, teller),
        Job::Lines => answer_lines_of(shared, log, input, output, teller),
        Job::Adopt(file) => answer_adopt(shared, log, file, input, output, teller),
        Job::Check => answer_check(shared, output),
        Job::Repair => {
            repair(shared, log, teller)?;
            answer_check(shared, output)
        }
        Job::Compact => match compact(shared, log, teller)? {
            Compacted::Done => Ok(Ending::Done),
            Compacted::Kept => Err(teller.kept(shared.folder)),
        },
    }
}

/// The path of a folder, if it is one: UTF-8, and not empty.
fn folder_path(bytes: &[u8]) -> Option<&str>
    ensures path { IfSome result (λ path. path.now ≡ bytes.now) }
    ensures none { IsNone result ↔ IsNoFolder bytes.now }
{
    match str::from_utf8(bytes) {
        Ok(path) if !path.is_empty() => Some(path),
        _ => None,
    }
}

/// Whether a slash stands in a word.
fn has_slash(word: &[u8]) -> bool
    ensures { IsTrue result ↔ HasSlash word.now }
{
    memchr(b'/', word).is_some()
}

/// The word of a folder that stands in the place of a command, since GZ_TABLE names the folder. No command has a slash.
fn second_folder<'a>(table: Option<&[u8]>, asked: &Asked<'_, 'a>) -> Option<&'a [u8]>
    ensures some { OnSome result (HasSecondFolder (text_of table.entry) (job_view asked.now.job)) }
    ensures none { IfNone result (¬ HasSecondFolder (text_of table.entry) (job_view asked.now.job)) }
{
    let Job::Command([first, ..]) = asked.job else {
        return None;
    };
    if table.is_none() || !has_slash(*first) {
        return None;
    }
    Some(*first)
}

/// The path of the folder that words name. Tells why if they name none, or two.
fn asked_folder<'a, E: Write>(
    table: Option<&[u8]>,
    asked: &Asked<'_, 'a>,
    teller: &mut Teller<'_, E>,
) -> Result<&'a str, TableFault>
    ensures ok { OnOk result (¬ IsMisplaced (text_of table.entry) (asked_view asked.now)) }
    ensures err { OnErr result (IsMisplaced (text_of table.entry) (asked_view asked.now)) }
    ensures told { IfErr result (λ fault. fault ≡ TableFault.Told) }
{
    if let Some(word) = second_folder(table, asked) {
        let advice = "GZ_TABLE is set and names the folder, so no word does";
        return Err(teller.say("bad command", word, advice));
    }
    let Some(folder) = folder_path(asked.folder) else {
        let advice = "the path of a folder is UTF-8, and not empty";
        return Err(teller.say("bad folder", asked.folder, advice));
    };
    Ok(folder)
}

/// Does what is asked, and tells why if it is not done. Of words that name no folder, or two, nothing is written: status 2.
fn answer_asked<R: Files<File = File> + Env + Clock + AllocGlobal, I: Read, O: Write, E: Write>(
    rt: &R,
    table: Option<&[u8]>,
    asked: &Asked<'_, '_>,
    log: &mut Tenures,
    input: &mut I,
    output: &mut O,
    teller: &mut Teller<'_, E>,
) -> Ending
    ensures misplaced { IsMisplaced (text_of table.entry) (asked_view asked.now) → IsUnasked (O.contents output.old) (O.contents output.new) result }
    ensures work { IsWork (job_view asked.now.job) (I.remaining input.old) log.old log.new (O.contents output.old) (O.contents output.new) result }
    ensures input { reads_input (job_view asked.now.job) ≡ false → input.new ≡ input.old }
{
    let folder = match asked_folder(table, asked, teller) {
        Ok(folder) => folder,
        Err(fault) => return fault.ending(),
    };
    let shared = Shared {
        rt,
        folder,
        wait: u32::try_from(asked.wait).unwrap_or(u32::MAX),
        syncs: if asked.sync {
            Syncs::Kept
        } else {
            Syncs::LeftOut
        },
        setup: None,
    };
    match perform(&shared, log, asked.job, input, output, teller) {
        Ok(ending) => ending,
        Err(fault) => end_run(&shared, fault, teller),
    }
}

/// Writes a text that was asked for in the place of work. The status is 0, or 3 if the output failed.
fn tell_text<O: Write, E: Write>(text: &[u8], output: &mut O, teller: &mut Teller<'_, E>) -> Ending
    ensures { IsShown text.now (O.contents output.old) (O.contents output.new) result }
{
    match write_whole(text, output) {
        Ok(()) => Ending::Done,
        Err(fault) => teller.end("", 0, fault),
    }
}

/// Ends a run whose words ask for no work. Help and the version are written, with status 0, or 3 if the output failed. Of words
/// that are refused nothing is written, and people are told why, with status 2.
fn tell_stop<O: Write, E: Write>(
    stop: Stop<'_>,
    output: &mut O,
    teller: &mut Teller<'_, E>,
) -> Ending
    ensures { IsStopped (stop_of stop.entry) (O.contents output.old) (O.contents output.new) result }
{
    match stop {
        Stop::Help => tell_text(HELP, output, teller),
        Stop::Version => tell_text(VERSION, output, teller),
        Stop::Refused(fault) => {
            tell_fault(fault, teller.errors());
            Ending::Unasked
        }
    }
}

/// Does what the words ask for, by the text of GZ_TABLE.
fn run_words<R: Files<File = File> + Env + Clock + AllocGlobal, I: Read, O: Write, E: Write>(
    rt: &R,
    words: &[&[u8]],
    table: Option<&[u8]>,
    log: &mut Tenures,
    input: &mut I,
    output: &mut O,
    teller: &mut Teller<'_, E>,
) -> Ending
    ensures run { IsRunOf (asked (text_of table.entry) (texts_of words.entry.now)) (text_of table.entry) (I.remaining input.old) log.old log.new (O.contents output.old) (O.contents output.new) result }
    ensures input { may_read (asked (text_of table.entry) (texts_of words.entry.now)) ≡ false → input.new ≡ input.old }
{
    match read_words(table, words) {
        Ok(asked) => answer_asked(rt, table, &asked, log, input, output, teller),
        Err(stop) => tell_stop(stop, output, teller),
    }
}

/// The words as slices.
fn slices(alloc: Global, words: &[Vec<u8>]) -> Result<Vec<&[u8]>, AllocError>
    ensures { IfOk result (λ slices. texts_of slices.items ≡ bytes_of words.entry.now) }
{
    let mut slices = Vec::new(alloc);
    for word in words {
        slices.push(word.as_slice())?;
    }
    Ok(slices)
}

/// Runs the program on its words and the text of GZ_TABLE. Returns the status: 0 once help or the version is written; 2 if
/// words are refused, or name no folder or two, and nothing is written then; 3 if memory ran out or the output failed. Work
/// that is done has the status of its replies: of a command its own, of the lines of an input that of the first that was
/// refused. No fault has 0, 1, 10 to 12 or 15 to 18. If work was not done nothing is written, but for the replies to the first
/// lines of an input. If the output failed, with 3, it has a beginning of what is written otherwise. `input` is read for its
/// lines and by `adopt` alone.
///
/// Each reply to a command or a line is that of a tenure of `log`, which only clauses read: of the table that the journal stood
/// for which the tenure found under the folder's lock. That journal was of the setup that was read. What a tenure left,
/// whatever crashes, is so too, and stands for the table behind its lines.
pub fn drive<R: Files<File = File> + Env + Clock + AllocGlobal, I: Read, O: Write, E: Write>(
    rt: &R,
    words: &[Vec<u8>],
    table: Option<&[u8]>,
    log: &mut Tenures,
    input: &mut I,
    output: &mut O,
    errors: &mut E,
) -> u8
    ensures run { (ending : AnyEnding) × (result ≡ number_of ending)
        × IsRun (bytes_of words.entry.now) (text_of table.entry) (I.remaining input.old) log.old log.new (O.contents output.old) (O.contents output.new) ending }
    ensures input { may_read (asked (text_of table.entry) (bytes_of words.entry.now)) ≡ false → input.new ≡ input.old }
{
    let mut teller = Teller::new(errors);
    let Ok(words) = slices(rt.alloc(), words) else {
        return teller.end("", 0, TableFault::OutOfMemory).number();
    };
    run_words(rt, &words, table, log, input, output, &mut teller).number()
}
