//! Sessions over devices that fail, the longest line, and sessions that run out of memory.
ghost use Rattle.std.specs.Prelude.{◌≡◌, false};

use crate::devices::{Broken, Dripping, Narrow, Trickling};
use dep_index::ModuleState;
use modprobe::{
    Buffer, FromRead, FromWrite, LineFault, Lines, RunFault, ServeFault, SetupCode, SetupFault,
    Sink, Source, read_setup, run, serve,
};
use seq_table::{Modules, Table};
use std::alloc::{AllocError, Global};
use std::io::Read;
use std::test::Fail;

const FIRST_RUN: &[u8] =
    b"%catalogue\nmodule snd\nsize 114688\n%session\ninsmod snd\nquery snd\nget 0 snd\nquery snd\nrmmod snd\nput 0 snd\nrmmod snd\nget 0 snd\n";

const FIRST_ANSWER: &[u8] = b"ok\nno\nok\nyes\nerror EWOULDBLOCK snd\nok\nok\nerror NOTLIVE snd\n";

#[test]
fn a_reader_that_fails_in_a_line(rt: HostRuntime) {
    let text = b"%catalogue\nmodule snd\n%session\ninsmod snd\nque".as_slice();
    let mut reader = FromRead::new(text.chain(Broken));
    let mut output = FromWrite::new(Narrow::new(256, false));
    let result = serve(rt.alloc(), 1, &mut reader, &mut output);
    let holds = matches!(result, Err(ServeFault::Run(RunFault::Read)))
        && output.writer.text() == b"ok\n".as_slice();
    assert!(rt; holds);
}

/// Answers a session in so many turns, those of its sections included: how it ends, and whether its one module is live then.
fn run_in_turns<R: Source, W: Sink>(
    alloc: Global,
    reader: &mut R,
    writer: &mut W,
    turns: u64,
) -> Result<(Result<(), RunFault>, bool), ServeFault>
    requires reader_works { R.has_failed reader.old ≡ false }
    requires writer_works { W.has_failed writer.old ≡ false }
{
    let buffer = Buffer::new(alloc)?;
    let mut lines = Lines::new(alloc, buffer, reader, turns);
    let setup = read_setup(alloc, &mut lines)?;
    let mut table = Table::new(alloc, setup.catalogue(), 1)?;
    let ended = run(alloc, &setup, &mut lines, writer, &mut table);
    let is_live = table.slots() == 1 && table.state(0) == ModuleState::Live;
    Ok((ended, is_live))
}

/// Whether the first run over a writer that takes one byte, and then fails or takes none, ends with that fault, the byte
/// written and the module loaded.
fn stops_after_a_byte(alloc: Global, fails: bool) -> bool {
    let mut reader = FromRead::new(FIRST_RUN);
    let mut output = FromWrite::new(Narrow::new(1, fails));
    let ended = run_in_turns(alloc, &mut reader, &mut output, 100);
    ended == Ok((Err(RunFault::Write), true)) && output.writer.text() == b"o".as_slice()
}

#[test]
fn a_writer_that_fails(rt: HostRuntime) {
    assert!(rt; stops_after_a_byte(rt.alloc(), true));
}

#[test]
fn a_writer_that_takes_nothing(rt: HostRuntime) {
    assert!(rt; stops_after_a_byte(rt.alloc(), false));
}

#[test]
fn a_reader_that_never_ends(rt: HostRuntime) {
    let mut reader = FromRead::new(b"%catalogue\n".as_slice().chain(Dripping));
    let mut output = FromWrite::new(Narrow::new(0, true));
    let ended = run_in_turns(rt.alloc(), &mut reader, &mut output, 3);
    let is_code = matches!(ended, Err(ServeFault::Setup(fault)) if fault.code == SetupCode::Turns);
    assert!(rt; is_code && reader.answered == 3);
}

/// How a session of two lines ends in so many turns, and what it has answered then. The section line takes 9 turns and each
/// further line 8. The end of the input takes one.
static TWO_LINES: [(u64, Result<(), RunFault>, &[u8]); 3] = [
    (24, Err(RunFault::Turns), b"error ENOENT a\n"),
    (
        25,
        Err(RunFault::Turns),
        b"error ENOENT a\nerror ENOENT b\n",
    ),
    (26, Ok(()), b"error ENOENT a\nerror ENOENT b\n"),
];

/// Whether a session of two lines, over a reader that gives a byte a read, ends like this, spends all its turns and answers
/// this.
fn two_lines_end(alloc: Global, turns: u64, wanted: Result<(), RunFault>, answer: &[u8]) -> bool {
    let mut reader = FromRead::new(Trickling::new(b"%session\nquery a\nquery b\n"));
    let mut output = FromWrite::new(Narrow::new(256, false));
    let ended = run_in_turns(alloc, &mut reader, &mut output, turns);
    ended == Ok((wanted, false)) && reader.answered == turns && output.writer.text() == answer
}

#[test]
fn turns_end_or_suffice(rt: HostRuntime) {
    for (turns, wanted, answer) in &TWO_LINES {
        assert!(rt;
            two_lines_end(rt.alloc(), *turns, *wanted, answer),
            "in {turns} turns"
        );
    }
}

/// A session with a short line, and a line with a name of so many letters.
fn long_session(alloc: Global, letters: usize) -> Result<Vec<u8>, AllocError> {
    let mut input = Vec::from_slice(alloc, b"%session\nquery a\ninsmod ")?;
    input.resize(input.len().saturating_add(letters), b'a')?;
    input.push(b'\n')?;
    Ok(input)
}

/// Whether that session ends like this, behind so many letters of its answer.
fn long_session_ends(
    alloc: Global,
    letters: usize,
    wanted: Result<(), ServeFault>,
    answered: usize,
) -> Result<bool, AllocError> {
    let input = long_session(alloc, letters)?;
    let mut taken = Vec::new(alloc);
    let mut reader = FromRead::new(input.as_slice());
    let ended = serve(alloc, 1, &mut reader, &mut FromWrite::new(&mut taken));
    Ok(ended == wanted && taken.len() == answered)
}

const SHORT_ANSWER: usize = b"error ENOENT a\n".len();

const LONG_ANSWER: usize = b"error ENOENT \n".len();

#[test]
fn the_longest_line(rt: HostRuntime) -> Result<(), Fail> {
    let answered = SHORT_ANSWER + LONG_ANSWER + 65_528;
    assert!(rt; long_session_ends(rt.alloc(), 65_528, Ok(()), answered)?);
    Ok(())
}

#[test]
fn a_line_with_a_byte_more(rt: HostRuntime) -> Result<(), Fail> {
    let fault = ServeFault::Run(RunFault::LongLine);
    assert!(rt; long_session_ends(rt.alloc(), 65_529, Err(fault), SHORT_ANSWER)?);
    Ok(())
}

const CARD_RUN: &[u8] =
    b"%catalogue\nmodule snd\nexports s\nmodule snd-pcm\nneeds s\n%session\nmodprobe snd-pcm\nproc\nrmmod snd\nmodprobe -r snd_pcm\nproc\n";

const CARD_ANSWER: &[u8] =
    b"ok\nsnd_pcm 0 0 - Live 0x0000000000000000\nsnd 0 1 snd_pcm, Live 0x0000000000000000\nerror EWOULDBLOCK snd\nok\n";

/// Each section, and most commands.
const LONG_RUN: &[u8] = b"%dep
snd-pcm.ko: snd.ko
%catalogue
module snd
size 114688
exports snd_card_new
module snd-pcm
size 143360
needs snd_card_new
param debug bool
%alias
alias snd-card-* snd
%conf
options snd debug=1
%session
insmod snd-pcm
insmod snd
insmod snd_pcm
rmmod snd
get 0 snd_pcm
query snd-pcm
drain snd_pcm
put 0 snd_pcm
rmmod snd_pcm
frob x
rmmod nosuch
modprobe -r snd
plan snd-pcm
modprobe snd-card-7
modprobe snd-pcm debug=maybe
modprobe snd-pcm
lsmod
proc
modinfo snd-pcm
modprobe -r snd-pcm
";

/// What it is answered.
const LONG_ANSWER_TEXT: &[u8] = b"error NEEDNOTLIVE snd
ok
ok
error EWOULDBLOCK snd
ok
yes
ok
ok
ok
error SYNTAX frob
error ENOENT nosuch
ok
load snd hard debug=1
load snd_pcm hard
ok
error EINVAL snd_pcm
ok
Module                  Size  Used by
snd_pcm               143360  0
snd                   114688  1 snd_pcm
snd_pcm 143360 0 - Live 0x0000000000000000
snd 114688 1 snd_pcm, Live 0x0000000000000000
name:           snd_pcm
size:           143360
depends:        snd
parm:           debug:bool
ok
";

/// Whether a session ends with this answer or, if an allocation is refused, says so after a beginning of it.
fn is_answered_or_out_of_memory(alloc: Global, input: &[u8], wanted: &[u8]) -> bool {
    let mut reader = FromRead::new(input);
    let mut output = FromWrite::new(Narrow::new(1024, false));
    match serve(alloc, 1, &mut reader, &mut output) {
        Ok(()) => output.writer.text() == wanted,
        Err(ServeFault::Setup(fault)) => {
            matches!(fault.code, SetupCode::Memory) && output.writer.text().is_empty()
        }
        Err(ServeFault::Run(fault)) => {
            matches!(fault, RunFault::Memory) && wanted.starts_with(output.writer.text())
        }
        Err(ServeFault::Memory) => output.writer.text().is_empty(),
    }
}

/// Sessions with their answers.
static SESSIONS: [(&[u8], &[u8]); 3] = [
    (FIRST_RUN, FIRST_ANSWER),
    (CARD_RUN, CARD_ANSWER),
    (LONG_RUN, LONG_ANSWER_TEXT),
];

#[test]
fn memory_runs_out_in_sessions(rt: HostRuntime) {
    for (input, wanted) in &SESSIONS {
        assert!(rt; is_answered_or_out_of_memory(rt.alloc(), input, wanted));
    }
}

/// How many modules the setup of an input has.
fn modules_in(alloc: Global, input: &[u8]) -> Result<usize, ServeFault> {
    let mut reader = FromRead::new(input);
    let buffer = Buffer::new(alloc)?;
    let mut lines = Lines::new(alloc, buffer, &mut reader, 9);
    Ok(read_setup(alloc, &mut lines)?.catalogue().len())
}

#[test]
fn a_setup_of_two_modules(rt: HostRuntime) {
    assert!(rt; modules_in(rt.alloc(), LONG_RUN) == Ok(2));
}

/// Whether these are the two lines and no other.
fn are_both<R: Source>(lines: &mut Lines<'_, R>) -> Result<bool, LineFault>
    requires { R.has_failed lines.old.reader.now ≡ false }
{
    let is_first = lines.next_line()? && lines.line() == b"insmod snd".as_slice();
    let is_last = lines.next_line()? && lines.line() == b"query".as_slice();
    Ok(is_first && is_last && !lines.next_line()?)
}

#[test]
fn lines_of_a_text(rt: HostRuntime) -> Result<(), Fail> {
    let mut reader = FromRead::new(b"insmod snd\nquery".as_slice());
    let buffer = Buffer::new(rt.alloc())?;
    let mut lines = Lines::new(rt.alloc(), buffer, &mut reader, 9);
    assert!(rt; are_both(&mut lines) == Ok(true));
    Ok(())
}

/// A session of 16,777,216 reads takes too long for a test. So this shows only what the program would say of it.
#[test]
fn the_text_of_a_turn_limit(rt: HostRuntime) -> Result<(), Fail> {
    let setup = SetupFault {
        code: SetupCode::Turns,
        line: None,
    };
    let said = format!(in rt.alloc();
        "{}, {}",
        ServeFault::Setup(setup),
        ServeFault::Run(RunFault::Turns)
    )?;
    assert!(rt; said.as_str() == "turn limit, turn limit");
    Ok(())
}
