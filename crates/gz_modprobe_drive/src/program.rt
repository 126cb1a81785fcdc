//! The program over any words, files and streams.
ghost use Rattle.std.specs.Prelude.{◌≡◌, ◌≤◌, ◌++◌, IfOk, OnOk};
ghost use Rattle.text_parts.specs.Text.{texts_of};
ghost use Rattle.modprobe_words.specs.Asked.{asked_of, text_of};
ghost use Rattle.modprobe_words.specs.Variable.{bytes_of};
ghost use Rattle.gz_modprobe_drive.specs.Ends.{IsDone, IsEndOf, given, is_root_empty, wish_by, worst_of, worst_status};
ghost use Rattle.gz_modprobe_drive.specs.Outputs.{IsOutput, IsOutputFor, IsOutputOf};

use crate::ended::end_words;
use crate::job::{Job, job_of};
use crate::refusals::tell_refusal;
use crate::regular::Regular;
use crate::run::read_and_perform;
use modprobe_files::{Disk, Host};
use modprobe_words::{
    Asked, Messages, Switches, Wish, first_ending, read_words, tell_line, variable_words,
};
use std::alloc::{AllocError, Global};
use std::env::Env;
use std::io::Write;
use std::rt::Files;

fn wish_asked(asked: &Asked<'_>) -> Wish
    ensures { result ≡ wish_by (asked_of asked.now) }
{
    asked.switches.wish(!asked.words.is_empty())
}

/// Whether it is told why an answer is as it is. A look at the configuration wants it, for the files that are hidden, and so
/// does what leads to names, which ends otherwise if not all was read.
fn explains(job: Job<'_>, switches: Switches) -> bool {
    !matches!(job, Job::Answer(_)) || switches.explain.is_some()
}

/// The files below a root, or all if it is empty.
fn files_below<'a, R: Files + Env + AllocGlobal>(rt: &'a R, root: &'a [u8]) -> Regular<'a, R> {
    Regular {
        disk: Disk { rt, root },
    }
}

/// Does what is asked, unless that is refused. Returns the status.
fn perform_asked<R: Files + Env + AllocGlobal, O: Write, E: Write>(
    rt: &R,
    asked: &Asked<'_>,
    output: &mut O,
    errors: &mut E,
) -> Result<u8, AllocError>
    ensures status { IfOk result (λ status. status ≤ worst_of (asked_of asked.now)) }
    ensures well { IfOk result (λ status. status ≡ 0 → IsDone (asked_of asked.now) (O.contents output.old) (O.contents output.new)) }
    ensures written { IsOutput (asked_of asked.now) (O.contents output.old) (O.contents output.new) }
{
    let wish = wish_asked(asked);
    let Some(job) = job_of(wish, asked.switches, &asked.words) else {
        tell_refusal(wish, errors);
        return Ok(1);
    };
    let root = asked.root.unwrap_or(b"");
    let regular = files_below(rt, root);
    let unrooted = files_below(rt, &root[..0]);
    let compared = files_below(rt, asked.other.root.unwrap_or(root));
    let (host, beside) = (Host { system: &regular }, Host { system: &unrooted });
    let other = Host { system: &compared };
    let mut messages = Messages {
        errors,
        program: b"gz-modprobe",
        verbosity: asked.switches.verbosity,
        explains: explains(job, asked.switches),
    };
    read_and_perform(&host, &beside, &other, asked, job, output, &mut messages)
}

/// Whether `--root` has an empty value, as where a script's variable is unset. It is not to stand for the machine itself.
fn is_root_empty(root: Option<&[u8]>) -> bool
    ensures { result ≡ is_root_empty (text_of root.entry) }
{
    match root {
        Some(root) => root.is_empty(),
        None => false,
    }
}

fn push_words<'a>(all: &mut Vec<&'a [u8]>, words: &'a [Vec<u8>]) -> Result<(), AllocError>
    ensures { OnOk result (texts_of all.new.items ≡ texts_of all.old.items ++ bytes_of words.entry.now) }
{
    for word in words {
        all.push(word.as_slice())?;
    }
    Ok(())
}

/// The words of the variable, and those of the command line after them.
fn all_words<'a>(
    alloc: Global,
    own: &'a [Vec<u8>],
    words: &'a [Vec<u8>],
) -> Result<Vec<&'a [u8]>, AllocError>
    ensures { IfOk result (λ all. texts_of all.items ≡ bytes_of own.entry.now ++ bytes_of words.entry.now) }
{
    let mut all = Vec::new(alloc);
    push_words(&mut all, own)?;
    push_words(&mut all, words)?;
    Ok(all)
}

fn run_words<R: Files + Env + AllocGlobal, O: Write, E: Write>(
    rt: &R,
    words: &[&[u8]],
    output: &mut O,
    errors: &mut E,
) -> Result<u8, AllocError>
    ensures status { IfOk result (λ status. status ≤ worst_status (texts_of words.now)) }
    ensures end { IfOk result (IsEndOf (texts_of words.now) (O.contents output.old) (O.contents output.new)) }
    ensures written { IsOutputOf (texts_of words.now) (O.contents output.old) (O.contents output.new) }
{
    let items = read_words(rt.alloc(), words)?;
    if let Some(ending) = first_ending(&items) {
        return Ok(end_words(rt.alloc(), ending, output, errors));
    }
    let asked = Asked::by(rt.alloc(), &items)?;
    if is_root_empty(asked.root) || is_root_empty(asked.other.root) {
        tell_line(errors, b"FATAL: ", b"--root names no folder", b"");
        Ok(1)
    } else {
        perform_asked(rt, &asked, output, errors)
    }
}

fn run<R: Files + Env + AllocGlobal, O: Write, E: Write>(
    rt: &R,
    words: &[Vec<u8>],
    options: Option<&[u8]>,
    output: &mut O,
    errors: &mut E,
) -> Result<u8, AllocError>
    ensures status { IfOk result (λ status. status ≤ worst_status (given (text_of options.entry) (bytes_of words.now))) }
    ensures end { IfOk result (IsEndOf (given (text_of options.entry) (bytes_of words.now)) (O.contents output.old) (O.contents output.new)) }
    ensures written { IsOutputOf (given (text_of options.entry) (bytes_of words.now)) (O.contents output.old) (O.contents output.new) }
{
    let alloc = rt.alloc();
    let own = variable_words(alloc, options.unwrap_or(b""))?;
    let all = all_words(alloc, &own, words)?;
    run_words(rt, &all, output, errors)
}

/// Runs the program on its words, without its own name, and the text of MODPROBE_OPTIONS. It writes the answer to
/// `output`, and messages to `errors`. Returns the exit status: 0, or 1 if something failed or was refused, or a lint notes
/// something, or 2 if a lint, or what leads to names, could not be judged. Nothing is written to `output` if the words or what
/// they wish for are refused; and never more than the answer.
pub fn drive<R: Files + Env + AllocGlobal, O: Write, E: Write>(
    rt: &R,
    words: &[Vec<u8>],
    options: Option<&[u8]>,
    output: &mut O,
    errors: &mut E,
) -> u8
    ensures status { result ≤ worst_status (given (text_of options.entry) (bytes_of words.now)) }
    ensures end { IsEndOf (given (text_of options.entry) (bytes_of words.now)) (O.contents output.old) (O.contents output.new) result }
    ensures written { IsOutputOf (given (text_of options.entry) (bytes_of words.now)) (O.contents output.old) (O.contents output.new) }
{
    match run(rt, words, options, output, errors) {
        Ok(status) => status,
        Err(_) => {
            let _ = errors.write_all(b"gz-modprobe: FATAL: out of memory\n");
            1
        }
    }
}
