//! What the words of a program ask for.
ghost use Rattle.std.specs.Prelude.{◌≡◌, true, Ok, Err, IfOk, IfErr, find, option_map};
ghost use Rattle.text_parts.specs.Text.{texts_of};
ghost use Rattle.table_words.specs.Asked.{adopt_of, alone, asked, asked_in, asked_view, check_of, command_of, first_of, holder_in, if_option, is_again, is_stray, job_of, job_view, machine_in, machine_of, made, names_holder, origin_in, origin_of, origin_of_front};
ghost use Rattle.table_words.specs.Options.{front, front_of, options_of, stop_of, text_of};

use crate::fault::{Fault, Stop};
use crate::line::is_line_word;
use crate::options::{Options, is_option};
use crate::step::{Read, read_front};
use text_parts::is_same;

/// A machine whose files a table is made of.
#[derive(Clone, Copy, Debug)]
pub struct Machine<'a> {
    /// The release; without one that of the running kernel.
    pub release: Option<&'a [u8]>,
    /// The folder that is taken for `/`.
    pub root: Option<&'a [u8]>,
    /// The version of kmod as which its files are read.
    pub kmod: Option<&'a [u8]>,
}

/// What a table is made of.
#[derive(Clone, Copy, Debug)]
pub enum Origin<'w, 'a> {
    /// The files of a machine.
    Host(Machine<'a>),
    /// Words that name sections and their files.
    Sections(&'w [&'a [u8]]),
}

/// What is to be done.
#[derive(Clone, Copy, Debug)]
pub enum Job<'w, 'a> {
    /// A table is made. If its folder is not there, it gets this mode.
    Create(Origin<'w, 'a>, u32),
    /// The table gets another setup.
    Renew(Origin<'w, 'a>),
    /// The words are one command, each a word of a line.
    Command(&'w [&'a [u8]]),
    /// The lines of standard input are commands.
    Lines,
    /// The table is brought to a kernel's modules, as this file lists them; `-` is standard input.
    Adopt(&'a [u8]),
    /// The journal is written anew.
    Compact,
    /// It is said what stands in the folder.
    Check,
    /// What is damaged is kept beside the journal and cut off, and it is said what stands in the folder.
    Repair,
}

/// A job on the table of a folder.
#[derive(Clone, Copy, Debug)]
pub struct Asked<'w, 'a> {
    pub folder: &'a [u8],
    /// How many seconds another process is waited for.
    pub wait: u64,
    /// Whether a change is on the disk before its reply is written.
    pub sync: bool,
    pub job: Job<'w, 'a>,
}

/// A job that no word may follow.
fn alone<'w, 'a>(job: Job<'w, 'a>, words: &[&'a [u8]]) -> Result<Job<'w, 'a>, Stop<'a>>
    ensures ok { IfOk result (λ found. alone (job_view job.entry) (texts_of words.entry.now) ≡ Ok (job_view found)) }
    ensures err { IfErr result (λ stop. alone (job_view job.entry) (texts_of words.entry.now) ≡ Err (stop_of stop)) }
{
    match words.first() {
        Some(word) => Err(Stop::Refused(Fault::ExtraWord(*word))),
        None => Ok(job),
    }
}

/// The machine that options name.
fn machine_in<'a>(options: &Options<'a>) -> Machine<'a>
    ensures { machine_of result ≡ machine_in (options_of options.entry.now) }
{
    Machine {
        release: options.release,
        root: options.root,
        kmod: options.kmod,
    }
}

/// What is made of an origin.
#[derive(Clone, Copy, Debug, PartialEq, Eq)]
enum Making {
    Table,
    Setup,
}

impl Making {
    fn job<'w, 'a>(self, origin: Origin<'w, 'a>, mode: u32) -> Job<'w, 'a>
        ensures { job_view result ≡ made self (origin_of origin.entry) mode }
    {
        match self {
            Making::Table => Job::Create(origin, mode),
            Making::Setup => Job::Renew(origin),
        }
    }
}

/// What is made, by options and the words behind them.
fn origin_in<'w, 'a>(
    making: Making,
    options: &Options<'a>,
    words: &'w [&'a [u8]],
) -> Result<Job<'w, 'a>, Stop<'a>>
    ensures ok { IfOk result (λ job. origin_in making (options_of options.entry.now) (texts_of words.entry.now) ≡ Ok (job_view job)) }
    ensures err { IfErr result (λ stop. origin_in making (options_of options.entry.now) (texts_of words.entry.now) ≡ Err (stop_of stop)) }
{
    if options.host {
        let machine = Origin::Host(machine_in(options));
        return alone(making.job(machine, options.mode), words);
    }
    if options.release.is_some() || options.root.is_some() || options.kmod.is_some() {
        return Err(Stop::Refused(Fault::WantsHost));
    }
    if words.is_empty() {
        return Err(Stop::Refused(Fault::NothingToCreate));
    }
    Ok(making.job(Origin::Sections(words), options.mode))
}

/// The job of a command that names an origin, with these words behind it.
fn making_of<'w, 'a>(
    making: Making,
    options: Options<'a>,
    words: &'w [&'a [u8]],
) -> Result<Job<'w, 'a>, Stop<'a>>
    ensures ok { IfOk result (λ job. origin_of_front making (front true (options_of options.entry) (texts_of words.entry.now)) ≡ Ok (job_view job)) }
    ensures err { IfErr result (λ stop. origin_of_front making (front true (options_of options.entry) (texts_of words.entry.now)) ≡ Err (stop_of stop)) }
{
    let read = read_front(true, options, words)?;
    origin_in(making, &read.options, read.rest)
}

/// The first word that cannot stand in a line.
fn stray_word<'a>(words: &[&'a [u8]]) -> Option<&'a [u8]>
    ensures { text_of result ≡ find is_stray (texts_of words.entry.now) }
{
    for word in words {
        if !is_line_word(*word) {
            return Some(*word);
        }
    }
    None
}

/// Whether the next word of a command that begins so is a holder.
fn names_holder(first: &[u8]) -> bool
    ensures { result ≡ names_holder first.now }
{
    is_same(first, b"get")
        || is_same(first, b"put")
        || is_same(first, b"hold")
        || is_same(first, b"release")
        || is_same(first, b"held")
}

/// Whether the word is `--again` of `hold`.
fn is_again(first: &[u8], word: &[u8]) -> bool
    ensures { result ≡ is_again first.now word.now }
{
    is_same(first, b"hold") && is_same(word, b"--again")
}

/// The first of these words.
fn first_of<'a>(words: &[&'a [u8]]) -> Option<&'a [u8]>
    ensures { text_of result ≡ first_of (texts_of words.entry.now) }
{
    match words.first() {
        Some(word) => Some(*word),
        None => None,
    }
}

/// The word in the place of a holder, if the command has one.
fn holder_in<'a>(words: &[&'a [u8]]) -> Option<&'a [u8]>
    ensures { text_of result ≡ holder_in (texts_of words.entry.now) }
{
    let Some((first, later)) = words.split_first() else {
        return None;
    };
    if !names_holder(*first) {
        return None;
    }
    match later.split_first() {
        Some((word, rest)) if is_again(*first, *word) => first_of(rest),
        Some((word, _)) => Some(*word),
        None => None,
    }
}

/// The option that stands in the place of a holder.
fn option_for_holder<'a>(words: &[&'a [u8]]) -> Option<&'a [u8]>
    ensures { text_of result ≡ if_option (holder_in (texts_of words.entry.now)) }
{
    match holder_in(words) {
        Some(word) if is_option(word) => Some(word),
        _ => None,
    }
}

/// One command.
fn command_of<'w, 'a>(words: &'w [&'a [u8]]) -> Result<Job<'w, 'a>, Stop<'a>>
    ensures ok { IfOk result (λ found. command_of (texts_of words.entry.now) (find is_stray (texts_of words.entry.now)) ≡ Ok (job_view found)) }
    ensures err { IfErr result (λ stop. command_of (texts_of words.entry.now) (find is_stray (texts_of words.entry.now)) ≡ Err (stop_of stop)) }
{
    if let Some(stray) = stray_word(words) {
        return Err(Stop::Refused(Fault::BadWord(stray)));
    }
    match option_for_holder(words) {
        Some(word) => Err(Stop::Refused(Fault::BadHolder(word))),
        None => Ok(Job::Command(words)),
    }
}

/// The job of `adopt` with these words behind it.
fn adopt_of<'w, 'a>(words: &[&'a [u8]]) -> Result<Job<'w, 'a>, Stop<'a>>
    ensures ok { IfOk result (λ found. adopt_of (texts_of words.entry.now) ≡ Ok (job_view found)) }
    ensures err { IfErr result (λ stop. adopt_of (texts_of words.entry.now) ≡ Err (stop_of stop)) }
{
    match words.split_first() {
        Some((file, later)) => alone(Job::Adopt(*file), later),
        None => Err(Stop::Refused(Fault::NoFile)),
    }
}

/// The job of `check` with these words behind it.
fn check_of<'w, 'a>(words: &[&'a [u8]]) -> Result<Job<'w, 'a>, Stop<'a>>
    ensures ok { IfOk result (λ found. check_of (texts_of words.entry.now) ≡ Ok (job_view found)) }
    ensures err { IfErr result (λ stop. check_of (texts_of words.entry.now) ≡ Err (stop_of stop)) }
{
    match words.split_first() {
        None => Ok(Job::Check),
        Some((word, later)) if is_same(*word, b"--repair") => alone(Job::Repair, later),
        Some((word, _)) => Err(Stop::Refused(Fault::ExtraWord(*word))),
    }
}

/// The job that words are, behind options.
fn job_of<'w, 'a>(options: Options<'a>, words: &'w [&'a [u8]]) -> Result<Job<'w, 'a>, Stop<'a>>
    ensures ok { IfOk result (λ found. job_of (options_of options.entry) (texts_of words.entry.now) ≡ Ok (job_view found)) }
    ensures err { IfErr result (λ stop. job_of (options_of options.entry) (texts_of words.entry.now) ≡ Err (stop_of stop)) }
{
    let Some((word, later)) = words.split_first() else {
        return Ok(Job::Lines);
    };
    if is_same(*word, b"create") {
        return making_of(Making::Table, options, later);
    }
    if is_same(*word, b"renew") {
        return making_of(Making::Setup, options, later);
    }
    if is_same(*word, b"compact") {
        return alone(Job::Compact, later);
    }
    if is_same(*word, b"check") {
        return check_of(later);
    }
    if is_same(*word, b"adopt") {
        return adopt_of(later);
    }
    command_of(words)
}

/// The job on the table of a folder.
fn asked_in<'w, 'a>(folder: &'a [u8], read: Read<'w, 'a>) -> Result<Asked<'w, 'a>, Stop<'a>>
    ensures ok { IfOk result (λ found. asked_in folder.entry.now (Ok (front_of read.entry)) ≡ Ok (asked_view found)) }
    ensures err { IfErr result (λ stop. asked_in folder.entry.now (Ok (front_of read.entry)) ≡ Err (stop_of stop)) }
{
    let job = job_of(read.options, read.rest)?;
    Ok(Asked {
        folder,
        wait: read.options.wait,
        sync: read.options.sync,
        job,
    })
}

/// What the words of a program, without its own name, ask for; or why they ask for no work. `table` is the folder that
/// the environment names: if it names none the first word that is no option does. Options stand before the command,
/// those of `create` and `renew` behind it too. All that follows is the command's.
pub fn read_words<'w, 'a>(
    table: Option<&'a [u8]>,
    words: &'w [&'a [u8]],
) -> Result<Asked<'w, 'a>, Stop<'a>>
    ensures ok { IfOk result (λ found. asked (text_of table.entry) (texts_of words.entry.now) ≡ Ok (asked_view found)) }
    ensures err { IfErr result (λ stop. asked (text_of table.entry) (texts_of words.entry.now) ≡ Err (stop_of stop)) }
{
    let read = read_front(false, Options::new(), words)?;
    if let Some(folder) = table {
        return asked_in(folder, read);
    }
    let Some((folder, later)) = read.rest.split_first() else {
        return Err(Stop::Refused(Fault::NoFolder));
    };
    asked_in(*folder, read_front(false, read.options, later)?)
}
