//! What a session line asks for.
ghost use Rattle.std.specs.Prelude.{◌≡◌, IfOk, option_map};
ghost use Rattle.text_parts.specs.Text.{texts_of};
ghost use Rattle.modprobe.specs.Commands.{listing_of, plain_request_of, request_of, worker_request_of};
ghost use Rattle.modprobe.specs.Commands.{with_name, with_worker, with_removal, by_second, by_words};
ghost use Rattle.modprobe.specs.ForProofs.{request_from, command_from};

use std::alloc::{AllocError, Global};
use text_parts::{Name, number_within};

/// The largest number of 10 digits.
const LARGEST_WORKER: u64 = 9_999_999_999;

/// What a worker does with a reference.
#[derive(Clone, Copy, Drop)]
pub(crate) enum Reference {
    /// It takes one.
    Get,
    /// It puts one back.
    Put,
}

/// What is done to one module of the catalogue.
#[derive(Clone, Copy, Drop)]
pub(crate) enum Action<'a> {
    /// The module is loaded with these words.
    Insmod(&'a [&'a [u8]]),
    Rmmod,
    Drain,
    Query,
    /// This worker takes or puts back a reference.
    Refer(Reference, u64),
}

/// What is asked for by a name.
#[derive(Clone, Copy, Drop)]
pub(crate) enum Request<'a> {
    Act(Action<'a>),
    Modinfo,
    Plan,
    /// The modules of the name are loaded with their dependencies, and its own with these words.
    Modprobe(&'a [&'a [u8]]),
    ModprobeRemove,
}

/// What a session line asks for.
#[derive(Drop)]
pub(crate) enum Command<'a> {
    /// The line has no word, or is a comment.
    Nothing,
    /// The line is no command; this is its first word.
    Malformed(&'a [u8]),
    ByName(Name, Request<'a>),
    Lsmod,
    Proc,
}

fn listing_of<'a>(first: &'a [u8]) -> Command<'a>
    ensures { command_from result ≡ listing_of first.now }
{
    if first == b"lsmod".as_slice() {
        Command::Lsmod
    } else if first == b"proc".as_slice() {
        Command::Proc
    } else {
        Command::Malformed(first)
    }
}

fn plain_request_of<'a>(first: &[u8]) -> Option<Request<'a>>
    ensures { option_map request_from result ≡ plain_request_of first.now }
{
    if first == b"rmmod".as_slice() {
        Some(Request::Act(Action::Rmmod))
    } else if first == b"drain".as_slice() {
        Some(Request::Act(Action::Drain))
    } else if first == b"query".as_slice() {
        Some(Request::Act(Action::Query))
    } else if first == b"modinfo".as_slice() {
        Some(Request::Modinfo)
    } else if first == b"plan".as_slice() {
        Some(Request::Plan)
    } else {
        None
    }
}

fn request_of<'a>(first: &[u8], words: &'a [&'a [u8]]) -> Option<Request<'a>>
    ensures { option_map request_from result ≡ request_of first.now (texts_of words.entry.now) }
{
    if first == b"insmod".as_slice() {
        return Some(Request::Act(Action::Insmod(words)));
    }
    if first == b"modprobe".as_slice() {
        return Some(Request::Modprobe(words));
    }
    match words {
        [] => plain_request_of(first),
        _ => None,
    }
}

fn worker_request_of<'a>(first: &[u8], worker: u64) -> Option<Request<'a>>
    ensures { option_map request_from result ≡ worker_request_of first.now worker }
{
    if first == b"get".as_slice() {
        Some(Request::Act(Action::Refer(Reference::Get, worker)))
    } else if first == b"put".as_slice() {
        Some(Request::Act(Action::Refer(Reference::Put, worker)))
    } else {
        None
    }
}

fn with_name<'a>(
    alloc: Global,
    first: &'a [u8],
    name: &[u8],
    request: Option<Request<'a>>,
) -> Result<Command<'a>, AllocError>
    ensures { IfOk result (λ command. command_from command ≡ with_name first.entry.now name.now (option_map request_from request.entry)) }
{
    let Some(request) = request else {
        return Ok(Command::Malformed(first));
    };
    if name.first() == Some(&b'-') {
        return Ok(Command::Malformed(first));
    }
    Ok(Command::ByName(Name::new(alloc, name)?, request))
}

fn with_worker<'a>(
    alloc: Global,
    first: &'a [u8],
    worker: Option<u64>,
    rest: &[&[u8]],
) -> Result<Command<'a>, AllocError>
    ensures { IfOk result (λ command. command_from command ≡ with_worker first.entry.now worker (texts_of rest.now)) }
{
    match (worker, rest) {
        (Some(worker), [name]) => with_name(alloc, first, *name, worker_request_of(first, worker)),
        _ => Ok(Command::Malformed(first)),
    }
}

fn with_removal<'a>(
    alloc: Global,
    first: &'a [u8],
    rest: &[&[u8]],
) -> Result<Command<'a>, AllocError>
    ensures { IfOk result (λ command. command_from command ≡ with_removal first.entry.now (texts_of rest.now)) }
{
    match rest {
        [name] => with_name(alloc, first, *name, Some(Request::ModprobeRemove)),
        _ => Ok(Command::Malformed(first)),
    }
}

fn by_second<'a>(
    alloc: Global,
    first: &'a [u8],
    second: &'a [u8],
    rest: &'a [&'a [u8]],
) -> Result<Command<'a>, AllocError>
    ensures { IfOk result (λ command. command_from command ≡ by_second first.entry.now second.entry.now (texts_of rest.entry.now)) }
{
    if first == b"get".as_slice() || first == b"put".as_slice() {
        return with_worker(alloc, first, number_within(LARGEST_WORKER, second), rest);
    }
    if first == b"modprobe".as_slice() && second == b"-r".as_slice() {
        return with_removal(alloc, first, rest);
    }
    with_name(alloc, first, second, request_of(first, rest))
}

/// What the words of a line ask for.
pub(crate) fn parse<'a>(alloc: Global, words: &'a [&'a [u8]]) -> Result<Command<'a>, AllocError>
    ensures { IfOk result (λ command. command_from command ≡ by_words (texts_of words.entry.now)) }
{
    match words {
        [] => Ok(Command::Nothing),
        [first] => Ok(listing_of(*first)),
        [first, second, rest @ ..] => by_second(alloc, *first, *second, rest),
    }
}
