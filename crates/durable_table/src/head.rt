//! The first line of a journal.
ghost use Rattle.std.specs.Prelude.{◌≡◌, position, IfOk};
ghost use Rattle.std.specs.List.{before_first, starts_with};
ghost use Rattle.line_journal.specs.Lines.{bytes_of};
ghost use Rattle.durable_table.specs.Commands.{title, head, named, no_name, is_space, is_word, are_one, are_two_words, is_head, is_of, begins_with_head, setup_named};

use std::alloc::{AllocError, Global};

/// How the first line of a journal of this version begins.
const TITLE: &[u8] = b"gourzhiel journal 2 ";

/// What stands for the name of a setup where none is named. A journal of no name is of any setup, and so is any journal for who
/// asks for none.
pub const NO_NAME: &[u8] = b"-";

/// What stands behind the name of a setup.
const NO_BOOT: &[u8] = b" -";

fn is_word(text: &[u8]) -> bool
    ensures { result ≡ is_word text.now }
{
    !text.is_empty() && !text.contains(&b' ')
}

fn space_at(text: &[u8]) -> Option<usize>
    ensures { result ≡ position is_space text.now }
{
    text.iter().position(|byte| *byte == b' ')
}

/// Whether these are two words, and a space between them.
#[tactic(auto, using(crate::proofs::CommandLemmas::space_at, crate::proofs::CommandLemmas::no_space))]
fn are_two_words(text: &[u8]) -> bool
    ensures { result ≡ are_two_words text.now }
{
    match space_at(text) {
        Some(at) => is_word(&text[..at]) && is_word(&text[at + 1..]),
        None => false,
    }
}

/// Whether the line is the first one of a journal: two words stand behind its format and version. What they are is not asked.
#[tactic(auto, unfolding(crate::specs::Commands::title))]
fn is_head(line: &[u8]) -> bool
    ensures { result ≡ is_head line.now }
{
    line.starts_with(TITLE) && are_two_words(&line[TITLE.len()..])
}

/// Whether the first of these lines is the head of a journal.
#[tactic(auto, using(crate::proofs::CommandLemmas::begins_by_first, crate::proofs::CommandLemmas::begins_not))]
pub(crate) fn has_head(lines: &[Vec<u8>]) -> bool
    ensures { result ≡ begins_with_head (bytes_of lines.now) }
{
    !lines.is_empty() && is_head(&lines[0])
}

/// The first word of a text, up to its first space.
#[tactic(auto, using(crate::proofs::CommandLemmas::space_at, crate::proofs::CommandLemmas::all_before))]
fn first_word(text: &[u8]) -> &[u8]
    ensures { result.now ≡ before_first is_space text.now }
{
    match space_at(text) {
        Some(at) => &text[..at],
        None => text,
    }
}

/// Which setup a first line names.
fn setup_named(line: &[u8]) -> &[u8]
    ensures { result.now ≡ setup_named line.now }
{
    if line.len() < TITLE.len() {
        return b"";
    }
    first_word(&line[TITLE.len()..])
}

/// Whether two names are of one setup, as far as they tell.
#[tactic(auto, unfolding(crate::specs::Commands::no_name))]
fn are_one(name: &[u8], other: &[u8]) -> bool
    ensures { result ≡ are_one name.now other.now }
{
    name == other || name == NO_NAME || other == NO_NAME
}

/// Whether a journal of these lines is of the setup of this name, as far as its first line tells.
#[tactic(auto, using(crate::proofs::CommandLemmas::of_by_first, crate::proofs::CommandLemmas::of_none))]
pub(crate) fn is_of(name: &[u8], lines: &[Vec<u8>]) -> bool
    ensures { result ≡ is_of name.now (bytes_of lines.now) }
{
    !lines.is_empty() && are_one(name, setup_named(&lines[0]))
}

/// The name of a setup as it stands on a first line: one that is no word of a line is none.
#[tactic(auto, unfolding(crate::specs::Commands::no_name))]
fn named(name: &[u8]) -> &[u8]
    ensures { result.now ≡ named name.now }
{
    if is_word(name) && !name.contains(&b'\n') {
        name
    } else {
        NO_NAME
    }
}

/// The first line of a new journal of the setup of this name.
#[tactic(auto, unfolding(crate::specs::Commands::title))]
pub(crate) fn head_line(alloc: Global, name: &[u8]) -> Result<Vec<u8>, AllocError>
    ensures { IfOk result (λ line. line.items ≡ head name.now) }
{
    let mut line = Vec::from_slice(alloc, TITLE)?;
    line.extend_from_slice(named(name))?;
    line.extend_from_slice(NO_BOOT)?;
    Ok(line)
}
