//! The lines of a configuration that have no effect.
ghost use Rattle.std.specs.Prelude.{◌≡◌, ◌++◌, [], map, IfOk, OnOk};
ghost use Rattle.text_parts.specs.Text.{texts_of};
ghost use Rattle.alias_match.specs.Idle.{idle_line, idle_words};
ghost use Rattle.modprobe_conf.specs.Configuration.{configuration_of, entry_of};
ghost use Rattle.modprobe_conf.specs.Idle.{idle_settings, is_line_word, why_no_entry};

use crate::entry::Entry;
use crate::joined_lines::JoinedLines;
use alias_match::{IdleLine, NoEffect};
use std::alloc::{AllocError, Global};
use text_parts::{is_comment, is_same, words};

/// Whether a line other than an alias may begin with the word.
fn is_line_word(word: &[u8]) -> bool
    ensures { result ≡ is_line_word word.now }
{
    is_same(word, b"blacklist")
        || is_same(word, b"install")
        || is_same(word, b"remove")
        || is_same(word, b"options")
        || is_same(word, b"softdep")
}

/// Why words that are no entry are none.
fn why_no_entry(words: &[&[u8]]) -> NoEffect
    ensures { result ≡ why_no_entry (texts_of words.now) }
{
    let Some((word, rest)) = words.split_first() else {
        return NoEffect::FewWords;
    };
    if is_same(word, b"alias") {
        if rest.len() < 2 {
            NoEffect::FewWords
        } else {
            NoEffect::BadPattern
        }
    } else if is_line_word(word) {
        NoEffect::FewWords
    } else {
        NoEffect::UnknownWord
    }
}

fn add_words(
    alloc: Global,
    idle: &mut Vec<IdleLine>,
    number: usize,
    words: &[&[u8]],
) -> Result<(), AllocError>
    ensures { OnOk result (idle.new.items ≡ idle.old.items ++ idle_words entry_of why_no_entry number (texts_of words.now) []) }
{
    if words.is_empty() {
        return Ok(());
    }
    if Entry::read(alloc, words)?.is_none() {
        let why = why_no_entry(words);
        idle.push(IdleLine { number, why })?;
    }
    Ok(())
}

fn add_line(
    alloc: Global,
    idle: &mut Vec<IdleLine>,
    number: usize,
    line: &[u8],
) -> Result<(), AllocError>
    ensures { OnOk result (idle.new.items ≡ idle.old.items ++ idle_line entry_of why_no_entry (number, line.now) []) }
{
    if is_comment(line) {
        return Ok(());
    }
    let words = words(alloc, line)?;
    add_words(alloc, idle, number, &words)
}

/// The lines of a configuration that have no effect, in their order, and why: those that have a word, are no comment, and
/// say nothing of any name. A joined line has the number of its first line. A later softdep line of a name is none of
/// these, though it has no effect either. It fails only if memory runs out.
pub fn idle_settings(alloc: Global, text: &[u8]) -> Result<Vec<IdleLine>, AllocError>
    ensures lines { IfOk result (λ idle. idle.items ≡ idle_settings text.now) }
    ensures skipped { IfOk result (λ idle. map (λ line. line.number) idle.items ≡ (configuration_of text.now).skipped) }
{
    let mut idle = Vec::new(alloc);
    let mut lines = JoinedLines::new(text);
    let mut buffer = Vec::new(alloc);
    'lines: while let Some((number, line)) = lines.next_line(&mut buffer)? {
        add_line(alloc, &mut idle, number, line.text(&buffer))?;
    }
    Ok(idle)
}
