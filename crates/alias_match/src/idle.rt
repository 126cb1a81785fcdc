//! The lines of a modules.alias text that have no effect.
ghost use Rattle.std.specs.Prelude.{◌≡◌, ◌++◌, [], map, IfOk, OnOk};
ghost use Rattle.text_parts.specs.Text.{texts_of};
ghost use Rattle.alias_match.specs.Aliases.{alias_of, aliases_of};
ghost use Rattle.alias_match.specs.Idle.{idle_aliases, idle_line, idle_words, why_no_alias};

use crate::alias::Alias;
use std::alloc::{AllocError, Global};
use text_parts::{is_comment, is_same, whole_lines, words};

/// Why a line has no effect.
#[derive(Clone, Copy, Debug, PartialEq, Eq, Drop)]
pub enum NoEffect {
    /// No line begins with its first word.
    UnknownWord,
    /// It has too few words.
    FewWords,
    /// Its pattern cannot be read.
    BadPattern,
}

/// A line without effect: its number, from 1, and why it has none.
#[derive(Clone, Copy, Debug, PartialEq, Eq, Drop)]
pub struct IdleLine {
    pub number: usize,
    pub why: NoEffect,
}

/// Why words that are no alias are none.
fn why_no_alias(words: &[&[u8]]) -> NoEffect
    ensures { result ≡ why_no_alias (texts_of words.now) }
{
    let Some((word, rest)) = words.split_first() else {
        return NoEffect::FewWords;
    };
    if !is_same(word, b"alias") {
        NoEffect::UnknownWord
    } else if rest.len() < 2 {
        NoEffect::FewWords
    } else {
        NoEffect::BadPattern
    }
}

fn add_words(
    alloc: Global,
    idle: &mut Vec<IdleLine>,
    number: usize,
    words: &[&[u8]],
) -> Result<(), AllocError>
    ensures { OnOk result (idle.new.items ≡ idle.old.items ++ idle_words alias_of why_no_alias number (texts_of words.now) []) }
{
    if words.is_empty() || Alias::read(alloc, words)?.is_some() {
        return Ok(());
    }
    let why = why_no_alias(words);
    idle.push(IdleLine { number, why })?;
    Ok(())
}

fn add_line(
    alloc: Global,
    idle: &mut Vec<IdleLine>,
    number: usize,
    line: &[u8],
) -> Result<(), AllocError>
    ensures { OnOk result (idle.new.items ≡ idle.old.items ++ idle_line alias_of why_no_alias (number, line.now) []) }
{
    if is_comment(line) {
        return Ok(());
    }
    let words = words(alloc, line)?;
    add_words(alloc, idle, number, &words)
}

/// The lines of a modules.alias text that have no effect, in their order, and why: those that have a word and are no
/// comment and no alias. Without them the text has the same aliases. It fails only if memory runs out.
pub fn idle_aliases(alloc: Global, text: &[u8]) -> Result<Vec<IdleLine>, AllocError>
    ensures lines { IfOk result (λ idle. idle.items ≡ idle_aliases text.now) }
    ensures skipped { IfOk result (λ idle. map (λ line. line.number) idle.items ≡ (aliases_of text.now).skipped) }
{
    let mut idle = Vec::new(alloc);
    let mut lines = whole_lines(text);
    let mut number = 1usize;
    'lines: while let Some(line) = lines.next() {
        add_line(alloc, &mut idle, number, line)?;
        number += 1;
    }
    Ok(idle)
}
