//! Lines of modprobe.d that a table reads otherwise than modprobe(8) does.
ghost use Rattle.std.specs.Prelude.{◌≡◌};
ghost use Rattle.std.specs.List.{list_any};
ghost use Rattle.text_parts.specs.Text.{texts_of};
ghost use Rattle.table_folder.specs.Notices.{has_backslash, has_pattern, has_return, is_special, takes_pattern};

use crate::teller::Teller;
use modprobe::Setup;
use modprobe_conf::JoinedLines;
use modprobe_files::TextFile;
use std::alloc::{AllocError, Global};
use std::fmt;
use std::io::Write;
use text_parts::{Name, is_comment, is_same, words};

/// How many lines are told.
const MOST_TOLD: usize = 5;

/// Why a table reads a line otherwise.
#[derive(Clone, Copy, Debug, PartialEq, Eq)]
pub(crate) enum Otherwise {
    /// Its name is a pattern.
    Pattern,
    /// A backslash stands within it.
    Backslash,
    /// It names an alias in the place of a module.
    Alias,
    /// A carriage return stands at its end.
    Return,
}

impl fmt::Display for Otherwise {
    fn fmt<W: fmt::Write>(&self, f: &mut fmt::Formatter<W>) -> fmt::Result {
        f.write_str(match self {
            Otherwise::Pattern =>
                "a name is no pattern for a table, which does not follow this line",
            Otherwise::Backslash => "a table keeps the backslash, which modprobe takes away",
            Otherwise::Alias => "an alias is no module for a table, which passes it over here",
            Otherwise::Return => "a table takes the carriage return away, which modprobe keeps",
        })
    }
}

/// Whether a name is a pattern.
fn is_pattern(name: &[u8]) -> bool
    ensures { result ≡ list_any is_special name.now }
{
    name.iter().any(|byte| matches!(*byte, b'*' | b'?' | b'['))
}

/// Whether the name in such a line is a pattern for modprobe(8).
fn takes_pattern(word: &[u8]) -> bool
    ensures { result ≡ takes_pattern word.now }
{
    is_same(word, b"install")
        || is_same(word, b"remove")
        || is_same(word, b"options")
        || is_same(word, b"softdep")
}

/// Whether the words of a line have a pattern in the place of its name.
#[tactic(auto, using(crate::proofs::NoticeLemmas::few_words))]
fn has_pattern(words: &[&[u8]]) -> bool
    ensures { result ≡ has_pattern (texts_of words.now) }
{
    let [word, name, _, ..] = words else {
        return false;
    };
    takes_pattern(*word) && is_pattern(*name)
}

/// Whether a line has a backslash, once it is joined with those that its end leads to.
fn has_backslash(line: &[u8]) -> bool
    ensures { result ≡ has_backslash line.now }
{
    line.iter().any(|byte| *byte == b'\\')
}

/// Whether a line that is no comment ends with a carriage return.
fn has_return(line: &[u8]) -> bool
    ensures { result ≡ has_return line.now }
{
    line.last() == Some(&b'\r') && !is_comment(line)
}

/// Whether a word is no module's name, and stands for modules by aliases.
fn is_alias(alloc: Global, setup: &Setup, word: &[u8]) -> Result<bool, AllocError> {
    let name = Name::new(alloc, word)?;
    if setup.catalogue().slot(name.as_bytes()).is_some() {
        return Ok(false);
    }
    Ok(setup.find(alloc, word).is_ok())
}

/// Whether the words of a line name an alias where a table looks for a module: an install or an options line, by which an
/// alias is loaded, and what a softdep line has loaded.
fn names_alias(alloc: Global, setup: &Setup, words: &[&[u8]]) -> Result<bool, AllocError> {
    let [word, name, rest @ ..] = words else {
        return Ok(false);
    };
    if rest.is_empty() {
        return Ok(false);
    }
    if is_same(*word, b"install") || is_same(*word, b"options") {
        return is_alias(alloc, setup, *name);
    }
    if !is_same(*word, b"softdep") {
        return Ok(false);
    }
    for named in rest {
        if is_alias(alloc, setup, *named)? {
            return Ok(true);
        }
    }
    Ok(false)
}

/// Why a table reads a line otherwise, if it does.
fn why_otherwise(
    alloc: Global,
    setup: &Setup,
    line: &[u8],
) -> Result<Option<Otherwise>, AllocError> {
    if is_comment(line) {
        return Ok(None);
    }
    let words = words(alloc, line)?;
    if has_pattern(&words) {
        Ok(Some(Otherwise::Pattern))
    } else if has_backslash(line) {
        Ok(Some(Otherwise::Backslash))
    } else if names_alias(alloc, setup, &words)? {
        Ok(Some(Otherwise::Alias))
    } else {
        Ok(None)
    }
}

/// Tells the joined lines of a file that are read otherwise, as long as not enough are told. Returns how many there were with
/// those before.
fn tell_joined<E: Write>(
    alloc: Global,
    setup: &Setup,
    file: &TextFile,
    before: usize,
    teller: &mut Teller<'_, E>,
) -> Result<usize, AllocError> {
    let mut count = before;
    let mut lines = JoinedLines::new(&file.text);
    let mut buffer = Vec::new(alloc);
    'lines: while let Some((number, line)) = lines.next_line(&mut buffer)? {
        let line = line.text(&buffer);
        if let Some(why) = why_otherwise(alloc, setup, line)? {
            if count < MOST_TOLD {
                teller.otherwise(&file.path, number, line, why);
            }
            count = count.saturating_add(1);
        }
    }
    Ok(count)
}

/// Tells the lines of a file that end with a carriage return, in the same way.
fn tell_returns<E: Write>(file: &TextFile, before: usize, teller: &mut Teller<'_, E>) -> usize {
    let mut count = before;
    let lines = file.text.split(|byte| *byte == b'\n');
    for (at, line) in lines.enumerate() {
        if has_return(line) {
            if count < MOST_TOLD {
                teller.otherwise(&file.path, at.saturating_add(1), line, Otherwise::Return);
            }
            count = count.saturating_add(1);
        }
    }
    count
}

/// Whether depmod(8) has written a file of a configuration. Who makes a table did not.
fn is_written(file: &TextFile) -> bool {
    file.path.ends_with(b"/modules.softdep") || file.path.ends_with(b"/modules.weakdep")
}

/// Tells the lines of a configuration that the table of this setup reads otherwise than modprobe(8) does: the first five, and
/// how many more there are.
pub(crate) fn tell_otherwise<E: Write>(
    alloc: Global,
    setup: &Setup,
    files: &[TextFile],
    teller: &mut Teller<'_, E>,
) -> Result<(), AllocError> {
    let mut count = 0usize;
    for file in files {
        if !is_written(file) {
            count = tell_joined(alloc, setup, file, count, teller)?;
            count = tell_returns(file, count, teller);
        }
    }
    teller.more_otherwise(count.saturating_sub(MOST_TOLD));
    Ok(())
}
