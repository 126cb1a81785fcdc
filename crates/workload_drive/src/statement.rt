//! The parts of an input: its catalogue, and the lines after it that say something.
ghost use Rattle.std.specs.Prelude.{◌≡◌, ◌≤◌, IfOk, IfSome, Option};
ghost use Rattle.workload_drive.specs.Statements.{behind_head, text_before, lines_behind, statements, parts_of, from_one, marked, setting_in, setting};
ghost use Rattle.workload_drive.specs.ForProofs.{Reads, lines_in, statements_in, parts_in};
ghost use Rattle.text_parts.specs.Text.{texts_of};

use crate::fault::{LineCode, ScheduleFault};
use crate::lines::{Line, cut_lines, is_ignored};
use dep_index::{Catalogue, read_catalogue};
use std::alloc::{AllocError, Global};
use text_parts::{is_same, number_within, words};

/// The largest number of 10 digits.
pub(crate) const LARGEST: u64 = 9_999_999_999;

/// The most workers and the most threads.
const MOST: u64 = 64;

/// A line that says something: its number, and its words.
#[derive(Drop)]
pub(crate) struct Statement<'a> {
    pub(crate) number: usize,
    pub(crate) words: Vec<&'a [u8]>,
}

/// An input: its catalogue, what it says after it, and the number of the line after its last.
#[derive(Drop)]
pub(crate) struct Parts<'a> {
    pub(crate) catalogue: Catalogue,
    pub(crate) statements: Vec<Statement<'a>>,
    pub(crate) end: usize,
}

/// The lines after `%catalogue`, before which ignored lines alone may stand.
fn behind_head<'l, 'a>(lines: &'l [Line<'a>], end: usize) -> Result<&'l [Line<'a>], ScheduleFault>
    ensures { Reads (behind_head end (lines_in lines.now)) (λ rest. lines_in rest.now) result }
{
    for (i, line) in lines.iter().enumerate() {
        if is_same(line.text, b"%catalogue") {
            return Ok(&lines[i + 1..]);
        }
        if !is_ignored(line.text) {
            return Err(ScheduleFault::at(LineCode::H1, line.number));
        }
    }
    Err(ScheduleFault::at(LineCode::H1, end))
}

/// The text before a section line, each line with its end as it stands.
fn text_before(alloc: Global, section: &[u8], lines: &[Line<'_>]) -> Result<Vec<u8>, AllocError>
    ensures { IfOk result (λ text. text.items ≡ text_before section.now (lines_in lines.now)) }
{
    let mut text = Vec::new(alloc);
    for line in lines {
        if is_same(line.text, section) {
            break;
        }
        text.extend_from_slice(line.text)?;
        text.extend_from_slice(line.ending)?;
    }
    Ok(text)
}

/// The lines after a section line.
fn lines_behind<'l, 'a>(section: &[u8], lines: &'l [Line<'a>]) -> &'l [Line<'a>]
    ensures { lines_in result.now ≡ lines_behind section.now (lines_in lines.now) }
{
    for (i, line) in lines.iter().enumerate() {
        if is_same(line.text, section) {
            return &lines[i + 1..];
        }
    }
    &[]
}

/// The lines that say something.
fn statements<'a>(alloc: Global, lines: &[Line<'a>]) -> Result<Vec<Statement<'a>>, AllocError>
    ensures { IfOk result (λ said. statements_in said.items ≡ statements (lines_in lines.now)) }
{
    let mut said = Vec::new(alloc);
    for line in lines {
        if !is_ignored(line.text) {
            let words = words(alloc, line.text)?;
            said.push(Statement {
                number: line.number,
                words,
            })?;
        }
    }
    Ok(said)
}

/// The parts of an input whose second section begins with this line.
pub(crate) fn read_parts<'a>(
    alloc: Global,
    section: &[u8],
    input: &'a [u8],
) -> Result<Parts<'a>, ScheduleFault>
    ensures { Reads (parts_of section.now input.now) parts_in result }
{
    let lines = cut_lines(alloc, input)?;
    let end = lines.len() + 1;
    let rest = behind_head(&lines, end)?;
    let text = text_before(alloc, section, rest)?;
    let statements = statements(alloc, lines_behind(section, rest))?;
    let catalogue = read_catalogue(alloc, &text)?;
    Ok(Parts {
        catalogue,
        statements,
        end,
    })
}

/// The number, if it is not 0.
pub(crate) fn from_one(number: Option<u64>) -> Option<u64>
    ensures { result ≡ from_one number }
{
    match number {
        Some(n) if n != 0 => Some(n),
        _ => None,
    }
}

/// The number of a word that is a mark and 1 to 10 digits.
pub(crate) fn marked(mark: u8, word: &[u8]) -> Option<u64>
    ensures { result ≡ marked mark word.now }
{
    match word.split_first() {
        Some((first, digits)) if *first == mark => number_within(LARGEST, digits),
        _ => None,
    }
}

/// The number of words `WORD N`, from 1 to 64.
fn setting_in(word: &[u8], words: &[&[u8]]) -> Option<u64>
    ensures value { result ≡ setting_in word.now (texts_of words.now) }
    ensures within { IfSome result (λ n. n ≤ 64) }
{
    match words {
        [first, number] if is_same(first, word) => from_one(number_within(MOST, number)),
        _ => None,
    }
}

/// The number of the first statement, and the later ones.
pub(crate) fn setting<'s, 'a>(
    word: &[u8],
    end: usize,
    statements: &'s [Statement<'a>],
) -> Result<(usize, &'s [Statement<'a>]), ScheduleFault>
    ensures within { IfOk result (λ found. found.0 ≤ 64) }
    ensures value { Reads (setting word.now end (statements_in statements.now)) (λ found. (found.0, statements_in found.1.now)) result }
{
    let Some((said, later)) = statements.split_first() else {
        return Err(ScheduleFault::at(LineCode::H1, end));
    };
    match setting_in(word, &said.words) {
        Some(n) => Ok((n as usize, later)),
        None => Err(ScheduleFault::at(LineCode::H1, said.number)),
    }
}
