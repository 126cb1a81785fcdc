//! The lines of an input, with their numbers.
ghost use Rattle.std.specs.Prelude.{◌≡◌, IfOk};
ghost use Rattle.text_parts.specs.Text.{ended, cut_lines};
ghost use Rattle.workload_drive.specs.Statements.{with_number, numbered, is_ignored};
ghost use Rattle.workload_drive.specs.ForProofs.{line_in, lines_in};

use memchr::memchr;
use std::alloc::{AllocError, Global};
use text_parts::{has_word, is_comment};

/// A line: its number, from 1, its text, and the bytes that end it.
#[derive(Clone, Copy, Drop)]
pub(crate) struct Line<'a> {
    pub(crate) number: usize,
    pub(crate) text: &'a [u8],
    pub(crate) ending: &'a [u8],
}

/// The line of a part before a line feed.
fn ended<'a>(number: usize, part: &'a [u8]) -> Line<'a>
    ensures { line_in result ≡ with_number number (ended part.now) }
{
    let (text, ending): (&[u8], &[u8]) = match part {
        [text @ .., b'\r'] => (text, b"\r\n"),
        _ => (part, b"\n"),
    };
    Line {
        number,
        text,
        ending,
    }
}

/// The lines of an input, numbered from 1.
pub(crate) fn cut_lines<'a>(alloc: Global, input: &'a [u8]) -> Result<Vec<Line<'a>>, AllocError>
    ensures { IfOk result (λ lines. lines_in lines.items ≡ numbered 1 (cut_lines input.now)) }
{
    let mut lines = Vec::new(alloc);
    let mut rest = input;
    while let Some(end) = memchr(b'\n', rest) {
        let (part, more) = rest.split_at(end);
        lines.push(ended(lines.len() + 1, part))?;
        rest = &more[1..];
    }
    if !rest.is_empty() {
        let number = lines.len() + 1;
        lines.push(Line {
            number,
            text: rest,
            ending: b"",
        })?;
    }
    Ok(lines)
}

/// Whether a line says nothing: it has no word, or its first byte is `#`.
#[tactic(auto, using(crate::proofs::LineLemmas::no_word))]
pub(crate) fn is_ignored(text: &[u8]) -> bool
    ensures { result ≡ is_ignored text.now }
{
    is_comment(text) || !has_word(text)
}
