//! Lines of a text, joined where a backslash ends one.
ghost use Rattle.std.specs.Prelude.{◌≡◌, ◌∷◌, ◌-◌, [], length, take, IfOk, MatchOption, true, false};
ghost use Rattle.std.specs.Str.Lines.{lines};
ghost use Rattle.modprobe_conf.specs.Configuration.{ends_with_backslash, joined_lines};
ghost use Rattle.modprobe_conf.specs.Joined.{joined_text};

use bstr::Lines;
use std::alloc::AllocError;
use std::marker::Model;
use text_parts::whole_lines;

/// Where a joined line stands: in the text, if it is one line, or else in a buffer.
#[derive(Drop)]
pub enum Joined<'a> {
    Whole(&'a [u8]),
    Several,
}

impl<'a> Joined<'a> {
    /// The joined line. If it is of several lines, this is the buffer that `next_line` put it into.
    pub fn text<'b>(self, buffer: &'b [u8]) -> &'b [u8]
    where
        'a: 'b,
        ensures { result.now ≡ joined_text self.entry buffer.entry.now }
    {
        match self {
            Joined::Whole(line) => line,
            Joined::Several => buffer,
        }
    }
}

/// The joined lines of a text that are left, each with the number of its first line.
#[derive(Drop)]
pub struct JoinedLines<'a> {
    lines: Lines<'a>,
    number: usize,
}

impl<'a> Model for JoinedLines<'a> {
    ghost use Rattle.std.specs.Prelude.{ℕ, List, ◌+◌, ◌<◌, ◌^◌, length};
    ghost use Rattle.modprobe_conf.specs.Configuration.{joined_lines};

    ghost Value = { List (ℕ × List ℕ) };

    ghost view = { λ joined. joined_lines joined.number joined.lines };

    ghost invariant = { λ joined. joined.number + length joined.lines < 2 ^ 64 };
}

/// The line without the backslash at its end, if it has one.
fn before_backslash(line: &[u8]) -> Option<&[u8]>
    ensures { MatchOption result
        (ends_with_backslash line.entry.now ≡ false)
        (λ front. (ends_with_backslash line.entry.now ≡ true)
        × (front.now ≡ take (length line.entry.now - 1) line.entry.now)) }
{
    match line.split_last() {
        Some((last, front)) if *last == b'\\' => Some(front),
        _ => None,
    }
}

impl<'a> JoinedLines<'a> {
    /// The joined lines of a text, of which the first has the number 1.
    pub fn new(text: &'a [u8]) -> JoinedLines<'a>
        ensures { result ≡ joined_lines 1 (lines text.now) }
    {
        JoinedLines {
            lines: whole_lines(text),
            number: 1,
        }
    }

    /// The next joined line with its number, None at the end. The buffer is emptied, and one of several lines is put into
    /// it. It fails only if memory runs out.
    pub fn next_line(
        &mut self,
        buffer: &mut Vec<u8>,
    ) -> Result<Option<(usize, Joined<'a>)>, AllocError>
        ensures { IfOk result (λ found. MatchOption found
            (self.old ≡ [])
            (λ line. self.old ≡ (line.0, joined_text line.1 buffer.new.items) ∷ self.new)) }
    {
        buffer.clear();
        let first = self.number;
        let mut is_begun = false;
        'pieces: while let Some(piece) = self.lines.next() {
            self.number += 1;
            let Some(front) = before_backslash(piece) else {
                if !is_begun {
                    return Ok(Some((first, Joined::Whole(piece))));
                }
                buffer.extend_from_slice(piece)?;
                return Ok(Some((first, Joined::Several)));
            };
            buffer.extend_from_slice(front)?;
            is_begun = true;
        }
        Ok(if is_begun {
            Some((first, Joined::Several))
        } else {
            None
        })
    }
}
