//! Lines of a text, joined where a backslash stands before a line's end.
ghost use Rattle.std.specs.Prelude.{◌≡◌, ◌∷◌, [], IfOk, MatchOption};
ghost use Rattle.kmod_conf.specs.Lines.{wrapped_lines};
ghost use Rattle.kmod_conf.specs.Wrapping.{wrapped};

use kmod_version::Kmod;
use std::alloc::AllocError;
use std::marker::Model;

/// The numbers of the first and of the last of the lines that are joined in one.
#[derive(Clone, Copy)]
pub(crate) struct Numbers {
    pub(crate) first: usize,
    pub(crate) last: usize,
}

/// The lines of a text that are left.
#[derive(Drop)]
pub(crate) struct WrappedLines<'a> {
    kmod: Kmod,
    rest: &'a [u8],
    number: usize,
}

impl<'a> Model for WrappedLines<'a> {
    ghost use Rattle.std.specs.Prelude.{List, ◌+◌, ◌<◌, ◌^◌, length};
    ghost use Rattle.kmod_conf.specs.Lines.{Wrapped, lines_at};

    ghost Value = { List Wrapped };

    ghost view = { λ w. lines_at w.kmod w.number w.rest.now };

    ghost invariant = { λ w. w.number + length w.rest.now < 2 ^ 64 };
}

impl<'a> WrappedLines<'a> {
    pub(crate) fn new(kmod: Kmod, text: &'a [u8]) -> WrappedLines<'a>
        ensures { result ≡ wrapped_lines kmod text.now }
    {
        WrappedLines {
            kmod,
            rest: text,
            number: 1,
        }
    }

    /// Puts the next line into `line`, and answers its numbers.
    pub(crate) fn next_line(&mut self, line: &mut Vec<u8>) -> Result<Option<Numbers>, AllocError>
        ensures { IfOk result (λ found. MatchOption found
            (self.old ≡ [])
            (λ numbers. self.old ≡ wrapped numbers line.new.items ∷ self.new)) }
    {
        line.clear();
        let first = self.number;
        let mut is_escaped = false;
        'bytes: while let Some((byte, later)) = self.rest.split_first() {
            self.rest = later;
            if *byte == b'\n' {
                let last = self.number;
                self.number += 1;
                if !is_escaped {
                    return Ok(Some(Numbers { first, last }));
                }
                is_escaped = false;
            } else if *byte == b'\\' && !is_escaped {
                is_escaped = true;
            } else {
                line.push(*byte)?;
                is_escaped = false;
            }
        }
        if is_escaped && self.kmod.reads_end_as_byte() {
            line.push(255)?;
        }
        let last = self.number;
        Ok(if line.is_empty() {
            None
        } else {
            Some(Numbers { first, last })
        })
    }
}
