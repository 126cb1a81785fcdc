//! How the texts begin that a pattern matches.
ghost use Rattle.std.specs.Prelude.{◌≡◌, ◌≤◌, ◌↔◌, ◌+◌, length, min, take, IsTrue};
ghost use Rattle.alias_match.specs.Marks.{mark};

use crate::hash_table::{MARK_BYTES, mark, with_digit};
use std::marker::Model;

/// How each text begins that a pattern matches: the number that its first bytes are, and how many they are, at most eight.
#[derive(Clone, Copy)]
pub(crate) struct Front {
    pub number: u64,
    pub count: usize,
}

impl Front {
    /// The front of what begins with these bytes.
    pub fn of(bytes: &[u8]) -> Front
        ensures count { result.count ≡ min 8 (length bytes.now) }
        ensures number { result.number ≡ mark (take result.count bytes.now) }
    {
        let count = MARK_BYTES.min(bytes.len());
        Front {
            number: mark(&bytes[..count]),
            count,
        }
    }
}

/// A text, and the numbers that its first bytes are, from none of them to eight. Contracts see the text.
#[derive(Drop)]
pub(crate) struct NumberedText<'t> {
    bytes: &'t [u8],
    numbers: [u64; MARK_BYTES + 1],
}

impl<'t> Model for NumberedText<'t> {
    ghost use Rattle.std.specs.Prelude.{List, ℕ};
    ghost use Rattle.alias_match.specs.ForProofs.{AreNumbers};

    ghost Value = { List ℕ };

    ghost view = { λ text. text.bytes.now };

    ghost invariant = { λ text. AreNumbers text.numbers 8 text.bytes.now };
}

/// The number of one byte more of a text, if it has one.
pub(crate) fn next_number(number: u64, text: &[u8], count: usize) -> u64
    requires { number ≡ mark (take count text.now) }
    ensures { result ≡ mark (take (count + 1) text.now) }
{
    match text.get(count) {
        Some(byte) => with_digit(number, *byte),
        None => number,
    }
}

impl<'t> NumberedText<'t> {
    pub fn of(bytes: &'t [u8]) -> NumberedText<'t>
        ensures { result ≡ bytes.entry.now }
    {
        let mut numbers = [0u64; MARK_BYTES + 1];
        for count in 0..MARK_BYTES {
            numbers[count + 1] = next_number(numbers[count], bytes, count);
        }
        NumberedText { bytes, numbers }
    }

    /// The text itself.
    #[inline(always)]
    pub fn bytes(&self) -> &'t [u8]
        ensures { result.now ≡ self.now }
    {
        self.bytes
    }

    /// Whether the text begins as the front says.
    #[inline(always)]
    pub fn begins_with(&self, front: Front) -> bool
        requires { front.count ≤ 8 }
        ensures { IsTrue result ↔ (mark (take front.count self.now) ≡ front.number) }
    {
        self.numbers[front.count] == front.number
    }
}
