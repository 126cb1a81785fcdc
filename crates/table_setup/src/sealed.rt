//! A text with a last line that says how long it is, and its sum.
ghost use Rattle.std.specs.Prelude.{◌≡◌, ◌≢◌, ℕ, ◌==◌, ◌++◌, List, decimal, OnOk, IfNone, IfOk, IfSome, MatchOption};
ghost use Rattle.table_setup.specs.Sealed.{IsSealed, last_line, name_of, sealed};
ghost use Rattle.table_setup.specs.Sums.{adler32};

use crate::sums::adler32;
use itoa::Buffer;
use memchr::memrchr;
use std::alloc::{AllocError, Global};
use text_parts::number_within;

/// A text, and the sum that its last line tells.
#[derive(Clone, Copy, Drop)]
pub struct Sealed<'a> {
    /// All before the last line.
    pub text: &'a [u8],
    /// The sum that was written behind it.
    pub sum: u64,
}

/// What stands behind these bytes, if the text begins with them.
fn behind<'a>(front: &[u8], text: &'a [u8]) -> Option<&'a [u8]>
    ensures { MatchOption result ((rest : List ℕ) → text.entry.now ≢ front.now ++ rest)
        (λ rest. text.entry.now ≡ front.now ++ rest.now) }
{
    text.strip_prefix(front)
}

/// What stands before these bytes, if the text ends with them.
fn cut_end<'a>(text: &'a [u8], end: &[u8]) -> Option<&'a [u8]>
    ensures { MatchOption result ((rest : List ℕ) → text.entry.now ≢ rest ++ end.now)
        (λ rest. text.entry.now ≡ rest.now ++ end.now) }
{
    text.strip_suffix(end)
}

/// The word of the sum on a last line that tells this length.
fn sum_word(line: &[u8], length: usize) -> Option<&[u8]>
    ensures { MatchOption result ((word : List ℕ) → line.entry.now ≢ last_line length word)
        (λ word. line.entry.now ≡ last_line length word.now) }
{
    let mut buffer = Buffer::new();
    let number = behind(b"%end ", line)?;
    let blank = behind(buffer.format(length).as_bytes(), number)?;
    let word = behind(b" ", blank)?;
    cut_end(word, b"\n")
}

impl<'a> Sealed<'a> {
    /// The text of these bytes, if they end with its last line; None if they do not, as if they were cut. It
    /// computes no sum.
    pub fn read(bytes: &'a [u8]) -> Option<Sealed<'a>>
        ensures some { IfSome result (λ found. IsSealed bytes.entry.now found.text.now found.sum) }
        ensures none { IfNone result ((text : List ℕ) (sum : ℕ) → IsSealed bytes.entry.now text sum → ⊥) }
    {
        let at = memrchr(b'%', bytes)?;
        let (text, line) = bytes.split_at(at);
        let word = sum_word(line, text.len())?;
        let sum = number_within(u32::MAX as u64, word)?;
        Some(Sealed { text, sum })
    }

    /// Whether the text has the sum that was written behind it.
    pub fn is_sound(&self) -> bool
        ensures { result ≡ (adler32 self.now.text.now == self.now.sum) }
    {
        adler32(self.text) as u64 == self.sum
    }

    /// The name of the setup: how long the text is, and the sum that was written behind it, with a colon between them. It computes
    /// no sum, and fails only if memory runs out.
    pub fn name(&self, alloc: Global) -> Result<Vec<u8>, AllocError>
        ensures { IfOk result (λ name. name.items ≡ name_of self.now.text.now self.now.sum) }
    {
        let mut name = Vec::new(alloc);
        push_number(&mut name, self.text.len() as u64)?;
        name.push(b':')?;
        push_number(&mut name, self.sum)?;
        Ok(name)
    }
}

/// Adds the decimal digits of a number.
fn push_number(text: &mut Vec<u8>, number: u64) -> Result<(), AllocError>
    ensures { OnOk result (text.new.items ≡ text.old.items ++ decimal number) }
{
    let mut buffer = Buffer::new();
    text.extend_from_slice(buffer.format(number).as_bytes())
}

/// The text with its last line. It fails only if memory runs out.
pub fn seal(text: Vec<u8>) -> Result<Vec<u8>, AllocError>
    ensures { IfOk result (λ bytes. bytes.items ≡ sealed text.items) }
{
    let (length, sum) = (text.len(), adler32(&text));
    let mut bytes = text;
    bytes.extend_from_slice(b"%end ")?;
    push_number(&mut bytes, length as u64)?;
    bytes.push(b' ')?;
    push_number(&mut bytes, sum as u64)?;
    bytes.push(b'\n')?;
    Ok(bytes)
}
