//! An alias: a pattern, and the module that it stands for.
ghost use Rattle.std.specs.Prelude.{◌≡◌, IfOk};
ghost use Rattle.std.specs.Result.{result_ok};
ghost use Rattle.alias_match.specs.Aliases.{alias_of};
ghost use Rattle.alias_match.specs.Reading.{pattern_of};
ghost use Rattle.text_parts.specs.Text.{texts_of};

use crate::pattern::Pattern;
use crate::read::PatternError;
use std::alloc::{AllocError, Global};
use text_parts::{Name, is_same};

/// A pattern, and the module that a text that it matches stands for.
#[derive(Drop)]
pub struct Alias {
    pub pattern: Pattern,
    pub target: Name,
}

/// The pattern that the text is, None if it is none.
fn read_pattern(alloc: Global, text: &[u8]) -> Result<Option<Pattern>, AllocError>
    ensures { IfOk result (λ pattern. pattern ≡ result_ok (pattern_of text.now)) }
{
    match Pattern::read(alloc, text) {
        Ok(pattern) => Ok(Some(pattern)),
        Err(PatternError::Memory) => Err(AllocError),
        Err(PatternError::Unclosed) => Ok(None),
        Err(PatternError::Class) => Ok(None),
        Err(PatternError::Backslash) => Ok(None),
    }
}

impl Alias {
    /// The alias that the words of a line are: `alias`, a pattern and a name. Words after these have no effect.
    /// None if the first word is another, there are fewer, or the pattern cannot be read.
    pub fn read(alloc: Global, words: &[&[u8]]) -> Result<Option<Alias>, AllocError>
        ensures { IfOk result (λ alias. alias ≡ alias_of (texts_of words.now)) }
    {
        let [word, pattern, target, ..] = words else {
            return Ok(None);
        };
        if !is_same(word, b"alias") {
            return Ok(None);
        }
        let Some(pattern) = read_pattern(alloc, pattern)? else {
            return Ok(None);
        };
        let target = Name::new(alloc, target)?;
        Ok(Some(Alias { pattern, target }))
    }
}
