//! The soft items of a softdep line.
ghost use Rattle.std.specs.Prelude.{◌≡◌, if◌then◌else◌, IfOk, true, false, Some, None};
ghost use Rattle.std.specs.Str.{bytes_eq};
ghost use Rattle.text_parts.specs.Text.{texts_of};
ghost use Rattle.modprobe_conf.specs.Configuration.{soft_items, softdep_items};

use std::alloc::{AllocError, Global};
use std::marker::Model;
use text_parts::Name;

/// What a softdep line has loaded before and after its module, as far as they can be loaded (modprobe.d(5)).
#[derive(Drop)]
pub struct Softdep {
    pre: Vec<Name>,
    post: Vec<Name>,
}

impl Model for Softdep {
    ghost use Rattle.modprobe_conf.specs.Configuration.{SoftItems};

    ghost Value = { SoftItems };

    ghost view = { λ s. record { pre = s.pre.items; post = s.post.items } };
}

/// Whether the word is one of the two marks, and then whether names after it count.
fn mark_at(word: &[u8], mark: &[u8], other: &[u8]) -> Option<bool>
    ensures { result
        ≡ (if bytes_eq word.now mark.now then Some true else (if bytes_eq word.now other.now then Some false else None)) }
{
    if word == mark {
        return Some(true);
    }
    if word == other { Some(false) } else { None }
}

/// The words after one mark, up to the other, as names.
fn names_behind(
    alloc: Global,
    mark: &[u8],
    other: &[u8],
    words: &[&[u8]],
) -> Result<Vec<Name>, AllocError>
    ensures { IfOk result (λ names. names.items
        ≡ softdep_items mark.now other.now false (texts_of words.now)) }
{
    let mut names = Vec::new(alloc);
    let mut within = false;
    for word in words {
        if let Some(counts) = mark_at(word, mark, other) {
            within = counts;
        } else if within {
            names.push(Name::new(alloc, word)?)?;
        }
    }
    Ok(names)
}

impl Softdep {
    pub(crate) fn read(alloc: Global, words: &[&[u8]]) -> Result<Softdep, AllocError>
        ensures { IfOk result (λ softdep. softdep ≡ soft_items (texts_of words.now)) }
    {
        let pre = names_behind(alloc, b"pre:", b"post:", words)?;
        let post = names_behind(alloc, b"post:", b"pre:", words)?;
        Ok(Softdep { pre, post })
    }

    /// The modules that are loaded before, in the order of the line.
    pub fn pre(&self) -> &[Name]
        ensures { result.now ≡ self.now.pre }
    {
        &self.pre
    }

    /// The modules that are loaded after, in the order of the line.
    pub fn post(&self) -> &[Name]
        ensures { result.now ≡ self.now.post }
    {
        &self.post
    }
}
