//! The parameters that words are for.
ghost use Rattle.std.specs.Prelude.{◌≡◌, IfOk, find, position};
ghost use Rattle.std.specs.Option.{option_map};
ghost use Rattle.std.specs.Str.{bytes_eq};
ghost use Rattle.text_parts.specs.Text.{normal_form};
ghost use Rattle.load_plan.specs.Parameters.{is_equals, name_of};

use dep_index::{Param, ParamKind};
use std::alloc::{AllocError, Global};
use text_parts::{Name, is_same};

fn equals_at(word: &[u8]) -> Option<usize>
    ensures { result ≡ position is_equals word.now }
{
    word.iter().position(|byte| *byte == b'=')
}

/// The part of a word before its first `=`, which is the name of a parameter.
fn name_in(word: &[u8]) -> &[u8]
    ensures { result.now ≡ name_of word.entry.now }
{
    match equals_at(word) {
        Some(end) => &word[..end],
        None => word,
    }
}

/// The kind of the parameter that a word is for, if it is one of these.
pub(crate) fn kind_of(
    alloc: Global,
    params: &[Param],
    word: &[u8],
) -> Result<Option<ParamKind>, AllocError>
    ensures { IfOk result (λ kind. kind ≡ option_map (λ param. param.kind)
        (find (λ param. bytes_eq (normal_form (name_of word.now)) param.name) params.now)) }
{
    let name = Name::new(alloc, name_in(word))?;
    let mut named = params.iter();
    let found = named.find(|param| is_same(name.as_bytes(), param.name.as_bytes()));
    Ok(found.map(|param| param.kind))
}
