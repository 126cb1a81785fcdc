//! What a line of a catalogue says, by its form alone.
ghost use Rattle.std.specs.Prelude.{◌≡◌, IfOk, codes, map};
ghost use Rattle.std.specs.List.{list_all};
ghost use Rattle.std.specs.Option.{option_map};
ghost use Rattle.text_parts.specs.Text.{texts_of, is_name, normal_form};
ghost use Rattle.dep_index.specs.Catalogue.{directive_of, begin_of, size_of, end_of, some_symbols, some_names, param_of, scalar_of, kind_of, alone, version_of};
ghost use Rattle.dep_index.specs.Catalogue as spec;
ghost use Rattle.dep_index.specs.Catalogue.Directives.{directive_in};

use crate::catalogue::params::{ParamKind, Scalar};
use crate::catalogue::versions::Version;
use std::alloc::{AllocError, Global};
use text_parts::{Name, is_name, is_same, number_within};

/// What the words of a line say.
#[derive(Drop)]
pub(crate) enum Directive<'w, 'a> {
    Version(Version),
    Module(Name),
    Size(u32),
    Exports(&'w [&'a [u8]]),
    Needs(&'w [&'a [u8]]),
    Softneeds(Vec<Name>),
    Param(Name, ParamKind),
    Permanent,
    End(usize),
}

fn module<'w, 'a>(
    alloc: Global,
    rest: &'w [&'a [u8]],
) -> Result<Option<Directive<'w, 'a>>, AllocError>
    ensures { IfOk result (λ found. option_map directive_in found ≡ begin_of (texts_of rest.now)) }
{
    let [name] = rest else {
        return Ok(None);
    };
    if !is_name(name) {
        return Ok(None);
    }
    Ok(Some(Directive::Module(Name::new(alloc, name)?)))
}

fn size<'w, 'a>(rest: &'w [&'a [u8]]) -> Option<Directive<'w, 'a>>
    ensures { option_map directive_in result ≡ size_of (texts_of rest.now) }
{
    let [word] = rest else {
        return None;
    };
    match number_within(4294967295, word) {
        Some(n) => Some(Directive::Size(n as u32)),
        None => None,
    }
}

fn exports<'w, 'a>(rest: &'w [&'a [u8]]) -> Option<Directive<'w, 'a>>
    ensures { option_map directive_in result ≡ some_symbols spec.exports (texts_of rest.now) }
{
    if rest.is_empty() {
        return None;
    }
    Some(Directive::Exports(rest))
}

fn needs<'w, 'a>(rest: &'w [&'a [u8]]) -> Option<Directive<'w, 'a>>
    ensures { option_map directive_in result ≡ some_symbols spec.needs (texts_of rest.now) }
{
    if rest.is_empty() {
        return None;
    }
    Some(Directive::Needs(rest))
}

fn are_names(words: &[&[u8]]) -> bool
    ensures { result ≡ list_all (λ word. is_name word.now) words.now }
{
    words.iter().all(|word| is_name(word))
}

/// The normal forms of the words.
pub(crate) fn names(alloc: Global, words: &[&[u8]]) -> Result<Vec<Name>, AllocError>
    ensures { IfOk result (λ names. names.items ≡ map normal_form (texts_of words.now)) }
{
    let mut names = Vec::new(alloc);
    for word in words {
        names.push(Name::new(alloc, word)?)?;
    }
    Ok(names)
}

fn softneeds<'w, 'a>(
    alloc: Global,
    rest: &'w [&'a [u8]],
) -> Result<Option<Directive<'w, 'a>>, AllocError>
    ensures { IfOk result (λ found. option_map directive_in found ≡ some_names (texts_of rest.now)) }
{
    if rest.is_empty() {
        return Ok(None);
    }
    if !are_names(rest) {
        return Ok(None);
    }
    Ok(Some(Directive::Softneeds(names(alloc, rest)?)))
}

fn scalar(word: &[u8]) -> Option<Scalar>
    ensures { result ≡ scalar_of word.now }
{
    if is_same(word, b"byte") {
        Some(Scalar::Byte)
    } else if is_same(word, b"short") {
        Some(Scalar::Short)
    } else if is_same(word, b"ushort") {
        Some(Scalar::Ushort)
    } else if is_same(word, b"int") {
        Some(Scalar::Int)
    } else if is_same(word, b"uint") {
        Some(Scalar::Uint)
    } else if is_same(word, b"long") {
        Some(Scalar::Long)
    } else if is_same(word, b"ulong") {
        Some(Scalar::Ulong)
    } else if is_same(word, b"ullong") {
        Some(Scalar::Ullong)
    } else if is_same(word, b"hexint") {
        Some(Scalar::Hexint)
    } else if is_same(word, b"bool") {
        Some(Scalar::Bool)
    } else if is_same(word, b"bint") {
        Some(Scalar::Bint)
    } else if is_same(word, b"invbool") {
        Some(Scalar::Invbool)
    } else {
        None
    }
}

fn kind(word: &[u8]) -> Option<ParamKind>
    ensures { result ≡ kind_of word.now }
{
    if is_same(word, b"charp") {
        return Some(ParamKind::Charp);
    }
    let (front, back) = word.split_at(word.len().saturating_sub(2));
    if is_same(back, b"[]") {
        let scalar = scalar(front)?;
        Some(ParamKind::Array(scalar))
    } else {
        let scalar = scalar(word)?;
        Some(ParamKind::One(scalar))
    }
}

fn param<'w, 'a>(
    alloc: Global,
    rest: &'w [&'a [u8]],
) -> Result<Option<Directive<'w, 'a>>, AllocError>
    ensures { IfOk result (λ found. option_map directive_in found ≡ param_of (texts_of rest.now)) }
{
    let [name, word] = rest else {
        return Ok(None);
    };
    if !is_name(name) {
        return Ok(None);
    }
    let Some(kind) = kind(word) else {
        return Ok(None);
    };
    Ok(Some(Directive::Param(Name::new(alloc, name)?, kind)))
}

fn permanent<'w, 'a>(rest: &'w [&'a [u8]]) -> Option<Directive<'w, 'a>>
    ensures { option_map directive_in result ≡ alone spec.permanent (texts_of rest.now) }
{
    if rest.is_empty() {
        Some(Directive::Permanent)
    } else {
        None
    }
}

fn version<'w, 'a>(rest: &'w [&'a [u8]]) -> Option<Directive<'w, 'a>>
    ensures { option_map directive_in result ≡ version_of (texts_of rest.now) }
{
    let [word] = rest else {
        return None;
    };
    if is_same(word, b"2") {
        Some(Directive::Version(Version::Two))
    } else if is_same(word, b"3") {
        Some(Directive::Version(Version::Three))
    } else {
        None
    }
}

fn end<'w, 'a>(rest: &'w [&'a [u8]]) -> Option<Directive<'w, 'a>>
    ensures { option_map directive_in result ≡ end_of (texts_of rest.now) }
{
    let [word] = rest else {
        return None;
    };
    match number_within(65535, word) {
        Some(count) => Some(Directive::End(count as usize)),
        None => None,
    }
}

/// What the first word and those behind it say, or `None` if they have no form of a catalogue line.
pub(crate) fn read_directive<'w, 'a>(
    alloc: Global,
    word: &[u8],
    rest: &'w [&'a [u8]],
) -> Result<Option<Directive<'w, 'a>>, AllocError>
    ensures { IfOk result (λ found. option_map directive_in found ≡ directive_of word.now (texts_of rest.now)) }
{
    if is_same(word, b"module") {
        module(alloc, rest)
    } else if is_same(word, b"size") {
        Ok(size(rest))
    } else if is_same(word, b"exports") {
        Ok(exports(rest))
    } else if is_same(word, b"needs") {
        Ok(needs(rest))
    } else if is_same(word, b"param") {
        param(alloc, rest)
    } else if is_same(word, b"permanent") {
        Ok(permanent(rest))
    } else if is_same(word, b"version") {
        Ok(version(rest))
    } else if is_same(word, b"softneeds") {
        softneeds(alloc, rest)
    } else if is_same(word, b"end") {
        Ok(end(rest))
    } else {
        Ok(None)
    }
}
