//! The targets of aliases, found in the text of modules.alias itself.
ghost use Rattle.std.specs.Prelude.{◌≡◌, ◌++◌, ◌∷◌, ◌≢◌, [], ℕ, List, Some, IfOk, IsTrue, MatchOption, OnOk};
ghost use Rattle.std.specs.List.{list_any};
ghost use Rattle.std.specs.Str.{bytes_eq};
ghost use Rattle.text_parts.specs.Text.{texts_of};
ghost use Rattle.alias_match.specs.Aliases.{aliases_of};
ghost use Rattle.load_plan.specs.LookUp.{free_targets, with_names};
ghost use Rattle.modprobe.specs.AliasText.{is_stop, parts_early, target_in_line, target_in_words, target_matching, with_free};

use alias_match::Alias;
use modprobe_conf::Conf;
use std::alloc::{AllocError, Global};
use text_parts::{Name, find_words, is_comment, is_same, whole_lines};

/// Whether a byte may stand for another than itself in a pattern, or ends the pattern.
fn is_stop(byte: u8) -> bool
    ensures { result ≡ is_stop byte }
{
    matches!(byte, b'*' | b'-' | b'?' | b'[' | b'\\' | b' ' | b'\t')
}

/// Whether a name has another byte where a pattern and what follows it have one that stands for itself, with only such bytes
/// before it.
fn parts_early(pattern: &[u8], name: &[u8]) -> bool
    ensures { result ≡ parts_early pattern.now name.now }
{
    let mut rest = pattern;
    let mut others = name;
    while let Some((byte, later)) = rest.split_first() {
        let Some((other, other_later)) = others.split_first() else {
            return false;
        };
        if is_stop(*byte) {
            return false;
        }
        if *byte != *other {
            return true;
        }
        rest = later;
        others = other_later;
    }
    false
}

/// What follows these bytes, if the text begins with them.
fn after<'a>(front: &[u8], text: &'a [u8]) -> Option<&'a [u8]>
    ensures { MatchOption result ((rest : List ℕ) → text.entry.now ≢ front.now ++ rest)
        (λ rest. text.entry.now ≡ front.now ++ rest.now) }
{
    text.strip_prefix(front)
}

/// Whether a line is seen at once to be no alias that a name matches.
fn is_other(line: &[u8], name: &[u8]) -> bool
    ensures { IsTrue result → target_in_line line.now name.now ≡ [] }
{
    match after(b"alias ", line) {
        Some(pattern) => parts_early(pattern, name),
        None => false,
    }
}

fn is_among(found: &[Name], name: &[u8]) -> bool
    ensures { result ≡ list_any (bytes_eq name.now) found.now }
{
    found.iter().any(|own| is_same(name, own.as_bytes()))
}

/// Adds a target, unless it is blacklisted or stands there already.
fn add_target(found: &mut Vec<Name>, configuration: &Conf, target: Name) -> Result<(), AllocError>
    ensures { OnOk result (found.new.items ≡ with_free configuration.now found.old.items (target ∷ [])) }
{
    if configuration.blacklisted(target.as_bytes()) || is_among(found, target.as_bytes()) {
        return Ok(());
    }
    found.push(target)?;
    Ok(())
}

/// Adds the target of an alias, if its pattern matches a name.
fn add_matching(
    found: &mut Vec<Name>,
    configuration: &Conf,
    alias: Alias,
    name: &[u8],
) -> Result<(), AllocError>
    ensures { OnOk result (found.new.items ≡ with_free configuration.now found.old.items (target_matching (Some alias) name.now)) }
{
    let Alias { pattern, target } = alias;
    if !pattern.matches(name) {
        return Ok(());
    }
    add_target(found, configuration, target)
}

/// Adds the target of the alias that words are, if its pattern matches a name.
fn add_words(
    alloc: Global,
    found: &mut Vec<Name>,
    configuration: &Conf,
    words: &[&[u8]],
    name: &[u8],
) -> Result<(), AllocError>
    ensures { OnOk result (found.new.items ≡ with_free configuration.now found.old.items (target_in_words (texts_of words.now) name.now)) }
{
    match Alias::read(alloc, words)? {
        Some(alias) => add_matching(found, configuration, alias, name),
        None => Ok(()),
    }
}

/// Adds the target of the alias that a line is, if its pattern matches a name. The words of the line are put into `words`.
fn add_line<'a>(
    alloc: Global,
    found: &mut Vec<Name>,
    configuration: &Conf,
    words: &mut Vec<&'a [u8]>,
    line: &'a [u8],
    name: &[u8],
) -> Result<(), AllocError>
    ensures { OnOk result (found.new.items ≡ with_free configuration.now found.old.items (target_in_line line.now name.now)) }
{
    if is_comment(line) || is_other(line, name) {
        return Ok(());
    }
    find_words(words, line)?;
    add_words(alloc, found, configuration, words, name)
}

/// The targets of the aliases of a modules.alias text that match a name in normal form and are not blacklisted, each once. It
/// reads all lines, and keeps nothing of those that do not match. It fails only out of memory.
pub(crate) fn free_in_text(
    alloc: Global,
    configuration: &Conf,
    text: &[u8],
    name: &[u8],
) -> Result<Vec<Name>, AllocError>
    ensures { IfOk result (λ names. names.items ≡ with_names [] (free_targets configuration.now (aliases_of text.now).entries name.now)) }
{
    let mut found = Vec::new(alloc);
    let mut words = Vec::new(alloc);
    let mut lines = whole_lines(text);
    'lines: while let Some(line) = lines.next() {
        add_line(alloc, &mut found, configuration, &mut words, line, name)?;
    }
    Ok(found)
}
