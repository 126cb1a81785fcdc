//! What `--showconfig` tells.
ghost use Rattle.std.specs.Prelude.{◌≡◌, ◌++◌, IfOk, OnOk};
ghost use Rattle.std.specs.List.{flat_map};
ghost use Rattle.kmod_query.specs.Shown.{alias_line, blacklist_line, joined_words, marked, weakdep_line};
ghost use Rattle.kmod_query.specs.Shown.{shown, shown_configuration, softdep_line, spaced, text_line};

use crate::key_order::push_index;
use crate::lines::{push_line, push_name};
use crate::parameters::push_joined;
use kmod_conf::{Conf, NameLine, SoftdepLine, TextLine, WeakdepLine};
use kmod_index::Index;
use kmod_names::{AliasEntry, Text};
use std::alloc::{AllocError, Global};

fn push_blacklists(lines: &mut Vec<u8>, all: &[NameLine]) -> Result<(), AllocError>
    ensures { OnOk result (lines.new.items ≡ lines.old.items ++ flat_map blacklist_line all.now) }
{
    'all: for own in all {
        push_name(lines, b"blacklist ", own.name.as_bytes())?;
    }
    Ok(())
}

fn push_texts(lines: &mut Vec<u8>, verb: &[u8], all: &[TextLine]) -> Result<(), AllocError>
    ensures { OnOk result (lines.new.items ≡ lines.old.items ++ flat_map (text_line verb.now) all.now) }
{
    'all: for own in all {
        push_line(lines, verb, own.name.as_bytes(), own.text.as_bytes())?;
    }
    Ok(())
}

fn push_aliases(lines: &mut Vec<u8>, all: &[AliasEntry]) -> Result<(), AllocError>
    ensures { OnOk result (lines.new.items ≡ lines.old.items ++ flat_map alias_line all.now) }
{
    'all: for own in all {
        push_line(
            lines,
            b"alias ",
            own.pattern.as_bytes(),
            own.target.as_bytes(),
        )?;
    }
    Ok(())
}

/// Adds words, each after a blank.
fn push_words(text: &mut Vec<u8>, words: &[Text]) -> Result<(), AllocError>
    ensures { OnOk result (text.new.items ≡ text.old.items ++ spaced words.now) }
{
    'words: for word in words {
        text.push(b' ')?;
        text.extend_from_slice(word.as_bytes())?;
    }
    Ok(())
}

/// A mark and the words after it, if there are any.
fn marked(alloc: Global, mark: &[u8], words: &[Text]) -> Result<Vec<u8>, AllocError>
    ensures { IfOk result (λ text. text.items ≡ marked mark.now words.now) }
{
    if words.is_empty() {
        return Ok(Vec::new(alloc));
    }
    let mut text = Vec::from_slice(alloc, mark)?;
    push_words(&mut text, words)?;
    Ok(text)
}

fn push_softdep(alloc: Global, lines: &mut Vec<u8>, own: &SoftdepLine) -> Result<(), AllocError>
    ensures { OnOk result (lines.new.items ≡ lines.old.items ++ softdep_line own.now) }
{
    let mut items = marked(alloc, b"pre:", own.items.pre())?;
    let post = marked(alloc, b"post:", own.items.post())?;
    if !post.is_empty() {
        push_joined(&mut items, &post)?;
    }
    push_line(lines, b"softdep ", own.name.as_bytes(), &items)
}

fn push_softdeps(alloc: Global, lines: &mut Vec<u8>, all: &[SoftdepLine]) -> Result<(), AllocError>
    ensures { OnOk result (lines.new.items ≡ lines.old.items ++ flat_map softdep_line all.now) }
{
    'all: for own in all {
        push_softdep(alloc, lines, own)?;
    }
    Ok(())
}

/// Words with a blank between each two.
fn joined_words(alloc: Global, words: &[Text]) -> Result<Vec<u8>, AllocError>
    ensures { IfOk result (λ text. text.items ≡ joined_words words.now) }
{
    let mut text = Vec::new(alloc);
    'words: for word in words {
        push_joined(&mut text, word.as_bytes())?;
    }
    Ok(text)
}

fn push_weakdeps(alloc: Global, lines: &mut Vec<u8>, all: &[WeakdepLine]) -> Result<(), AllocError>
    ensures { OnOk result (lines.new.items ≡ lines.old.items ++ flat_map weakdep_line all.now) }
{
    'all: for own in all {
        let items = joined_words(alloc, own.items.words())?;
        push_line(lines, b"weakdep ", own.name.as_bytes(), &items)?;
    }
    Ok(())
}

/// Adds the lines of the configuration, kind by kind.
fn push_configuration(alloc: Global, lines: &mut Vec<u8>, conf: &Conf) -> Result<(), AllocError>
    ensures { OnOk result (lines.new.items ≡ lines.old.items ++ shown_configuration conf.now) }
{
    push_blacklists(lines, conf.blacklist())?;
    push_texts(lines, b"install ", conf.installs())?;
    push_texts(lines, b"remove ", conf.removes())?;
    push_aliases(lines, conf.aliases())?;
    push_texts(lines, b"options ", conf.options())?;
    push_softdeps(alloc, lines, conf.softdeps())?;
    push_weakdeps(alloc, lines, conf.weakdeps())
}

/// The configuration, the lines of modules.alias, and those of modules.symbols.
pub(crate) fn shown(alloc: Global, conf: &Conf, index: &Index) -> Result<Vec<u8>, AllocError>
    ensures { IfOk result (λ text. text.items ≡ shown conf.now index.now) }
{
    let mut lines = Vec::new(alloc);
    push_configuration(alloc, &mut lines, conf)?;
    lines.extend_from_slice(b"\n# End of configuration files. Dumping indexes now:\n\n")?;
    push_index(alloc, &mut lines, &index.alias_lines(alloc)?)?;
    push_index(alloc, &mut lines, &index.symbol_lines(alloc)?)?;
    Ok(lines)
}
