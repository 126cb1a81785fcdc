//! Names, words, aliases and lists of names, made one by one.

use crate::texts::holds_or_short;
use alias_match::Alias;
use modprobe_conf::Word;
use proc_modules::Names;
use std::alloc::{AllocError, Global};
use text_parts::{Name, words};

const WORDS: [&[u8]; 2] = [b"a", b"bc"];

const ALIAS: [&[u8]; 3] = [b"alias", b"usb:v*", b"snd-pcm"];

fn is_name(alloc: Global) -> Result<bool, AllocError> {
    Ok(Name::new(alloc, b"snd-pcm")?.as_bytes() == b"snd_pcm".as_slice())
}

fn are_words(alloc: Global) -> Result<bool, AllocError> {
    Ok(words(alloc, b" a\tbc ")?.as_slice() == WORDS.as_slice())
}

fn is_word(alloc: Global) -> Result<bool, AllocError> {
    Ok(Word::new(alloc, b"debug=1")?.as_bytes() == b"debug=1".as_slice())
}

fn is_alias(alloc: Global) -> Result<bool, AllocError> {
    match Alias::read(alloc, &ALIAS)? {
        Some(alias) => {
            Ok(alias.pattern.matches(b"usb:v0") && alias.target.as_bytes() == b"snd_pcm".as_slice())
        }
        None => Ok(false),
    }
}

fn is_listed(alloc: Global) -> Result<bool, AllocError> {
    let name = Name::new(alloc, b"snd")?;
    let mut names = Names::new(alloc);
    names.push(name)?;
    Ok(names.as_slice().len() == 1)
}

#[test]
fn values(rt: HostRuntime) -> Result<(), AllocError> {
    let name = holds_or_short(&rt, "a name", is_name(rt.alloc()));
    let words = holds_or_short(&rt, "words", are_words(rt.alloc()));
    let word = holds_or_short(&rt, "a word", is_word(rt.alloc()));
    let alias = holds_or_short(&rt, "an alias", is_alias(rt.alloc()));
    let names = holds_or_short(&rt, "a list of names", is_listed(rt.alloc()));
    name.and(words).and(word).and(alias).and(names)
}
