//! What tests of several crates share: a text, how the parts of an answer are compared with a wanted text, and what is
//! told of a row.

use std::alloc::AllocError;
use std::process::Abort;
use text_parts::Name;

/// Two modules that need each other.
pub(crate) const CIRCLE: &[u8] =
    b"module a\nexports fa\nneeds fb\nmodule b\nexports fb\nneeds fa\n";

/// A sound card and its PCM layer, which needs it.
pub(crate) const SOUND: &[u8] =
    b"module snd\nsize 114688\nexports snd_card_new\nmodule snd-pcm\nsize 143360\nexports snd_pcm_new\nneeds snd_card_new\nparam debug bool\n";

/// Lines of all kinds, of which the first and the last are joined with the next.
pub(crate) const CONFIGURATION: &[u8] = b"options y debug=1 \\
 level=3
install x /bin/true
softdep z pre: y
install z /bin/true
alias a-* snd-pcm
blacklist w \\";

/// A row's fact holds, else its own words tell which row it is.
pub(crate) fn holds(rt: &impl Abort, shows: &str, fact: bool) {
    assert!(rt; fact, "{shows}");
}

/// A row's fact holds, if there was memory to find it.
pub(crate) fn holds_or_short(
    rt: &impl Abort,
    shows: &str,
    fact: Result<bool, AllocError>,
) -> Result<(), AllocError> {
    holds(rt, shows, fact?);
    Ok(())
}

/// A prefix's fact holds, else its length is told.
pub(crate) fn holds_at(rt: &impl Abort, length: usize, fact: bool) {
    assert!(rt; fact, "at {length}");
}

/// What is left of a wanted text, or nothing if something else was found.
pub(crate) type Rest<'a> = Option<&'a [u8]>;

/// What is left behind these pieces.
pub(crate) fn behind<'a>(rest: Rest<'a>, pieces: &[&[u8]]) -> Rest<'a> {
    let mut rest = rest?;
    for piece in pieces {
        rest = rest.strip_prefix(*piece)?;
    }
    Some(rest)
}

/// What is left behind names, with a space before each.
pub(crate) fn behind_names<'a>(rest: Rest<'a>, names: &[Name]) -> Rest<'a> {
    let mut rest = rest;
    for name in names {
        rest = behind(rest, &[b" ", name.as_bytes()]);
    }
    rest
}

/// What is left behind names, one a line.
pub(crate) fn behind_name_lines<'a>(rest: Rest<'a>, names: &[Name]) -> Rest<'a> {
    let mut rest = rest;
    for name in names {
        rest = behind(rest, &[name.as_bytes(), b"\n"]);
    }
    rest
}
