//! The commands of a session, as people are told of them.

use crate::near::is_near;
use program_frame::Shown;
use std::alloc::{AllocError, Global};
use text_parts::is_same;

/// The first word of each command, and what a line of it is.
const COMMANDS: [(&[u8], &str); 11] = [
    (b"insmod", "insmod NAME [PARAMETER=VALUE].."),
    (b"rmmod", "rmmod NAME"),
    (
        b"modprobe",
        "modprobe NAME [PARAMETER=VALUE].. or modprobe -r NAME",
    ),
    (b"plan", "plan NAME"),
    (b"drain", "drain NAME"),
    (b"get", "get WORKER NAME"),
    (b"put", "put WORKER NAME"),
    (b"query", "query NAME"),
    (b"lsmod", "lsmod"),
    (b"proc", "proc"),
    (b"modinfo", "modinfo NAME"),
];

/// What a line is that begins with this word, by these forms.
pub(crate) fn form_in(forms: &[(&[u8], &'static str)], word: &[u8]) -> Option<&'static str> {
    let found = forms.iter().find(|form| is_same(word, form.0));
    found.map(|form| form.1)
}

/// What a line of the command is that begins with this word.
pub(crate) fn form_of(word: &[u8]) -> Option<&'static str> {
    form_in(&COMMANDS, word)
}

/// The first words of commands that are nearly this word.
pub(crate) fn near_commands(alloc: Global, word: &[u8]) -> Result<Vec<Shown<'static>>, AllocError> {
    let mut near = Vec::new(alloc);
    for (own, _) in &COMMANDS {
        if is_near(*own, word) {
            near.push(Shown(*own))?;
        }
    }
    Ok(near)
}
