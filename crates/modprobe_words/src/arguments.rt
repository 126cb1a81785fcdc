//! The words that a program is given, as bytes.
ghost use Rattle.std.specs.Io.{WritesAtMost};

use std::alloc::AllocError;
use std::env::{Env, FillError};

/// The room that a word has at first.
const ROOM: [u8; 4096] = [0; 4096];

/// How often the room is doubled.
const TURNS: usize = 20;

/// What is asked of the environment.
#[derive(Clone, Copy)]
enum Asking<'a> {
    Word(usize),
    Variable(&'a str),
}

fn fill<R: Env>(rt: &R, asking: Asking<'_>, buffer: &mut [u8]) -> Result<usize, FillError>
    ensures { WritesAtMost result buffer.new }
{
    match asking {
        Asking::Word(at) => rt.arg(at, buffer),
        Asking::Variable(name) => rt.var(name, buffer),
    }
}

/// What is there, None if nothing is.
fn told<R: Env + AllocGlobal>(rt: &R, asking: Asking<'_>) -> Result<Option<Vec<u8>>, AllocError> {
    let mut room = Vec::from_slice(rt.alloc(), &ROOM)?;
    for _turn in 0..TURNS {
        match fill(rt, asking, &mut room) {
            Ok(length) => return Ok(Some(Vec::from_slice(rt.alloc(), &room[..length])?)),
            Err(FillError::NotPresent) => return Ok(None),
            Err(FillError::TooLong) => {
                let size = room.len().saturating_mul(2);
                room.resize(size, 0)?;
            }
        }
    }
    Err(AllocError)
}

/// The words of the program without its own name. It fails only out of memory.
pub fn given_words<R: Env + AllocGlobal>(rt: &R) -> Result<Vec<Vec<u8>>, AllocError> {
    let mut words = Vec::new(rt.alloc());
    for at in 1..usize::MAX {
        match told(rt, Asking::Word(at))? {
            Some(word) => words.push(word)?,
            None => break,
        }
    }
    Ok(words)
}

/// The text of a variable of the environment, if it is set. It fails only out of memory.
pub fn given_variable<R: Env + AllocGlobal>(
    rt: &R,
    name: &str,
) -> Result<Option<Vec<u8>>, AllocError> {
    told(rt, Asking::Variable(name))
}

/// The text of MODPROBE_OPTIONS, if it is set. It fails only out of memory.
pub fn given_options<R: Env + AllocGlobal>(rt: &R) -> Result<Option<Vec<u8>>, AllocError> {
    given_variable(rt, "MODPROBE_OPTIONS")
}
