//! The replies of a script, line by line.
ghost use Rattle.std.specs.Prelude.{◌≡◌};
ghost use Rattle.workload_drive.specs.Replies.{line_number};

use super::acts::Deed;
use super::tasks::Script;
use super::threads::Gate;
use crate::schedule::name_at;
use call_words::ReplyWord;
use dep_index::Reply;
use proc_modules::push_number;
use std::alloc::{AllocError, Global};
use std::sync::OnceLock;

/// How the lines of a script are numbered.
#[derive(Clone, Copy, Debug, PartialEq, Eq, Drop)]
pub enum Numbering {
    /// From 0, among the lines before the workers or among those of one worker.
    OfWorker,
    /// From 1, among all lines of the input, as its faults are.
    OfInput,
}

impl Numbering {
    /// The number of the line at a place of its worker, which has this number in the input.
    fn line_number(self, place: usize, line: usize) -> usize
        ensures { result ≡ line_number self place line }
    {
        match self {
            Numbering::OfWorker => place,
            Numbering::OfInput => line,
        }
    }
}

/// The reply of each line of a script, once it was made: those before the workers, and those of each worker. As a gate it
/// lets every line begin, and notes its reply.
#[derive(Drop)]
pub struct Replies {
    opening: Vec<OnceLock<Reply>>,
    workers: Vec<Vec<OnceLock<Reply>>>,
}

/// Room for so many replies.
fn room(alloc: Global, lines: usize) -> Result<Vec<OnceLock<Reply>>, AllocError> {
    let mut room = Vec::new(alloc);
    for _ in 0..lines {
        room.push(OnceLock::new())?;
    }
    Ok(room)
}

impl Replies {
    /// Room for the replies of a script. It fails only if memory runs out.
    pub fn new(alloc: Global, script: &Script) -> Result<Replies, AllocError> {
        let opening = room(alloc, script.opening().len())?;
        let mut workers = Vec::new(alloc);
        for worker in 0..script.workers() {
            workers.push(room(alloc, script.tasks(worker).len())?)?;
        }
        Ok(Replies { opening, workers })
    }

    /// A line for each line of the script that was made: those before the workers, and then those of each worker, in their
    /// order. Each has who made it, its number, what it is, and its reply.
    pub fn text(
        &self,
        alloc: Global,
        script: &Script,
        numbering: Numbering,
    ) -> Result<Vec<u8>, AllocError> {
        let mut text = Vec::new(alloc);
        push_opening(&mut text, script, numbering, &self.opening)?;
        for (worker, places) in self.workers.iter().enumerate() {
            push_worker(&mut text, script, numbering, worker, places)?;
        }
        Ok(text)
    }
}

impl Gate for Replies {
    fn before(&self, _worker: usize, _line: usize) -> bool {
        true
    }

    fn opened(&self, line: usize, reply: Reply) {
        if let Some(place) = self.opening.get(line) {
            let _ = place.try_set(reply);
        }
    }

    fn after(&self, worker: usize, line: usize, reply: Reply) {
        if let Some(places) = self.workers.get(worker) {
            if let Some(place) = places.get(line) {
                let _ = place.try_set(reply);
            }
        }
    }
}

/// Adds what a line is, and its reply.
fn push_reply(
    text: &mut Vec<u8>,
    line: usize,
    deed: Deed,
    name: &[u8],
    reply: Reply,
) -> Result<(), AllocError> {
    text.extend_from_slice(b" line ")?;
    push_number(text, line)?;
    text.extend_from_slice(b" ")?;
    text.extend_from_slice(deed.text())?;
    text.extend_from_slice(b" ")?;
    text.extend_from_slice(name)?;
    text.extend_from_slice(b" reply ")?;
    text.extend_from_slice(ReplyWord::of(reply).text().as_bytes())?;
    text.extend_from_slice(b"\n")
}

/// Adds the lines before the workers.
fn push_opening(
    text: &mut Vec<u8>,
    script: &Script,
    numbering: Numbering,
    places: &[OnceLock<Reply>],
) -> Result<(), AllocError> {
    for (i, (opening, place)) in script.opening().iter().zip(places).enumerate() {
        if let Some(reply) = place.get() {
            let line = numbering.line_number(i, opening.line);
            let name = name_at(script.catalogue(), opening.slot);
            text.extend_from_slice(b"opening")?;
            push_reply(text, line, Deed::Make(opening.change), name, *reply)?;
        }
    }
    Ok(())
}

/// Adds the lines of a worker.
fn push_worker(
    text: &mut Vec<u8>,
    script: &Script,
    numbering: Numbering,
    worker: usize,
    places: &[OnceLock<Reply>],
) -> Result<(), AllocError> {
    for (i, (task, place)) in script.tasks(worker).iter().zip(places).enumerate() {
        if let Some(reply) = place.get() {
            let line = numbering.line_number(i, task.line);
            let name = name_at(script.catalogue(), task.slot);
            text.extend_from_slice(b"w")?;
            push_number(text, worker)?;
            push_reply(text, line, task.deed, name, *reply)?;
        }
    }
    Ok(())
}
