//! The reply to a line, and the room for it.
ghost use Rattle.std.specs.Prelude.{◌≡◌, ◌≤◌, ◌+◌, ◌++◌, [], length, option_map, vec_len, vec_capacity, IfOk};
ghost use Rattle.dep_index.specs.Catalogue.{slot_named};
ghost use Rattle.modprobe.specs.Session.{details};
ghost use Rattle.modprobe.specs.Refusals.{error_line};
ghost use Rattle.modprobe.specs.Outcomes.{says, refused, text_of, why_refused, refusal_from};
ghost use Rattle.modprobe.specs.ForProofs.{answer_outcome, FitsNames, TellsRefusal};

use crate::action::Answer;
use crate::refusal::{Code, Refusal};
use crate::setup::Setup;
use load_plan::PlanError;
use proc_modules::modinfo_text;
use std::alloc::{AllocError, Global};
use std::marker::Model;
use text_parts::Name;

/// Room for what an error line has besides a name.
pub(crate) const ERROR_ROOM: usize = 32;

/// How many bytes of an error line stand before its code.
const BEFORE_CODE: usize = 6;

/// The reply to a line: what is written, and why the line is refused, if it is. Contracts see it as its outcome.
#[derive(Drop)]
pub struct Reply {
    text: Vec<u8>,
    // the code if the text is an error line
    code: Option<Code>,
}

impl Model for Reply {
    ghost use Rattle.modprobe.specs.Outcomes.{Outcome, outcome_from, IsLineOf};

    ghost Value = { Outcome };

    ghost view = { λ r. outcome_from r.code r.text.items };

    ghost invariant = { λ r. IsLineOf r.code r.text.items };
}

impl Reply {
    /// The reply of a line that is not refused: this text, as it is.
    pub fn says(text: Vec<u8>) -> Reply
        ensures { result ≡ says text.items }
    {
        Reply { text, code: None }
    }

    /// The reply of a line that is refused: `error`, the code and the name.
    pub fn refused(alloc: Global, code: Code, name: &[u8]) -> Result<Reply, AllocError>
        ensures { IfOk result (λ reply. reply ≡ refused code name.now) }
    {
        let room = Vec::with_capacity(alloc, name.len() + ERROR_ROOM)?;
        Ok(refuse(room, code, name))
    }

    /// What is written: lines with their ends, or nothing.
    pub fn text(&self) -> &[u8]
        ensures { result.now ≡ text_of self.now }
    {
        self.text.as_slice()
    }

    /// Why the line is refused, or `None` if it is not.
    #[tactic(auto, using(crate::proofs::OutcomeLemmas::line_fits))]
    pub fn refusal(&self) -> Option<Refusal<'_>>
        ensures { option_map refusal_from result ≡ why_refused self.now }
    {
        let code = self.code?;
        let start = BEFORE_CODE + code.text().len() + 1;
        let name = &self.text[start..self.text.len() - 1];
        Some(Refusal { code, name })
    }
}

/// Room for a reply that names no module, or any.
pub(crate) fn room(alloc: Global, setup: &Setup) -> Result<Vec<u8>, AllocError>
    ensures empty { IfOk result (λ text. text.items ≡ []) }
    ensures least { IfOk result (λ text. 32 ≤ vec_capacity text) }
    ensures names { IfOk result (λ text. FitsNames setup.now (vec_capacity text)) }
{
    Vec::with_capacity(alloc, setup.error_room())
}

/// Adds bytes, for which there is room.
fn put_bytes(text: &mut Vec<u8>, bytes: &[u8])
    requires { vec_len text.old + length bytes.now ≤ vec_capacity text.old }
    ensures items { text.new.items ≡ text.old.items ++ bytes.now }
    ensures len { vec_len text.new ≡ vec_len text.old + length bytes.now }
    ensures capacity { vec_capacity text.old ≤ vec_capacity text.new }
{
    match text.extend_from_slice(bytes) {
        Ok(()) => {}
        Err(_) => unreachable!(),
    }
}

/// Writes a text to the room that was made for it.
fn say(mut room: Vec<u8>, text: &[u8]) -> Reply
    requires empty { room.items ≡ [] }
    requires room { length text.now ≤ vec_capacity room }
    ensures { result ≡ says text.now }
{
    put_bytes(&mut room, text);
    Reply::says(room)
}

/// Writes the line of a refusal to the room that was made for it.
#[tactic(auto, unfolding(crate::specs::Refusals::error_line), using(std::proofs::lemmas::List::append_assoc))]
fn put_error(text: &mut Vec<u8>, code: Code, name: &[u8])
    requires empty { text.old.items ≡ [] }
    requires room { length name.now + 32 ≤ vec_capacity text.old }
    ensures { text.new.items ≡ error_line code name.now }
{
    put_bytes(text, b"error ");
    put_bytes(text, code.text());
    put_bytes(text, b" ");
    put_bytes(text, name);
    put_bytes(text, b"\n");
}

/// Refuses a line, in the room that was made for its reply.
#[tactic(auto, using(crate::proofs::OutcomeLemmas::name_in_line))]
fn refuse(mut room: Vec<u8>, code: Code, name: &[u8]) -> Reply
    requires empty { room.items ≡ [] }
    requires room { length name.now + 32 ≤ vec_capacity room }
    ensures { result ≡ refused code name.now }
{
    put_error(&mut room, code, name);
    Reply {
        text: room,
        code: Some(code),
    }
}

/// The reply that an answer is, in the room that was made for it.
pub(crate) fn render(room: Vec<u8>, setup: &Setup, answer: Answer) -> Reply
    requires empty { room.items ≡ [] }
    requires least { 32 ≤ vec_capacity room }
    requires names { FitsNames setup.now (vec_capacity room) }
    ensures { result ≡ answer_outcome setup.now answer }
{
    match answer {
        Answer::Done => say(room, b"ok\n"),
        Answer::Yes => say(room, b"yes\n"),
        Answer::No => say(room, b"no\n"),
        Answer::Refused(refusal) => refuse(room, refusal.code, setup.name(refusal.slot)),
    }
}

/// The reply that says why there is no plan.
pub(crate) fn plan_refusal(alloc: Global, error: PlanError) -> Result<Reply, AllocError>
    ensures { IfOk result (λ reply. TellsRefusal error reply) }
{
    match error {
        PlanError::Cycle(name) => Reply::refused(alloc, Code::Cycle, name.as_bytes()),
        PlanError::Install(name) => Reply::refused(alloc, Code::Install, name.as_bytes()),
        PlanError::Unknown(name) => Reply::refused(alloc, Code::Enoent, name.as_bytes()),
        PlanError::Remove(name) => Reply::refused(alloc, Code::Remove, name.as_bytes()),
        PlanError::Memory => Err(AllocError),
    }
}

/// What modinfo(8) tells of a module.
pub(crate) fn details(alloc: Global, setup: &Setup, name: &Name) -> Result<Reply, AllocError>
    ensures { IfOk result (λ reply. reply ≡ details setup.now name.now (slot_named setup.now.catalogue name.now)) }
{
    match setup.catalogue().slot(name.as_bytes()) {
        Some(slot) => Ok(Reply::says(modinfo_text(alloc, setup.catalogue(), slot)?)),
        None => Reply::refused(alloc, Code::Enoent, name.as_bytes()),
    }
}
