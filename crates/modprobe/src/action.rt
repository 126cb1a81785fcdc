//! What an action on a module comes to.
ghost use Rattle.std.specs.Prelude.{◌≡◌, ◌<◌, length, IfOk, OnErr};
ghost use Rattle.modprobe.specs.Setup as setups;
ghost use Rattle.modprobe.specs.Session.{done_or, by_worker, action_outcome};
ghost use Rattle.modprobe.specs.ForProofs.{action_from, call_of, refusal_in, answer_outcome};
ghost use Rattle.modprobe.specs.Sessions.{Makes, Becomes};

use crate::command::{Action, Reference};
use crate::refusal::{Code, SlotRefusal};
use crate::session::Session;
use seq_table::Modules;
use std::alloc::AllocError;

/// What a command is answered: that it is done, a yes or a no, or its refusal.
#[derive(Clone, Copy, Drop)]
pub(crate) enum Answer {
    Done,
    Yes,
    No,
    Refused(SlotRefusal),
}

impl Answer {
    /// What a change of the table is answered.
    pub(crate) fn of(change: Result<(), SlotRefusal>) -> Answer
        ensures { (s : setups.Setup) → answer_outcome s result ≡ done_or (refusal_in s change) }
    {
        match change {
            Ok(()) => Answer::Done,
            Err(refusal) => Answer::Refused(refusal),
        }
    }
}

#[tactic(auto, using(crate::proofs::SlotLemmas::modules_of_length))]
impl<'s, 't, M: Modules> Session<'s, 't, M> {
    /// A worker takes a reference or puts one back. A worker out of range comes before the refusals of the call. Room for a
    /// get is made before it; out of memory, nothing is changed.
    fn refer_by(
        &mut self,
        slot: usize,
        worker: u64,
        reference: Reference,
    ) -> Result<Answer, AllocError>
        requires { slot < length self.old.setup.now.catalogue }
        ensures answer { IfOk result (λ answer. Makes self.old self.new (answer_outcome self.old.setup.now answer)
            (λ s t. by_worker s worker slot (call_of reference worker slot) t)) }
        ensures unchanged { OnErr result (Becomes self.old self.new (λ s t. t)) }
    {
        if worker >= self.table.workers() as u64 {
            return Ok(Answer::Refused(SlotRefusal::new(Code::Worker, slot)));
        }
        let worker = worker as usize;
        match reference {
            Reference::Get => {
                self.table.make_room(worker)?;
                Ok(Answer::of(self.get(slot, worker)))
            }
            Reference::Put => Ok(Answer::of(self.put(slot, worker))),
        }
    }

    /// Makes an action on the module of a slot. Out of memory, which only a get takes, nothing is changed.
    pub(crate) fn act_on(&mut self, slot: usize, action: Action<'_>) -> Result<Answer, AllocError>
        requires { slot < length self.old.setup.now.catalogue }
        ensures answer { IfOk result (λ answer. Makes self.old self.new (answer_outcome self.old.setup.now answer)
            (λ s t. action_outcome s slot (action_from action.entry) t)) }
        ensures unchanged { OnErr result (Becomes self.old self.new (λ s t. t)) }
    {
        match action {
            Action::Insmod(words) => Ok(Answer::of(self.load(slot, words))),
            Action::Rmmod => Ok(Answer::of(self.remove(slot))),
            Action::Drain => Ok(Answer::of(self.drain(slot))),
            Action::Query if self.table.in_use(slot) => Ok(Answer::Yes),
            Action::Query => Ok(Answer::No),
            Action::Refer(reference, worker) => self.refer_by(slot, worker, reference),
        }
    }
}
