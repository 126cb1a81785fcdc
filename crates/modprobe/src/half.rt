//! The calls of which a load and a removal are made, one at a time, by the name of the module.
ghost use Rattle.std.specs.Prelude.{◌≡◌, ◌<◌, length, IfOk, OnErr};
ghost use Rattle.modprobe.specs.Changes.{half_change};
ghost use Rattle.modprobe.specs.Session.{half_outcome};
ghost use Rattle.modprobe.specs.ForProofs.{refusal_in};
ghost use Rattle.modprobe.specs.Sessions.{Makes, Becomes};

use crate::action::Answer;
use crate::refusal::{Code, SlotRefusal};
use crate::reply::{Reply, render, room};
use crate::session::Session;
use seq_table::Modules;
use std::alloc::{AllocError, Global};
use text_parts::Name;

/// Half of a load or of a removal. A program has work of its own to do between the halves.
#[derive(Clone, Copy, Debug, PartialEq, Eq, Drop)]
pub enum Half {
    BeginLoad,
    /// The load ends: if `true` the module is live, else it leaves the table.
    EndLoad(bool),
    BeginRemove,
    EndRemove,
    /// The removal, or a drain, is called off: the module is live again.
    CancelRemove,
}

#[tactic(auto, using(crate::proofs::SlotLemmas::modules_of_length))]
impl<'s, 't, M: Modules> Session<'s, 't, M> {
    fn half(&mut self, slot: usize, half: Half) -> Result<(), SlotRefusal>
        requires { slot < length self.old.setup.now.catalogue }
        ensures { Makes self.old self.new (refusal_in self.old.setup.now result) (λ s t. half_change s slot half t) }
    {
        match half {
            Half::BeginLoad => self.begin_load(slot),
            Half::EndLoad(ok) => self.end_load(slot, ok),
            Half::BeginRemove => self.begin_remove(slot),
            Half::EndRemove => self.end_remove(slot),
            Half::CancelRemove => self.cancel_remove(slot),
        }
    }

    /// Makes half of a load or of a removal of the module of a name, and answers its reply: `ok`, or its refusal. `Enoent`
    /// comes first, if no module has the name. Else the refusals are those of the call of `Modules`, in its order.
    ///
    /// Out of memory, it changes nothing: all memory is taken before the table is changed.
    pub fn make_half(&mut self, alloc: Global, name: &Name, half: Half) -> Result<Reply, AllocError>
        ensures reply { IfOk result (λ reply. Makes self.old self.new reply (λ s t. half_outcome s name.now half t)) }
        ensures unchanged { OnErr result (Becomes self.old self.new (λ s t. t)) }
    {
        let Some(slot) = self.setup.catalogue().slot(name.as_bytes()) else {
            return Reply::refused(alloc, Code::Enoent, name.as_bytes());
        };
        let room = room(alloc, self.setup)?;
        let change = self.half(slot, half);
        Ok(render(room, self.setup, Answer::of(change)))
    }
}
