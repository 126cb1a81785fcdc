//! The kernel's modules, and what happened.
ghost use Rattle.std.specs.Prelude.{◌≡◌, ◌⊎◌, ◌∷◌, [], ℕ, true, false, All, IfOk};
ghost use Rattle.hold_turns.specs.Events.{Loaded, Removed, Asked, Begun, GivesBack, IsIn};

use crate::log::{Log, noted};
use crate::story::{Happened, Story};
use std::alloc::{AllocError, Global};
use std::marker::Model;

/// What happened, as clauses see it.
#[derive(Drop)]
pub enum Note {
    Loaded(usize),
    Removed(usize),
    Asked(usize, Log<u8>, Log<usize>),
    Begun(usize, Log<u8>, Log<usize>),
    GivesBack(Log<u8>, Log<usize>),
}

/// The modules of a kernel, and what happened to it and to the calls. Contracts see what happened, the newest event first.
#[derive(Drop)]
pub struct Kernel {
    /// Whether it has the module, by slot.
    has: Vec<bool>,
    notes: Log<Note>,
    story: Story,
}

impl Model for Kernel {
    ghost use Rattle.std.specs.Prelude.{List};
    ghost use Rattle.hold_turns.specs.Events.{Event};

    ghost Value = { List Event };

    ghost use Rattle.hold_machine.specs.Kernel.{events_of, ShowsWhatIsIn};

    ghost view = { λ k. events_of k.notes };

    ghost invariant = { λ k. ShowsWhatIsIn k.has.items (events_of k.notes) };
}

impl Kernel {
    /// A kernel without modules, of so many slots. It fails only out of memory.
    pub fn new(alloc: Global, slots: usize) -> Result<Kernel, AllocError>
        ensures { IfOk result (λ kernel. kernel ≡ []) }
    {
        Ok(Kernel {
            has: vec![in alloc; false; slots]?,
            notes: Log::new(),
            story: Story::new(alloc),
        })
    }

    /// What happened, oldest first. None if there was no memory for some of it.
    pub fn happened(&self) -> Option<&[Happened]> {
        self.story.told()
    }

    /// Whether it has the module.
    pub fn has(&self, slot: usize) -> bool
        ensures there { result ≡ true → IsIn self.now slot }
        ensures not { result ≡ false → IsIn self.now slot → ⊥ }
    {
        self.has.get(slot).copied().unwrap_or(false)
    }

    /// Whether it has each of these modules.
    pub fn has_all(&self, slots: &[usize]) -> bool
        ensures { result ≡ true → All (λ (m : ℕ). IsIn self.now m) slots.now }
    {
        for slot in slots {
            if !self.has(*slot) {
                return false;
            }
        }
        true
    }

    /// insmod(8) does its work: the kernel gets the module. Nothing happens if it has it, or if there is no such slot.
    pub fn load(&mut self, slot: usize)
        ensures { (self.new ≡ self.old) ⊎ (self.new ≡ Loaded slot ∷ self.old) }
    {
        if slot < self.has.len() && !self.has[slot] {
            self.has[slot] = true;
            self.notes.note(&Note::Loaded(slot));
            self.story.tell(Happened::Loaded(slot));
        }
    }

    /// rmmod(8) does its work: the kernel loses the module. Nothing happens if it has it not.
    pub fn remove(&mut self, slot: usize)
        ensures { (self.new ≡ self.old) ⊎ (self.new ≡ Removed slot ∷ self.old) }
    {
        if slot < self.has.len() && self.has[slot] {
            self.has[slot] = false;
            self.notes.note(&Note::Removed(slot));
            self.story.tell(Happened::Removed(slot));
        }
    }

    /// A get was asked.
    pub fn note_asked(&mut self, call: usize, holder: &[u8], modules: &[usize])
        ensures { self.new ≡ Asked call holder.now modules.now ∷ self.old }
    {
        self.notes
            .note(&Note::Asked(call, noted(holder), noted(modules)));
        self.story.tell(Happened::Asked(call));
    }

    /// The reply to a get is begun.
    pub fn note_begun(&mut self, call: usize, holder: &[u8], modules: &[usize])
        ensures { self.new ≡ Begun call holder.now modules.now ∷ self.old }
    {
        self.notes
            .note(&Note::Begun(call, noted(holder), noted(modules)));
        self.story.tell(Happened::Begun(call));
    }

    /// A put is about to give back.
    pub fn note_put(&mut self, holder: &[u8], modules: &[usize])
        ensures { self.new ≡ GivesBack holder.now modules.now ∷ self.old }
    {
        self.notes
            .note(&Note::GivesBack(noted(holder), noted(modules)));
        self.story.tell(Happened::GivesBack);
    }
}
