//! Hands in memory.
ghost use Rattle.std.specs.Prelude.{◌≡◌, true, false, Some, None, All, IfOk, ℕ, OnErr};
ghost use Rattle.hold_turns.specs.Events.{Asked, Begun, GivesBack, IsIn};
ghost use Rattle.hold_turns.specs.Views.{Idle, Loads, Removes};
ghost use Rattle.hold_turns.specs.Acts.{IsQuiet, Notes, Unlocks, MayBegin, MayDo, GoesOn, LetsGo};

use crate::countdown::Countdown;
use crate::kernel::Kernel;
use crate::locks::{can_have_all, give_back, take};
use crate::log::{Log, noted};
use crate::plan::{Plan, Progress};
use crate::story::Happened;
use hold_turns::{Gone, Hands};
use std::alloc::{AllocError, Global};

/// What the hands of a call do.
#[derive(Clone, Copy, Debug, PartialEq, Eq, Drop)]
pub enum Doing {
    Nothing,
    /// insmod(8) of a module is under way.
    Loads(usize),
    /// rmmod(8) of a module is under way.
    Removes(usize),
}

/// The hands of all calls over a kernel in memory. An act goes on as a plan says, and once the hands of a call that asks are
/// gone.
#[derive(Drop)]
pub struct MemoryHands<'a> {
    pub(crate) kernel: Kernel,
    /// By slot, the call that has the module's lock.
    pub(crate) owners: Vec<Option<usize>>,
    /// By call.
    pub(crate) acts: Vec<Doing>,
    /// The modules of the last look that showed all it was asked for. Only clauses read it.
    pub(crate) shown: Log<usize>,
    /// How acts go on that are to come.
    plan: &'a [Progress],
    answers: Countdown,
}

impl<'a> MemoryHands<'a> {
    ghost use Rattle.hold_machine.specs.Hands.{view_of, act_of, doing_in, IsAtRest};

    /// The hands of so many calls, over a kernel of so many slots and without modules. It fails only out of memory.
    pub fn new(
        alloc: Global,
        slots: usize,
        calls: usize,
        plan: &Plan<'a>,
    ) -> Result<MemoryHands<'a>, AllocError>
        ensures { IfOk result (λ hands. IsAtRest (view_of hands)) }
    {
        Ok(MemoryHands {
            kernel: Kernel::new(alloc, slots)?,
            owners: vec![in alloc; None; slots]?,
            acts: vec![in alloc; Doing::Nothing; calls]?,
            shown: Log::new(),
            plan: plan.acts,
            answers: Countdown::of(plan.answers),
        })
    }

    /// What happened, oldest first. None if there was no memory for some of it.
    pub fn happened(&self) -> Option<&[Happened]> {
        self.kernel.happened()
    }

    /// The hands of the call that asks answer, or they are gone.
    fn answer(&mut self) -> Result<(), Gone>
        ensures kernel { self.new.kernel ≡ self.old.kernel }
        ensures owners { self.new.owners ≡ self.old.owners }
        ensures acts { self.new.acts ≡ self.old.acts }
    {
        if self.answers.fails() {
            return Err(Gone);
        }
        Ok(())
    }

    /// What the hands of a call do.
    fn doing(&self, call: usize) -> Doing
        ensures { result ≡ doing_in self.now.acts.items call }
    {
        self.acts.get(call).copied().unwrap_or(Doing::Nothing)
    }

    /// How far the next act comes that goes on.
    fn next_progress(&mut self) -> Progress
        ensures kernel { self.new.kernel ≡ self.old.kernel }
        ensures owners { self.new.owners ≡ self.old.owners }
        ensures acts { self.new.acts ≡ self.old.acts }
    {
        if let [progress, later @ ..] = self.plan {
            self.plan = later;
            return *progress;
        }
        Progress::WHOLE
    }

    /// Begins an act of a call.
    fn begin(&mut self, call: usize, doing: Doing) -> Result<(), Gone>
        requires idle { (view_of self.old).acts call ≡ Idle }
        ensures { MayBegin call (act_of doing) (view_of self.old) (view_of self.new) }
    {
        self.answer()?;
        if call >= self.acts.len() {
            return Err(Gone);
        }
        self.acts[call] = doing;
        Ok(())
    }

    /// An act does its work.
    fn work(&mut self, doing: Doing)
        ensures kernel { MayDo (act_of doing) self.old.kernel self.new.kernel }
        ensures owners { self.new.owners ≡ self.old.owners }
        ensures acts { self.new.acts ≡ self.old.acts }
    {
        match doing {
            Doing::Nothing => {}
            Doing::Loads(slot) => self.kernel.load(slot),
            Doing::Removes(slot) => self.kernel.remove(slot),
        }
    }
}

impl<'a> Hands for MemoryHands<'a> {
    ghost use Rattle.hold_machine.specs.Hands.{view_of};

    ghost view = { view_of };

    fn lock(&mut self, call: usize, slots: &[usize]) -> Result<bool, Gone> {
        self.answer()?;
        if !can_have_all(&self.owners, call, slots) {
            return Ok(false);
        }
        take(&mut self.owners, call, slots);
        Ok(true)
    }

    fn unlock(&mut self, call: usize) {
        give_back(&mut self.owners, call);
    }

    fn listed(&mut self, _call: usize, slot: usize) -> Result<bool, Gone> {
        self.answer()?;
        Ok(self.kernel.has(slot))
    }

    fn sees(&mut self, slots: &[usize]) -> Result<bool, Gone> {
        self.answer()?;
        if !self.kernel.has_all(slots) {
            return Ok(false);
        }
        self.shown = noted(slots);
        Ok(true)
    }

    /// `Gone`: it is not begun.
    fn insmod(&mut self, call: usize, slot: usize) -> Result<(), Gone> {
        self.begin(call, Doing::Loads(slot))
    }

    /// `Gone`: it is not begun.
    fn rmmod(&mut self, call: usize, slot: usize) -> Result<(), Gone> {
        self.begin(call, Doing::Removes(slot))
    }

    fn has_ended(&mut self, call: usize) -> Result<bool, Gone> {
        self.answer()?;
        Ok(self.doing(call) == Doing::Nothing)
    }

    fn note_asked(&mut self, call: usize, holder: &[u8], modules: &[usize]) {
        self.kernel.note_asked(call, holder, modules);
    }

    fn begin_reply(&mut self, call: usize, holder: &[u8], modules: &[usize]) {
        self.kernel.note_begun(call, holder, modules);
    }

    fn note_put(&mut self, holder: &[u8], modules: &[usize]) {
        self.kernel.note_put(holder, modules);
    }

    /// As the plan says.
    fn go_on(&mut self, call: usize) {
        let doing = self.doing(call);
        if doing == Doing::Nothing {
            return;
        }
        let progress = self.next_progress();
        if progress.works {
            self.work(doing);
        }
        if progress.ends {
            self.acts[call] = Doing::Nothing;
        }
    }

    /// They go as soon as none of its acts is under way.
    fn let_go(&mut self, call: usize) {
        if self.doing(call) == Doing::Nothing {
            give_back(&mut self.owners, call);
        }
    }
}
