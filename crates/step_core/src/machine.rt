//! The machine of steps.
ghost use Rattle.std.specs.Prelude.{◌≡◌, ◌<◌, ◌^◌, Some, None, MatchResult, IfOk};
ghost use Rattle.dep_index.specs.Calls.{opening};
ghost use Rattle.dep_index.specs.Catalogue.{modules_of};

use crate::state::State;
use crate::steps::{Event, Step, StepError};
use dep_index::{Catalogue, Slots};
use std::alloc::{AllocError, Global};
use std::marker::Model;

/// The machine of steps over a catalogue. Contracts see it as the catalogue's modules by slot and a state.
#[derive(Drop)]
pub struct Machine {
    slots: Slots,
    state: State,
}

impl Model for Machine {
    ghost use Rattle.std.specs.Prelude.{length};
    ghost use Rattle.step_core.specs.Machine.{Running};

    ghost Value = { Running };

    ghost use Rattle.step_core.specs.Sound.{IsSound};

    ghost view = { λ m. record { catalogue = m.slots; state = m.state } };

    ghost invariant = { λ m. IsSound m.slots (length m.state.written.rows) m.state };
}

impl Machine {
    ghost use Rattle.step_core.specs.Machine.{start, step as step_of, step_refusal};
    ghost use Rattle.step_core.specs.Shown.{shown};
    ghost use Rattle.step_core.specs.StepLaw.{StepLaw, WordsAreRight};

    /// The machine over a catalogue in its opening state: every module absent, every word closed, no
    /// reference, no lock held, no thread in a call. So many `calls` may be invoked. Its room is made here:
    /// no step takes memory.
    pub fn new(
        alloc: Global,
        catalogue: &Catalogue,
        workers: usize,
        threads: usize,
        calls: usize,
    ) -> Result<Machine, AllocError>
        requires { workers < 2 ^ 32 }
        ensures over { IfOk result (λ machine. machine.catalogue ≡ modules_of catalogue.now) }
        ensures state { IfOk result (λ machine. machine.state ≡ start (modules_of catalogue.now) workers threads calls) }
        ensures shows { IfOk result (λ machine. shown machine.state ≡ opening (modules_of catalogue.now) workers) }
        ensures words { IfOk result (λ machine. WordsAreRight (modules_of catalogue.now) machine.state) }
    {
        Machine::over(alloc, catalogue.slots(alloc)?, workers, threads, calls)
    }

    /// The same over the modules by slot.
    pub fn over(
        alloc: Global,
        slots: Slots,
        workers: usize,
        threads: usize,
        calls: usize,
    ) -> Result<Machine, AllocError>
        requires { workers < 2 ^ 32 }
        ensures over { IfOk result (λ machine. machine.catalogue ≡ slots) }
        ensures state { IfOk result (λ machine. machine.state ≡ start slots workers threads calls) }
        ensures shows { IfOk result (λ machine. shown machine.state ≡ opening slots workers) }
        ensures words { IfOk result (λ machine. WordsAreRight slots machine.state) }
    {
        let state = State::new(alloc, &slots, workers, threads, calls)?;
        Ok(Machine { slots, state })
    }

    /// Makes one step, or says why it is refused: thread, worker or slot out of range, or no more calls,
    /// tested in this order. A refused step changes nothing. An `Invoke` of a thread in a call gives
    /// `Nothing`, before the number of calls is tested.
    pub fn step(&mut self, step: Step) -> Result<Event, StepError>
        ensures refused { let refusal = step_refusal self.old.catalogue self.old.state step in
            MatchResult result (λ event. refusal ≡ None) (λ error. refusal ≡ Some error) }
        ensures event { IfOk result (λ event. event ≡ (step_of self.old.catalogue self.old.state step).0) }
        ensures state { let after = (step_of self.old.catalogue self.old.state step).1 in
            MatchResult result (λ event. self.new.state ≡ after) (λ error. self.new.state ≡ self.old.state) }
        // a point answers what the one-thread table answers, and makes the shown table its next
        ensures shows { IfOk result (λ event. StepLaw self.old.catalogue self.old.state step event self.new.state) }
        ensures words { WordsAreRight self.new.catalogue self.new.state }
        ensures over { self.new.catalogue ≡ self.old.catalogue }
    {
        if let Some(error) = self.state.refusal(&self.slots, step) {
            return Err(error);
        }
        let event = match step {
            Step::Invoke(thread, call) => self.state.invoke(thread, call),
            Step::Go(thread) => self.state.go(&self.slots, thread),
        };
        Ok(event)
    }
}
