//! A call, as a value that makes turns.
ghost use Rattle.std.specs.Prelude.{◌≡◌, [], true, OnOk};
ghost use Rattle.hold_turns.specs.Rule.{AreOne, IsTurn, is_over, Knows};
ghost use Rattle.hold_turns.specs.Course.{HasTurned, IsAsked};
ghost use Rattle.hold_turns.specs.declared.call.State.TheVariants.{Begins};

use crate::hands::{Gone, Hands};
use crate::table::{Broken, Table};
use std::alloc::{AllocFailed, Global};

/// What a call is asked.
#[derive(Clone, Copy, Debug, PartialEq, Eq, Drop)]
pub enum Job {
    /// The holder holds modules, which are loaded first, with what they need.
    Get,
    /// The holder gives modules back.
    Put,
    /// Modules are removed.
    Remove,
}

/// Why a call ended before it was done.
#[derive(Clone, Copy, Debug, PartialEq, Eq, Drop)]
pub enum Stopped {
    OutOfMemory,
    /// Its hands have ended.
    Gone,
    /// Its table could not be read or written.
    Broken,
}

impl<T: Drop> From<AllocFailed<T>> for Stopped {
    fn from(_error: AllocFailed<T>) -> Stopped {
        Stopped::OutOfMemory
    }
}

impl From<Gone> for Stopped {
    fn from(_error: Gone) -> Stopped {
        Stopped::Gone
    }
}

impl From<Broken> for Stopped {
    fn from(_error: Broken) -> Stopped {
        Stopped::Broken
    }
}

/// How a call ended.
#[derive(Clone, Copy, Debug, PartialEq, Eq, Drop)]
pub enum End {
    Done,
    /// A module cannot be loaded, or its removal cannot begin: the table refuses, or the kernel does.
    Refused(usize),
    Stopped(Stopped),
    CutOff,
}

/// What a call does in its next turn.
#[derive(Clone, Copy, Debug, PartialEq, Eq, Drop)]
pub enum State {
    /// It has made no turn.
    Begins,
    /// It asks the table to hold.
    Holding,
    /// It tries for the locks of the modules that are to be loaded or removed.
    Locking,
    /// It ends what others, or its own act, left half done with the modules that it has locked.
    Bringing,
    /// It begins the next load or removal.
    Stepping,
    /// It waits for the end of its act.
    Acting,
    /// It looks whether the kernel has what it holds, and begins its reply.
    Looking,
    Over(End),
}

/// A call. Holder, modules and plan are what it was asked: the plan has the modules that a get loads, needs first, or that a
/// removal removes, users first.
#[derive(Drop)]
pub struct Call<'a> {
    pub(crate) job: Job,
    pub(crate) holder: &'a [u8],
    pub(crate) modules: &'a [usize],
    pub(crate) plan: &'a [usize],
    /// The modules whose locks it has.
    pub(crate) locked: Vec<usize>,
    /// The module of its last act.
    pub(crate) tried: Option<usize>,
    pub(crate) state: State,
}

impl<'a> Call<'a> {
    fn of(
        alloc: Global,
        job: Job,
        holder: &'a [u8],
        modules: &'a [usize],
        plan: &'a [usize],
    ) -> Call<'a>
        ensures begins { result.state ≡ Begins }
        ensures none { result.locked.items ≡ [] }
        ensures asked { IsAsked job holder.now modules.now plan.now result }
    {
        Call {
            job,
            holder,
            modules,
            plan,
            locked: Vec::new(alloc),
            tried: None,
            state: State::Begins,
        }
    }

    /// A call that gets modules for a holder.
    pub fn get(alloc: Global, holder: &'a [u8], modules: &'a [usize], plan: &'a [usize]) -> Call<'a>
        ensures begins { result.state ≡ Begins }
        ensures none { result.locked.items ≡ [] }
        ensures asked { IsAsked Job.Get holder.now modules.now plan.now result }
    {
        Call::of(alloc, Job::Get, holder, modules, plan)
    }

    /// A call that gives modules of a holder back.
    pub fn put(alloc: Global, holder: &'a [u8], modules: &'a [usize]) -> Call<'a>
        ensures begins { result.state ≡ Begins }
        ensures none { result.locked.items ≡ [] }
        ensures asked { IsAsked Job.Put holder.now modules.now [] result }
    {
        Call::of(alloc, Job::Put, holder, modules, &[])
    }

    /// A call that removes modules.
    pub fn remove(alloc: Global, plan: &'a [usize]) -> Call<'a>
        ensures begins { result.state ≡ Begins }
        ensures none { result.locked.items ≡ [] }
        ensures asked { IsAsked Job.Remove [] [] plan.now result }
    {
        Call::of(alloc, Job::Remove, &[], &[], plan)
    }

    /// What it does next, or how it ended.
    pub fn state(&self) -> State
        ensures { result ≡ self.now.state }
    {
        self.state
    }

    /// It is cut off, if it is not over.
    pub fn cut(&mut self)
        ensures { is_over self.new.state ≡ true }
    {
        if !self.is_over() {
            self.state = State::Over(End::CutOff);
        }
    }

    /// Whether it makes no further turn.
    pub fn is_over(&self) -> bool
        ensures { result ≡ is_over self.now.state }
    {
        matches!(self.state, State::Over(_))
    }

    /// What the call does next, by its state.
    fn act<T: Table, H: Hands>(
        &mut self,
        alloc: Global,
        number: usize,
        table: &mut T,
        hands: &mut H,
    ) -> Result<(), Stopped>
        requires one { AreOne (T.view table.old) (H.view hands.old) }
        requires knows { Knows number self.old (T.view table.old) (H.view hands.old) }
        ensures turn { IsTurn number (T.view table.old) (H.view hands.old) (T.view table.new) (H.view hands.new) }
        ensures knows { OnOk result (Knows number self.new (T.view table.new) (H.view hands.new)) }
        ensures goes { OnOk result (HasTurned self.old self.new) }
    {
        match self.state {
            State::Begins => self.begin(number, table, hands),
            State::Holding => self.hold(number, table, hands),
            State::Locking => self.lock(alloc, number, table, hands),
            State::Bringing => self.bring(number, table, hands),
            State::Stepping => self.step(number, table, hands),
            State::Acting => self.wait(number, table, hands),
            State::Looking => self.look(number, table, hands),
            State::Over(_) => Ok(()),
        }
    }

    /// One turn of the call of this number. Nothing, if it is over.
    ///
    /// A turn is one act of the hands, or one tenure of the table with a look at the kernel. Table and kernel are one after it, and
    /// what other calls know is as true as before.
    pub fn turn<T: Table, H: Hands>(
        &mut self,
        alloc: Global,
        number: usize,
        table: &mut T,
        hands: &mut H,
    )
        requires one { AreOne (T.view table.old) (H.view hands.old) }
        requires knows { Knows number self.old (T.view table.old) (H.view hands.old) }
        ensures turn { IsTurn number (T.view table.old) (H.view hands.old) (T.view table.new) (H.view hands.new) }
        ensures knows { Knows number self.new (T.view table.new) (H.view hands.new) }
        ensures goes { HasTurned self.old self.new }
    {
        match self.act(alloc, number, table, hands) {
            Ok(()) => {}
            Err(stopped) => self.state = State::Over(End::Stopped(stopped)),
        }
    }
}
