//! What a call does in each of its states.
ghost use Rattle.std.specs.Prelude.{◌≡◌, [], true, Some, OnOk};
ghost use Rattle.hold_turns.specs.Views.{Idle};
ghost use Rattle.hold_turns.specs.Acts.{Unlocks};
ghost use Rattle.hold_turns.specs.Rule.{AreOne, IsTurn, IsReady, HasLocks, HoldsOwed, needs_no_lock, Knows};
ghost use Rattle.hold_turns.specs.declared.call.State.TheVariants.{Begins, Holding, Locking, Bringing, Stepping, Acting, Looking};
ghost use Rattle.hold_turns.specs.Course.{may_come};

use crate::bring::{bring_all, first_of, missing_of};
use crate::call::{Call, End, Job, State, Stopped};
use crate::hands::Hands;
use crate::table::{Half, Table};
use std::alloc::Global;

impl<'a> Call<'a> {
    /// Gives its locks back. What it does next needs none.
    fn let_locks_go<H: Hands>(&mut self, number: usize, next: State, hands: &mut H)
        requires { (H.view hands.old).acts number ≡ Idle }
        ensures unlocks { Unlocks number (H.view hands.old) (H.view hands.new) }
        ensures none { self.new.locked.items ≡ [] }
        ensures next { self.new.state ≡ next }
    {
        hands.unlock(number);
        self.locked.clear();
        self.state = next;
    }

    /// Its first turn. A put makes its line in it, and is done.
    pub(crate) fn begin<T: Table, H: Hands>(
        &mut self,
        number: usize,
        table: &mut T,
        hands: &mut H,
    ) -> Result<(), Stopped>
        requires one { AreOne (T.view table.old) (H.view hands.old) }
        requires ready { IsReady number self.old.locked.items (H.view hands.old) }
        ensures turn { IsTurn number (T.view table.old) (H.view hands.old) (T.view table.new) (H.view hands.new) }
        ensures knows { OnOk result (Knows number self.new (T.view table.new) (H.view hands.new)) }
        ensures goes { OnOk result (may_come Begins self.new.state ≡ true) }
    {
        match self.job {
            Job::Get => {
                hands.note_asked(number, self.holder, self.modules);
                self.state = State::Holding;
                Ok(())
            }
            Job::Put => {
                hands.note_put(self.holder, self.modules);
                table.release(self.holder, self.modules)?;
                self.state = State::Over(End::Done);
                Ok(())
            }
            Job::Remove => {
                self.state = State::Locking;
                Ok(())
            }
        }
    }

    /// The holder holds all modules, or locks are needed.
    pub(crate) fn hold<T: Table, H: Hands>(
        &mut self,
        number: usize,
        table: &mut T,
        hands: &mut H,
    ) -> Result<(), Stopped>
        requires one { AreOne (T.view table.old) (H.view hands.old) }
        requires ready { IsReady number self.old.locked.items (H.view hands.old) }
        ensures turn { IsTurn number (T.view table.old) (H.view hands.old) (T.view table.new) (H.view hands.new) }
        ensures knows { OnOk result (Knows number self.new (T.view table.new) (H.view hands.new)) }
        ensures goes { OnOk result (may_come Holding self.new.state ≡ true) }
    {
        if table.hold(self.holder, self.modules)? {
            self.state = State::Looking;
            return Ok(());
        }
        self.let_locks_go(number, State::Locking, hands);
        Ok(())
    }

    /// Tries for the locks of what is not yet as it wants. If another call has one of them, it begins anew.
    pub(crate) fn lock<T: Table, H: Hands>(
        &mut self,
        alloc: Global,
        number: usize,
        table: &mut T,
        hands: &mut H,
    ) -> Result<(), Stopped>
        requires one { AreOne (T.view table.old) (H.view hands.old) }
        requires ready { IsReady number self.old.locked.items (H.view hands.old) }
        ensures turn { IsTurn number (T.view table.old) (H.view hands.old) (T.view table.new) (H.view hands.new) }
        ensures knows { OnOk result (Knows number self.new (T.view table.new) (H.view hands.new)) }
        ensures goes { OnOk result (may_come Locking self.new.state ≡ true) }
    {
        let slots = missing_of(alloc, self.job, self.plan, table)?;
        if hands.lock(number, &slots)? {
            self.locked = slots;
            self.state = State::Bringing;
            return Ok(());
        }
        self.state = self.anew();
        Ok(())
    }

    /// Ends what is half done with the modules that it has locked.
    pub(crate) fn bring<T: Table, H: Hands>(
        &mut self,
        number: usize,
        table: &mut T,
        hands: &mut H,
    ) -> Result<(), Stopped>
        requires one { AreOne (T.view table.old) (H.view hands.old) }
        requires ready { IsReady number self.old.locked.items (H.view hands.old) }
        ensures turn { IsTurn number (T.view table.old) (H.view hands.old) (T.view table.new) (H.view hands.new) }
        ensures knows { OnOk result (Knows number self.new (T.view table.new) (H.view hands.new)) }
        ensures goes { OnOk result (may_come Bringing self.new.state ≡ true) }
    {
        bring_all(number, &self.locked, table, hands)?;
        self.state = State::Stepping;
        Ok(())
    }

    /// Begins the load of a module. If the table refuses, it begins anew, since a need may have been removed.
    fn begin_load<T: Table, H: Hands>(
        &mut self,
        number: usize,
        slot: usize,
        table: &mut T,
        hands: &mut H,
    ) -> Result<(), Stopped>
        requires one { AreOne (T.view table.old) (H.view hands.old) }
        requires ready { IsReady number self.old.locked.items (H.view hands.old) }
        requires locked { (H.view hands.old).owner slot ≡ Some number }
        ensures turn { IsTurn number (T.view table.old) (H.view hands.old) (T.view table.new) (H.view hands.new) }
        ensures knows { OnOk result (Knows number self.new (T.view table.new) (H.view hands.new)) }
        ensures goes { OnOk result (may_come Stepping self.new.state ≡ true) }
    {
        if table.make(slot, Half::BeginLoad)? {
            hands.insmod(number, slot)?;
            self.tried = Some(slot);
            self.state = State::Acting;
            return Ok(());
        }
        self.let_locks_go(number, State::Holding, hands);
        Ok(())
    }

    /// Begins the removal of a module, if the table allows it.
    fn begin_removal<T: Table, H: Hands>(
        &mut self,
        number: usize,
        slot: usize,
        table: &mut T,
        hands: &mut H,
    ) -> Result<(), Stopped>
        requires one { AreOne (T.view table.old) (H.view hands.old) }
        requires ready { IsReady number self.old.locked.items (H.view hands.old) }
        requires locked { (H.view hands.old).owner slot ≡ Some number }
        ensures turn { IsTurn number (T.view table.old) (H.view hands.old) (T.view table.new) (H.view hands.new) }
        ensures knows { OnOk result (Knows number self.new (T.view table.new) (H.view hands.new)) }
        ensures goes { OnOk result (may_come Stepping self.new.state ≡ true) }
    {
        if table.make(slot, Half::BeginRemove)? {
            hands.rmmod(number, slot)?;
            self.tried = Some(slot);
            self.state = State::Acting;
            return Ok(());
        }
        self.let_locks_go(number, State::Over(End::Refused(slot)), hands);
        Ok(())
    }

    /// Begins the load or the removal of a module whose lock the call has.
    fn begin_act<T: Table, H: Hands>(
        &mut self,
        number: usize,
        slot: usize,
        table: &mut T,
        hands: &mut H,
    ) -> Result<(), Stopped>
        requires one { AreOne (T.view table.old) (H.view hands.old) }
        requires ready { IsReady number self.old.locked.items (H.view hands.old) }
        requires locked { (H.view hands.old).owner slot ≡ Some number }
        ensures turn { IsTurn number (T.view table.old) (H.view hands.old) (T.view table.new) (H.view hands.new) }
        ensures knows { OnOk result (Knows number self.new (T.view table.new) (H.view hands.new)) }
        ensures goes { OnOk result (may_come Stepping self.new.state ≡ true) }
    {
        match self.job {
            Job::Remove => self.begin_removal(number, slot, table, hands),
            Job::Get | Job::Put => self.begin_load(number, slot, table, hands),
        }
    }

    /// The next load or removal of its plan, if it has the lock. What its own act did not do, is refused.
    fn step_at<T: Table, H: Hands>(
        &mut self,
        number: usize,
        slot: usize,
        table: &mut T,
        hands: &mut H,
    ) -> Result<(), Stopped>
        requires one { AreOne (T.view table.old) (H.view hands.old) }
        requires ready { IsReady number self.old.locked.items (H.view hands.old) }
        ensures turn { IsTurn number (T.view table.old) (H.view hands.old) (T.view table.new) (H.view hands.new) }
        ensures knows { OnOk result (Knows number self.new (T.view table.new) (H.view hands.new)) }
        ensures goes { OnOk result (may_come Stepping self.new.state ≡ true) }
    {
        if self.tried == Some(slot) {
            self.let_locks_go(number, State::Over(End::Refused(slot)), hands);
            return Ok(());
        }
        if self.locked.contains(&slot) {
            return self.begin_act(number, slot, table, hands);
        }
        self.let_locks_go(number, self.anew(), hands);
        Ok(())
    }

    /// The next load or removal of its plan, if one is left.
    pub(crate) fn step<T: Table, H: Hands>(
        &mut self,
        number: usize,
        table: &mut T,
        hands: &mut H,
    ) -> Result<(), Stopped>
        requires one { AreOne (T.view table.old) (H.view hands.old) }
        requires ready { IsReady number self.old.locked.items (H.view hands.old) }
        ensures turn { IsTurn number (T.view table.old) (H.view hands.old) (T.view table.new) (H.view hands.new) }
        ensures knows { OnOk result (Knows number self.new (T.view table.new) (H.view hands.new)) }
        ensures goes { OnOk result (may_come Stepping self.new.state ≡ true) }
    {
        let next = first_of(self.job, self.plan, table)?;
        match next {
            Some(slot) => self.step_at(number, slot, table, hands),
            None => self.end_plan(number, table, hands),
        }
    }

    /// Its plan is done.
    fn end_plan<T: Table, H: Hands>(
        &mut self,
        number: usize,
        table: &mut T,
        hands: &mut H,
    ) -> Result<(), Stopped>
        requires one { AreOne (T.view table.old) (H.view hands.old) }
        requires ready { IsReady number self.old.locked.items (H.view hands.old) }
        ensures turn { IsTurn number (T.view table.old) (H.view hands.old) (T.view table.new) (H.view hands.new) }
        ensures knows { OnOk result (Knows number self.new (T.view table.new) (H.view hands.new)) }
        ensures goes { OnOk result (may_come Stepping self.new.state ≡ true) }
    {
        match self.job {
            Job::Remove => self.let_locks_go(number, State::Over(End::Done), hands),
            Job::Get | Job::Put => self.state = State::Holding,
        }
        Ok(())
    }

    /// What a call does that has to begin anew.
    fn anew(&self) -> State
        ensures free { needs_no_lock result ≡ true }
        ensures from_step { may_come Stepping result ≡ true }
        ensures from_lock { may_come Locking result ≡ true }
    {
        match self.job {
            Job::Remove => State::Locking,
            Job::Get | Job::Put => State::Holding,
        }
    }

    /// Looks whether its act has ended.
    pub(crate) fn wait<T: Table, H: Hands>(
        &mut self,
        number: usize,
        table: &mut T,
        hands: &mut H,
    ) -> Result<(), Stopped>
        requires one { AreOne (T.view table.old) (H.view hands.old) }
        requires acting { HasLocks number self.old.locked.items (H.view hands.old) }
        requires state { self.old.state ≡ Acting }
        ensures turn { IsTurn number (T.view table.old) (H.view hands.old) (T.view table.new) (H.view hands.new) }
        ensures knows { OnOk result (Knows number self.new (T.view table.new) (H.view hands.new)) }
        ensures goes { OnOk result (may_come Acting self.new.state ≡ true) }
    {
        if hands.has_ended(number)? {
            self.state = State::Bringing;
        }
        Ok(())
    }

    /// Begins its reply, if the kernel has what it holds.
    pub(crate) fn look<T: Table, H: Hands>(
        &mut self,
        number: usize,
        table: &mut T,
        hands: &mut H,
    ) -> Result<(), Stopped>
        requires one { AreOne (T.view table.old) (H.view hands.old) }
        requires ready { IsReady number self.old.locked.items (H.view hands.old) }
        requires owed { HoldsOwed number self.old.holder.now self.old.modules.now (T.view table.old) (H.view hands.old) }
        ensures turn { IsTurn number (T.view table.old) (H.view hands.old) (T.view table.new) (H.view hands.new) }
        ensures knows { OnOk result (Knows number self.new (T.view table.new) (H.view hands.new)) }
        ensures goes { OnOk result (may_come Looking self.new.state ≡ true) }
    {
        if hands.sees(self.modules)? {
            hands.unlock(number);
            hands.begin_reply(number, self.holder, self.modules);
            self.state = State::Over(End::Done);
            return Ok(());
        }
        self.let_locks_go(number, State::Locking, hands);
        Ok(())
    }
}
