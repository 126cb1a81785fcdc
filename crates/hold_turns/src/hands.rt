//! What does as calls tell it.
ghost use Rattle.std.specs.Prelude.{◌≡◌, true, false, Some, All, IfOk, ℕ};
ghost use Rattle.hold_turns.specs.Events.{Asked, Begun, GivesBack, IsIn};
ghost use Rattle.hold_turns.specs.Views.{HandsView, Idle, Loads, Removes};
ghost use Rattle.hold_turns.specs.Acts.{IsQuiet, Notes, Unlocks, MayBegin, GoesOn, LetsGo};

/// The hands of a call have ended: they answer nothing any more. What they were told is under way, or it was not begun.
#[derive(Clone, Copy, Debug, PartialEq, Eq, Drop)]
pub struct Gone;

/// The hands of all calls, the kernel, and who takes the replies. Calls go by number.
pub trait Hands {
    ghost view: { Self → HandsView };

    /// Tries for the locks of modules: all or none. `false`: another call has one of them. It never waits.
    fn lock(&mut self, call: usize, slots: &[usize]) -> Result<bool, Gone>
        ensures quiet { IsQuiet (view self.old) (view self.new) }
        ensures had { IfOk result (λ had. had ≡ true → All (λ (m : ℕ). (view self.new).owner m ≡ Some call) slots.now) };

    /// Gives all locks of the call back.
    fn unlock(&mut self, call: usize)
        requires idle { (view self.old).acts call ≡ Idle }
        ensures { Unlocks call (view self.old) (view self.new) };

    /// Whether the kernel has a module whose lock the call has.
    fn listed(&mut self, call: usize, slot: usize) -> Result<bool, Gone>
        requires locked { (view self.old).owner slot ≡ Some call }
        requires idle { (view self.old).acts call ≡ Idle }
        ensures quiet { IsQuiet (view self.old) (view self.new) }
        ensures there { IfOk result (λ there. there ≡ true → IsIn (view self.new).events slot) }
        ensures not { IfOk result (λ there. there ≡ false → IsIn (view self.new).events slot → ⊥) };

    /// Whether the kernel has all these modules: a look without their locks.
    fn sees(&mut self, slots: &[usize]) -> Result<bool, Gone>
        ensures quiet { IsQuiet (view self.old) (view self.new) }
        ensures there { IfOk result (λ there. there ≡ true → All (λ (m : ℕ). IsIn (view self.new).events m) slots.now) }
        ensures shown { IfOk result (λ there. there ≡ true → (view self.new).shown ≡ slots.now) };

    /// Begins insmod(8) of a module.
    fn insmod(&mut self, call: usize, slot: usize) -> Result<(), Gone>
        requires locked { (view self.old).owner slot ≡ Some call }
        requires idle { (view self.old).acts call ≡ Idle }
        ensures { MayBegin call (Loads slot) (view self.old) (view self.new) };

    /// Begins rmmod(8) of a module.
    fn rmmod(&mut self, call: usize, slot: usize) -> Result<(), Gone>
        requires locked { (view self.old).owner slot ≡ Some call }
        requires idle { (view self.old).acts call ≡ Idle }
        ensures { MayBegin call (Removes slot) (view self.old) (view self.new) };

    /// Whether the act of the call has ended. Its status is told to nobody.
    fn has_ended(&mut self, call: usize) -> Result<bool, Gone>
        ensures quiet { IsQuiet (view self.old) (view self.new) }
        ensures ended { IfOk result (λ ended. ended ≡ true → (view self.new).acts call ≡ Idle) };

    /// A get was asked.
    fn note_asked(&mut self, call: usize, holder: &[u8], modules: &[usize])
        ensures { Notes (Asked call holder.now modules.now) (view self.old) (view self.new) };

    /// The call begins its reply: the get is done. A look has shown its modules right before.
    fn begin_reply(&mut self, call: usize, holder: &[u8], modules: &[usize])
        requires shown { (view self.old).shown ≡ modules.now }
        ensures { Notes (Begun call holder.now modules.now) (view self.old) (view self.new) };

    /// A put is about to write that the holder gives modules back.
    fn note_put(&mut self, holder: &[u8], modules: &[usize])
        ensures { Notes (GivesBack holder.now modules.now) (view self.old) (view self.new) };

    /// The act of a call goes on: it does its work, or not, and ends, or not.
    fn go_on(&mut self, call: usize)
        ensures { GoesOn call (view self.old) (view self.new) };

    /// A call is over, cut off or by itself. Once no act of it is under way, its locks go.
    fn let_go(&mut self, call: usize)
        ensures { LetsGo call (view self.old) (view self.new) };
}
