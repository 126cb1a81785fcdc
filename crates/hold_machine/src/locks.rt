//! The locks of modules.
ghost use Rattle.std.specs.Prelude.{◌≡◌, ◌⊎◌, ℕ, true, Some, All, length};
ghost use Rattle.hold_machine.specs.Locks.{owner_in, CanHave, AllKept, AllHad};

/// Whether a call has, or could have, the lock of a module.
fn can_have(owners: &[Option<usize>], call: usize, slot: usize) -> bool
    ensures { result ≡ true → CanHave owners.now call slot }
{
    match owners.get(slot) {
        Some(None) => true,
        Some(Some(owner)) => *owner == call,
        None => false,
    }
}

/// Whether a call has, or could have, all these locks.
pub(crate) fn can_have_all(owners: &[Option<usize>], call: usize, slots: &[usize]) -> bool
    ensures { result ≡ true → All (λ (m : ℕ). CanHave owners.now call m) slots.now }
{
    for slot in slots {
        if !can_have(owners, call, *slot) {
            return false;
        }
    }
    true
}

/// A call gets locks that nobody else has.
pub(crate) fn take(owners: &mut [Option<usize>], call: usize, slots: &[usize])
    requires { All (λ (m : ℕ). CanHave owners.old call m) slots.now }
    ensures kept { AllKept owners.old owners.new }
    ensures had { AllHad call slots.now owners.new }
{
    for slot in slots {
        owners[*slot] = Some(call);
    }
}

/// A call gives all its locks back.
pub(crate) fn give_back(owners: &mut [Option<usize>], call: usize)
    ensures { (m c : ℕ) → owner_in owners.old m ≡ Some c → (c ≡ call) ⊎ (owner_in owners.new m ≡ Some c) }
{
    for slot in 0..owners.len() {
        if owners[slot] == Some(call) {
            owners[slot] = None;
        }
    }
}
