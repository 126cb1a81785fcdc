//! How a call that never waits ended.
ghost use Rattle.std.specs.Prelude.{◌≡◌};
ghost use Rattle.managed_table.specs.Attempts.{attempt_of, missed_or};

/// How a call that never waits ended. `R` is what the call answers.
///
/// At `LockBusy` and `Missed` no call was made, so the caller may try again.
#[derive(Drop)]
pub enum Attempt<R> {
    /// The worker or the slot is none of the table. Nothing was done.
    OutOfRange,
    /// The lock was taken at each try. Nothing else was done.
    LockBusy,
    /// A get had the lock, and each try of the module's word was missed. No call was made.
    Missed,
    /// The call was made once, in one turn, or the table was looked at in one, and this is the answer.
    Answered(R),
}

/// How a call ended that always gets its lock, or takes none. None: `OutOfRange`.
#[inline(always)]
pub fn attempted<R>(answer: Option<R>) -> Attempt<R>
    ensures { result ≡ attempt_of answer }
{
    match answer {
        None => Attempt::OutOfRange,
        Some(answer) => Attempt::Answered(answer),
    }
}

// The same ending, but an answer of None is `Missed`.
#[inline(always)]
pub(crate) fn missed_or_answered<R>(ended: Attempt<Option<R>>) -> Attempt<R>
    ensures { result ≡ missed_or ended }
{
    match ended {
        Attempt::OutOfRange => Attempt::OutOfRange,
        Attempt::LockBusy => Attempt::LockBusy,
        Attempt::Missed | Attempt::Answered(None) => Attempt::Missed,
        Attempt::Answered(Some(answer)) => Attempt::Answered(answer),
    }
}
