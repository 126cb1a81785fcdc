//! Turns of many calls, in any order.
ghost use Rattle.std.specs.Prelude.{◌≡◌, ◌<◌, true, length};
ghost use Rattle.hold_turns.specs.Events.{StaysWhileHeld};
ghost use Rattle.hold_turns.specs.Course.{Turns, IsChosen, AreMade};
ghost use Rattle.hold_turns.specs.Rule.{AreOne, AllKnow, IsCut, IsOverAt};

use crate::call::Call;
use crate::hands::Hands;
use crate::table::Table;
use std::alloc::Global;

/// What happens next.
#[derive(Clone, Copy, Debug, PartialEq, Eq, Drop)]
pub enum Choice {
    /// The call of this number makes its turn.
    Next(usize),
    /// It is cut off.
    Cut(usize),
    /// Its act goes on or ends, whether it is alive or cut off. If it is over, its locks may go.
    Ends(usize),
}

/// One call makes its turn. A number that names no call changes nothing.
fn take_turn<T: Table, H: Hands>(
    alloc: Global,
    calls: &mut [Call<'_>],
    number: usize,
    table: &mut T,
    hands: &mut H,
)
    requires one { AreOne (T.view table.old) (H.view hands.old) }
    requires know { AllKnow calls.old (T.view table.old) (H.view hands.old) }
    ensures one { AreOne (T.view table.new) (H.view hands.new) }
    ensures know { AllKnow calls.new (T.view table.new) (H.view hands.new) }
    ensures turns { Turns number calls.old calls.new }
{
    if number < calls.len() {
        calls[number].turn(alloc, number, table, hands);
    }
}

/// One call is cut off. What it began goes on.
fn cut_off(calls: &mut [Call<'_>], number: usize)
    ensures { IsCut number calls.old calls.new }
{
    if number < calls.len() {
        calls[number].cut();
    }
}

/// Whether the call of a number is over.
fn is_over_at(calls: &[Call<'_>], number: usize) -> bool
    requires { number < length calls.now }
    ensures { result ≡ true → IsOverAt number calls.now }
{
    calls[number].is_over()
}

/// The act of a call goes on or ends.
fn go_on<T: Table, H: Hands>(calls: &[Call<'_>], number: usize, table: &mut T, hands: &mut H)
    requires one { AreOne (T.view table.old) (H.view hands.old) }
    requires know { AllKnow calls.now (T.view table.old) (H.view hands.old) }
    ensures one { AreOne (T.view table.new) (H.view hands.new) }
    ensures know { AllKnow calls.now (T.view table.new) (H.view hands.new) }
{
    hands.go_on(number);
    if number < calls.len() && is_over_at(calls, number) {
        hands.let_go(number);
    }
}

/// Makes one choice.
fn choose<T: Table, H: Hands>(
    alloc: Global,
    calls: &mut [Call<'_>],
    choice: Choice,
    table: &mut T,
    hands: &mut H,
)
    requires one { AreOne (T.view table.old) (H.view hands.old) }
    requires know { AllKnow calls.old (T.view table.old) (H.view hands.old) }
    ensures one { AreOne (T.view table.new) (H.view hands.new) }
    ensures know { AllKnow calls.new (T.view table.new) (H.view hands.new) }
    ensures chosen { IsChosen choice calls.old calls.new }
{
    match choice {
        Choice::Next(number) => take_turn(alloc, calls, number, table, hands),
        Choice::Cut(number) => cut_off(calls, number),
        Choice::Ends(number) => go_on(calls, number, table, hands),
    }
}

/// Turns of calls, in any order, with any of them cut off at any time.
pub fn holds_keep_modules<T: Table, H: Hands>(
    alloc: Global,
    calls: &mut [Call<'_>],
    choices: &[Choice],
    table: &mut T,
    hands: &mut H,
)
    requires one { AreOne (T.view table.old) (H.view hands.old) }
    requires know { AllKnow calls.old (T.view table.old) (H.view hands.old) }
    ensures kept { StaysWhileHeld (H.view hands.new).events }
    ensures made { AreMade calls.old choices.now calls.new }
    ensures one { AreOne (T.view table.new) (H.view hands.new) }
    ensures know { AllKnow calls.new (T.view table.new) (H.view hands.new) }
{
    for choice in choices {
        choose(alloc, calls, *choice, table, hands);
    }
}
