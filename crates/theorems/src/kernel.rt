//! Calls that hold modules of a kernel.
ghost use Rattle.hold_turns.specs.Events.{StaysWhileHeld};
ghost use Rattle.hold_turns.specs.Rule.{AreOne};
ghost use Rattle.hold_turns.specs.Course.{AreMade};
ghost use Rattle.theorems.specs.Kernel.{HaveNotBegun};

use hold_turns::{Call, Choice, Hands, Table, holds_keep_modules};
use std::alloc::Global;

/// Calls load modules of a kernel and hold them for holders, give them back, and remove them. They make their turns in any
/// order, each over the table that they share and with hands of its own, and any is cut off between any two turns, or within
/// one: its table or its hands then answer with an error. An act that a call began, an insmod(8) or an rmmod(8), goes on after
/// it was cut off, and does its work then, or not. From the moment that the reply to a get is begun until a put of that holder
/// gives the module back, the kernel has it.
///
/// Nor does it hold because nothing is done: each choice was made, and a call goes on along its course.
///
/// Premises: table and kernel are one at first, and no call has begun. The traits: lines of the table are made or not, a
/// removal begins only if nobody holds the module, hands do as they are told, a lock lasts as long as the act of its call, a
/// look at /proc/modules shows what the kernel has, and nobody else loads or removes.
pub fn answered_holds_keep_modules<T: Table, H: Hands>(
    alloc: Global,
    calls: &mut [Call<'_>],
    choices: &[Choice],
    table: &mut T,
    hands: &mut H,
)
    requires one { AreOne (T.view table.old) (H.view hands.old) }
    requires new { HaveNotBegun calls.old (H.view hands.old) }
    ensures kept { StaysWhileHeld (H.view hands.new).events }
    ensures made { AreMade calls.old choices.now calls.new }
    ensures one { AreOne (T.view table.new) (H.view hands.new) }
{
    holds_keep_modules(alloc, calls, choices, table, hands);
}
