//! What calls are asked.
ghost use Rattle.std.specs.Prelude.{◌≡◌, IfOk};
ghost use Rattle.hold_machine.specs.Runs.{IsBegun, AreBegun};

use hold_turns::Call;
use std::alloc::{AllocError, Global};

/// What a call is asked. Modules go by slot.
#[derive(Clone, Copy, Debug, Drop)]
pub enum Asked<'a> {
    /// The holder holds the modules. The plan has what is loaded first, needs first.
    Get(&'a [u8], &'a [usize], &'a [usize]),
    /// The holder gives the modules back.
    Put(&'a [u8], &'a [usize]),
    /// The modules are removed, users first.
    Remove(&'a [usize]),
}

/// The call that is asked this, before its first turn.
fn begin<'a>(alloc: Global, asked: Asked<'a>) -> Call<'a>
    ensures { IsBegun asked.entry result }
{
    match asked {
        Asked::Get(holder, modules, plan) => Call::get(alloc, holder, modules, plan),
        Asked::Put(holder, modules) => Call::put(alloc, holder, modules),
        Asked::Remove(plan) => Call::remove(alloc, plan),
    }
}

/// The calls that are asked these, before their first turns. It fails only out of memory.
pub(crate) fn begin_all<'a>(alloc: Global, asked: &[Asked<'a>]) -> Result<Vec<Call<'a>>, AllocError>
    ensures { IfOk result (λ calls. AreBegun asked.now calls.items) }
{
    let mut calls = Vec::new(alloc);
    for one in asked {
        calls.push(begin(alloc, *one))?;
    }
    Ok(calls)
}
