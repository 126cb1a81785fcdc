//! The numbers that calls answer, by how they ended.
ghost use Rattle.std.specs.Prelude.{◌≡◌, Some};
ghost use Rattle.gourzhiel.specs.Numbers.{need_of, reply_at, state_at};
ghost use Rattle.gourzhiel.specs.Endings.{IsNumberOf, IsNumberOfState, NeedTold};

use crate::numbers::{
    ABSENT, BUSY, DONE, DRAINING, EXISTS, IN_USE, LIVE, LOADING, NEED_NOT_LIVE, NEEDED_BY, NO,
    NO_ENTRY, NOT_HELD, NOT_LIVE, NOT_LOADING, NOT_UNLOADING, OUT_OF_RANGE, PERMANENT, TOO_MANY,
    UNKNOWN_SYMBOL, UNLOADING, YES,
};
use dep_index::{BeginLoadError, ModuleState, Refusal, Reply};
use managed_table::Attempt;

/// The number of how a call ended.
#[inline(always)]
pub fn ended_number<E: Refusal>(ended: Attempt<Result<(), E>>) -> u32
    ensures { IsNumberOf E.as_reply ended result }
{
    match ended {
        Attempt::OutOfRange => OUT_OF_RANGE,
        Attempt::LockBusy | Attempt::Missed => BUSY,
        Attempt::Answered(answer) => reply_number(Reply::of(answer)),
    }
}

#[inline(always)]
fn reply_number(reply: Reply) -> u32
    ensures { reply_at result (need_of reply) ≡ Some reply }
{
    match reply {
        Reply::Done => DONE,
        Reply::NotLive => NOT_LIVE,
        Reply::TooMany => TOO_MANY,
        Reply::NotHeld => NOT_HELD,
        Reply::Exists => EXISTS,
        Reply::UnknownSymbol => UNKNOWN_SYMBOL,
        Reply::NeedNotLive(_) => NEED_NOT_LIVE,
        Reply::NotLoading => NOT_LOADING,
        Reply::NoEntry => NO_ENTRY,
        Reply::NeededBy => NEEDED_BY,
        Reply::Permanent => PERMANENT,
        Reply::InUse => IN_USE,
        Reply::NotUnloading => NOT_UNLOADING,
        Reply::Yes => YES,
        Reply::No => NO,
    }
}

/// Writes the slot of the need that is not live, if the load ended so.
pub fn tell_need(ended: &Attempt<Result<(), BeginLoadError>>, need: &mut usize)
    ensures { NeedTold ended.now need.old need.new }
{
    if let Attempt::Answered(Err(BeginLoadError::NeedNotLive(found))) = ended {
        *need = *found;
    }
}

/// The number of how a look at a module's state ended.
#[inline(always)]
pub fn ended_state_number(ended: Attempt<ModuleState>) -> u32
    ensures { IsNumberOfState ended result }
{
    match ended {
        Attempt::OutOfRange => OUT_OF_RANGE,
        Attempt::LockBusy | Attempt::Missed => BUSY,
        Attempt::Answered(state) => state_number(state),
    }
}

#[inline(always)]
fn state_number(state: ModuleState) -> u32
    ensures { state_at result ≡ Some state }
{
    match state {
        ModuleState::Absent => ABSENT,
        ModuleState::Loading => LOADING,
        ModuleState::Live => LIVE,
        ModuleState::Draining => DRAINING,
        ModuleState::Unloading => UNLOADING,
    }
}
