//! Reads of states and needs.
ghost use Rattle.std.specs.Prelude.{◌≡◌, not, find, slice_index_or};
ghost use Rattle.dep_index.specs.Table.{is_absent, is_loading, is_live, is_draining, is_unloading, needs_slot};

use crate::table::slots::Slots;
use crate::table::states::ModuleState;

/// The state of the slot, Absent past the end.
pub fn state_at(states: &[ModuleState], slot: usize) -> ModuleState
    ensures { result ≡ slice_index_or states.now slot ModuleState.Absent }
{
    states.get(slot).copied().unwrap_or(ModuleState::Absent)
}

/// Whether the module takes references and may be needed.
pub fn is_live(state: ModuleState) -> bool
    ensures { result ≡ is_live state }
{
    matches!(state, ModuleState::Live)
}

/// Whether the module is not in the table.
pub fn is_absent(state: ModuleState) -> bool
    ensures { result ≡ is_absent state }
{
    matches!(state, ModuleState::Absent)
}

/// Whether the module gives no further reference.
pub fn is_draining(state: ModuleState) -> bool
    ensures { result ≡ is_draining state }
{
    matches!(state, ModuleState::Draining)
}

/// Whether the module's removal has begun.
pub fn is_unloading(state: ModuleState) -> bool
    ensures { result ≡ is_unloading state }
{
    matches!(state, ModuleState::Unloading)
}

/// Whether the module's load has begun.
pub fn is_loading(state: ModuleState) -> bool
    ensures { result ≡ is_loading state }
{
    matches!(state, ModuleState::Loading)
}

/// The first need that is not Live, by the states of all slots.
pub fn first_missing(states: &[ModuleState], needs: &[u16]) -> Option<u16>
    ensures { result ≡ find (λ n. not (is_live (slice_index_or states.now n ModuleState.Absent))) needs.now }
{
    needs
        .iter()
        .copied()
        .find(|need| !is_live(state_at(states, *need as usize)))
}

/// Whether the slot `user` needs the slot; no slot past the end needs one.
pub fn needs_slot(slots: &Slots, slot: usize, user: u16) -> bool
    ensures { result ≡ needs_slot slots.now slot user }
{
    let user = user as usize;
    user < slots.len() && slots.needs(user).iter().any(|need| *need as usize == slot)
}
