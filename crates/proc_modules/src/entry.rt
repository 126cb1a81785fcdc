//! A module of a catalogue as a line of /proc/modules.
ghost use Rattle.std.specs.Prelude.{◌≡◌, ◌<◌, ◌++◌, length, flat_map, All, OnOk};
ghost use Rattle.proc_modules.specs.LineText.{line_text, with_comma};
ghost use Rattle.proc_modules.specs.Listings.{names_of, shown, entry_line};

use crate::line::LineState;
use crate::write::{push_head, push_tail, push_user};
use dep_index::{Catalogue, ModuleState};
use std::alloc::AllocError;

/// What a listing shows of a module, beside what its catalogue says of it.
#[derive(Clone, Copy, Drop)]
pub struct Entry<'a> {
    pub slot: usize,
    pub state: ModuleState,
    /// How many references there are to the module, those of its users counted.
    pub count: u32,
    /// The slots of the modules that use it, as they are to stand in the line.
    pub users: &'a [u16],
}

fn shown(state: ModuleState) -> LineState
    ensures { result ≡ shown state }
{
    match state {
        ModuleState::Live => LineState::Live,
        ModuleState::Loading => LineState::Loading,
        ModuleState::Absent | ModuleState::Draining | ModuleState::Unloading => {
            LineState::Unloading
        }
    }
}

/// Adds the users, each with its comma.
fn push_users(text: &mut Vec<u8>, catalogue: &Catalogue, users: &[u16]) -> Result<(), AllocError>
    requires { All (λ u. u < length catalogue.now) users.now }
    ensures { OnOk result (text.new.items ≡ text.old.items ++ flat_map with_comma (names_of catalogue.now users.now)) }
{
    for user in users {
        push_user(text, catalogue.name(*user as usize))?;
    }
    Ok(())
}

/// Adds the line of /proc/modules (proc(5)) of a module of the catalogue, whose users are of it too. A module that
/// drains is shown as unloading. It fails only if memory runs out; what stands in the text then is not said.
pub fn push_line(
    text: &mut Vec<u8>,
    catalogue: &Catalogue,
    entry: &Entry<'_>,
) -> Result<(), AllocError>
    requires slot { entry.now.slot < length catalogue.now }
    requires users { All (λ u. u < length catalogue.now) entry.now.users.now }
    ensures { OnOk result (text.new.items ≡ text.old.items ++ line_text (entry_line catalogue.now entry.now)) }
{
    let slot = entry.slot;
    push_head(
        text,
        catalogue.name(slot),
        catalogue.size(slot),
        entry.count,
    )?;
    push_users(text, catalogue, entry.users)?;
    push_tail(
        text,
        !entry.users.is_empty(),
        catalogue.permanent(slot),
        shown(entry.state),
    )?;
    Ok(())
}
