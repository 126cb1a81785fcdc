//! What the sections of a table say.
ghost use Rattle.std.specs.Prelude.{◌≡◌, [], Ok, IfOk};
ghost use Rattle.modprobe.specs.SetupInput.{setup_of};

use modprobe::{AliasForm, Setup, SetupCode, SetupFault, read_whole_setup};
use std::alloc::{AllocError, Global};
use std::fmt;

/// Why a text of sections has no setup.
#[derive(Clone, Copy, Debug, Drop)]
pub enum SectionsFault {
    Memory,
    /// A section says what it may not.
    Setup(SetupFault),
    /// A line `%session` stands in it.
    Session,
}

impl fmt::Display for SectionsFault {
    fn fmt<W: fmt::Write>(&self, f: &mut fmt::Formatter<W>) -> fmt::Result {
        match self {
            SectionsFault::Memory => f.write_str("out of memory"),
            SectionsFault::Setup(fault) => fmt::Display::fmt(fault, f),
            SectionsFault::Session => f.write_str("a line %session stands in it"),
        }
    }
}

impl From<AllocError> for SectionsFault {
    ghost use Rattle.table_folder.specs.declared.setup.SectionsFault.TheVariants.{Memory};

    ghost from_gives = { λ _ fault. fault ≡ Memory };

    fn from(_: AllocError) -> SectionsFault {
        SectionsFault::Memory
    }
}

impl From<SetupFault> for SectionsFault {
    ghost use Rattle.table_folder.specs.Setups.{sections_fault_of};

    ghost from_gives = { λ why fault. fault ≡ sections_fault_of why };

    fn from(fault: SetupFault) -> SectionsFault {
        match fault.code {
            SetupCode::Memory => SectionsFault::Memory,
            _ => SectionsFault::Setup(fault),
        }
    }
}

/// What the sections say. No line of them begins a session.
pub(crate) fn setup_of(alloc: Global, text: &[u8], form: AliasForm) -> Result<Setup, SectionsFault>
    ensures { IfOk result (λ setup. setup_of text.now ≡ Ok (setup, [])) }
{
    let (setup, session) = read_whole_setup(alloc, text, form)?;
    if !session.is_empty() {
        return Err(SectionsFault::Session);
    }
    Ok(setup)
}
