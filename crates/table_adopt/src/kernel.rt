//! The modules that a kernel has.
ghost use Rattle.std.specs.Prelude.{◌≡◌};
ghost use Rattle.table_adopt.specs.Kernel.{module_of, modules_of_text, kernel_state, ReadsModule, ReadsModules};

use proc_modules::{LineError, LineState, read_line};
use std::alloc::{AllocError, AllocFailed, Global};
use text_parts::{Name, is_same, whole_lines};
use thiserror::Error;

/// A module that the kernel has.
#[derive(Drop)]
pub struct KernelModule {
    /// Its name, with `_` for each `-`.
    pub name: Name,
    pub state: LineState,
}

/// Why a text is no list of a kernel's modules.
#[derive(Clone, Copy, Debug, PartialEq, Eq, Drop, Error)]
pub enum KernelFault {
    /// The first line that is none of /proc/modules, by its number from 1, and what is wrong with it.
    #[error("line {line}: {error}")]
    BadLine { line: usize, error: LineError },
    /// There was no memory.
    #[error("out of memory")]
    Memory,
}

impl From<AllocError> for KernelFault {
    ghost use Rattle.std.specs.Prelude.{◌≡◌};
    ghost use Rattle.table_adopt.specs.declared.kernel.KernelFault.TheVariants.{Memory};

    ghost from_gives = { λ _ fault. fault ≡ Memory };

    fn from(_error: AllocError) -> KernelFault {
        KernelFault::Memory
    }
}

impl<T: Drop> From<AllocFailed<T>> for KernelFault {
    ghost use Rattle.std.specs.Prelude.{◌≡◌};
    ghost use Rattle.table_adopt.specs.declared.kernel.KernelFault.TheVariants.{Memory};

    ghost from_gives = { λ _ fault. fault ≡ Memory };

    fn from(_error: AllocFailed<T>) -> KernelFault {
        KernelFault::Memory
    }
}

/// The module of a line of this number.
fn read_module(alloc: Global, number: usize, text: &[u8]) -> Result<KernelModule, KernelFault>
    ensures { ReadsModule (module_of number text.now) result }
{
    match read_line(alloc, text) {
        Ok((line, _)) => Ok(KernelModule {
            name: line.name,
            state: line.state,
        }),
        Err(LineError::Memory) => Err(KernelFault::Memory),
        Err(error) => Err(KernelFault::BadLine {
            line: number,
            error,
        }),
    }
}

/// The modules of a text of /proc/modules (proc(5)), in the order of its lines: the newest first. A text without a line has
/// none. It is refused at the first line that is none, with its number from 1.
pub fn read_modules(alloc: Global, text: &[u8]) -> Result<Vec<KernelModule>, KernelFault>
    ensures { ReadsModules (modules_of_text text.now) result }
{
    let mut found = Vec::new(alloc);
    let mut lines = whole_lines(text);
    let mut number: usize = 1;
    while let Some(line) = lines.next() {
        found.push(read_module(alloc, number, line)?)?;
        number += 1;
    }
    Ok(found)
}

/// What the kernel says of a name: the state in the first line of that name.
pub(crate) fn kernel_state(kernel: &[KernelModule], name: &[u8]) -> Option<LineState>
    ensures { result ≡ kernel_state kernel.now name.now }
{
    for entry in kernel {
        if is_same(entry.name.as_bytes(), name) {
            return Some(entry.state);
        }
    }
    None
}
