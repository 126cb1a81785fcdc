//! Where the kernel shows its modules (sysfs(5)).
ghost use Rattle.std.specs.Prelude.{◌≡◌, IfOk};
ghost use Rattle.modprobe_files.specs.KernelFolders.{holders_folder};

use crate::host::joined;
use std::alloc::{AllocError, Global};

/// The folder that has a folder for each module.
pub const MODULES: &[u8] = b"/sys/module";

/// The folder that lists the holders of a module. It fails only if memory runs out.
pub fn holders_folder(alloc: Global, name: &[u8]) -> Result<Vec<u8>, AllocError>
    ensures { IfOk result (λ folder. folder.items ≡ holders_folder name.now) }
{
    let own = joined(alloc, MODULES, b"/", name)?;
    joined(alloc, &own, b"/holders", b"")
}
