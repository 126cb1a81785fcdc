//! Which files of a configuration count.
ghost use Rattle.std.specs.Prelude.{◌≡◌, IfOk};
ghost use Rattle.modprobe_files.specs.Files.{counted_files, files_of, sources_of};
ghost use Rattle.theorems.specs.Files.{HasOneHiddenMore};

use kmod_version::Kmod;
use modprobe_files::{File, Source, counted_files, hidden_files_do_not_count};
use std::alloc::{AllocError, Global};

/// A file that one of its name in an earlier source hides has no influence (modprobe.d(5)): without it the same files count, in the
/// same order. The first are those that count of the sources, the second those of the others.
pub fn hidden_files_have_no_influence(
    alloc: Global,
    kmod: Kmod,
    sources: &[Source],
    others: &[Source],
) -> Result<(Vec<File>, Vec<File>), AllocError>
    requires { HasOneHiddenMore kmod (sources_of sources.now) (sources_of others.now) }
    ensures same { IfOk result (λ files. files_of files.0.items ≡ files_of files.1.items) }
    ensures first { IfOk result (λ files. files_of files.0.items ≡ counted_files kmod (sources_of sources.now)) }
    ensures second { IfOk result (λ files. files_of files.1.items ≡ counted_files kmod (sources_of others.now)) }
{
    hidden_files_do_not_count();
    let first = counted_files(alloc, kmod, sources)?;
    let second = counted_files(alloc, kmod, others)?;
    Ok((first, second))
}
