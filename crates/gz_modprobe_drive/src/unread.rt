//! Files beside the configuration that are not read, and why.
ghost use Rattle.std.specs.Prelude.{◌≡◌};
ghost use Rattle.gz_modprobe_drive.specs.Unread.{unread_by, unread_name};

use crate::listing::names_of;
use crate::run::Run;
use answer_facts::Unread;
use answer_reasons::UnreadFile;
use kmod_version::Kmod;
use modprobe_files::{Host, Kind, System, is_read, joined, paths_by_rank};
use std::alloc::AllocError;
use std::str;
use text_parts::is_same;

const LIB: &[u8] = b"/lib/modprobe.d";

/// What old kernels' tools read in place of the folders.
const OUTSIDE: &[u8] = b"/etc/modprobe.conf";

fn unread_name(name: &[u8]) -> Unread
    ensures { result ≡ unread_name name.now }
{
    if name.starts_with(b".") {
        Unread::Dotted
    } else {
        Unread::OtherEnding
    }
}

/// Why a name of a folder is not read, by what it leads to. None if it is a file that is read, or that gives way to another
/// of its name.
fn unread_by(kmod: Kmod, name: &[u8], kind: Kind) -> Option<Unread>
    ensures { result ≡ unread_by kmod name.now kind }
{
    match kind {
        Kind::Folder => Some(Unread::Folder),
        Kind::Nothing if is_read(kmod, name) => Some(Unread::LeadsNowhere),
        Kind::File if is_read(kmod, name) => None,
        Kind::Nothing | Kind::File => Some(unread_name(name)),
    }
}

/// Adds the names of a folder that are not read. One that is no UTF-8 is told of by whoever tries to open it.
fn add_names<S: System>(
    host: &Host<'_, S>,
    kmod: Kmod,
    folder: &[u8],
    names: &[Vec<u8>],
    unread: &mut Vec<UnreadFile>,
) -> Result<(), AllocError> {
    for name in names {
        if str::from_utf8(name).is_err() {
            continue;
        }
        let path = joined(host.alloc(), folder, b"/", name)?;
        let kind = host.kind(&path)?;
        if let Some(reason) = unread_by(kmod, name, kind) {
            unread.push(UnreadFile { path, reason })?;
        }
    }
    Ok(())
}

fn add_outside<S: System>(
    host: &Host<'_, S>,
    unread: &mut Vec<UnreadFile>,
) -> Result<(), AllocError> {
    if matches!(host.kind(OUTSIDE)?, Kind::Nothing) {
        return Ok(());
    }
    let path = Vec::from_slice(host.alloc(), OUTSIDE)?;
    let reason = Unread::Outside;
    unread.push(UnreadFile { path, reason })?;
    Ok(())
}

/// Whether a path stands among those before it, as that of a folder which is named twice.
fn is_again(paths: &[&[u8]], number: usize, path: &[u8]) -> bool {
    match paths.get(..number) {
        Some(before) => before.iter().any(|own| is_same(*own, path)),
        None => false,
    }
}

/// The files of these folders, or of those of modprobe.d(5) if none is named, that are not read, each once, in the order of
/// the folders and of the bytes of names. /lib/modprobe.d is skipped if it has just the names of the folder before it, as if
/// /lib is a link to /usr/lib. It fails only if memory runs out.
pub(crate) fn unread_files<S: System>(run: &Run<'_, S>) -> Result<Vec<UnreadFile>, AllocError> {
    let (host, kmod, named) = (run.configuration_host(), run.asked.kmod, run.named);
    let alloc = host.alloc();
    let mut unread = Vec::new(alloc);
    let mut before: Vec<Vec<u8>> = Vec::new(alloc);
    let paths = paths_by_rank(kmod, named);
    for (number, folder) in paths.iter().enumerate() {
        if is_again(paths, number, *folder) {
            continue;
        }
        let names = names_of(host, *folder)?.unwrap_or(Vec::new(alloc));
        if !is_same(*folder, LIB) || names != before {
            add_names(host, kmod, *folder, &names, &mut unread)?;
        }
        before = names;
    }
    if named.is_empty() {
        add_outside(host, &mut unread)?;
    }
    Ok(unread)
}
