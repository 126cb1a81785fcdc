//! The files of the configuration, as they lie on the machine.
ghost use Rattle.std.specs.Prelude.{◌≡◌, IfOk, IfSome};
ghost use Rattle.text_parts.specs.Text.{texts_of};
ghost use Rattle.modprobe_files.specs.Chosen.{AreSources};
ghost use Rattle.modprobe_files.specs.Files.{path_of, single_in, source_of, sources_of};
ghost use Rattle.modprobe_files.specs.Folders.{own_sources, paths_by_rank};

use crate::faults::{is_no_text, reason};
use crate::files::{Name, Source, is_read};
use crate::host::{Host, joined, last_name};
use crate::system::{Kind, System};
use kmod_version::Kmod;
use modprobe_words::{Level, Messages};
use std::alloc::{AllocError, Global};
use std::io::{ErrorKind, Write};

const ETC: &[u8] = b"/etc/modprobe.d";

const RUN: &[u8] = b"/run/modprobe.d";

const LOCAL: &[u8] = b"/usr/local/lib/modprobe.d";

pub(crate) const USR_LIB: &[u8] = b"/usr/lib/modprobe.d";

pub(crate) const LIB: &[u8] = b"/lib/modprobe.d";

/// The folders of modprobe.d(5), by their rank.
const FOLDERS: [&[u8]; 4] = [ETC, RUN, LOCAL, LIB];

/// The same, with the distribution's own.
const FOLDERS_WITH_USR_LIB: [&[u8]; 5] = [ETC, RUN, LOCAL, USR_LIB, LIB];

/// The paths of a configuration by their rank, as this version of kmod searches them: those that were named, or else the
/// folders of modprobe.d(5). Of files of one name that of the first path counts.
pub fn paths_by_rank<'a>(kmod: Kmod, named: &'a [&'a [u8]]) -> &'a [&'a [u8]]
    ensures { texts_of result.now ≡ paths_by_rank kmod (texts_of named.entry.now) }
{
    if !named.is_empty() {
        named
    } else if kmod.reads_usr_lib() {
        &FOLDERS_WITH_USR_LIB
    } else {
        &FOLDERS
    }
}

/// What stands at the path of a name of a folder. A folder is reported, and nothing if no file counts there then.
fn kind_at<S: System, E: Write>(
    host: &Host<'_, S>,
    kmod: Kmod,
    path: &[u8],
    messages: &mut Messages<'_, E>,
) -> Result<Kind, AllocError> {
    match host.look(path) {
        Ok(Kind::Folder) => {
            let text = b"Directories inside directories are not supported: ";
            messages.tell_always(Level::Error, text, path, b"", b"");
            Ok(Kind::Folder)
        }
        Ok(kind) => Ok(kind),
        Err(error) if error.kind() == ErrorKind::OutOfMemory => Err(AllocError),
        Err(error) if is_no_text(&error) => Ok(Kind::File),
        Err(_) => {
            if !kmod.counts_dangling_links() {
                let text = b"Cannot stat directory entry: ";
                messages.tell_always(Level::Error, text, path, b"", b"");
            }
            Ok(Kind::Nothing)
        }
    }
}

/// The names of a folder that are read, and what they lead to.
fn names_in<S: System, E: Write>(
    host: &Host<'_, S>,
    kmod: Kmod,
    path: &[u8],
    messages: &mut Messages<'_, E>,
) -> Result<Vec<Name>, AllocError> {
    let all = match host.names(path) {
        Ok(all) => all,
        Err(error) if error.kind() == ErrorKind::OutOfMemory => return Err(AllocError),
        Err(error) => {
            messages.tell_always(Level::Error, b"opendir(", path, b"): ", reason(&error));
            return Ok(Vec::new(host.alloc()));
        }
    };
    let mut names = Vec::new(host.alloc());
    for text in all.into_iter() {
        if is_read(kmod, &text) {
            let own = joined(host.alloc(), path, b"/", &text)?;
            let leads_to = kind_at(host, kmod, &own, messages)?;
            names.push(Name { text, leads_to })?;
        }
    }
    Ok(names)
}

/// A file of a folder, as a source of its own.
fn single_in(alloc: Global, path: &[u8], name: &[u8]) -> Result<Source, AllocError>
    ensures { IfOk result (λ source. source_of source ≡ single_in path.now name.now) }
{
    let own = joined(alloc, path, b"/", name)?;
    Ok(Source::Single(Vec::from_slice(alloc, name)?, own))
}

/// The files of the folder of modules that belong to the configuration: modules.softdep, and modules.weakdep if it is known.
fn own_sources(alloc: Global, kmod: Kmod, directory: &[u8]) -> Result<Vec<Source>, AllocError>
    ensures { IfOk result (λ sources. sources_of sources.items ≡ own_sources kmod directory.now) }
{
    let mut sources = Vec::new(alloc);
    sources.push(single_in(alloc, directory, b"modules.softdep")?)?;
    if !kmod.knows_weakdeps() {
        return Ok(sources);
    }
    sources.push(single_in(alloc, directory, b"modules.weakdep")?)?;
    Ok(sources)
}

/// The source of a path: a folder, a file, or nothing, which is reported of a path that was named.
fn source_at<S: System, E: Write>(
    host: &Host<'_, S>,
    kmod: Kmod,
    path: &[u8],
    is_named: bool,
    messages: &mut Messages<'_, E>,
) -> Result<Option<Source>, AllocError>
    ensures { IfOk result (λ found. IfSome found (λ source. path_of (source_of source) ≡ path.now)) }
{
    let alloc = host.alloc();
    let source = match host.kind(path)? {
        Kind::Nothing => {
            if is_named {
                let text = b"there is no configuration ";
                messages.tell(Level::Warning, text, path, b"", b"");
            }
            return Ok(None);
        }
        Kind::Folder => {
            let names = names_in(host, kmod, path, messages)?;
            Source::Folder(Vec::from_slice(alloc, path)?, names)
        }
        Kind::File => {
            let name = Vec::from_slice(alloc, last_name(path))?;
            Source::Single(name, Vec::from_slice(alloc, path)?)
        }
    };
    Ok(Some(source))
}

/// The sources of the configuration by their rank: modules.softdep and modules.weakdep of the folder of modules, and these
/// paths, or the folders of modprobe.d.
pub(crate) fn configuration_sources<S: System, E: Write>(
    host: &Host<'_, S>,
    kmod: Kmod,
    directory: &[u8],
    paths: &[&[u8]],
    messages: &mut Messages<'_, E>,
) -> Result<Vec<Source>, AllocError>
    ensures { IfOk result (λ sources. AreSources kmod directory.now (texts_of paths.now) (sources_of sources.items)) }
{
    let mut sources = own_sources(host.alloc(), kmod, directory)?;
    for path in paths_by_rank(kmod, paths) {
        if let Some(source) = source_at(host, kmod, *path, !paths.is_empty(), messages)? {
            sources.push(source)?;
        }
    }
    Ok(sources)
}
