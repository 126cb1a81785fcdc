//! The releases of a machine whose modules are there.
ghost use Rattle.std.specs.Prelude.{◌≡◌, IfOk, option_map};
ghost use Rattle.modprobe_words.specs.Variable.{bytes_of};
ghost use Rattle.modprobe_files.specs.Releases.{listed, only_one};

use crate::host::{Host, joined};
use crate::system::{Kind, System};
use modprobe_words::{Level, Messages};
use std::alloc::{AllocError, Global};
use std::io::{ErrorKind, Write};

/// The one release that is there, if it is the only one.
fn only_one(releases: &[Vec<u8>]) -> Option<&[u8]>
    ensures { option_map (λ release. release.now) result ≡ only_one (bytes_of releases.entry.now) }
{
    match releases.split_first() {
        Some((release, others)) if others.is_empty() => Some(release.as_slice()),
        _ => None,
    }
}

/// Releases as one text, a blank before each.
fn listed(alloc: Global, releases: &[Vec<u8>]) -> Result<Vec<u8>, AllocError>
    ensures { IfOk result (λ text. text.items ≡ listed (bytes_of releases.now)) }
{
    let mut text = Vec::new(alloc);
    for release in releases {
        text.push(b' ')?;
        text.extend_from_slice(release)?;
    }
    Ok(text)
}

/// The folders within the folder of releases, in the order of their names' bytes. One that cannot be listed has none.
fn releases<S: System>(host: &Host<'_, S>, folder: &[u8]) -> Result<Vec<Vec<u8>>, AllocError> {
    let names = match host.names(folder) {
        Ok(names) => names,
        Err(error) if error.kind() == ErrorKind::OutOfMemory => return Err(AllocError),
        Err(_) => Vec::new(host.alloc()),
    };
    let mut releases = Vec::new(host.alloc());
    for name in names.into_iter() {
        let own = joined(host.alloc(), folder, b"/", &name)?;
        if matches!(host.kind(&own)?, Kind::Folder) {
            releases.push(name)?;
        }
    }
    releases.sort_unstable();
    Ok(releases)
}

/// The one release of the folder of releases. If there are more or none, it returns None and reports them.
pub(crate) fn release_there<S: System, E: Write>(
    host: &Host<'_, S>,
    folder: &[u8],
    messages: &mut Messages<'_, E>,
) -> Result<Option<Vec<u8>>, AllocError> {
    let releases = releases(host, folder)?;
    if let Some(release) = only_one(&releases) {
        return Ok(Some(Vec::from_slice(host.alloc(), release)?));
    }
    let text = listed(host.alloc(), &releases)?;
    if !text.is_empty() {
        messages.tell_always(Level::Error, folder, b" has", &text, b"");
    }
    Ok(None)
}

/// Tells the releases of the folder of releases, if it has some.
pub(crate) fn tell_releases<S: System, E: Write>(
    host: &Host<'_, S>,
    folder: &[u8],
    messages: &mut Messages<'_, E>,
) -> Result<(), AllocError> {
    let text = listed(host.alloc(), &releases(host, folder)?)?;
    if !text.is_empty() {
        messages.tell(Level::Notice, folder, b" has", &text, b"");
    }
    Ok(())
}
