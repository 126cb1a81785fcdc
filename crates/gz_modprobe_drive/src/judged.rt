//! How a lint ends, and what leads to names: what is missing is told, and decides the status.
ghost use Rattle.std.specs.Prelude.{◌≡◌, IfOk};
ghost use Rattle.modprobe_words.specs.Begun.{IsBegun};
ghost use Rattle.gz_modprobe_drive.specs.Judged.{shown_notices, status_by, status_of};

use crate::listing::names_of;
use crate::notices::notices;
use crate::tree::Tree;
use modprobe_files::{Host, Kind, System, joined};
use modprobe_words::{Level, Messages, write_whole};
use std::alloc::{AllocError, Global};
use std::io::Write;

/// The status if not all could be judged.
const UNJUDGED: u8 = 2;

/// The least verbosity at which notices are shown.
const NOTICES: u64 = 4;

/// The status, by whether all was read that is needed, whether anything is noted, and whether all was checked that lines set.
fn status_by(is_judged: bool, is_noted: bool, is_checked: bool) -> u8
    ensures { result ≡ status_by is_judged is_noted is_checked }
{
    if !is_judged {
        UNJUDGED
    } else if is_noted {
        1
    } else if is_checked {
        0
    } else {
        UNJUDGED
    }
}

fn shown_notices(alloc: Global, verbosity: u64, tree: &Tree<'_>) -> Result<Vec<u8>, AllocError>
    ensures { IfOk result (λ lines. lines.items ≡ shown_notices verbosity tree.now) }
{
    if verbosity >= NOTICES {
        notices(alloc, tree)
    } else {
        Ok(Vec::new(alloc))
    }
}

/// Decides the status, and tells of each text of a folder of modules that is missing or damaged, and so has it be 2.
/// `is_read` says whether all else was read, `is_noted` whether anything is noted, and `unchecked` of how many lines it could
/// not be checked what they set. It fails only if memory runs out.
fn decide<E: Write>(
    alloc: Global,
    tree: &Tree<'_>,
    is_read: bool,
    is_noted: bool,
    unchecked: usize,
    verbosity: u64,
    errors: &mut E,
) -> Result<u8, AllocError>
    ensures status { IfOk result (λ status. status ≡ status_of tree.now is_read is_noted unchecked) }
    ensures told { IfOk result (λ status. IsBegun (E.contents errors.old) (E.contents errors.new) (shown_notices verbosity tree.now)) }
{
    let lines = shown_notices(alloc, verbosity, tree)?;
    let _ = write_whole(errors, &lines);
    let is_judged = tree.is_whole() && is_read;
    Ok(status_by(is_judged, is_noted, unchecked == 0))
}

/// What stands before the last slash.
fn folder_of(path: &[u8]) -> &[u8] {
    match path.iter().rposition(|byte| *byte == b'/') {
        Some(place) => &path[..place],
        None => path,
    }
}

fn tell_releases<S: System, E: Write>(
    host: &Host<'_, S>,
    folder: &[u8],
    messages: &mut Messages<'_, E>,
) -> Result<(), AllocError> {
    let alloc = host.alloc();
    let mut text = Vec::new(alloc);
    let names = names_of(host, folder)?;
    for name in names.as_deref().unwrap_or(&[]) {
        if matches!(
            host.kind(&joined(alloc, folder, b"/", name)?)?,
            Kind::Folder
        ) {
            text.push(b' ')?;
            text.extend_from_slice(name)?;
        }
    }
    if !text.is_empty() {
        messages.tell(Level::Notice, folder, b" has", &text, b"");
    }
    Ok(())
}

/// Decides the status of a lint, or of what leads to names, and tells what is missing of a folder of modules. It fails only if
/// memory runs out.
pub(crate) fn judge<S: System, E: Write>(
    host: &Host<'_, S>,
    tree: &Tree<'_>,
    is_read: bool,
    is_noted: bool,
    unchecked: usize,
    messages: &mut Messages<'_, E>,
) -> Result<u8, AllocError>
    ensures { IfOk result (λ status. status ≡ status_of tree.now is_read is_noted unchecked) }
{
    let verbosity = messages.verbosity;
    let status = decide(
        host.alloc(),
        tree,
        is_read,
        is_noted,
        unchecked,
        verbosity,
        messages.errors,
    )?;
    if !tree.is_there {
        tell_releases(host, folder_of(tree.directory), messages)?;
    }
    Ok(status)
}
