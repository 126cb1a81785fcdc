//! The states of modules, as /sys/module has them (sysfs(5)).
ghost use Rattle.std.specs.Prelude.{◌≡◌, ◌≤◌, length};
ghost use Rattle.std.specs.List.{prefix_len};
ghost use Rattle.text_parts.specs.Text.{is_digit};
ghost use Rattle.modprobe_words.specs.Asked.{text_of};
ghost use Rattle.gz_modprobe_drive.specs.Sys.{begins_with_space, count_of, number_of, state_of, status_by};

use kmod_query::{ModuleState, ModuleStatus, States};
use modprobe_files::{Host, Kind, MODULES, System, joined, tell_unread};
use modprobe_words::{Messages, behind_spaces, is_digit, is_space};
use std::alloc::AllocError;
use std::io::{ErrorKind, Write};
use text_parts::{is_same, number_within};

/// The state that a text of `initstate` tells.
fn state_of(text: &[u8]) -> ModuleState
    ensures { result ≡ state_of text.now }
{
    if is_same(text, b"live\n") {
        ModuleState::Live
    } else if is_same(text, b"coming\n") {
        ModuleState::Coming
    } else if is_same(text, b"going\n") {
        ModuleState::Going
    } else {
        ModuleState::Other
    }
}

fn digit_count(text: &[u8]) -> usize
    ensures value { result ≡ prefix_len is_digit text.now }
    ensures within { result ≤ length text.now }
{
    text.iter().take_while(|byte| is_digit(**byte)).count()
}

fn begins_with_space(text: &[u8]) -> bool
    ensures { result ≡ begins_with_space text.now }
{
    matches!(text.first(), Some(byte) if is_space(*byte))
}

/// The number that one to ten digits at the beginning are, if white space follows them.
fn number_of(text: &[u8]) -> Option<u64>
    ensures { result ≡ number_of text.now }
{
    let count = digit_count(text);
    if begins_with_space(&text[count..]) {
        number_within(u64::MAX, &text[..count])
    } else {
        None
    }
}

/// The number that a text of `refcnt` tells: one to ten digits, enough for the kernel's `int`, and white space after them.
fn count_of(text: &[u8]) -> Option<u64>
    ensures { result ≡ count_of text.now }
{
    number_of(behind_spaces(text))
}

/// All bytes of a file; None if it cannot be read.
pub(crate) fn bytes_at<S: System>(
    host: &Host<'_, S>,
    path: &[u8],
) -> Result<Option<Vec<u8>>, AllocError> {
    match host.read(path) {
        Ok(bytes) => Ok(Some(bytes)),
        Err(error) if error.kind() == ErrorKind::OutOfMemory => Err(AllocError),
        Err(_) => Ok(None),
    }
}

/// The text of a file of a module's folder; None if it has none that can be read.
pub(crate) fn text_in<S: System>(
    host: &Host<'_, S>,
    folder: &[u8],
    name: &[u8],
) -> Result<Option<Vec<u8>>, AllocError> {
    bytes_at(host, &joined(host.alloc(), folder, b"/", name)?)
}

/// What a module tells by its `initstate`, its folder and its `refcnt`; None if it tells nothing. Without `initstate` it
/// is its folder that tells.
fn status_by(initstate: Option<&[u8]>, folder: Kind, refcnt: Option<&[u8]>) -> Option<ModuleStatus>
    ensures { result ≡ status_by (text_of initstate.entry) folder (text_of refcnt.entry) }
{
    let state = match (initstate, folder) {
        (Some(text), _) => state_of(text),
        (None, Kind::Folder) => ModuleState::Folder,
        (None, _) => return None,
    };
    let users = match refcnt {
        Some(text) => count_of(text),
        None => None,
    };
    Some(ModuleStatus { state, users })
}

fn status_of<S: System>(
    host: &Host<'_, S>,
    folder: &[u8],
) -> Result<Option<ModuleStatus>, AllocError> {
    let initstate = text_in(host, folder, b"initstate")?;
    let refcnt = text_in(host, folder, b"refcnt")?;
    let kind = match initstate {
        Some(_) => Kind::Folder,
        None => host.kind(folder)?,
    };
    Ok(status_by(initstate.as_deref(), kind, refcnt.as_deref()))
}

/// What `initstate` alone tells of a module; None if it has none. One without it is not live, whatever its folder is.
fn state_alone<S: System>(
    host: &Host<'_, S>,
    folder: &[u8],
) -> Result<Option<ModuleStatus>, AllocError> {
    let initstate = text_in(host, folder, b"initstate")?;
    Ok(status_by(initstate.as_deref(), Kind::Nothing, None))
}

/// The names in /sys/module. One that is not there has none; one that cannot be read is reported.
fn module_names<S: System, E: Write>(
    host: &Host<'_, S>,
    messages: &mut Messages<'_, E>,
) -> Result<Vec<Vec<u8>>, AllocError> {
    match host.names(MODULES) {
        Ok(names) => Ok(names),
        Err(error) if error.kind() == ErrorKind::NotFound => Ok(Vec::new(host.alloc())),
        Err(error) => {
            tell_unread(MODULES, &error, messages)?;
            Ok(Vec::new(host.alloc()))
        }
    }
}

/// Adds the state of a module, if it has one: with its users if they are asked for, or else what `initstate` alone tells.
fn add_state<S: System>(
    host: &Host<'_, S>,
    name: &[u8],
    asks_users: bool,
    states: &mut States,
) -> Result<(), AllocError> {
    let alloc = host.alloc();
    let folder = joined(alloc, MODULES, b"/", name)?;
    let status = if asks_users {
        status_of(host, &folder)?
    } else {
        state_alone(host, &folder)?
    };
    match status {
        Some(status) => states.set(alloc, name, status),
        None => Ok(()),
    }
}

/// Adds the states of all modules that /sys/module has: with their users if they are asked for, or else what `initstate`
/// alone tells, which says which modules are live.
pub(crate) fn add_states<S: System, E: Write>(
    host: &Host<'_, S>,
    asks_users: bool,
    states: &mut States,
    messages: &mut Messages<'_, E>,
) -> Result<(), AllocError> {
    for name in &module_names(host, messages)? {
        add_state(host, name, asks_users, states)?;
    }
    Ok(())
}
