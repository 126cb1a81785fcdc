//! What is found of a folder of modules.
ghost use Rattle.std.specs.Prelude.{◌≡◌, false, true, IfOk};
ghost use Rattle.modprobe_files.specs.Texts.{is_cut};
ghost use Rattle.gz_modprobe_drive.specs.Tree.{AreUncut, found_by, is_sound, is_whole};

use crate::folder::folder_texts;
use modprobe_files::{Host, Kind, LaterTexts, ModuleTexts, System, joined};
use std::alloc::AllocError;
use std::io::ErrorKind;

/// What was found of a text of a folder of modules.
#[derive(Clone, Copy)]
pub(crate) enum Found {
    Whole,
    /// It ends within a line, as one does whose writing was cut off.
    Cut,
    Missing,
    /// It is there, and could not be read: whoever tried has told of it.
    Unread,
}

/// What was found of a folder of modules: its texts without which names are not found.
#[derive(Clone, Copy)]
pub(crate) struct Tree<'a> {
    /// The folder, as it is printed.
    pub(crate) directory: &'a [u8],
    pub(crate) is_there: bool,
    pub(crate) dep: Found,
    pub(crate) alias: Found,
    pub(crate) symbols: Found,
    pub(crate) builtin: Found,
}

impl Found {
    fn is_sound(self) -> bool
        ensures { result ≡ is_sound self }
    {
        matches!(self, Found::Whole)
    }
}

fn is_cut(text: &[u8]) -> bool
    ensures { result ≡ is_cut text.now }
{
    match text.last() {
        Some(byte) => *byte != b'\n',
        None => false,
    }
}

fn found_by(text: &[u8]) -> Found
    ensures { result ≡ found_by text.now }
{
    if is_cut(text) {
        Found::Cut
    } else {
        Found::Whole
    }
}

/// What was found of a text of a folder, by what was read of it. An empty one may be missing: then that is asked.
fn found_of<S: System>(
    host: &Host<'_, S>,
    directory: &[u8],
    name: &[u8],
    text: &[u8],
) -> Result<Found, AllocError>
    ensures { IfOk result (λ found. is_sound found ≡ true → is_cut text.now ≡ false) }
{
    if !text.is_empty() {
        return Ok(found_by(text));
    }
    match host.read(&joined(host.alloc(), directory, b"/", name)?) {
        Ok(_) => Ok(found_by(text)),
        Err(error) => match error.kind() {
            ErrorKind::OutOfMemory => Err(AllocError),
            ErrorKind::NotFound | ErrorKind::NotADirectory => Ok(Found::Missing),
            _ => Ok(Found::Unread),
        },
    }
}

impl<'a> Tree<'a> {
    /// What was found of a folder of modules, by the texts that were read of it. It fails only if memory runs out.
    pub(crate) fn of<S: System>(
        host: &Host<'_, S>,
        directory: &'a [u8],
        modules: &ModuleTexts,
        later: &LaterTexts,
    ) -> Result<Tree<'a>, AllocError>
        ensures { IfOk result (λ tree. is_whole tree ≡ true → AreUncut modules.now later.now) }
    {
        let texts = folder_texts(modules, later);
        Ok(Tree {
            directory,
            is_there: matches!(host.kind(directory)?, Kind::Folder),
            dep: found_of(host, directory, b"modules.dep", texts.dep)?,
            alias: found_of(host, directory, b"modules.alias", texts.alias)?,
            symbols: found_of(host, directory, b"modules.symbols", texts.symbols)?,
            builtin: found_of(host, directory, b"modules.builtin", texts.builtin)?,
        })
    }

    /// Whether all texts are such that can be judged by.
    pub(crate) fn is_whole(&self) -> bool
        ensures { result ≡ is_whole self.now }
    {
        self.dep.is_sound()
            && self.alias.is_sound()
            && self.symbols.is_sound()
            && self.builtin.is_sound()
    }
}
