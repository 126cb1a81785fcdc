//! What an explanation is told of files and devices.

use answer_facts::Unread;
use bumpalo::Bump;
use kmod_query::Holders;
use modprobe_files::{HiddenFile, TextFile};

/// A file beside the configuration that is not read.
#[derive(Drop)]
pub struct UnreadFile {
    pub path: Vec<u8>,
    pub reason: Unread,
}

/// A device: its folder, and the alias that asks for its driver.
#[derive(Drop)]
pub struct Device {
    pub folder: Vec<u8>,
    pub alias: Vec<u8>,
}

/// Where a world was read from, and what else is told of.
#[derive(Clone, Copy)]
pub struct Sources<'a> {
    /// The paths of the texts of the configuration, by the numbers that places of its lines have.
    pub paths: &'a [&'a [u8]],
    /// The files of the configuration.
    pub files: &'a [TextFile],
    /// The text of the kernel's command line; empty if there is none.
    pub command_line: &'a [u8],
    /// The files of the configuration that others of their names keep from being read, in the order in which they are told.
    pub hidden: &'a [HiddenFile],
    /// The files beside the configuration that are not read, in the order in which they are told.
    pub unread: &'a [UnreadFile],
    /// Who holds modules.
    pub holders: &'a [Holders],
    /// Whether a removal is answered as it is made, and not as a dry run shows it.
    pub whole: bool,
    /// The text of modules.builtin, whose lines the index does not number.
    pub builtin: &'a [u8],
    /// The devices that may ask for modules, if it is told what leads to these.
    pub devices: &'a [Device],
    /// Where texts stay that are made for what is told.
    pub texts: &'a Bump,
}

impl<'a> Sources<'a> {
    /// The path of a text of the configuration; empty if none has this number.
    pub(crate) fn path(&self, number: usize) -> &'a [u8] {
        self.paths.get(number).copied().unwrap_or(b"")
    }
}
