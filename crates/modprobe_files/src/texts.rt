//! The texts of a machine, as they were read.
ghost use Rattle.std.specs.Prelude.{◌≡◌, IfOk};
ghost use Rattle.text_parts.specs.Text.{texts_of};
ghost use Rattle.modprobe_files.specs.Paths.{path_at, paths_of};

use kmod_version::Kmod;
use std::alloc::{AllocError, Global};

/// Where the kernel keeps its command line (proc(5)).
pub const COMMAND_LINE: &[u8] = b"/proc/cmdline";

/// A file of the configuration.
#[derive(Drop)]
pub struct TextFile {
    pub path: Vec<u8>,
    pub text: Vec<u8>,
}

/// A file of the configuration that does not count, and the one of its name that does.
#[derive(Drop)]
pub struct HiddenFile {
    pub path: Vec<u8>,
    pub by: Vec<u8>,
}

/// The texts of a configuration.
pub struct ConfTexts {
    /// The version of kmod for which they count, and that reads them.
    pub kmod: Kmod,
    /// In the order in which they count.
    pub files: Vec<TextFile>,
    pub command_line: Option<Vec<u8>>,
    /// The files that are not read, if an answer is explained.
    pub hidden: Vec<HiddenFile>,
}

// By hand, since a derived drop is written out, and proved, at each place where a value is let go.
impl Drop for ConfTexts {
    fn drop(self) {
        let ConfTexts {
            kmod: _,
            files: _,
            command_line: _,
            hidden: _,
        } = self;
    }
}

/// The texts of a folder of modules that each query may ask; one that is not there is empty.
#[derive(Drop)]
pub struct ModuleTexts {
    pub dep: Vec<u8>,
    pub builtin: Vec<u8>,
    pub builtin_modinfo: Vec<u8>,
}

/// The large texts of a folder of modules, which few queries ask. One that is not there is empty, and one that was not read
/// is None.
#[derive(Drop)]
pub struct LaterTexts {
    pub alias: Option<Vec<u8>>,
    pub symbols: Option<Vec<u8>>,
}

impl ConfTexts {
    /// The path of the source of a number: a file, or the kernel's command line behind the files.
    pub fn path(&self, source: usize) -> &[u8]
        ensures { result.now ≡ path_at self.entry.now source }
    {
        match self.files.get(source) {
            Some(file) => &file.path,
            None => COMMAND_LINE,
        }
    }

    /// The paths of the sources by their numbers: of the files, and behind them of the kernel's command line. It fails only out of
    /// memory.
    pub fn paths(&self, alloc: Global) -> Result<Vec<&[u8]>, AllocError>
        ensures { IfOk result (λ paths. texts_of paths.items ≡ paths_of self.entry.now) }
    {
        let mut paths = Vec::new(alloc);
        for file in self.files.iter() {
            paths.push(file.path.as_slice())?;
        }
        paths.push(COMMAND_LINE)?;
        Ok(paths)
    }
}
