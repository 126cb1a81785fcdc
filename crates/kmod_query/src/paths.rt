//! Paths of modules' files that are given for names.

use kmod_names::Text;

/// What stands at a path.
#[derive(Drop)]
pub enum AtPath {
    /// A file or a folder, by its path as it is printed.
    File(Text),
    /// Nothing that has a name, and why not.
    Nothing(Text),
}

/// A word that is the path of a module's file, and what stands there.
#[derive(Drop)]
pub struct PathWord {
    pub word: Text,
    pub at: AtPath,
}

/// A module, and the file that stands for the one of modules.dep.
#[derive(Clone, Copy)]
pub struct OwnFile<'a> {
    pub name: &'a [u8],
    pub file: &'a [u8],
}
