//! What is asked of a machine's files.
ghost use Rattle.std.specs.Prelude.{◌≡◌, Bool, Option, Some, IfOk};
ghost use Rattle.modprobe_words.specs.Variable.{bytes_of};
ghost use Rattle.modprobe_files.specs.Rooted.{Entries, IsInside};
ghost use Rattle.modprobe_files.specs.Places.{IsAllowed, entry_of};

use std::alloc::Global;
use std::io;

/// What a name of a folder leads to.
#[derive(Drop)]
pub enum Entry {
    Nothing,
    Folder,
    /// A symbolic link, with its text.
    Link(Vec<u8>),
    /// Another file.
    File,
}

/// What a path leads to.
#[derive(Clone, Copy)]
pub enum Kind {
    Nothing,
    Folder,
    File,
}

/// Where a file is.
#[derive(Drop)]
pub enum Place {
    /// A path as it was given, on a machine without a root of its own.
    AsGiven(Vec<u8>),
    /// The names that lead to it from the root on.
    Below(Vec<Vec<u8>>),
}

/// The files of a machine, or those below a root: what is opened, listed and looked at. With a root each place lies within
/// it, and no link leads to it.
pub trait System {
    /// Whether there is a root that no path may leave.
    ghost is_rooted: { Self → Bool };

    /// What stands at each place below the root; None if that is not told.
    ghost entries: { Self → Option Entries };

    /// Where its texts and names have their memory.
    fn alloc(&self) -> Global;

    /// Whether there is a root that no path may leave.
    fn is_rooted(&self) -> bool
        ensures { result ≡ is_rooted self.now };

    /// What stands at a place, without following it.
    fn entry(&self, place: &[Vec<u8>]) -> io::Result<Entry>
        requires { IsInside (entries self.now) (bytes_of place.now) }
        ensures { IfOk result (λ entry. (known : Entries) → entries self.now ≡ Some known → entry_of entry ≡ known (bytes_of place.now)) };

    /// All bytes of a file.
    fn read(&self, place: &Place) -> io::Result<Vec<u8>>
        requires { IsAllowed (is_rooted self.now) (entries self.now) place.now };

    /// What a place leads to.
    fn kind(&self, place: &Place) -> io::Result<Kind>
        requires { IsAllowed (is_rooted self.now) (entries self.now) place.now };

    /// The names of a folder, in any order, without `.` and `..`.
    fn names(&self, place: &Place) -> io::Result<Vec<Vec<u8>>>
        requires { IsAllowed (is_rooted self.now) (entries self.now) place.now };

    /// The current folder, if there is no root.
    fn current_folder(&self) -> io::Result<Vec<u8>>;
}
