//! The versions of kmod whose answers are known.
ghost use Rattle.std.specs.Prelude.{◌≡◌};
ghost use Rattle.kmod_version.specs.Versions.{counts_dangling_links, kmod_of, knows_weakdeps, number_of, reads_alias_files, reads_end_as_byte, reads_usr_lib, takes_paths};

use text_parts::is_same;

/// A version of kmod.
#[derive(Clone, Copy)]
pub enum Kmod {
    /// kmod 30, of 2022.
    Version30,
    /// kmod 34, of 2025.
    Version34,
}

impl Kmod {
    /// The version of a number as `modprobe --version` shows it, `30` or `34`; None if it is another text.
    pub fn of(number: &[u8]) -> Option<Kmod>
        ensures { result ≡ kmod_of number.now }
    {
        if is_same(number, b"30") {
            Some(Kmod::Version30)
        } else if is_same(number, b"34") {
            Some(Kmod::Version34)
        } else {
            None
        }
    }

    fn number(self) -> u8
        ensures { result ≡ number_of self }
    {
        match self {
            Kmod::Version30 => 30,
            Kmod::Version34 => 34,
        }
    }

    /// Whether a line `weakdep NAME MODULES` says something, and modules.weakdep is a file of the configuration.
    pub fn knows_weakdeps(self) -> bool
        ensures { result ≡ knows_weakdeps self }
    {
        self.number() >= 33
    }

    /// Whether files of the configuration whose names end in `.alias` are read.
    pub fn reads_alias_files(self) -> bool
        ensures { result ≡ reads_alias_files self }
    {
        self.number() < 33
    }

    /// Whether /usr/lib/modprobe.d is a folder of the configuration.
    pub fn reads_usr_lib(self) -> bool
        ensures { result ≡ reads_usr_lib self }
    {
        self.number() >= 32
    }

    /// Whether a symbolic link of a folder of the configuration counts as a file even if it leads to nothing: it then hides
    /// files of its name in later folders.
    pub fn counts_dangling_links(self) -> bool
        ensures { result ≡ counts_dangling_links self }
    {
        self.number() <= 33
    }

    /// Whether a backslash that ends a text of the configuration stands for the byte 255. Else it says nothing.
    pub fn reads_end_as_byte(self) -> bool
        ensures { result ≡ reads_end_as_byte self }
    {
        self.number() < 34
    }

    /// Whether a name may be the path of a module's file.
    pub fn takes_paths(self) -> bool
        ensures { result ≡ takes_paths self }
    {
        self.number() >= 31
    }
}
