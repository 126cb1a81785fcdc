//! Why words ask for no work.

use crate::options::Valued;

/// Why words are refused.
#[derive(Clone, Copy, Debug)]
pub enum Fault<'a> {
    /// A word that begins with `-` is no option here.
    UnknownOption(&'a [u8]),
    /// An option stands last, and its value is missing.
    WantsValue(Valued),
    /// The seconds are no number, or too many.
    BadWait(&'a [u8]),
    /// The mode is not three octal digits.
    BadMode(&'a [u8]),
    /// Neither a word nor the environment names a folder.
    NoFolder,
    /// `adopt` names no file.
    NoFile,
    /// A word stands behind a command that takes none.
    ExtraWord(&'a [u8]),
    /// `create` names neither a machine nor sections.
    NothingToCreate,
    /// A release or a root is named without a machine.
    WantsHost,
    /// A word is empty, or has a blank or a line's end.
    BadWord(&'a [u8]),
    /// A word that begins with `-` stands in the place of a holder.
    BadHolder(&'a [u8]),
}

/// Why no work is asked.
#[derive(Clone, Copy, Debug)]
pub enum Stop<'a> {
    Help,
    Version,
    Refused(Fault<'a>),
}
