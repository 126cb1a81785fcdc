//! Who is told what happens while an input is read and answered.

use crate::refusal::Refusal;
use crate::section::{Section, Texts};
use crate::setup::Setup;
use seq_table::Modules;

/// Is told what happens while an input is read and answered, and has no part in it. A call that an `impl` leaves out does
/// nothing.
pub trait Watch {
    /// The next line of the input was read, section lines included.
    fn line(&mut self) {}

    /// The line that was read last begins a section.
    fn section(&mut self, _section: Section) {}

    /// A fault ended the reading, with this line in hand, or the part of it that was read.
    fn stop(&mut self, _line: &[u8]) {}

    /// These are the texts of the sections, as far as they were read, also if that ended with a fault.
    fn texts(&mut self, _texts: Texts) {}

    /// This is the setup that the texts make.
    fn setup(&mut self, _setup: &Setup) {}

    /// The line that was read last is refused, and its reply was written.
    fn refusal<M: Modules>(&mut self, _refused: &Refused<'_, M>) {}
}

/// A line of a session that is refused.
#[derive(Clone, Copy, Drop)]
pub struct Refused<'a, M> {
    pub setup: &'a Setup,
    /// The table after it.
    pub table: &'a M,
    pub line: &'a [u8],
    pub refusal: Refusal<'a>,
}
