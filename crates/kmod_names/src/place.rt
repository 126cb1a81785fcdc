//! Where something was read.

/// The place of a line: which source of a list of sources it is in, from 0, and the number of its first line, or of a
/// bad line its last, from 1.
#[derive(Clone, Copy, PartialEq)]
pub struct Place {
    pub source: usize,
    pub line: usize,
}
