//! What each program that reads a catalogue tells people of its faults, C1 to C4 of gourzhiel.7.

/// C1.
pub const NO_LINE: &str = "A line has no form of a catalogue line, or stands where it may not.";

/// C2.
pub const SECOND_MODULE: &str = "A module of this name stands already.";

/// C3.
pub const SECOND_EXPORT: &str = "A symbol is exported already, by this module or another one.";

/// C4.
pub const TOO_MANY: &str = "There is one module more than the limit of 256, 1,024 or 65,535.";
