//! The parameters of a module, as modinfo(8) lists them.

use text_parts::Name;

/// What one value of a parameter is, by the names of the kernel's parameter types.
#[derive(Clone, Copy, Debug, PartialEq, Eq, Drop)]
pub enum Scalar {
    /// A whole number of 8 bits.
    Byte,
    /// A whole number of 16 bits with a sign.
    Short,
    /// A whole number of 16 bits.
    Ushort,
    /// A whole number of 32 bits with a sign.
    Int,
    /// A whole number of 32 bits.
    Uint,
    /// A whole number of 64 bits with a sign.
    Long,
    /// A whole number of 64 bits.
    Ulong,
    /// A whole number of 64 bits, on every machine.
    Ullong,
    /// A whole number of 32 bits, which the kernel shows in hexadecimal.
    Hexint,
    /// A truth value.
    Bool,
    /// A truth value, which the kernel keeps in an `int`.
    Bint,
    /// A truth value, which the kernel keeps turned round.
    Invbool,
}

/// What values a parameter takes.
#[derive(Clone, Copy, Debug, PartialEq, Eq, Drop)]
pub enum ParamKind {
    /// A text.
    Charp,
    /// One value.
    One(Scalar),
    /// One or more values with commas between them.
    Array(Scalar),
}

/// A parameter that a module defines.
#[derive(Drop)]
pub struct Param {
    /// Its name, in normal form.
    pub name: Name,
    /// What values it takes.
    pub kind: ParamKind,
    /// Whether it takes its value without the quotes round it, as in a text of version 3.
    pub drops_quotes: bool,
}
