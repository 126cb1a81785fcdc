//! The versions of a catalogue text.
ghost use Rattle.std.specs.Prelude.{◌≡◌};
ghost use Rattle.dep_index.specs.Catalogue.{most_modules, has_softneeds, has_end, has_kind, drops_quotes};

use crate::catalogue::params::{ParamKind, Scalar};

/// What a text may say, by its first line that says something.
#[derive(Clone, Copy, Debug, PartialEq, Eq, Drop)]
pub(crate) enum Version {
    One,
    Two,
    Three,
}

impl Version {
    /// How many modules the text may have.
    pub(crate) fn most_modules(self) -> usize
        ensures { result ≡ most_modules self }
    {
        match self {
            Version::One => 256,
            Version::Two => 1024,
            Version::Three => 65535,
        }
    }

    pub(crate) fn has_softneeds(self) -> bool
        ensures { result ≡ has_softneeds self }
    {
        match self {
            Version::One => false,
            Version::Two | Version::Three => true,
        }
    }

    /// Whether a line of the text may say that it ends there.
    pub(crate) fn has_end(self) -> bool
        ensures { result ≡ has_end self }
    {
        matches!(self, Version::Three)
    }

    /// Whether a parameter of the text may be of the kind.
    pub(crate) fn has_kind(self, kind: ParamKind) -> bool
        ensures { result ≡ has_kind self kind }
    {
        match self {
            Version::One | Version::Two => match kind {
                ParamKind::Charp | ParamKind::One(Scalar::Int | Scalar::Bool) => true,
                ParamKind::One(_) | ParamKind::Array(_) => false,
            },
            Version::Three => true,
        }
    }

    /// Whether quotes round the value of a parameter are no part of it.
    pub(crate) fn drops_quotes(self) -> bool
        ensures { result ≡ drops_quotes self }
    {
        match self {
            Version::One | Version::Two => false,
            Version::Three => true,
        }
    }
}
