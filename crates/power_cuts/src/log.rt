//! Notes that only clauses read.
ghost use Rattle.std.specs.Prelude.{◌≡◌, [], ◌∷◌, ◌++◌};

use std::snapshot::Snapshot;

/// Values that were noted, one after another. It takes no memory: only clauses read it.
#[derive(Drop)]
pub enum Log<T> {
    Empty,
    More(Snapshot<Log<T>>, Snapshot<T>),
}

impl<T> Log<T> {
    ghost use Rattle.power_cuts.specs.Log.{noted};

    /// Nothing is noted yet.
    pub fn new() -> Self
        ensures { noted result ≡ [] }
    {
        Log::Empty
    }

    /// Notes a value.
    pub fn note(&mut self, value: &T)
        ensures { noted self.new ≡ noted self.old ++ value.now ∷ [] }
    {
        *self = Log::More(Snapshot::of(self), Snapshot::of(value));
    }
}
