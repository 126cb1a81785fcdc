//! Notes that only clauses read.
ghost use Rattle.std.specs.Prelude.{◌≡◌, [], ◌∷◌};
ghost use Rattle.hold_machine.specs.Log.{newest_first};

use std::snapshot::Snapshot;

/// Values that were noted, one after another. It takes no memory: only clauses read it.
#[derive(Drop)]
pub enum Log<T> {
    Empty,
    More(Snapshot<Log<T>>, Snapshot<T>),
}

impl<T> Log<T> {
    /// Nothing is noted yet.
    pub fn new() -> Self
        ensures { newest_first result ≡ [] }
    {
        Log::Empty
    }

    /// Notes a value.
    pub fn note(&mut self, value: &T)
        ensures { newest_first self.new ≡ value.now ∷ newest_first self.old }
    {
        *self = Log::More(Snapshot::of(self), Snapshot::of(value));
    }
}

/// The values of a slice as clauses see them. They are noted from the last on.
pub(crate) fn noted<T>(values: &[T]) -> Log<T>
    ensures { newest_first result ≡ values.now }
{
    let mut log = Log::new();
    let mut left = values;
    while let Some((last, earlier)) = left.split_last() {
        log.note(last);
        left = earlier;
    }
    log
}
